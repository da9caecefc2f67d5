// Tests of inputs with a line that isn't one of scripts, and of the text of outcomes.
use crate::tests::holds;
use script_lines::{LinesErr, parse_scripts, put_outcomes};
use script_rules::{Ended, Outcome, Replies, ScriptReply};
use std::test::Fail;

// A text, and the number of its first refused line.
const REFUSED: &[(&str, u64)] = &[
    ("\n\npop 1\nscript\n", 3),
    ("script 1", 1),
    ("scripts", 1),
    ("script\r\n", 1),
    ("script\nalloc 1", 2),
    ("script\nPop 1", 2),
    ("script\npop 1\n\npops 1\npops 2", 4),
    ("script\npop", 2),
    ("script\npop 1 ", 2),
    ("script\npop 01", 2),
    ("script\npop 1 2", 2),
    ("script\npop 4294967296", 2),
    ("script\nstore 1 18446744073709551616", 2),
    ("script\nbyte 1 256", 2),
    ("script\nappend 1 ", 2),
    ("script\nappend 1 6A", 2),
];

#[test]
fn refused_lines(rt: HostRuntime) -> Result<(), Fail> {
    for (text, number) in REFUSED {
        let found = parse_scripts(rt.alloc(), text.as_bytes());
        let is_named = matches!(found, Err(LinesErr::BadLine(n)) if n == *number);
        holds(&rt, is_named, text);
    }
    Ok(())
}

const OUTCOME: &str = "script 0\ncapacity overflow\nended out of memory\n";

// A reply and an end that no other test has. The text doesn't contain the bytes that were used.
#[test]
fn an_overflow_and_want_of_memory(rt: HostRuntime) -> Result<(), Fail> {
    let alloc = rt.alloc();
    let replies = vec![in alloc; ScriptReply::CapacityOverflow]?;
    let outcome = Outcome {
        replies: Replies::from_vec(replies),
        ended: Ended::OutOfMemory,
        used: 7,
    };
    let outcomes = vec![in alloc; outcome]?;
    let mut text = Vec::new(alloc);
    put_outcomes(&mut text, outcomes.as_slice())?;
    holds(&rt, text.as_slice() == OUTCOME.as_bytes(), OUTCOME);
    Ok(())
}
