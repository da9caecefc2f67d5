// Tests of texts that are cut before a line `script`.
use crate::tests::holds;
use script_lines::{LinesErr, cut_place, join_parts, parse_scripts};
use script_rules::Script;
use std::alloc::Global;
use std::test::Fail;

// A text, and the first place where it can be cut.
const PLACES: &[(&str, Option<usize>)] = &[
    ("script\npop 1\nscript\npop 2\nscript\n", Some(12)),
    ("pop 1\n\nscript\n", Some(6)),
    ("\nscript\n", Some(0)),
    (
        "script\nscripts\nscript 1\n script\nxscript\nscript\r\n",
        None,
    ),
    ("script\nscript", None),
    ("script\n", None),
    ("", None),
];

#[test]
fn first_places(rt: HostRuntime) -> Result<(), Fail> {
    for (text, place) in PLACES {
        let found = cut_place(text.as_bytes(), 0);
        holds(&rt, found == *place, text);
    }
    Ok(())
}

// Reads both parts of a text that is cut at the first place.
fn read_in_two(alloc: Global, bytes: &[u8]) -> Result<Vec<Script>, LinesErr> {
    let Some(at) = cut_place(bytes, 0) else {
        return parse_scripts(alloc, bytes);
    };
    let first = parse_scripts(alloc, &bytes[..at]);
    let rest = parse_scripts(alloc, &bytes[at + 1..]);
    join_parts(bytes, at, first, rest)
}

// A text with a refused line in the first part, in the second, or in both, and its number.
const REFUSED: &[(&str, u64)] = &[
    ("pop 1\nscript\npop 2\n", 1),
    ("script\npops 1\nscript\npop 2\n", 2),
    ("script\npop 1\nscript\npops 2\n", 4),
    ("script\n\npop 1\n\nscript\n\npop 2\npops 2", 8),
    ("\n\nscript\npop 2\npops", 5),
    ("script\npop 1\npops 1\nscript\npops 2\n", 3),
];

#[test]
fn refused_lines_of_two_parts(rt: HostRuntime) -> Result<(), Fail> {
    for (text, number) in REFUSED {
        let found = read_in_two(rt.alloc(), text.as_bytes());
        let is_named = matches!(found, Err(LinesErr::BadLine(n)) if n == *number);
        holds(&rt, is_named, text);
    }
    Ok(())
}
