// Tests of calls that are generated from a number, of their summaries, and of words that are no valid request.
ghost use Rattle.std.specs.Prelude.{◌≡◌};
ghost use Rattle.call_rules.specs.Generator.{drawn};

use crate::tests::{Asked, CALLS, ends_so, holds};
use arena_calls::{Draws, parse_calls};
use std::test::Fail;

// A start, a number of calls, and the lines of the first calls of this start.
const FIRST: &[(u64, usize, &str)] = &[
    (0, 0, ""),
    (
        0,
        8,
        "read 183\nalloc 225 17 1 179\nshrink 174 109 8\ngrow 243 440 4 4\nread 120\n\
         alloc 188 155 4 151\nread 41\nalloc 218 262 1 157\n",
    ),
    (
        1,
        8,
        "write 250 345 21\nshrink 25 230 1\nalloc 107 243 2 12\nalloc 83 246 8 250\n\
         alloc 165 442 4 103\ngrow 63 242 1 59\nshrink 175 288 2\nalloc 151 12 1 215\n",
    ),
    (
        18_446_744_073_709_551_615,
        12,
        "alloc 117 183 1 74\ndealloc 234\nalloc 0 384 1 65\ngrow 200 213 2 147\nread 210\n\
         alloc 211 380 2 198\ngrow 20 178 4 153\nalloc 146 346 2 63\nwrite 181 48 a1\n\
         alloc 175 4 16 162\nalloc 204 18 4 245\nalloc 158 220 1 50\n",
    ),
];

// The first draw of start 0, which makes the call `read 183`.
fn first_draw_of_0()
    ensures { drawn 0 ≡ 167951807 }
{}

#[test]
fn first_calls_of_a_start(rt: HostRuntime) -> Result<(), Fail> {
    first_draw_of_0();
    let alloc = rt.alloc();
    for (start, count, lines) in FIRST {
        let mut draws = Draws::new(alloc, *start);
        let given = parse_calls(alloc, lines.as_bytes())?;
        holds(&rt, given.len() == *count, lines);
        for (i, wanted) in given.iter().enumerate() {
            holds(&rt, draws.call(i) == *wanted, lines);
        }
    }
    Ok(())
}

// The words, and the eight lines of the summary.
const ROWS: &[(&[&str], &str)] = &[
    (
        &["gen", "0", "0"],
        "calls 0\nplaced 0\nfailed 0\nother 0\nbytes 0\nsum 0\nused 0\nallocated 0\n",
    ),
    (
        &["gen", "0", "1"],
        "calls 1\nplaced 0\nfailed 0\nother 1\nbytes 0\nsum 0\nused 0\nallocated 0\n",
    ),
    (
        &["gen", "18446744073709551615", "300"],
        "calls 300\nplaced 98\nfailed 0\nother 190\nbytes 2281\nsum 285319\nused 25268\n\
         allocated 49024\n",
    ),
    // the last call but one of a turn, and the last, a reset
    (
        &["gen", "1", "65535"],
        "calls 65535\nplaced 12276\nfailed 0\nother 38026\nbytes 1572101\nsum 198634159\n\
         used 2761752\nallocated 4177408\n",
    ),
    (
        &["gen", "1", "65536"],
        "calls 65536\nplaced 12276\nfailed 0\nother 38026\nbytes 1572101\nsum 198634159\n\
         used 0\nallocated 2097088\n",
    ),
];

// The input isn't read: its first read would fail.
#[test]
fn summaries_that_the_rules_give(rt: HostRuntime) -> Result<(), Fail> {
    for (words, lines) in ROWS {
        let asked = Asked {
            words,
            reads: &[1],
            ..CALLS
        };
        ends_so(&rt, &asked, (0, 0, lines.as_bytes()), lines)?;
    }
    Ok(())
}

// Words that are no valid request.
const OTHERS: &[&[&str]] = &[
    &["call"],
    &["calls", "1", "1"],
    &["gen", "1"],
    &["gen", "1", "2", "3"],
    &["gen", "01", "1"],
    &["gen", "18446744073709551616", "1"],
    &["gen", "1", "1000001"],
];

#[test]
fn other_words_are_usage(rt: HostRuntime) -> Result<(), Fail> {
    for words in OTHERS {
        let asked = Asked {
            words,
            text: b"used",
            reads: &[1],
            ..CALLS
        };
        ends_so(&rt, &asked, (1, 0, b""), "")?;
    }
    Ok(())
}
