// Tests of inputs with a line that isn't a call.
use crate::tests::{asks, ends_so};
use std::test::Fail;

// An input, and the number of its first refused line.
const REFUSED: &[(&str, u64)] = &[
    ("used\nfree 1", 2),
    ("\n\nused\n\nfree 1\nfree 2\n", 5),
    ("usedx", 1),
    ("used\r\n", 1),
    (" used", 1),
    ("used ", 1),
    ("read  1", 1),
    ("read", 1),
    ("read 01", 1),
    ("read 1 2", 1),
    ("read 4294967296", 1),
    ("alloc 1 18446744073709551616 1 0", 1),
    ("alloc 1 1 1 256", 1),
    ("grow 1 1 1", 1),
    ("shrink 1 1 1 1", 1),
    ("reset 1", 1),
    ("mark", 1),
    ("write 1 0 ", 1),
    ("write 1 0 A0", 1),
    ("write 1 0 abc", 1),
    ("write 1 0 ab-", 1),
];

// The first refused line is reported, and nothing is written.
#[test]
fn refused_lines(rt: HostRuntime) -> Result<(), Fail> {
    for (input, n) in REFUSED {
        let asked = asks(&["calls"], input.as_bytes());
        ends_so(&rt, &asked, (2, *n, b""), input)?;
    }
    Ok(())
}
