// A test of two texts that are linted one after the other in an arena that doesn't grow.
use super::super::fixed;
use super::super::reports::reported;
use crate::lint_two;

const FIRST: &[u8] = b"let a = b;";

const SECOND: &[u8] = b"a; let a = 1; let a = 2;";

// An arena with 4096 bytes for each byte of the longer text, and 4096 more.
#[test]
fn two_texts_on_one_arena(rt: HostRuntime) {
    let mut a = fixed(&rt, 102_400);
    assert!(rt; !a.is_growing() && a.used_bytes() == 0 && a.capacity() >= 4096 * 25);
    assert!(rt; FIRST.len() == 10 && SECOND.len() == 24);
    let (one, two) = lint_two(rt.alloc(), &mut a, FIRST, SECOND);
    reported(&rt, &one, "source 0\nundefined b\n");
    reported(&rt, &two, "source 0\nundefined a\nredefined a\n");
}
