// A test of one program, all its prefixes, and all texts that differ from it in one byte: each result is that of the
// plain parser, which follows the grammar's rules.
use super::super::{Rt, same_at};
use super::plain::plain;
use std::rt::HostRuntime;
use tree_reader::refusal;

const PROGRAM: [u8; 200] = *b"let total = 1 + 2 * 3 - -y;\n{ let a_1 = (total - 40) * -(b + 7);\n  \
    a_1 * 18446744073709551615 - 0; {}\n  { --(c); let let1 = _ + 9 * (a_1 - -2) * x; }\n}\n\
    lets; (((total))); 12345678901 - y * z + 6789;\n\n";

fn judged_alike(rt: &impl Rt, at: (usize, u8), src: &[u8]) {
    same_at(rt, at, refusal(src), plain(rt, src).err());
}

#[test]
fn prefixes(rt: HostRuntime) {
    for end in 0..=200 {
        judged_alike(&rt, (end, 0), &PROGRAM[..end]);
    }
}

fn each_change(rt: &impl Rt, src: &mut [u8; 200]) {
    for i in 0..200 {
        let kept = src[i];
        for other in 0..=255 {
            src[i] = other;
            judged_alike(rt, (i, other), src.as_slice());
        }
        src[i] = kept;
    }
}

#[test]
fn changed_bytes(rt: HostRuntime) {
    let mut src = PROGRAM;
    each_change(&rt, &mut src);
}
