// Worked examples of interners and of scoped tables.
use super::kept::{Nest, Texts};
use crate::tests::{ample, same_at};
use arena_chunks::MemoryChunks;
use std::process::Abort;

// A text, and its number.
const INTERNED: &[(&str, u32)] = &[("a", 0), ("b", 1), ("a", 0), ("", 2)];

#[test]
fn texts_and_numbers(rt: HostRuntime) {
    let mut texts = Texts::new(ample(rt.alloc()));
    for (text, number) in INTERNED {
        same_at(&rt, *text, texts.intern(text), Ok(*number));
    }
    same_at(&rt, "", texts.len(), 3);
    same_at(&rt, "b", texts.text(1), Some("b"));
    same_at(&rt, "c", texts.find("c"), None);
}

// A call on a scoped table, with its expected result.
enum Call {
    Define(u32, u32, bool),
    Enter,
    Leave(bool),
    Lookup(u32, Option<u32>),
    InLast(u32, bool),
}

const CALLS: &[Call] = &[
    Call::Define(7, 1, true),
    Call::Enter,
    Call::Define(7, 2, true),
    Call::Define(7, 3, false),
    Call::Lookup(7, Some(2)),
    Call::Leave(true),
    Call::Lookup(7, Some(1)),
    Call::Leave(false),
    Call::Lookup(8, None),
    Call::InLast(7, true),
    Call::Enter,
    Call::InLast(7, false),
];

fn answered(rt: &impl Abort, at: usize, nest: &mut Nest<MemoryChunks>, call: &Call) {
    match call {
        Call::Define(id, value, new) => same_at(rt, at, nest.define(*id, *value), Ok(*new)),
        Call::Enter => same_at(rt, at, nest.enter(), Ok(())),
        Call::Leave(left) => same_at(rt, at, nest.leave(), *left),
        Call::Lookup(id, value) => same_at(rt, at, nest.lookup(*id), *value),
        Call::InLast(id, there) => same_at(rt, at, nest.in_last(*id), *there),
    }
}

#[test]
fn pairs_in_scopes(rt: HostRuntime) {
    let mut nest = Nest::new(ample(rt.alloc()));
    for (at, call) in CALLS.iter().enumerate() {
        answered(&rt, at, &mut nest, call);
    }
}
