// Tests of names that are declared in a scope and in a scope of their own, and of a list of calls. They all succeed.
use super::kept::Both;
use crate::tests::{ample, same_at};
use arena_symbols::Call;

#[test]
fn names_in_scopes(rt: HostRuntime) {
    let mut both = Both::new(ample(rt.alloc()));
    same_at(&rt, 1, both.declare("a", 1), Ok(true));
    same_at(&rt, 2, both.declare("a", 2), Ok(false));
    same_at(&rt, 3, both.in_own_scope("a", 3), Ok(Some(3)));
}

const CALLS: &[Call<'static>] = &[
    Call::Intern("b"),
    Call::Text(0),
    Call::Define { id: 7, value: 1 },
    Call::Enter,
    Call::Leave,
];

#[test]
fn calls_in_a_list(rt: HostRuntime) {
    let mut both = Both::new(ample(rt.alloc()));
    let mut replies = Vec::new(rt.alloc());
    same_at(&rt, 0, both.run(rt.alloc(), CALLS, &mut replies), Ok(()));
    same_at(&rt, 0, replies.len(), CALLS.len());
}
