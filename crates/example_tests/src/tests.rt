// Tests of the small language: a text's value, also of a copy after a reset, and each error once.
use arena::{AllocError, Allocator, MemoryChunks};
use example_language::{ParseErr, copy_nodes, keep, parse, value};
use std::alloc::Global;
use std::fmt::Debug;
use std::process::Abort;

// An allocator with ample memory.
pub(crate) fn ample(alloc: Global) -> Allocator<MemoryChunks> {
    Allocator::new(alloc, MemoryChunks::new(alloc, 1 << 28))
}

// Fails the test if the two values differ. `at` names the case.
pub(crate) fn same<T: Copy + PartialEq + Debug>(rt: &impl Abort, at: &str, found: T, wanted: T) {
    assert_eq!(rt; found, wanted, "{at:?}");
}

// Texts, the values of their names in the order in which they come, and the value of the whole.
const VALUES: &[(&str, &[u32], Option<u32>)] = &[
    ("x 2 + y *", &[3, 10], Some(50)),
    ("65536 x *", &[65536], Some(0)),
    ("x y +", &[1], None),
];

#[tactic(auto, unfolding(arena_rules::specs::Rounding::up, arena_items::specs::Layout::second_at, arena_items::specs::Layout::pair_size))]
fn has_value(rt: &impl Abort, alloc: Global, text: &str, names: &[u32], wanted: Option<u32>) {
    let mut first = ample(alloc);
    let mut other = ample(alloc);
    let tree = parse(&mut first, text).expect(rt, "a tree");
    let found = value(alloc, &first, &tree.nodes, names).expect(rt, "memory");
    same(rt, text, found, wanted);
    let copy = copy_nodes(&tree.nodes, &first, &mut other).expect(rt, "room");
    first.reset();
    let found = value(alloc, &other, &copy, names).expect(rt, "memory");
    same(rt, text, found, wanted);
}

#[test]
fn values(rt: HostRuntime) {
    for (text, names, wanted) in VALUES {
        has_value(&rt, rt.alloc(), *text, *names, *wanted);
    }
}

#[test]
fn kept(rt: HostRuntime) {
    let mut first = ample(rt.alloc());
    let mut other = ample(rt.alloc());
    let nodes = keep(&mut first, &mut other, "x 2 +").expect(&rt, "a tree");
    let found = value(rt.alloc(), &other, &nodes, &[5]).expect(&rt, "memory");
    same(&rt, "kept", (found, first.used_bytes()), (Some(7), 0));
    // The first arena is used again.
    let tree = parse(&mut first, "y y *").expect(&rt, "a tree");
    let found = (tree.number(&first, "y"), tree.number(&first, "x"));
    same(&rt, "used again", found, (Some(0), None));
}

// Texts that have no tree, and why.
const WRONG: &[(&str, ParseErr)] = &[
    ("", ParseErr::Token { at: 0 }),
    ("x y3", ParseErr::Token { at: 2 }),
    ("x *", ParseErr::Operands { at: 2 }),
    ("1 2", ParseErr::Operands { at: 3 }),
    (
        "a a a a a a a a a a a a a a a a a a a a a a a a a a a a a a a a a a a a a a a a a a a a a a a a a a a a a a a a a a a a a a a a b",
        ParseErr::TooDeep { at: 128 },
    ),
];

#[test]
fn wrong_texts(rt: HostRuntime) {
    for (text, wanted) in WRONG {
        let mut a = ample(rt.alloc());
        same(&rt, *text, parse(&mut a, *text).err(), Some(*wanted));
    }
}

#[test]
fn a_full_arena(rt: HostRuntime) {
    let region = vec![in rt.alloc(); 7; 64].expect(&rt, "bytes");
    let made = Allocator::from_raw_parts(rt.alloc(), region, MemoryChunks::new(rt.alloc(), 0));
    let mut a = made.ok().expect(&rt, "an arena");
    let refused = ParseErr::Refused(AllocError::AllocErr { refused: 0 });
    same(&rt, "1 2 +", parse(&mut a, "1 2 +").err(), Some(refused));
}
