// Tests of how vectors are made, split and joined: worked examples, and those of the Rust crate. The room for an
// iterator's items is by its own hints, and no item is taken after the last that is reported.
ghost use Rattle.arena_chunks.specs.Frame.{AreBlocksApart};

use super::numbers::Hints::{self, AtLeast, AtMost, Exactly};
use super::vector_refusals::{NO_PLACE, fixed};
use super::vectors::Call::{Insert, Push, Reserve, Resize};
use super::vectors::{DONE, Row, is_list, known, runs, vec_of};
use super::{Memory, ample, same, same_at};
use arena_chunks::Block;
use arena_vec::AllocError::CapacityOverflow;
use arena_vec::{AllocError, Grown, Vec};
use std::process::Abort;

// How a vector is made.
#[derive(Drop)]
enum New {
    // An empty vector with this capacity.
    Room(u64),
    // An iterator's items.
    Items(Hints),
    // An iterator's items, in a vector with this capacity at first.
    InRoom(u64, Hints),
}

fn make(a: &mut Memory, new: &New, taken: &mut u64) -> Grown<Vec<u32>> {
    match new {
        New::Room(cap) => Vec::with_capacity_in(*cap, a),
        New::Items(hints) => Vec::from_iter_in(hints.counting(1, taken), a),
        New::InRoom(room, hints) => {
            Vec::from_iter_with_room_in(hints.counting(1, taken), *room, a)
        }
    }
}

// How a vector is made, the list, the capacity, and the bytes in use.
const NEW_VECTORS: &[(New, &[u32], u32, u64)] = &[
    (New::Room(10), &[], 10, 40),
    (New::Room(3), &[], 3, 12),
    (New::Items(Exactly(3)), &[1, 2, 3], 3, 12),
    (New::Items(Exactly(0)), &[], 0, 0),
    (New::Items(AtMost(10, 3)), &[1, 2, 3], 10, 40),
    (New::Items(AtMost(200, 3)), &[1, 2, 3], 200, 800),
    (New::Items(AtLeast(5, 3)), &[1, 2, 3], 5, 20),
    (New::Items(AtLeast(150, 3)), &[1, 2, 3], 150, 600),
    // There is no room for the third item, and the hint announces two more.
    (New::Items(AtLeast(2, 5)), &[1, 2, 3, 4, 5], 5, 20),
    // Too many to make room for.
    (New::Items(AtMost(1 << 30, 3)), &[1, 2, 3], 4, 16),
    (New::Items(AtLeast(usize::MAX, 2)), &[1, 2], 2, 8),
    // Whatever the hint, the capacity at first is the requested one. The vector grows beyond it.
    (New::InRoom(3, AtMost(1_000_000, 3)), &[1, 2, 3], 3, 12),
    (New::InRoom(2, AtLeast(0, 3)), &[1, 2, 3], 4, 16),
];

// In an arena of 16 bytes: how a vector is made, the error, the number of items that were taken, and the bytes in use.
const REFUSED: &[(New, AllocError, u64, u64)] = &[
    (New::Room(5), NO_PLACE, 0, 0),
    // No item is taken if the first room is refused.
    (New::Items(Exactly(5)), NO_PLACE, 0, 0),
    // There is a place for four items. The fifth was taken too, and the block of the others stays.
    (New::Items(AtLeast(0, 9)), NO_PLACE, 5, 16),
    (New::InRoom(5, Exactly(3)), NO_PLACE, 0, 0),
    (New::InRoom(1 << 30, Exactly(3)), CapacityOverflow, 0, 0),
    (New::Room(1 << 30), CapacityOverflow, 0, 0),
];

#[test]
fn new_vectors(rt: HostRuntime) {
    for (new, list, cap, used) in NEW_VECTORS {
        let mut a = ample(rt.alloc());
        let mut taken = 0;
        let vec = make(&mut a, new, &mut taken).expect(&rt, "room");
        is_list(&rt, &a, vec, list);
        same_at(&rt, *list, taken <= list.len() as u64, true);
        same_at(&rt, *list, vec.is_empty(), list.is_empty());
        same_at(&rt, *list, (vec.capacity(), a.used_bytes()), (*cap, *used));
        same_at(&rt, *list, vec.as_ptr().size, *used);
    }
    for (new, why, items, used) in REFUSED {
        let mut a = fixed(&rt, rt.alloc(), 16);
        let mut taken = 0;
        let made = make(&mut a, new, &mut taken);
        same(&rt, made.err(), Some(*why));
        same(&rt, (taken, a.used_bytes()), (*items, *used));
    }
}

const PUSHED: &[Row<u32>] = &[
    (Reserve(0), DONE, &[123], 1),
    (Push(456), DONE, &[123, 456], 2),
];

#[test]
fn one_value_and_another(rt: HostRuntime) {
    let mut a = ample(rt.alloc());
    let mut vec = Vec::from_value_in(123u32, &mut a).expect(&rt, "room");
    runs(&rt, &mut a, &mut vec, PUSHED);
}

// Fails the test if two blocks have an address in common.
fn apart(rt: &impl Abort, one: Block, other: Block)
    ensures { AreBlocksApart one other }
{
    let is_below = one.addr <= other.addr && one.size <= other.addr - one.addr;
    assert!(rt; is_below || (other.addr <= one.addr && other.size <= one.addr - other.addr));
}

// Splits a vector of the list at an index, checks both parts, and joins them again.
fn split_and_join(
    rt: &impl Abort,
    a: &mut Memory,
    vec: &mut Vec<u32>,
    list: &[u32],
    at: u32,
    parts: (&[u32], &[u32]),
) {
    known(rt, a, *vec);
    assert!(rt; at <= vec.len());
    let mut tail = vec.split_off(a, at).expect(rt, "room");
    is_list(rt, a, *vec, parts.0);
    is_list(rt, a, tail, parts.1);
    known(rt, a, *vec);
    known(rt, a, tail);
    apart(rt, tail.as_ptr(), vec.as_ptr());
    vec.append(a, &mut tail).expect(rt, "room");
    is_list(rt, a, *vec, list);
    is_list(rt, a, tail, &[]);
}

// A list, an index, and the parts before and from there on.
const PARTS: &[(&[u32], u32, (&[u32], &[u32]))] = &[
    (&[1, 2, 3], 1, (&[1], &[2, 3])),
    (&[1, 2, 3, 4, 5, 6], 3, (&[1, 2, 3], &[4, 5, 6])),
];

#[test]
fn split_and_joined(rt: HostRuntime) {
    for (list, at, parts) in PARTS {
        let mut a = ample(rt.alloc());
        let mut vec = vec_of(&rt, &mut a, list);
        split_and_join(&rt, &mut a, &mut vec, list, *at, *parts);
    }
    let mut a = ample(rt.alloc());
    let mut vec = Vec::from_array_in([1u32, 2, 3], &mut a).expect(&rt, "room");
    runs(
        &rt,
        &mut a,
        &mut vec,
        &[(Insert(1, 9), DONE, &[1, 9, 2, 3], 6)],
    );
    split_and_join(&rt, &mut a, &mut vec, &[1, 9, 2, 3], 2, (&[1, 9], &[2, 3]));
    runs(
        &rt,
        &mut a,
        &mut vec,
        &[(Resize(5, 0), DONE, &[1, 9, 2, 3, 0], 6)],
    );
}
