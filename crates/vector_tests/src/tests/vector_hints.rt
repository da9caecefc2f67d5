// Tests of vectors to which an iterator's items are appended. Its own hints determine the room, and no item is taken
// after the last that is reported.
use super::numbers::{FiveAndSix, Hints};
use super::vector_refusals::{NONE_REFUSED, fixed};
use super::vectors::{is_list, vec_of};
use super::{ample, same, same_at};
use arena_vec::{Grown, Vec};
use std::alloc::Global;
use std::process::Abort;

// The list, the number of values for which it has spare room, the hint, the list after the call, and its capacity.
type Row = (&'static [u32], u64, Hints, &'static [u32], u32);

const BEHIND_A_LIST: &[Row] = &[
    (&[], 0, Hints::Exactly(3), &[1, 2, 3], 3),
    // A full vector makes room for all announced items, or for twice as many values as it has.
    (&[9], 0, Hints::Exactly(4), &[9, 1, 2, 3, 4], 5),
    (&[9, 9, 9], 0, Hints::Exactly(1), &[9, 9, 9, 1], 6),
    // A vector with room does so once it is full.
    (&[9, 9], 2, Hints::Exactly(5), &[9, 9, 1, 2, 3, 4, 5], 8),
    // The upper bound isn't used.
    (&[9, 9], 0, Hints::AtMost(100, 1), &[9, 9, 1], 4),
    (&[9, 9], 0, Hints::AtLeast(100, 1), &[9, 9, 1], 103),
    // The lower bound is, without storage too, and however great it is, if it fits.
    (&[], 0, Hints::AtLeast(100, 1), &[1], 101),
    (&[9, 9], 0, Hints::AtLeast(200, 1), &[9, 9, 1], 203),
    // A lower bound that doesn't fit is ignored.
    (&[9], 0, Hints::AtLeast(usize::MAX, 2), &[9, 1, 2], 4),
];

const REFUSED: &[Row] = &[
    (&[8, 9], 0, Hints::Exactly(3), &[8, 9], 2),
    (&[8, 9], 0, Hints::AtLeast(0, 9), &[8, 9, 1, 2], 4),
    (&[], 0, Hints::AtLeast(0, 9), &[1, 2, 3, 4], 4),
];

// Appends items in an arena of `bytes` bytes. `wanted` is the result, and the number of items that were taken and
// aren't in the list.
fn takes(rt: &impl Abort, alloc: Global, bytes: usize, row: &Row, wanted: (Grown<()>, u64)) {
    let (list, room, hints, then, cap) = row;
    let mut a = fixed(rt, alloc, bytes);
    let mut vec = vec_of(rt, &mut a, list);
    vec.reserve_exact(&mut a, *room).expect(rt, "room");
    let mut taken = 0;
    let answer = vec.extend(&mut a, hints.counting(1, &mut taken));
    is_list(rt, &a, vec, then);
    let items = then.len().saturating_sub(list.len()) as u64;
    same_at(rt, *then, (answer, taken.saturating_sub(items)), wanted);
    same_at(rt, *then, vec.capacity(), *cap);
}

#[test]
fn as_told(rt: HostRuntime) {
    for row in BEHIND_A_LIST {
        takes(&rt, rt.alloc(), 1024, row, (Ok(()), 0));
    }
    // The item that was taken last has no place.
    for row in REFUSED {
        takes(&rt, rt.alloc(), 16, row, (NONE_REFUSED, 1));
    }
}

#[test]
fn a_hint_that_stays_too_high(rt: HostRuntime) {
    let mut a = ample(rt.alloc());
    let vec = Vec::from_iter_in(FiveAndSix::new(), &mut a).expect(&rt, "room");
    is_list(&rt, &a, vec, &[5, 6]);
    same(&rt, vec.capacity(), 2);
}
