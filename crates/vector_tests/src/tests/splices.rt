// Tests of ranges that are replaced by other values. The hints of these determine the room, by the rule of growth.
use super::numbers::Hints::{self, AtLeast, Exactly};
use super::vector_refusals::{NONE_REFUSED, fixed};
use super::vectors::{is_list, known, vec_of};
use super::{Memory, same, same_at};
use arena_vec::{Grown, Vec};
use std::alloc::Global;
use std::process::Abort;

// The values at the ends of a range, and the result.
type Told = ((Option<u32>, Option<u32>), Grown<()>);

// Takes a value from each end of a range, and replaces the range by the numbers from 7. Returns the two values and
// the result.
fn splice(
    rt: &impl Abort,
    a: &mut Memory,
    vec: &mut Vec<u32>,
    range: (u32, u32),
    hints: &Hints,
) -> Told {
    known(rt, a, *vec);
    let (start, end) = range;
    assert!(rt; start <= end && end <= vec.len());
    let mut gone = vec.splice(a, start, end, hints.numbers(7));
    same(rt, gone.len(), (end - start) as usize);
    let ends = (gone.next(), gone.next_back());
    let answer = gone.finish();
    (ends, answer)
}

// A range of 1 to 4, the hint, the values at the range's ends, the list after the call, and the bytes in use: those of
// the vector's block, unless items were collected.
type Row = ((u32, u32), Hints, (u32, u32), &'static [u32], u64);

const RANGES: &[Row] = &[
    ((0, 2), Exactly(2), (1, 2), &[7, 8, 3, 4], 16),
    ((1, 3), Exactly(3), (2, 3), &[1, 7, 8, 9, 4], 32),
    // The lower bound is 0: a vector for the third value, and then a block of 32 bytes.
    ((1, 3), AtLeast(0, 3), (2, 3), &[1, 7, 8, 9, 4], 52),
    // The lower bound is higher than the number of values.
    ((1, 3), AtLeast(5, 3), (2, 3), &[1, 7, 8, 9, 4], 36),
    // There is nothing after the range.
    ((2, 4), AtLeast(4, 3), (3, 4), &[1, 2, 7, 8, 9], 36),
];

// In an arena of 16 bytes there is no room for the third value, which the hint announces.
const THIRD: Row = ((1, 3), Exactly(3), (2, 3), &[1, 7, 8, 4], 16);

// In an arena of 32 bytes, of the five other values four are collected.
const FIFTH: Row = ((1, 3), AtLeast(0, 7), (2, 3), &[1, 7, 8, 4], 32);

// Checks a row in an arena of `bytes` bytes, with this result.
fn splices(rt: &impl Abort, alloc: Global, bytes: usize, row: &Row, wanted: Grown<()>) {
    let (range, hints, (first, last), list, used) = row;
    let mut a = fixed(rt, alloc, bytes);
    let mut vec = vec_of(rt, &mut a, &[1u32, 2, 3, 4]);
    let found = splice(rt, &mut a, &mut vec, *range, hints);
    is_list(rt, &a, vec, list);
    let told = ((Some(*first), Some(*last)), wanted);
    same_at(rt, *list, (found, a.used_bytes()), (told, *used));
}

#[test]
fn of_ranges(rt: HostRuntime) {
    for row in RANGES {
        splices(&rt, rt.alloc(), 1024, row, Ok(()));
    }
    splices(&rt, rt.alloc(), 16, &THIRD, NONE_REFUSED);
    splices(&rt, rt.alloc(), 32, &FIFTH, NONE_REFUSED);
}

// The capacity is doubled for the third value.
#[test]
fn the_capacity(rt: HostRuntime) {
    let mut a = fixed(&rt, rt.alloc(), 1024);
    let mut vec = vec_of(&rt, &mut a, &[1u32, 2, 3, 4]);
    let (ends, grown) = splice(&rt, &mut a, &mut vec, (1, 3), &Exactly(3));
    same(&rt, (ends, grown), ((Some(2), Some(3)), Ok(())));
    same(&rt, vec.capacity(), 8);
}
