// Tables of calls on vectors: the Rust crate's tests and its examples, by their values, and the least capacities that
// are too great.
use super::ample;
use super::vectors::Answer::{Done, Index, Value};
use super::vectors::Call::*;
use super::vectors::{DONE, Row, runs};
use arena_vec::{AllocError, Grown, Vec};

const NUMBERS: &[u32] = &[1, 2, 3];

const OVERFLOW: Grown<()> = Err(AllocError::CapacityOverflow);

const REFUSED: Grown<()> = Err(AllocError::AllocErr { refused: 1 });

const ON_NUMBERS: &[Row<u32>] = &[
    // At the end.
    (New(&[1, 2]), DONE, &[1, 2], 2),
    (Push(3), DONE, &[1, 2, 3], 4),
    (Pop, Value(Some(3)), &[1, 2], 4),
    (PushMut(3), Index(Ok(2)), &[1, 2, 3], 4),
    (Set(2, 13), DONE, &[1, 2, 13], 4),
    (Pop, Value(Some(13)), &[1, 2], 4),
    (PushFast(4), DONE, &[1, 2, 4], 4),
    (Pop, Value(Some(4)), &[1, 2], 4),
    (PushFastMut(4), Index(Ok(2)), &[1, 2, 4], 4),
    (Set(2, 14), DONE, &[1, 2, 14], 4),
    // Pushes in an empty vector, with room and in a full one.
    (New(&[]), DONE, &[], 0),
    (Reserve(4), DONE, &[], 4),
    (PushMut(1), Index(Ok(0)), &[1], 4),
    (PushFastMut(2), Index(Ok(1)), &[1, 2], 4),
    (PushFast(3), DONE, &[1, 2, 3], 4),
    (Push(4), DONE, &[1, 2, 3, 4], 4),
    (PushMut(5), Index(Ok(4)), &[1, 2, 3, 4, 5], 8),
    (Truncate(4), DONE, &[1, 2, 3, 4], 8),
    (ShrinkToFit, DONE, &[1, 2, 3, 4], 4),
    (PushFastMut(5), Index(Ok(4)), &[1, 2, 3, 4, 5], 8),
    // As a stack.
    (New(&[]), DONE, &[], 0),
    (Pop, Value(None), &[], 0),
    (Push(1), DONE, &[1], 1),
    (Push(2), DONE, &[1, 2], 2),
    (Push(3), DONE, &[1, 2, 3], 4),
    (Pop, Value(Some(3)), &[1, 2], 4),
    (Pop, Value(Some(2)), &[1], 4),
    (Set(0, 7), DONE, &[7], 4),
    (Extend(&[1, 2, 3]), DONE, &[7, 1, 2, 3], 4),
    (Clear, DONE, &[], 4),
    // In the midst.
    (New(NUMBERS), DONE, NUMBERS, 3),
    (Insert(1, 4), DONE, &[1, 4, 2, 3], 6),
    (Insert(4, 5), DONE, &[1, 4, 2, 3, 5], 6),
    (Insert(0, 9), DONE, &[9, 1, 4, 2, 3, 5], 6),
    (Remove(0), Value(Some(9)), &[1, 4, 2, 3, 5], 6),
    (Remove(4), Value(Some(5)), &[1, 4, 2, 3], 6),
    (Remove(1), Value(Some(4)), &[1, 2, 3], 6),
    (Set(1, 7), DONE, &[1, 7, 3], 6),
    // Fewer values.
    (New(&[1, 2, 3, 4, 5]), DONE, &[1, 2, 3, 4, 5], 5),
    (Truncate(8), DONE, &[1, 2, 3, 4, 5], 5),
    (Resize(4, 9), DONE, &[1, 2, 3, 4], 5),
    (Truncate(2), DONE, &[1, 2], 5),
    (ShrinkToFit, DONE, &[1, 2], 2),
    (Truncate(0), DONE, &[], 2),
    // Many at once.
    (New(&[1]), DONE, &[1], 1),
    (Extend(&[2, 3, 4]), DONE, &[1, 2, 3, 4], 4),
    (Truncate(1), DONE, &[1], 4),
    (ExtendCopy(&[2, 3, 4]), DONE, &[1, 2, 3, 4], 4),
    (Truncate(1), DONE, &[1], 4),
    (ExtendSlices(&[&[2, 3], &[], &[4]]), DONE, &[1, 2, 3, 4], 4),
    (Extend(&[]), DONE, &[1, 2, 3, 4], 4),
    (ExtendSlices(&[]), DONE, &[1, 2, 3, 4], 4),
    (Resize(5, 0), DONE, &[1, 2, 3, 4, 0], 8),
    // One list by each call, added to an empty vector.
    (New(&[]), DONE, &[], 0),
    (Extend(NUMBERS), DONE, NUMBERS, 3),
    (ExtendCopy(NUMBERS), DONE, &[1, 2, 3, 1, 2, 3], 6),
    (
        ExtendSlices(&[NUMBERS]),
        DONE,
        &[1, 2, 3, 1, 2, 3, 1, 2, 3],
        12,
    ),
    // Room for three more values, and for ten.
    (New(NUMBERS), DONE, NUMBERS, 3),
    (Reserve(3), DONE, NUMBERS, 6),
    (New(NUMBERS), DONE, NUMBERS, 3),
    (TryReserve(3), DONE, NUMBERS, 6),
    (New(NUMBERS), DONE, NUMBERS, 3),
    (ReserveExact(3), DONE, NUMBERS, 6),
    (New(NUMBERS), DONE, NUMBERS, 3),
    (TryReserveExact(3), DONE, NUMBERS, 6),
    (New(&[1]), DONE, &[1], 1),
    (Reserve(10), DONE, &[1], 11),
    (New(&[1]), DONE, &[1], 1),
    (TryReserve(10), DONE, &[1], 11),
    (New(&[1]), DONE, &[1], 1),
    (ReserveExact(10), DONE, &[1], 11),
    (New(&[1]), DONE, &[1], 1),
    (TryReserveExact(10), DONE, &[1], 11),
    // Twice the capacity is more than what is required.
    (New(&[1]), DONE, &[1], 1),
    (Reserve(1), DONE, &[1], 2),
    (New(&[1]), DONE, &[1], 1),
    (Reserve(0), DONE, &[1], 1),
    // The required capacity exceeds 32 bits, as a number of values or of their bytes. A capacity that fits is
    // requested, and there is no chunk that large.
    (New(NUMBERS), DONE, NUMBERS, 3),
    (Reserve(1 << 30), Done(OVERFLOW), NUMBERS, 3),
    (TryReserve((1 << 30) - 3), Done(OVERFLOW), NUMBERS, 3),
    (ReserveExact((1 << 30) - 3), Done(OVERFLOW), NUMBERS, 3),
    (TryReserveExact(1 << 32), Done(OVERFLOW), NUMBERS, 3),
    (Reserve(u64::MAX), Done(OVERFLOW), NUMBERS, 3),
    (Resize(1 << 30, 0), Done(OVERFLOW), NUMBERS, 3),
    (Reserve((1 << 30) - 4), Done(REFUSED), NUMBERS, 3),
];

const TOO_MANY_BYTES: &[Row<u8>] = &[
    (New(b"abc"), Done(Ok(())), b"abc", 3),
    (Reserve((1 << 32) - 3), Done(OVERFLOW), b"abc", 3),
    (Reserve((1 << 32) - 4), Done(REFUSED), b"abc", 3),
];

const LETTERS: &[char] = &['f', 'r', 'z', 'q'];

const SWAPPED: &[Row<char>] = &[
    (New(LETTERS), Done(Ok(())), LETTERS, 4),
    (SwapRemove(1), Value(Some('r')), &['f', 'q', 'z'], 4),
    (SwapRemove(0), Value(Some('f')), &['z', 'q'], 4),
    (SwapRemove(1), Value(Some('q')), &['z'], 4),
];

#[test]
fn on_numbers(rt: HostRuntime) {
    runs(&rt, &mut ample(rt.alloc()), &mut Vec::new_in(), ON_NUMBERS);
}

#[test]
fn on_bytes_and_characters(rt: HostRuntime) {
    runs(
        &rt,
        &mut ample(rt.alloc()),
        &mut Vec::new_in(),
        TOO_MANY_BYTES,
    );
    runs(&rt, &mut ample(rt.alloc()), &mut Vec::new_in(), SWAPPED);
}
