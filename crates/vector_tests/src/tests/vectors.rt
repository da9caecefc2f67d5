// Calls on a vector, their expected results, and the vector after them.
ghost use Rattle.std.specs.Prelude.{◌^◌, ◌≤◌};
ghost use Rattle.arena_vec.specs.Vecs.{IsVecIn};

use self::Answer::{Done, Index, Value};
use super::{Memory, same_at};
use arena_chunks::{Allocator, ChunkSource};
use arena_items::Item;
use arena_vec::{AllocError, Grown, Vec};
use std::fmt::Debug;
use std::process::Abort;

// A call on a vector, with its arguments.
#[derive(Drop)]
pub(super) enum Call<'s, T> {
    // Replaces the vector by a new one of these values, whose capacity is its length.
    New(&'s [T]),
    Push(T),
    PushFast(T),
    PushMut(T),
    PushFastMut(T),
    Pop,
    Insert(u32, T),
    Set(u32, T),
    Remove(u32),
    SwapRemove(u32),
    Truncate(u32),
    Clear,
    Resize(u32, T),
    Extend(&'s [T]),
    ExtendCopy(&'s [T]),
    ExtendSlices(&'s [&'s [T]]),
    Reserve(u64),
    TryReserve(u64),
    ReserveExact(u64),
    TryReserveExact(u64),
    ShrinkToFit,
}

// The result of a call.
#[derive(Drop, PartialEq)]
pub(super) enum Answer<T> {
    Done(Grown<()>),
    Index(Grown<u32>),
    Value(Option<T>),
}

// A call that succeeds and returns nothing.
pub(super) const DONE: Answer<u32> = Done(Ok(()));

// A call, its expected result, and the list and the capacity after it.
pub(super) type Row<'s, T> = (Call<'s, T>, Answer<T>, &'s [T], u32);

// Makes a call on a vector. The test fails if the vector isn't held.
pub(super) fn make<T: Item, C: ChunkSource>(
    rt: &impl Abort,
    a: &mut Allocator<C>,
    vec: &mut Vec<T>,
    call: &Call<T>,
) -> Answer<T> {
    known(rt, a, *vec);
    match call {
        Call::New(list) => {
            *vec = vec_of(rt, a, list);
            Done(Ok(()))
        }
        Call::Push(value) => Done(vec.push(a, *value)),
        Call::PushFast(value) => Done(vec.push_fast(a, *value)),
        Call::PushMut(value) => Index(vec.push_mut(a, *value)),
        Call::PushFastMut(value) => Index(vec.push_fast_mut(a, *value)),
        Call::Pop => Value(vec.pop(a)),
        Call::Insert(i, value) => {
            assert!(rt; *i <= vec.len());
            Done(vec.insert(a, *i, *value))
        }
        Call::Set(i, value) => {
            assert!(rt; *i < vec.len());
            Done(Ok(vec.set(a, *i, *value)))
        }
        Call::Remove(i) => {
            assert!(rt; *i < vec.len());
            Value(Some(vec.remove(a, *i)))
        }
        Call::SwapRemove(i) => {
            assert!(rt; *i < vec.len());
            Value(Some(vec.swap_remove(a, *i)))
        }
        Call::Truncate(len) => Done(Ok(vec.truncate(*len))),
        Call::Clear => Done(Ok(vec.clear())),
        Call::Resize(len, value) => Done(vec.resize(a, *len, *value)),
        Call::Extend(values) => Done(vec.extend_from_slice(a, values)),
        Call::ExtendCopy(values) => Done(vec.extend_from_slice_copy(a, values)),
        Call::ExtendSlices(slices) => Done(vec.extend_from_slices_copy(a, slices)),
        Call::Reserve(more) => Done(vec.reserve(a, *more)),
        Call::TryReserve(more) => Done(vec.try_reserve(a, *more)),
        Call::ReserveExact(more) => Done(vec.reserve_exact(a, *more)),
        Call::TryReserveExact(more) => Done(vec.try_reserve_exact(a, *more)),
        Call::ShrinkToFit => Done(Ok(vec.shrink_to_fit(a))),
    }
}

// Fails the test if a vector isn't held or isn't well formed, for vectors that were read from an arena or stayed
// there while others changed.
pub(super) fn known<T: Item, C: ChunkSource>(rt: &impl Abort, a: &Allocator<C>, vec: Vec<T>)
    ensures small { T.SIZE ≤ 2 ^ 24 }
    ensures held { IsVecIn T.Item a.now.memory vec }
{
    assert!(rt; T::SIZE <= 1 << 24);
    assert!(rt; vec.is_held(a), "a vector that is held");
}

// Checks that a vector has the values of a list. The test fails if the vector isn't held.
pub(super) fn is_list<T: Item + PartialEq + Debug>(
    rt: &impl Abort,
    a: &Memory,
    vec: Vec<T>,
    list: &[T],
) {
    known(rt, a, vec);
    same_at(rt, list, vec.len() as usize, list.len());
    for (value, wanted) in vec.into_iter(a).zip(list) {
        same_at(rt, list, value, *wanted);
    }
}

// Returns a vector of these values, whose capacity is its length.
pub(super) fn vec_of<T: Item, C: ChunkSource>(
    rt: &impl Abort,
    a: &mut Allocator<C>,
    list: &[T],
) -> Vec<T>
    ensures small { T.SIZE ≤ 2 ^ 24 }
    ensures held { IsVecIn T.Item a.new.memory result }
{
    assert!(rt; T::SIZE <= 1 << 24);
    let mut vec = Vec::with_capacity_in(list.len() as u64, a).expect(rt, "room");
    vec.extend_from_slice(a, list).expect(rt, "room");
    vec
}

// Makes the calls of the rows in order.
pub(super) fn runs<T: Item + PartialEq + Debug>(
    rt: &impl Abort,
    a: &mut Memory,
    vec: &mut Vec<T>,
    rows: &[Row<T>],
) {
    for (call, wanted, list, cap) in rows {
        let answer = make(rt, a, vec, call);
        same_at(rt, *list, answer == *wanted, true);
        is_list(rt, a, *vec, list);
        same_at(rt, *list, vec.capacity(), *cap);
    }
}
