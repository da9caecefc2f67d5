// Public items of vectors, of their storage, and of iterators over them.
use crate::kinds::{is_copy, is_fused, is_walk};
use arena_chunks::{Allocator, Block, ChunkSource, OutOfMemory};
use arena_items::{BoxSlice, Grown, Item};
use arena_vec::{ArenaVec, Drain, DrainFilter, IntoIter, RawVec, Splice, Vec};
use std::alloc::Global;
use std::cmp::Ordering;
use std::fmt::Debug;
use std::hash::{Hash, Hasher};

fn made<T: Item, C: ChunkSource, I: Iterator<Item = T> + Drop, const N: usize>(
    a: &mut Allocator<C>,
    value: T,
    array: [T; N],
    iter: I,
    block: Block,
    vec: Vec<T>,
) {
    return;
    let _: Vec<T> = Vec::new_in();
    let _: Grown<Vec<T>> = Vec::with_capacity_in(8u64, a);
    let _: Grown<Vec<T>> = Vec::from_value_in(value, a);
    let _: Grown<Vec<T>> = Vec::from_array_in(array, a);
    let _: Grown<Vec<T>> = Vec::from_iter_in(iter, a);
    let _: Grown<Vec<T>> = Vec::from_iter_with_room_in(iter, 8u64, a);
    let _: Vec<T> = Vec::from_raw_parts_in(block, 1u32, 2u32);
    let _: BoxSlice<T> = vec.into_boxed_slice();
    let _: BoxSlice<T> = vec.into_arena_slice();
    let _: BoxSlice<T> = vec.into_arena_slice_mut();
    let _: BoxSlice<T> = BoxSlice::from(vec);
    let _: ArenaVec<T> = vec;
    is_copy::<Vec<T>>();
    let _: RawVec<T> = RawVec::new_in();
    let _: Grown<RawVec<T>> = RawVec::with_capacity_in(8u64, a);
    let _: RawVec<T> = RawVec::from_raw_parts_in(block, 1u32, 2u32);
}

fn changed<T: Item, C: ChunkSource, I: Iterator<Item = T> + Drop>(
    vec: &mut Vec<T>,
    a: &mut Allocator<C>,
    value: T,
    slice: &[T],
    slices: &[&[T]],
    iter: I,
) {
    return;
    let _: Block = vec.as_mut_ptr();
    let _: () = vec.truncate(1u32);
    let _: () = vec.clear();
    let _: Grown<()> = vec.reserve(a, 1u64);
    let _: Grown<()> = vec.try_reserve(a, 1u64);
    let _: Grown<()> = vec.reserve_exact(a, 1u64);
    let _: Grown<()> = vec.try_reserve_exact(a, 1u64);
    let _: () = vec.shrink_to_fit(a);
    let _: () = vec.set(a, 1u32, value);
    let _: T = vec.swap_remove(a, 1u32);
    let _: T = vec.remove(a, 1u32);
    let _: Grown<()> = vec.insert(a, 1u32, value);
    let _: Grown<()> = vec.push(a, value);
    let _: Grown<()> = vec.push_fast(a, value);
    let _: Grown<u32> = vec.push_mut(a, value);
    let _: Grown<u32> = vec.push_fast_mut(a, value);
    let _: Grown<()> = vec.append(a, vec);
    let _: Grown<Vec<T>> = vec.split_off(a, 1u32);
    let _: Grown<()> = vec.resize(a, 1u32, value);
    let _: Grown<()> = vec.extend_from_slice(a, slice);
    let _: Grown<()> = vec.extend_from_slice_copy(a, slice);
    let _: Grown<()> = vec.extend_from_slices_copy(a, slices);
    let _: Grown<()> = vec.extend(a, iter);
}

fn looks<T: Item, C: ChunkSource>(vec: &Vec<T>, last: &mut Vec<T>, a: &Allocator<C>) {
    return;
    let _: bool = vec.is_held(a);
    let _: u32 = vec.len();
    let _: bool = vec.is_empty();
    let _: u32 = vec.capacity();
    let _: Block = vec.as_ptr();
    let _: T = vec.get(a, 1u32);
    let _: &[u8] = vec.as_slice(a);
    let _: Option<T> = last.pop(a);
}

fn storage<T: Item, C: ChunkSource>(raw: &mut RawVec<T>, a: &mut Allocator<C>) {
    return;
    let _: Block = raw.ptr();
    let _: u32 = raw.len_u32();
    let _: usize = raw.len_usize();
    let _: u32 = raw.capacity_u32();
    let _: usize = raw.capacity_usize();
    let _: () = raw.increase_len(1u32);
    let _: () = raw.decrease_len(1u32);
    let _: Grown<()> = raw.try_reserve(a, 1u32, 2u64);
    let _: Grown<()> = raw.reserve(a, 1u32, 2u64);
    let _: Grown<()> = raw.try_reserve_exact(a, 1u32, 2u64);
    let _: Grown<()> = raw.reserve_exact(a, 1u32, 2u64);
    let _: Grown<()> = raw.grow_one(a);
    let _: () = raw.shrink_to_fit(a, 1u32);
    let _: () = raw.dealloc_buffer(a);
}

fn kept<
    T: Item,
    C: ChunkSource,
    K: PartialEq + Drop,
    E: FnMut(&T) -> bool + Drop,
    F: FnMut(&mut T) -> bool + Drop,
    G: FnMut(&mut T, &mut T) -> bool + Drop,
    H: FnMut(&mut T) -> K + Drop,
>(vec: &mut Vec<T>, a: &mut Allocator<C>, (e, f, g, h): (E, F, G, H)) {
    return;
    let _: () = vec.retain(a, e);
    let _: () = vec.retain_mut(a, f);
    let _: () = vec.dedup_by(a, g);
    let _: () = vec.dedup_by_key(a, h);
}

fn equal<T: Item + PartialEq, C: ChunkSource>(vec: &mut Vec<T>, a: &mut Allocator<C>, other: &[T]) {
    return;
    let _: () = vec.dedup(a);
    let _: bool = vec.eq(a, vec);
    let _: bool = vec.eq_slice(a, other);
}

fn ordered<T: Item + Ord, C: ChunkSource>(vec: &Vec<T>, a: &Allocator<C>) {
    return;
    let _: Ordering = vec.cmp(a, vec);
    let _: Option<Ordering> = vec.partial_cmp(a, vec);
}

fn hashed<T: Item + Hash, C: ChunkSource, H: Hasher>(vec: &Vec<T>, a: &Allocator<C>, to: &mut H) {
    return;
    let _: () = vec.hash(a, to);
}

fn shown<T: Item + Debug, C: ChunkSource>(vec: &Vec<T>, alloc: Global, a: &Allocator<C>) {
    return;
    let _: Result<String, OutOfMemory> = vec.debug(alloc, a);
}

fn is_two_way<T, I: Iterator<Item = T> + DoubleEndedIterator + ExactSizeIterator>(_walk: &I) {}

fn walks<
    'a,
    T: Item,
    C: ChunkSource,
    F: FnMut(&mut T) -> bool + Drop,
    I: Iterator<Item = T> + Drop,
>(vec: &mut Vec<T>, all: &'a Allocator<C>, a: &mut Allocator<C>, pred: F, with: I) {
    return;
    let walk: IntoIter<'a, T, C> = vec.into_iter(all);
    is_two_way::<T, IntoIter<'a, T, C>>(&walk);
    is_fused(&walk);
    let _: &[u8] = walk.as_slice();
    let walk: Drain<'_, T, C> = vec.drain(a, 1u32, 2u32);
    is_two_way::<T, Drain<'_, T, C>>(&walk);
    is_fused(&walk);
    let _: () = walk.finish();
    let walk: DrainFilter<'_, T, C, F> = vec.drain_filter(a, pred);
    is_walk::<T, DrainFilter<'_, T, C, F>>(&walk);
    let _: () = walk.finish();
    let walk: Splice<'_, T, C, I> = vec.splice(a, 1u32, 2u32, with);
    is_two_way::<T, Splice<'_, T, C, I>>(&walk);
    let _: Grown<()> = walk.finish();
}
