// Public items of copies, conversions, dummies and replacements.
use crate::kinds::is_plain;
use arena_bits::BitSet;
use arena_chunks::{Allocator, ChunkSource, Str};
use arena_clone::{
    CloneIn, CloneInSemanticIds, CloneKey, Dummy, FromIn, IntoIn, ReplaceWith, SemanticId, TakeIn,
};
use arena_hash::{HashMap, KeyHasher};
use arena_items::{Box, BoxSlice, Grown, Item};
use arena_vec::Vec;
use std::num::{
    NonZeroI8, NonZeroI16, NonZeroI32, NonZeroI64, NonZeroI128, NonZeroIsize, NonZeroU8,
    NonZeroU16, NonZeroU32, NonZeroU64, NonZeroU128, NonZeroUsize,
};

fn copies<T: CloneIn + Drop, C: ChunkSource, D: ChunkSource>(
    value: &T,
    ids: CloneInSemanticIds,
    from: &Allocator<C>,
    to: &mut Allocator<D>,
) {
    return;
    let _: Grown<T> = value.clone_in_impl(ids, from, to);
    let _: Grown<T> = value.clone_in(from, to);
    let _: Grown<T> = value.clone_in_with_semantic_ids(from, to);
    let _: Grown<T> = value.clone_within(ids, to);
}

const _: () = prove!(CloneInSemanticIds::With as u32 == 0);

const _: () = prove!(CloneInSemanticIds::Without as u32 == 4_294_967_295);

fn are_copied<A: CloneIn, B: CloneIn, C: CloneIn, D: CloneIn, E: CloneIn, F: CloneIn>() {}

fn all_copied<T: CloneIn + Item, K: CloneKey, S: KeyHasher>() {
    are_copied::<u8, u16, u32, u64, u128, usize>();
    are_copied::<i8, i16, i32, i64, i128, isize>();
    are_copied::<bool, char, SemanticId, Str, BitSet, Option<T>>();
    are_copied::<Box<T>, BoxSlice<T>, Vec<T>, HashMap<K, T, S>, HashMap<Str, T>, T>();
}

fn ids() -> SemanticId {
    is_plain::<CloneInSemanticIds>();
    SemanticId(9u32)
}

fn is_from<T, F: FromIn<T>>() {}

fn is_into<T: IntoIn<U>, U>() {}

fn all_from<T: Item>() {
    is_from::<T, T>();
    is_from::<String, Str>();
    is_from::<T, Box<T>>();
    is_from::<Option<T>, Option<Box<T>>>();
    is_from::<[u32; 4], Vec<u32>>();
    is_into::<[u32; 4], Vec<u32>>();
}

fn are_dummies<A: Dummy, B: Dummy, C: Dummy, D: Dummy, E: Dummy, F: Dummy, G: Dummy>() {}

fn all_dummies<T: Dummy + Item, U: Item, V>() {
    are_dummies::<u8, u16, u32, u64, u128, usize, bool>();
    are_dummies::<i8, i16, i32, i64, i128, isize, ()>();
    are_dummies::<NonZeroU8, NonZeroU16, NonZeroU32, NonZeroU64, NonZeroU128, NonZeroUsize, Str>();
    are_dummies::<NonZeroI8, NonZeroI16, NonZeroI32, NonZeroI64, NonZeroI128, NonZeroIsize, Str>();
    are_dummies::<Str, Option<V>, Box<T>, BoxSlice<U>, Vec<U>, T, T>();
}

fn converted<T: IntoIn<U> + Drop, U, V: Drop, F: FromIn<V>, D: Dummy, C: ChunkSource>(
    value: T,
    other: V,
    a: &mut Allocator<C>,
) {
    return;
    let _: Grown<U> = value.into_in(a);
    let _: Grown<F> = F::from_in(other, a);
    let _: Grown<D> = D::dummy(a);
}

fn exchanged<T: TakeIn, U: TakeIn + Item, R: ReplaceWith, F: FnOnce(R) -> R + Drop, C: ChunkSource>(
    slot: &mut T,
    other: &mut U,
    third: &mut R,
    replacer: F,
    a: &mut Allocator<C>,
) {
    return;
    let _: Grown<T> = slot.take_in(a);
    let _: Grown<Box<U>> = other.take_in_box(a);
    let _: () = third.replace_with(replacer);
}

fn are_exchanged<A: TakeIn, B: TakeIn>() {}

fn are_replaced<A: ReplaceWith, B: ReplaceWith, C: ReplaceWith, D: ReplaceWith>() {}

fn all_exchanged<T: Item, U: Dummy + Item, V: ReplaceWith>() {
    are_exchanged::<Vec<T>, BoxSlice<T>>();
    are_replaced::<Option<V>, Box<U>, BoxSlice<T>, Vec<T>>();
}
