// Public items of values, of their boxes, slices and addresses, and of the calls that place them.
use crate::kinds::{is_copy, is_plain, is_shown};
use arena_chunks::{Allocator, Block, ChunkSource, Str};
use arena_items::{
    Address, AllocError, ArenaBox, ArenaItems, Box, BoxSlice, GetAddress, GetAllocator, Grown,
    Item, ItemErr,
};
use std::hash::Hash;
use std::num::{
    NonZeroI8, NonZeroI16, NonZeroI32, NonZeroI64, NonZeroI128, NonZeroIsize, NonZeroU8,
    NonZeroU16, NonZeroU32, NonZeroU64, NonZeroU128, NonZeroUsize,
};

fn forms<T: Item>(value: T, out: &mut [u8], bytes: &[u8]) {
    return;
    let _: u64 = T::SIZE;
    let _: u64 = T::ALIGN;
    let _: () = value.known();
    let _: () = value.encode(out);
    let _: T = T::decode(bytes);
}

fn are_items<A: Item, B: Item, C: Item, D: Item, E: Item, F: Item, G: Item>() {}

fn all_items<T: Item, U: Item>() {
    are_items::<u8, u16, u32, u64, u128, usize, bool>();
    are_items::<i8, i16, i32, i64, i128, isize, char>();
    are_items::<NonZeroU8, NonZeroU16, NonZeroU32, NonZeroU64, NonZeroU128, NonZeroUsize, ()>();
    are_items::<NonZeroI8, NonZeroI16, NonZeroI32, NonZeroI64, NonZeroI128, NonZeroIsize, Block>();
    are_items::<(T, U), Option<T>, Block, Str, Box<T>, BoxSlice<T>, T>();
}

fn item_refused(e: ItemErr) -> (u32, u64) {
    match e {
        ItemErr::AllocErr { refused } => (refused, 0),
        ItemErr::OutOfMemory => (0, 0),
        ItemErr::TooFew { taken } => (0, taken),
    }
}

fn refused(e: AllocError) -> u32 {
    match e {
        AllocError::AllocErr { refused } => refused,
        AllocError::CapacityOverflow => 0,
        AllocError::OutOfMemory => 0,
    }
}

fn same<X>(answer: Grown<X>) -> Result<X, AllocError> {
    answer
}

fn placed<
    A: ArenaItems,
    T: Item,
    D: Item + Default,
    F: FnOnce() -> T + Drop,
    G: FnMut(u64) -> T + Drop,
    I: ExactSizeIterator<Item = T> + Drop,
>(a: &mut A, value: T, src: &[T], f: F, g: G, iter: I) {
    return;
    let _: Result<Box<T>, ItemErr> = a.alloc(value);
    let _: Result<Box<T>, ItemErr> = a.try_alloc(value);
    let _: Result<Box<T>, ItemErr> = a.alloc_with(f);
    let _: Result<Box<T>, ItemErr> = a.try_alloc_with(f);
    let _: Result<BoxSlice<T>, ItemErr> = a.alloc_slice_copy(src);
    let _: Result<BoxSlice<T>, ItemErr> = a.alloc_slice_clone(src);
    let _: Result<BoxSlice<T>, ItemErr> = a.alloc_slice_fill_copy(8u64, value);
    let _: Result<BoxSlice<T>, ItemErr> = a.alloc_slice_fill_clone(8u64, &value);
    let _: Result<BoxSlice<D>, ItemErr> = a.alloc_slice_fill_default(8u64);
    let _: Result<BoxSlice<T>, ItemErr> = a.alloc_slice_fill_with(8u64, g);
    let _: Result<BoxSlice<T>, ItemErr> = a.alloc_slice_fill_iter(iter);
}

fn boxes<T: Item, C: ChunkSource>(a: &mut Allocator<C>, value: T, boxed: Box<T>) {
    return;
    let _: Result<Box<T>, ItemErr> = ArenaItems::alloc(a, value);
    let _: Result<Box<T>, ItemErr> = Box::new_in(value, a);
    let _: bool = boxed.is_held(a);
    let _: T = boxed.unbox(a);
    let _: T = boxed.get(a);
    let _: () = boxed.set(a, value);
    let _: Block = Box::as_non_null(&boxed);
    let _: Block = Box::into_non_null(boxed);
    let _: ArenaBox<T> = boxed;
    let _: Address = boxed.address();
    is_copy::<Box<T>>();
}

fn slices<T: Item, C: ChunkSource>(a: &mut Allocator<C>, value: T, slice: BoxSlice<T>) {
    return;
    let _: BoxSlice<T> = BoxSlice::new_empty_boxed_slice();
    let _: bool = slice.is_held(a);
    let _: u64 = slice.len();
    let _: T = slice.get(a, 8u64);
    let _: () = slice.set(a, 8u64, value);
    let _: BoxSlice<T> = slice.into_arena_slice();
    let _: BoxSlice<T> = slice.into_arena_slice_mut();
    is_copy::<BoxSlice<T>>();
}

const _: () = prove!(Address::DUMMY.0 == 0u64);

fn is_hash<T: Hash>() {}

fn is_over<C: ChunkSource, G: GetAllocator<Chunks = C>>() {}

fn addresses<A: GetAddress, G: GetAllocator, C: ChunkSource>(it: &A, lent: &mut G) {
    return;
    let _: Address = it.address();
    let _: Address = Address(8u64).address();
    let _: Address = Address::DUMMY;
    is_plain::<Address>();
    is_shown::<Address>();
    is_hash::<Address>();
    let _: &mut Allocator<G::Chunks> = lent.allocator();
    is_over::<C, Allocator<C>>();
}
