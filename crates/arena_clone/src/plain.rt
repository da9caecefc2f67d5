// Values without handles: each is its own copy.
ghost use Rattle.std.specs.Prelude.{true};
ghost use Rattle.arena_clone.specs.Kinds.{plain};
ghost use Rattle.arena_clone.specs.laws.KindLaws.{plain_lawful};

use crate::clone_in::CloneIn;
use crate::origin::Origin;
use arena_chunks::{Allocator, ChunkSource};
use arena_items::Grown;
use arena_kinds::CloneInSemanticIds;
use std::num::{
    NonZeroI8, NonZeroI16, NonZeroI32, NonZeroI64, NonZeroI128, NonZeroIsize, NonZeroU8,
    NonZeroU16, NonZeroU32, NonZeroU64, NonZeroU128, NonZeroUsize,
};

/// A marker for types whose values hold no handle: the copy of a value is the value itself, in any arena. A type with a
/// handle in it needs an implementation of `CloneIn`: marked as plain, its copy would name the block of its source.
pub trait Plain: Copy {}

impl<T: Plain> CloneIn for T {
    ghost kind = { plain };

    ghost lawful = { plain_lawful };

    fn is_flat(_ids: CloneInSemanticIds) -> bool {
        true
    }

    fn copy_of<O: Origin<D>, D: ChunkSource>(
        &self,
        _ids: CloneInSemanticIds,
        _from: &O,
        _to: &mut Allocator<D>,
    ) -> Grown<Self> {
        Ok(*self)
    }
}

impl Plain for () {}

impl Plain for bool {}

impl Plain for char {}

impl Plain for u8 {}

impl Plain for u16 {}

impl Plain for u32 {}

impl Plain for u64 {}

impl Plain for u128 {}

impl Plain for usize {}

impl Plain for i8 {}

impl Plain for i16 {}

impl Plain for i32 {}

impl Plain for i64 {}

impl Plain for i128 {}

impl Plain for isize {}

impl Plain for NonZeroU8 {}

impl Plain for NonZeroU16 {}

impl Plain for NonZeroU32 {}

impl Plain for NonZeroU64 {}

impl Plain for NonZeroU128 {}

impl Plain for NonZeroUsize {}

impl Plain for NonZeroI8 {}

impl Plain for NonZeroI16 {}

impl Plain for NonZeroI32 {}

impl Plain for NonZeroI64 {}

impl Plain for NonZeroI128 {}

impl Plain for NonZeroIsize {}

impl<A: Plain, B: Plain> Plain for (A, B) {}
