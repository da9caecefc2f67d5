// The dummies of numbers that are not 0: the minimum of each type.
ghost use Rattle.std.specs.Prelude.{[], pos};
ghost use Rattle.arena_kinds.specs.Kinds.{plain};
ghost use Rattle.arena_kinds.specs.laws.KindLaws.{plain_lawful};
ghost use Rattle.arena_items.specs.NonZeroForms.{non_zero_u8, non_zero_u16, non_zero_u32, non_zero_u64, non_zero_u128, non_zero_usize, non_zero_i8, non_zero_i16, non_zero_i32, non_zero_i64, non_zero_i128, non_zero_isize};

use crate::dummy::Dummy;
use arena_chunks::{Allocator, ChunkSource};
use arena_items::Grown;
use std::num::{
    NonZeroI8, NonZeroI16, NonZeroI32, NonZeroI64, NonZeroI128, NonZeroIsize, NonZeroU8,
    NonZeroU16, NonZeroU32, NonZeroU64, NonZeroU128, NonZeroUsize,
};

impl Dummy for NonZeroU8 {
    ghost kind = { plain };

    ghost meaning = { non_zero_u8 0 };

    ghost asks = { [] };

    ghost lawful = { plain_lawful };

    fn dummy<C: ChunkSource>(_a: &mut Allocator<C>) -> Grown<Self> {
        Ok(NonZeroU8::MIN)
    }
}

impl Dummy for NonZeroU16 {
    ghost kind = { plain };

    ghost meaning = { non_zero_u16 0 };

    ghost asks = { [] };

    ghost lawful = { plain_lawful };

    fn dummy<C: ChunkSource>(_a: &mut Allocator<C>) -> Grown<Self> {
        Ok(NonZeroU16::MIN)
    }
}

impl Dummy for NonZeroU32 {
    ghost kind = { plain };

    ghost meaning = { non_zero_u32 0 };

    ghost asks = { [] };

    ghost lawful = { plain_lawful };

    fn dummy<C: ChunkSource>(_a: &mut Allocator<C>) -> Grown<Self> {
        Ok(NonZeroU32::MIN)
    }
}

impl Dummy for NonZeroU64 {
    ghost kind = { plain };

    ghost meaning = { non_zero_u64 0 };

    ghost asks = { [] };

    ghost lawful = { plain_lawful };

    fn dummy<C: ChunkSource>(_a: &mut Allocator<C>) -> Grown<Self> {
        Ok(NonZeroU64::MIN)
    }
}

impl Dummy for NonZeroU128 {
    ghost kind = { plain };

    ghost meaning = { non_zero_u128 0 };

    ghost asks = { [] };

    ghost lawful = { plain_lawful };

    fn dummy<C: ChunkSource>(_a: &mut Allocator<C>) -> Grown<Self> {
        Ok(NonZeroU128::MIN)
    }
}

impl Dummy for NonZeroUsize {
    ghost kind = { plain };

    ghost meaning = { non_zero_usize 0 };

    ghost asks = { [] };

    ghost lawful = { plain_lawful };

    fn dummy<C: ChunkSource>(_a: &mut Allocator<C>) -> Grown<Self> {
        Ok(NonZeroUsize::MIN)
    }
}

impl Dummy for NonZeroI8 {
    ghost kind = { plain };

    ghost meaning = { non_zero_i8 (pos 0) };

    ghost asks = { [] };

    ghost lawful = { plain_lawful };

    fn dummy<C: ChunkSource>(_a: &mut Allocator<C>) -> Grown<Self> {
        Ok(NonZeroI8::MIN)
    }
}

impl Dummy for NonZeroI16 {
    ghost kind = { plain };

    ghost meaning = { non_zero_i16 (pos 0) };

    ghost asks = { [] };

    ghost lawful = { plain_lawful };

    fn dummy<C: ChunkSource>(_a: &mut Allocator<C>) -> Grown<Self> {
        Ok(NonZeroI16::MIN)
    }
}

impl Dummy for NonZeroI32 {
    ghost kind = { plain };

    ghost meaning = { non_zero_i32 (pos 0) };

    ghost asks = { [] };

    ghost lawful = { plain_lawful };

    fn dummy<C: ChunkSource>(_a: &mut Allocator<C>) -> Grown<Self> {
        Ok(NonZeroI32::MIN)
    }
}

impl Dummy for NonZeroI64 {
    ghost kind = { plain };

    ghost meaning = { non_zero_i64 (pos 0) };

    ghost asks = { [] };

    ghost lawful = { plain_lawful };

    fn dummy<C: ChunkSource>(_a: &mut Allocator<C>) -> Grown<Self> {
        Ok(NonZeroI64::MIN)
    }
}

impl Dummy for NonZeroI128 {
    ghost kind = { plain };

    ghost meaning = { non_zero_i128 (pos 0) };

    ghost asks = { [] };

    ghost lawful = { plain_lawful };

    fn dummy<C: ChunkSource>(_a: &mut Allocator<C>) -> Grown<Self> {
        Ok(NonZeroI128::MIN)
    }
}

impl Dummy for NonZeroIsize {
    ghost kind = { plain };

    ghost meaning = { non_zero_isize (pos 0) };

    ghost asks = { [] };

    ghost lawful = { plain_lawful };

    fn dummy<C: ChunkSource>(_a: &mut Allocator<C>) -> Grown<Self> {
        Ok(NonZeroIsize::MIN)
    }
}
