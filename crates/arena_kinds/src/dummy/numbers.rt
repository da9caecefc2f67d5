// The dummies of numbers, of bool and of ().
ghost use Rattle.std.specs.Prelude.{[], false, pos};
ghost use Rattle.arena_kinds.specs.Kinds.{plain};
ghost use Rattle.arena_kinds.specs.laws.KindLaws.{plain_lawful};

use crate::dummy::Dummy;
use arena_chunks::{Allocator, ChunkSource};
use arena_items::Grown;

impl Dummy for () {
    ghost kind = { plain };

    ghost meaning = { tt };

    ghost asks = { [] };

    ghost lawful = { plain_lawful };

    fn dummy<C: ChunkSource>(_a: &mut Allocator<C>) -> Grown<Self> {
        Ok(())
    }
}

impl Dummy for bool {
    ghost kind = { plain };

    ghost meaning = { false };

    ghost asks = { [] };

    ghost lawful = { plain_lawful };

    fn dummy<C: ChunkSource>(_a: &mut Allocator<C>) -> Grown<Self> {
        Ok(false)
    }
}

impl Dummy for u8 {
    ghost kind = { plain };

    ghost meaning = { 0 };

    ghost asks = { [] };

    ghost lawful = { plain_lawful };

    fn dummy<C: ChunkSource>(_a: &mut Allocator<C>) -> Grown<Self> {
        Ok(0)
    }
}

impl Dummy for u16 {
    ghost kind = { plain };

    ghost meaning = { 0 };

    ghost asks = { [] };

    ghost lawful = { plain_lawful };

    fn dummy<C: ChunkSource>(_a: &mut Allocator<C>) -> Grown<Self> {
        Ok(0)
    }
}

impl Dummy for u32 {
    ghost kind = { plain };

    ghost meaning = { 0 };

    ghost asks = { [] };

    ghost lawful = { plain_lawful };

    fn dummy<C: ChunkSource>(_a: &mut Allocator<C>) -> Grown<Self> {
        Ok(0)
    }
}

impl Dummy for u64 {
    ghost kind = { plain };

    ghost meaning = { 0 };

    ghost asks = { [] };

    ghost lawful = { plain_lawful };

    fn dummy<C: ChunkSource>(_a: &mut Allocator<C>) -> Grown<Self> {
        Ok(0)
    }
}

impl Dummy for u128 {
    ghost kind = { plain };

    ghost meaning = { 0 };

    ghost asks = { [] };

    ghost lawful = { plain_lawful };

    fn dummy<C: ChunkSource>(_a: &mut Allocator<C>) -> Grown<Self> {
        Ok(0)
    }
}

impl Dummy for usize {
    ghost kind = { plain };

    ghost meaning = { 0 };

    ghost asks = { [] };

    ghost lawful = { plain_lawful };

    fn dummy<C: ChunkSource>(_a: &mut Allocator<C>) -> Grown<Self> {
        Ok(0)
    }
}

impl Dummy for i8 {
    ghost kind = { plain };

    ghost meaning = { pos 0 };

    ghost asks = { [] };

    ghost lawful = { plain_lawful };

    fn dummy<C: ChunkSource>(_a: &mut Allocator<C>) -> Grown<Self> {
        Ok(0)
    }
}

impl Dummy for i16 {
    ghost kind = { plain };

    ghost meaning = { pos 0 };

    ghost asks = { [] };

    ghost lawful = { plain_lawful };

    fn dummy<C: ChunkSource>(_a: &mut Allocator<C>) -> Grown<Self> {
        Ok(0)
    }
}

impl Dummy for i32 {
    ghost kind = { plain };

    ghost meaning = { pos 0 };

    ghost asks = { [] };

    ghost lawful = { plain_lawful };

    fn dummy<C: ChunkSource>(_a: &mut Allocator<C>) -> Grown<Self> {
        Ok(0)
    }
}

impl Dummy for i64 {
    ghost kind = { plain };

    ghost meaning = { pos 0 };

    ghost asks = { [] };

    ghost lawful = { plain_lawful };

    fn dummy<C: ChunkSource>(_a: &mut Allocator<C>) -> Grown<Self> {
        Ok(0)
    }
}

impl Dummy for i128 {
    ghost kind = { plain };

    ghost meaning = { pos 0 };

    ghost asks = { [] };

    ghost lawful = { plain_lawful };

    fn dummy<C: ChunkSource>(_a: &mut Allocator<C>) -> Grown<Self> {
        Ok(0)
    }
}

impl Dummy for isize {
    ghost kind = { plain };

    ghost meaning = { pos 0 };

    ghost asks = { [] };

    ghost lawful = { plain_lawful };

    fn dummy<C: ChunkSource>(_a: &mut Allocator<C>) -> Grown<Self> {
        Ok(0)
    }
}
