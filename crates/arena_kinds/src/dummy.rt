// Values that take the place of others.
ghost use Rattle.std.specs.Prelude.{[], ◌∷◌, ◌++◌, None, List};
ghost use Rattle.arena_kinds.specs.Kinds.{Kind, plain, option_of, box_of, slice_of, vec_of, text};
ghost use Rattle.arena_kinds.specs.laws.KindLaws.{IsLawful, plain_lawful, option_lawful, box_lawful, slice_lawful, vec_lawful, text_lawful};
ghost use Rattle.arena_kinds.specs.Asks.{Ask};
ghost use Rattle.arena_kinds.specs.Asks.Ask.{Room, Empty};
ghost use Rattle.arena_kinds.specs.Copies.{MakesNew};

mod non_zero;
mod numbers;

use crate::boxes::place_box;
use arena_chunks::{Allocator, Block, ChunkSource, Str};
use arena_items::{Box, BoxSlice, Grown, Item};
use arena_vec::Vec;

/// A type with a dummy: a value that takes the place of one that was taken out.
pub trait Dummy: Sized {
    // What the type's values are at every depth.
    ghost kind: { Kind Self };

    // What a dummy means at every depth.
    ghost meaning: { kind.Whole };

    // What a dummy asks of the arena.
    ghost asks: { List Ask };

    /// Returns a dummy.
    ///
    /// # Errors
    ///
    /// As for the arena's `alloc_layout`. Blocks that were placed before stay, unused.
    fn dummy<C: ChunkSource>(a: &mut Allocator<C>) -> Grown<Self>
        requires { kind.is_small }
        ensures { MakesNew kind meaning asks a.old a.new result };

    ghost lawful: { IsLawful kind };
}

impl<T> Dummy for Option<T> {
    ghost kind = { option_of plain };

    ghost meaning = { None };

    ghost asks = { [] };

    ghost lawful = { option_lawful plain plain_lawful };

    fn dummy<C: ChunkSource>(_a: &mut Allocator<C>) -> Grown<Self> {
        Ok(None)
    }
}

impl<T: Dummy + Item> Dummy for Box<T> {
    ghost kind = { box_of T.Item T.kind };

    ghost meaning = { T.meaning };

    ghost asks = { T.asks ++ Room T.SIZE T.ALIGN ∷ [] };

    ghost lawful = { box_lawful
        (record { is_value = T.is_value; encoded = T.encoded; decoded = T.decoded; SIZE = T.SIZE; ALIGN = T.ALIGN })
        T.kind T.lawful };

    fn dummy<C: ChunkSource>(a: &mut Allocator<C>) -> Grown<Self> {
        let value = T::dummy(a)?;
        place_box(a, value)
    }
}

impl<T: Item> Dummy for BoxSlice<T> {
    ghost kind = { slice_of T.Item plain };

    ghost meaning = { [] };

    ghost asks = { Empty T.ALIGN ∷ [] };

    ghost lawful = { slice_lawful
        (record { is_value = T.is_value; encoded = T.encoded; decoded = T.decoded; SIZE = T.SIZE; ALIGN = T.ALIGN })
        plain plain_lawful };

    fn dummy<C: ChunkSource>(_a: &mut Allocator<C>) -> Grown<Self> {
        Ok(BoxSlice::new_empty_boxed_slice())
    }
}

impl<T: Item> Dummy for Vec<T> {
    ghost kind = { vec_of T.Item plain };

    ghost meaning = { [] };

    ghost asks = { Empty T.ALIGN ∷ [] };

    ghost lawful = { vec_lawful
        (record { is_value = T.is_value; encoded = T.encoded; decoded = T.decoded; SIZE = T.SIZE; ALIGN = T.ALIGN })
        plain plain_lawful };

    fn dummy<C: ChunkSource>(_a: &mut Allocator<C>) -> Grown<Self> {
        Ok(Vec::new_in())
    }
}

#[tactic(auto, unfolding(arena_store::specs::Memory::bytes_from))]
impl Dummy for Str {
    ghost kind = { text };

    ghost meaning = { [] };

    ghost asks = { Empty 1 ∷ [] };

    ghost lawful = { text_lawful };

    fn dummy<C: ChunkSource>(_a: &mut Allocator<C>) -> Grown<Self> {
        let block = Block::empty(1);
        Ok(Str { block })
    }
}
