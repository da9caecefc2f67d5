// A handle of several kinds, which refers to one block or two.
ghost use Rattle.std.specs.Prelude.{◌≡◌, ℕ, ◌⊎◌, ◌^◌, ◌≤◌, [], ◌∷◌, List, refl};
ghost use Rattle.arena_chunks.specs.Frame.{AreAllApart};
ghost use Rattle.arena_items.specs.Values.{IsBoxIn, IsSliceIn, box_value, slice_list};
ghost use Rattle.example_blocks.specs.Objects.{blocks, is_object, meaning};
ghost use Rattle.example_blocks.specs.laws.ObjectLaws.{object_readable, object_meaning, object_again};

use arena_chunks::{Allocator, ChunkSource, Str};
use arena_items::laws::frame_law;
use arena_items::{Box, BoxSlice, InArena, Item};

/// An object of a script: a number in a box, or a slice of numbers with a title.
#[derive(Clone, Copy)]
pub enum Object {
    /// A number.
    Number { of: Box<u32> },
    /// Numbers and their title, in a block each.
    Titled { title: Str, of: BoxSlice<u32> },
}

impl InArena for Object {
    ghost Meaning = { ℕ ⊎ (List ℕ × List ℕ) };

    ghost footprint = { λ m v. blocks v };

    ghost is_held = { is_object ⟦<u32 as Item>⟧ };

    ghost means = { meaning ⟦<u32 as Item>⟧ };

    ghost readable = { object_readable ⟦<u32 as Item>⟧ };

    ghost same_footprint = { λ a c v agree. refl };

    ghost same_meaning = { object_meaning ⟦<u32 as Item>⟧ };

    ghost held_again = { λ a c v held agree readable. object_again ⟦<u32 as Item>⟧ a c v held readable };
}

/// Sets a box's value. Two other handles, which one law covers as a pair, are still held and mean the same.
pub fn set_beside_both<T: Item, U: Item, W: Item, C: ChunkSource>(
    a: &mut Allocator<C>,
    one: Box<T>,
    others: (Box<U>, BoxSlice<W>),
    value: T,
)
    requires small { T.SIZE ≤ 2 ^ 24 }
    requires one { IsBoxIn T.Item a.old.memory one }
    requires first { IsBoxIn U.Item a.old.memory others.0 }
    requires second { IsSliceIn W.Item a.old.memory others.1 }
    requires apart { AreAllApart (others.0.block ∷ others.1.block ∷ []) (one.block ∷ []) }
    ensures one { box_value T.Item a.new.memory one ≡ value }
    ensures held { IsBoxIn U.Item a.new.memory others.0 × IsSliceIn W.Item a.new.memory others.1 }
    ensures first { box_value U.Item a.new.memory others.0 ≡ box_value U.Item a.old.memory others.0 }
    ensures second { slice_list W.Item a.new.memory others.1 ≡ slice_list W.Item a.old.memory others.1 }
{
    frame_law::<(Box<U>, BoxSlice<W>)>();
    one.set(a, value);
}
