// Taking values out of their place, and leaving a dummy.
ghost use Rattle.std.specs.Prelude.{◌^◌, ◌≤◌};
ghost use Rattle.arena_kinds.specs.Dummies.{TakesOut, TakesBox};

use crate::boxes::place_box;
use crate::dummy::Dummy;
use arena_chunks::{Allocator, ChunkSource};
use arena_items::{Box, BoxSlice, Grown, Item};
use arena_vec::Vec;
use std::mem;

/// A value that can be taken out, and leaves a dummy.
pub trait TakeIn: Dummy {
    /// Takes the value out, and leaves a dummy in its place.
    ///
    /// # Errors
    ///
    /// As for `dummy`. The value stays in its place.
    final fn take_in<C: ChunkSource>(&mut self, a: &mut Allocator<C>) -> Grown<Self>
        requires { Self.kind.is_small }
        ensures { TakesOut Self.kind Self.meaning Self.asks a.old a.new self.old self.new result }
    {
        let dummy = Self::dummy(a)?;
        Ok(mem::replace(self, dummy))
    }

    /// Takes the value out into a new box, and leaves a dummy in its place.
    ///
    /// # Errors
    ///
    /// As for `dummy` and `alloc`. The value stays in its place.
    final fn take_in_box<C: ChunkSource>(&mut self, a: &mut Allocator<C>) -> Grown<Box<Self>>
    where
        Self: Item,
        requires kind { Self.kind.is_small }
        requires small { Self.SIZE ≤ 2 ^ 24 }
        ensures { TakesBox Self.Item Self.kind Self.meaning Self.asks a.old a.new self.old self.new result }
    {
        let dummy = Self::dummy(a)?;
        let boxed = place_box(a, *self)?;
        *self = dummy;
        Ok(boxed)
    }
}

impl<T: Item> TakeIn for BoxSlice<T> {}

impl<T: Item> TakeIn for Vec<T> {}
