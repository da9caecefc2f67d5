// Copies of boxed slices.
ghost use Rattle.arena_clone.specs.Kinds.{slice_of};
ghost use Rattle.arena_clone.specs.laws.KindLaws.{slice_lawful};

use crate::blocks::place;
use crate::clone_in::CloneIn;
use crate::origin::Origin;
use crate::rows::{Row, copy_row};
use arena_chunks::{Allocator, ChunkSource};
use arena_items::{BoxSlice, Grown, Item};
use arena_kinds::CloneInSemanticIds;
use std::marker::PhantomData;

impl<T: CloneIn + Item> CloneIn for BoxSlice<T> {
    ghost kind = { slice_of T.Item T.kind };

    ghost lawful = { slice_lawful
        (record { is_value = T.is_value; encoded = T.encoded; decoded = T.decoded; SIZE = T.SIZE; ALIGN = T.ALIGN })
        T.kind T.lawful };

    fn is_flat(_ids: CloneInSemanticIds) -> bool {
        false
    }

    fn copy_of<O: Origin<D>, D: ChunkSource>(
        &self,
        ids: CloneInSemanticIds,
        from: &O,
        to: &mut Allocator<D>,
    ) -> Grown<Self> {
        // For the proof: the arena's state is valid, and the slice has a layout.
        from.arena(to).known();
        let target = place(to, self.length * T::SIZE, T::ALIGN)?;
        let row = Row {
            source: self.block,
            count: self.length,
            target,
        };
        copy_row::<T, O, D>(row, ids, from, to)?;
        Ok(BoxSlice {
            block: target,
            length: self.length,
            of: PhantomData,
        })
    }
}
