// Copies of vectors.
ghost use Rattle.arena_clone.specs.Kinds.{vec_of};
ghost use Rattle.arena_clone.specs.laws.KindLaws.{vec_lawful};

use crate::clone_in::CloneIn;
use crate::origin::Origin;
use crate::rows::{Row, copy_row};
use arena_chunks::{Allocator, ChunkSource};
use arena_items::{Grown, Item};
use arena_kinds::CloneInSemanticIds;
use arena_vec::Vec;

impl<T: CloneIn + Item> CloneIn for Vec<T> {
    ghost kind = { vec_of T.Item T.kind };

    ghost lawful = { vec_lawful
        (record { is_value = T.is_value; encoded = T.encoded; decoded = T.decoded; SIZE = T.SIZE; ALIGN = T.ALIGN })
        T.kind T.lawful };

    fn is_flat(_ids: CloneInSemanticIds) -> bool {
        false
    }

    fn copy_of<O: Origin<D>, D: ChunkSource>(
        &self,
        ids: CloneInSemanticIds,
        from: &O,
        to: &mut Allocator<D>,
    ) -> Grown<Self> {
        let mut copy = Vec::with_capacity_in(self.raw.len as u64, to)?;
        let row = Row {
            source: self.raw.block,
            count: self.raw.len as u64,
            target: copy.raw.block,
        };
        copy_row::<T, O, D>(row, ids, from, to)?;
        copy.raw.len = self.raw.len;
        Ok(copy)
    }
}
