// Copies of boxes.
ghost use Rattle.arena_clone.specs.Kinds.{box_of};
ghost use Rattle.arena_clone.specs.laws.KindLaws.{box_lawful};

use crate::clone_in::CloneIn;
use crate::origin::Origin;
use arena_chunks::{Allocator, ChunkSource};
use arena_items::{Box, Grown, Item};
use arena_kinds::{CloneInSemanticIds, place_box};

impl<T: CloneIn + Item> CloneIn for Box<T> {
    ghost kind = { box_of T.Item T.kind };

    ghost lawful = { box_lawful
        (record { is_value = T.is_value; encoded = T.encoded; decoded = T.decoded; SIZE = T.SIZE; ALIGN = T.ALIGN })
        T.kind T.lawful };

    fn is_flat(_ids: CloneInSemanticIds) -> bool {
        false
    }

    fn copy_of<O: Origin<D>, D: ChunkSource>(
        &self,
        ids: CloneInSemanticIds,
        from: &O,
        to: &mut Allocator<D>,
    ) -> Grown<Self> {
        let value = self.get(from.arena(to));
        let copy = value.copy_of(ids, from, to)?;
        place_box(to, copy)
    }
}
