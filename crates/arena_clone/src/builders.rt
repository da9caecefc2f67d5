// Copies of text builders.
ghost use Rattle.arena_clone.specs.Kinds.{builder};
ghost use Rattle.arena_clone.specs.laws.KindLaws.{builder_lawful};

use crate::clone_in::CloneIn;
use crate::origin::Origin;
use arena_chunks::{Allocator, ChunkSource};
use arena_items::Grown;
use arena_kinds::CloneInSemanticIds;
use arena_text::StringBuilder;

impl CloneIn for StringBuilder {
    ghost kind = { builder };

    ghost lawful = { builder_lawful };

    fn is_flat(_ids: CloneInSemanticIds) -> bool {
        false
    }

    fn copy_of<O: Origin<D>, D: ChunkSource>(
        &self,
        ids: CloneInSemanticIds,
        from: &O,
        to: &mut Allocator<D>,
    ) -> Grown<Self> {
        let mut copy = StringBuilder::with_capacity_in(self.len, to)?;
        from.copy_front(self.block, to, copy.block, self.len);
        copy.len = copy.cap;
        Ok(copy)
    }
}
