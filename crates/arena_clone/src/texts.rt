// Copies of texts.
ghost use Rattle.arena_clone.specs.Kinds.{text};
ghost use Rattle.arena_clone.specs.laws.KindLaws.{text_lawful};

use crate::blocks::place_copy;
use crate::clone_in::CloneIn;
use crate::origin::Origin;
use arena_chunks::{Allocator, ChunkSource, Str};
use arena_items::Grown;
use arena_kinds::CloneInSemanticIds;

impl CloneIn for Str {
    ghost kind = { text };

    ghost lawful = { text_lawful };

    fn is_flat(_ids: CloneInSemanticIds) -> bool {
        false
    }

    fn copy_of<O: Origin<D>, D: ChunkSource>(
        &self,
        ids: CloneInSemanticIds,
        from: &O,
        to: &mut Allocator<D>,
    ) -> Grown<Self> {
        // For the proof: the arena's state is valid, and the text has a layout.
        from.arena(to).known();
        let block = place_copy(from, self.block, to, self.block.size, 1)?;
        Ok(Str { block })
    }
}
