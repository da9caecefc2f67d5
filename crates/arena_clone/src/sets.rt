// Copies of bit sets.
ghost use Rattle.arena_clone.specs.Kinds.{bit_set};
ghost use Rattle.arena_clone.specs.laws.KindLaws.{bit_set_lawful};

use crate::blocks::place_copy;
use crate::clone_in::CloneIn;
use crate::origin::Origin;
use arena_bits::BitSet;
use arena_chunks::{Allocator, ChunkSource};
use arena_items::{BoxSlice, Grown};
use arena_kinds::CloneInSemanticIds;

impl CloneIn for BitSet {
    ghost kind = { bit_set };

    ghost lawful = { bit_set_lawful };

    fn is_flat(_ids: CloneInSemanticIds) -> bool {
        false
    }

    fn copy_of<O: Origin<D>, D: ChunkSource>(
        &self,
        ids: CloneInSemanticIds,
        from: &O,
        to: &mut Allocator<D>,
    ) -> Grown<Self> {
        // For the proof: the arena's state is valid, and the words have a layout.
        from.arena(to).known();
        let words = self.words.block;
        let block = place_copy(from, words, to, words.size, 8)?;
        Ok(BitSet {
            words: BoxSlice {
                block,
                ..self.words
            },
            ..*self
        })
    }
}
