// Semantic ids: their byte form, and their copies.
ghost use Rattle.std.specs.Prelude.{◌≡◌, ◌^◌, ◌<◌, refl};
ghost use Rattle.std.specs.Int.{w32, to_le_bytes, from_le_bytes};
ghost use Rattle.arena_items.specs.laws.LayoutLaws.{plain_4};
ghost use Rattle.arena_items.specs.laws.NumberLaws.{bytes_back};
ghost use Rattle.arena_clone.specs.Kinds.{semantic_id, id_by};
ghost use Rattle.arena_clone.specs.laws.KindLaws.{semantic_id_lawful};

use crate::clone_in::CloneIn;
use crate::origin::Origin;
use arena_chunks::{Allocator, ChunkSource};
use arena_items::{Grown, Item};
use arena_kinds::CloneInSemanticIds;

/// A number by which an analysis identifies a node of a tree. A copy keeps it only if asked to.
#[derive(Clone, Copy, PartialEq, Eq, Debug)]
pub struct SemanticId(pub u32);

impl SemanticId {
    // Returns the id that a copy has.
    #[inline]
    fn copied(self, ids: CloneInSemanticIds) -> SemanticId
        ensures { result.0 ≡ id_by ids self.0 }
    {
        match ids {
            CloneInSemanticIds::With => self,
            CloneInSemanticIds::Without => SemanticId(0),
        }
    }
}

impl Item for SemanticId {
    ghost is_value = { λ id. id.0 < 2 ^ 32 };

    ghost encoded = { λ id. to_le_bytes w32 id.0 };

    ghost decoded = { λ bytes. record { 0 = from_le_bytes w32 bytes } };

    ghost SIZE = { 4 };

    ghost ALIGN = { 4 };

    const SIZE: u64 = 4;

    const ALIGN: u64 = 4;

    ghost round_trip = { λ v h s. λ i. record { 0 = bytes_back 3 v.0 h i } };

    ghost encoded_length = { λ v h s. refl };

    ghost layout = { plain_4 };

    fn known(&self) {
        let _number = self.0;
    }

    fn encode(self, out: &mut [u8]) {
        self.0.encode(out);
    }

    fn decode(bytes: &[u8]) -> Self {
        SemanticId(u32::decode(bytes))
    }
}

impl CloneIn for SemanticId {
    ghost kind = { semantic_id };

    ghost lawful = { semantic_id_lawful };

    fn is_flat(ids: CloneInSemanticIds) -> bool {
        match ids {
            CloneInSemanticIds::With => true,
            CloneInSemanticIds::Without => false,
        }
    }

    fn copy_of<O: Origin<D>, D: ChunkSource>(
        &self,
        ids: CloneInSemanticIds,
        _from: &O,
        _to: &mut Allocator<D>,
    ) -> Grown<Self> {
        Ok(self.copied(ids))
    }
}
