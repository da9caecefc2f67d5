// A tree of the caller's own types, which is copied part by part.
ghost use Rattle.arena_clone.specs.Kinds.{vec_of};
ghost use Rattle.example_collections.specs.Branches.{branch_of};
ghost use Rattle.example_collections.specs.laws.BranchLaws.{branch_lawful};

use arena_chunks::{Allocator, ChunkSource, Str};
use arena_clone::{CloneIn, CloneInSemanticIds, Grown, Origin, SemanticId};
use arena_items::Item;
use arena_vec::Vec;

/// A branch of a tree: its name, the id that an analysis gives it, and its leaves.
#[derive(Clone, Copy)]
pub struct Branch<L> {
    pub name: Str,
    pub id: SemanticId,
    pub leaves: Vec<L>,
}

impl<L: CloneIn + Item> CloneIn for Branch<L> {
    ghost kind = { branch_of (vec_of L.Item L.kind) };

    ghost lawful = { branch_lawful
        (record { is_value = L.is_value; encoded = L.encoded; decoded = L.decoded; SIZE = L.SIZE; ALIGN = L.ALIGN })
        L.kind L.lawful };

    fn is_flat(_ids: CloneInSemanticIds) -> bool {
        false
    }

    fn copy_of<O: Origin<D>, D: ChunkSource>(
        &self,
        ids: CloneInSemanticIds,
        from: &O,
        to: &mut Allocator<D>,
    ) -> Grown<Self> {
        let name = self.name.copy_of(ids, from, to)?;
        let id = self.id.copy_of(ids, from, to)?;
        let leaves = self.leaves.copy_of(ids, from, to)?;
        Ok(Branch { name, id, leaves })
    }
}
