// Copies of options.
ghost use Rattle.arena_clone.specs.Kinds.{option_of};
ghost use Rattle.arena_clone.specs.laws.KindLaws.{option_lawful};

use crate::clone_in::CloneIn;
use crate::origin::Origin;
use arena_chunks::{Allocator, ChunkSource};
use arena_items::Grown;
use arena_kinds::CloneInSemanticIds;

impl<T: CloneIn> CloneIn for Option<T> {
    ghost kind = { option_of T.kind };

    ghost lawful = { option_lawful T.kind T.lawful };

    fn is_flat(ids: CloneInSemanticIds) -> bool {
        T::is_flat(ids)
    }

    fn copy_of<O: Origin<D>, D: ChunkSource>(
        &self,
        ids: CloneInSemanticIds,
        from: &O,
        to: &mut Allocator<D>,
    ) -> Grown<Self> {
        match self {
            Some(value) => Ok(Some(value.copy_of(ids, from, to)?)),
            None => Ok(None),
        }
    }
}
