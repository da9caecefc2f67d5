// Values that can be copied at every depth.
ghost use Rattle.std.specs.Prelude.{◌≡◌};
ghost use Rattle.arena_clone.specs.Kinds.{Kind};
ghost use Rattle.arena_clone.specs.laws.KindLaws.{IsLawful};
ghost use Rattle.arena_clone.specs.Copies.{Copies};

use crate::origin::{Here, Origin};
use arena_chunks::{Allocator, ChunkSource};
use arena_items::Grown;
use arena_kinds::CloneInSemanticIds;

/// A value that can be copied at every depth, into another arena or within its own. The copy has only blocks of its
/// own, and from then on source and copy are independent.
pub trait CloneIn: Sized {
    // What the type's values are at every depth.
    ghost kind: { Kind Self };

    /// Returns whether a value's bytes, copied elsewhere, are a copy of it, exactly as its kind says. If they are, a
    /// row of values is copied in one move of memory.
    fn is_flat(ids: CloneInSemanticIds) -> bool
        ensures { result ≡ kind.is_flat ids };

    /// Copies a value from an origin into an arena. The copy keeps semantic ids if `ids` says so.
    ///
    /// # Errors
    ///
    /// `AllocErr` and `OutOfMemory` as for the arena's `alloc_layout`, at the first block that it refuses, and
    /// `CapacityOverflow` if a vector's values have more than 4,294,967,295 bytes. Blocks that were placed for the copy
    /// stay, unused.
    fn copy_of<O: Origin<D>, D: ChunkSource>(
        &self,
        ids: CloneInSemanticIds,
        from: &O,
        to: &mut Allocator<D>,
    ) -> Grown<Self>
        requires small { kind.is_small }
        requires held { kind.is_held (O.there from.now to.old.memory) self.now }
        ensures { Copies kind ids (O.there from.now to.old.memory) to.old to.new self.now result };

    /// Copies a value into another arena. The copy keeps semantic ids if `ids` says so.
    ///
    /// # Errors
    ///
    /// As for `copy_of`.
    final fn clone_in_impl<C: ChunkSource, D: ChunkSource>(
        &self,
        ids: CloneInSemanticIds,
        from: &Allocator<C>,
        to: &mut Allocator<D>,
    ) -> Grown<Self>
        requires small { kind.is_small }
        requires held { kind.is_held from.now.memory self.now }
        ensures { Copies kind ids from.now.memory to.old to.new self.now result }
    {
        self.copy_of(ids, from, to)
    }

    /// Copies a value within its arena. The copy keeps semantic ids if `ids` says so. The source stays as it is.
    ///
    /// # Errors
    ///
    /// As for `clone_in_impl`.
    final fn clone_within<C: ChunkSource>(
        &self,
        ids: CloneInSemanticIds,
        a: &mut Allocator<C>,
    ) -> Grown<Self>
        requires small { kind.is_small }
        requires held { kind.is_held a.old.memory self.now }
        ensures { Copies kind ids a.old.memory a.old a.new self.now result }
    {
        self.copy_of(ids, &Here, a)
    }

    /// Copies a value into another arena, with 0 for each semantic id.
    ///
    /// # Errors
    ///
    /// As for `clone_in_impl`.
    final fn clone_in<C: ChunkSource, D: ChunkSource>(
        &self,
        from: &Allocator<C>,
        to: &mut Allocator<D>,
    ) -> Grown<Self>
        requires small { kind.is_small }
        requires held { kind.is_held from.now.memory self.now }
        ensures { Copies kind CloneInSemanticIds.Without from.now.memory to.old to.new self.now result }
    {
        self.clone_in_impl(CloneInSemanticIds::Without, from, to)
    }

    /// Copies a value into another arena, with its semantic ids.
    ///
    /// # Errors
    ///
    /// As for `clone_in_impl`.
    final fn clone_in_with_semantic_ids<C: ChunkSource, D: ChunkSource>(
        &self,
        from: &Allocator<C>,
        to: &mut Allocator<D>,
    ) -> Grown<Self>
        requires small { kind.is_small }
        requires held { kind.is_held from.now.memory self.now }
        ensures { Copies kind CloneInSemanticIds.With from.now.memory to.old to.new self.now result }
    {
        self.clone_in_impl(CloneInSemanticIds::With, from, to)
    }

    ghost lawful: { IsLawful kind };
}
