// What is done with a lent arena.
ghost use Rattle.std.specs.Prelude.{◌≡◌, false};
ghost use Rattle.arena_rules.specs.State.{used_bytes};
ghost use Rattle.arena_pool.specs.Kinds.{IsOfKind};
ghost use Rattle.arena_pool.specs.declared.kind.PoolKind.{PoolKind};

use arena_chunks::{Allocator, ChunkSource};
use std::alloc::Global;

/// A kind of work. Each piece is done on an arena with no bytes in use.
pub trait Work<C: ChunkSource> {
    ghost use Rattle.arena_workers.specs.Working.{Terms};

    /// A piece of work.
    type Piece: Sync;

    /// The outcome of a piece.
    type Outcome: Drop + Send;

    // The requirements on a piece, and what is known of the outcome.
    ghost terms: { Terms Self.Piece Self.Outcome };

    /// Does the work on the piece with this number, from 0. The arena keeps its kind.
    fn run(&self, alloc: Global, a: &mut Allocator<C>, i: u32, piece: &Self::Piece) -> Self::Outcome
        requires unused { used_bytes a.old.memory.state ≡ 0 }
        requires accepted { terms.accepts piece.now }
        ensures done { terms.done i piece.now a.old a.new result }
        ensures kind { (kind : PoolKind) → IsOfKind kind a.old.memory.state → IsOfKind kind a.new.memory.state };

    /// Returns the outcome of a piece that no worker had the memory to begin. It doesn't say that an arena refused. It
    /// should take no memory.
    fn unserved(&self, alloc: Global) -> Self::Outcome
        ensures unserved { terms.unserved result }
        ensures other { terms.is_refused result ≡ false };

    /// Returns whether the outcome says that an arena that grows refused a block. Such an arena isn't put back.
    fn is_refused(&self, outcome: &Self::Outcome) -> bool
        ensures { result ≡ terms.is_refused outcome.now };
}
