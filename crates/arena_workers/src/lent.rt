// One piece of work on an arena of the pool.
ghost use Rattle.std.specs.Prelude.{MatchBool};
ghost use Rattle.arena_pool.specs.Kinds.{IsUnused};
ghost use Rattle.arena_workers.specs.Working.{LiesLow, LiesHigh, IsKept, IsServed, IsUnserved};

use crate::served::{Served, Starved};
use crate::work::Work;
use arena_chunks::{Allocator, ChunkSource};
use arena_pool::{AllocatorGuard, AllocatorPool, ChunkMaker, PoolName};
use std::alloc::Global;
use std::sync::Wait;

// An arena that grows isn't used any more once its newest chunk ends above this: a later chunk may have no place after
// it.
const HIGH: u64 = 1 << 62;

// An arena with this many bytes shows by itself that work on it was starved.
const LARGE: u64 = 1 << 60;

// Returns whether an arena grows and its newest chunk ends too high for more work.
fn is_high<C: ChunkSource>(a: &Allocator<C>) -> bool
    ensures { MatchBool result (LiesHigh a.now.memory.state) (LiesLow a.now.memory.state) }
{
    a.is_growing() && a.data_end() > HIGH
}

// What is kept of an arena that refused: the arena if it is large, otherwise its source.
fn kept<C: ChunkSource + Drop>(arena: Allocator<C>) -> Starved<C>
    ensures { IsKept C.source arena result }
{
    if arena.capacity() >= LARGE {
        return Starved::Grown(arena);
    }
    let (_, source) = arena.into_parts();
    Starved::Refused(source)
}

// The pool and the work that the workers of one run share.
#[derive(Drop)]
pub(crate) struct Crew<'p, 'w, K: ChunkMaker, L: PoolName, W> {
    pub(crate) alloc: Global,
    pub(crate) pool: &'p AllocatorPool<K, L>,
    pub(crate) work: &'w W,
}

impl<'p, 'w, K: ChunkMaker, L: PoolName, W: Work<K::Chunks>> Crew<'p, 'w, K, L, W> {
    // The result for a piece that there is no memory for.
    pub(crate) fn unserved(&self) -> Served<W::Outcome, K::Chunks>
        ensures { IsUnserved W.terms result }
    {
        Served {
            outcome: self.work.unserved(self.alloc),
            starved: None,
        }
    }

    // Does the work on one piece, on an arena of the pool. An arena whose newest chunk ends too high is given up, and
    // another is taken.
    pub(crate) fn serve<R: Wait>(
        &self,
        rt: &R,
        i: u32,
        piece: &W::Piece,
    ) -> Served<W::Outcome, K::Chunks>
        requires { W.terms.accepts piece.now }
        ensures { IsServed K.Chunks.source L.kind W.terms (i, piece.now) result }
    {
        for _ in rt.forever() {
            let Ok(mut guard) = self.pool.get_wait(rt) else {
                break;
            };
            if !is_high(guard.parts_mut()) {
                return self.serve_on(rt, guard, i, piece);
            }
            let _ = guard.give_up(rt);
        }
        self.unserved()
    }

    // Does the work on one piece, on a lent arena.
    fn serve_on<R: Wait>(
        &self,
        rt: &R,
        mut guard: AllocatorGuard<'_, K, L>,
        i: u32,
        piece: &W::Piece,
    ) -> Served<W::Outcome, K::Chunks>
        requires accepted { W.terms.accepts piece.now }
        requires unused { IsUnused L.kind guard.0 }
        requires low { LiesLow guard.0.memory.state }
        ensures { IsServed K.Chunks.source L.kind W.terms (i, piece.now) result }
    {
        let outcome = self.work.run(self.alloc, guard.parts_mut(), i, piece);
        let starved = if self.work.is_refused(&outcome) {
            Some(kept(guard.give_up(rt)))
        } else {
            guard.put_back(rt);
            None
        };
        Served { outcome, starved }
    }
}
