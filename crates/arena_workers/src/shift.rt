// What one worker does.
ghost use Rattle.std.specs.Prelude.{◌≡◌, ◌<◌, ◌^◌, All, length};
ghost use Rattle.std.specs.List.{enumerate_from};
ghost use Rattle.arena_workers.specs.Working.{IsServed};
ghost use Rattle.arena_workers.specs.Order.{IsShift};

use crate::gate::Gate;
use crate::lent::Crew;
use crate::served::Served;
use crate::work::Work;
use arena_pool::{ChunkMaker, ClaimSeat, Claims, PoolName};
use std::sync::Wait;

// The results of the pieces that one worker claimed, each with the number of its piece.
pub(crate) type Shift<O, C> = Vec<(usize, Served<O, C>)>;

impl<'p, 'w, K: ChunkMaker, L: PoolName, W: Work<K::Chunks>> Crew<'p, 'w, K, L, W> {
    // Tries to claim each piece once, and does those that it claims. A worker without memory for an outcome claims no
    // more.
    pub(crate) fn shift<R: Wait, G: Gate>(
        &self,
        rt: &R,
        claims: &Claims,
        mut seat: ClaimSeat,
        gate: &G,
        pieces: &[W::Piece],
    ) -> Shift<W::Outcome, K::Chunks>
        requires seat { seat.table ≡ claims.now }
        requires words { length pieces.now ≡ claims.now.words }
        requires few { length pieces.now < 2 ^ 32 }
        requires accepted { All W.terms.accepts pieces.now }
        ensures { IsShift (IsServed K.Chunks.source L.kind W.terms) (enumerate_from 0 pieces.now) result.items }
    {
        let mut done = Vec::new(self.alloc);
        for i in 0..pieces.len() {
            // Reserves room for the outcome before the piece is claimed.
            let Ok(()) = done.reserve(1) else {
                return done;
            };
            if !claims.claim(&mut seat, i as u32) {
                continue;
            }
            gate.started(i as u32);
            let served = self.serve(rt, i as u32, &pieces[i]);
            gate.finished(i as u32);
            done.push_reserved((i, served));
        }
        done
    }
}
