// Outcomes in the order of the pieces.
ghost use Rattle.std.specs.Prelude.{◌≡◌, ℕ, ◌<◌, List, All, IfOk, length, slice_set, vec_len};
ghost use Rattle.std.specs.List.{AllZip, enumerate_from};
ghost use Rattle.arena_workers.specs.Working.{IsServed};
ghost use Rattle.arena_workers.specs.Order.{IsShift};

use crate::lent::Crew;
use crate::served::Served;
use crate::shift::Shift;
use crate::work::Work;
use arena_chunks::{ChunkSource, OutOfMemory};
use arena_pool::{ChunkMaker, PoolName};

impl<'p, 'w, K: ChunkMaker, L: PoolName, W: Work<K::Chunks>> Crew<'p, 'w, K, L, W> {
    // Puts what the workers did into the order of the pieces. A piece that no worker had the memory to claim is
    // unserved.
    pub(crate) fn in_order(
        &self,
        pieces: &[W::Piece],
        shifts: Vec<Shift<W::Outcome, K::Chunks>>,
    ) -> Result<Vec<Served<W::Outcome, K::Chunks>>, OutOfMemory>
        requires { All (λ shift. IsShift (IsServed K.Chunks.source L.kind W.terms) (enumerate_from 0 pieces.now) shift.items) shifts.items }
        ensures { IfOk result (λ all. AllZip (IsServed K.Chunks.source L.kind W.terms) (enumerate_from 0 pieces.now) all.items) }
    {
        let mut all = Vec::with_capacity(self.alloc, pieces.len())?;
        for _piece in pieces {
            all.push_reserved(self.unserved());
        }
        for shift in shifts {
            Self::place(&mut all, shift);
        }
        Ok(all)
    }

    // Puts each outcome of a worker into its place.
    fn place(all: &mut Vec<Served<W::Outcome, K::Chunks>>, shift: Shift<W::Outcome, K::Chunks>)
        requires inside { All (λ numbered. numbered.0 < length all.old.items) shift.items }
        ensures { (pieces : List (ℕ × W.Piece)) → AllZip (IsServed K.Chunks.source L.kind W.terms) pieces all.old.items
            → IsShift (IsServed K.Chunks.source L.kind W.terms) pieces shift.items
            → AllZip (IsServed K.Chunks.source L.kind W.terms) pieces all.new.items }
    {
        for (i, served) in shift {
            put(all, i, served);
        }
    }
}

fn put<O: Drop, C: ChunkSource + Drop>(all: &mut Vec<Served<O, C>>, i: usize, served: Served<O, C>)
    requires { i < vec_len all.old }
    ensures { all.new.items ≡ slice_set all.old.items i served }
{
    all[i] = served;
}
