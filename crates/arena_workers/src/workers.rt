// Workers that share out pieces of work.
ghost use Rattle.std.specs.Prelude.{◌≡◌, ℕ, ◌<◌, ◌≤◌, ◌^◌, All, length, IfOk, vec_len};
ghost use Rattle.std.specs.List.{AllZip, enumerate_from};
ghost use Rattle.arena_workers.specs.Working.{IsServed};
ghost use Rattle.arena_workers.specs.Order.{IsShift};

use crate::gate::Gate;
use crate::lent::Crew;
use crate::served::Served;
use crate::shift::Shift;
use crate::work::Work;
use arena_pool::{AllocatorPool, ChunkMaker, ClaimSeat, Claims, OutOfMemory, PoolName};
use std::alloc::Global;
use std::sync::Wait;
use std::thread;
use std::thread::Threads;

// A seat for each worker.
fn seats(
    alloc: Global,
    claims: &Claims,
    mut seat: ClaimSeat,
    workers: u32,
) -> Result<Vec<ClaimSeat>, OutOfMemory>
    requires seat { seat.table ≡ claims.now }
    requires some { 0 < workers }
    ensures { IfOk result (λ v. All (λ s. s.table ≡ claims.now) v.items) }
{
    let mut all = Vec::with_capacity(alloc, workers as usize)?;
    for _i in 1..workers {
        all.push_reserved(claims.split(&mut seat));
    }
    all.push_reserved(seat);
    Ok(all)
}

/// Does each piece of work on threads, and returns the results in the order of the pieces. At most `workers` threads
/// are started, and at most one for each piece; no clause bounds them. Each worker claims pieces one after another, and
/// borrows an arena from the pool for each:
///
/// - No work is done on an arena that grows and whose newest chunk ends above 2^62. It is given up, and another is
///   borrowed; of that no clause speaks.
/// - An arena that refused, as its outcome says, is given up, and what shows why is returned with the outcome.
/// - Every other arena is put back.
///
/// A piece without memory for its arena or for its outcome is unserved. Threads pass nothing to each other but their
/// results. The call waits at the pool's lock, and forever over a fixed pool that has no arena.
///
/// # Errors
///
/// Out of memory for the claims, the workers or their outcomes.
pub fn run_all<
    R: Threads + Wait + Sync,
    K: ChunkMaker + Drop + Send,
    L: PoolName + Send + Sync,
    G: Gate + Sync,
    W: Work<K::Chunks> + Sync,
>(
    rt: &R,
    alloc: Global,
    pool: &AllocatorPool<K, L>,
    workers: u32,
    gate: &G,
    work: &W,
    pieces: &[W::Piece],
) -> Result<Vec<Served<W::Outcome, K::Chunks>>, OutOfMemory>
    requires some { 0 < workers }
    requires few { length pieces.now < 2 ^ 32 }
    requires accepted { All W.terms.accepts pieces.now }
    ensures { IfOk result (λ all. AllZip (IsServed K.Chunks.source L.kind W.terms) (enumerate_from 0 pieces.now) all.items) }
{
    if pieces.is_empty() {
        return Ok(Vec::new(alloc));
    }
    let count = pieces.len() as u32;
    let (claims, seat) = Claims::new(alloc, count).map_err(|_| OutOfMemory)?;
    let seats = seats(alloc, &claims, seat, workers.min(count))?;
    let crew = Crew { alloc, pool, work };
    // Each seat goes to a worker, and each worker does its shift.
    let shifts = thread::map_vec(
        rt,
        seats,
        &|seat: ClaimSeat| -> Shift<W::Outcome, K::Chunks>
            requires { (seat.table ≡ claims) × (length pieces.now ≡ claims.words) × (length pieces.now < 2 ^ 32)
                × All W.terms.accepts pieces.now }
            ensures { IsShift (IsServed K.Chunks.source L.kind W.terms) (enumerate_from 0 pieces.entry.now) result.items }
        { crew.shift(rt, &claims, seat, gate, pieces) },
    )?;
    crew.in_order(pieces, shifts)
}
