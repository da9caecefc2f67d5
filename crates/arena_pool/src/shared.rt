// A stock of arenas under a lock, for every pool type.
ghost use Rattle.std.specs.Prelude.{◌≡◌, IfOk, IsOk, IsTrue};
ghost use Rattle.std.specs.Sync.Mutex.{mutex_guard_value};
ghost use Rattle.arena_rules.specs.State.{allocated_bytes};
ghost use Rattle.arena_pool.specs.Kinds.{is_fixed, IsUnused, IsWithin};
ghost use Rattle.arena_pool.specs.Names.{IsBlankOf};
ghost use Rattle.arena_pool.specs.Pool.{can_take};

use crate::book::Counts;
use crate::lender::Lender;
use crate::lending::{Lending, Loan};
use crate::maker::ChunkMaker;
use crate::name::PoolName;
use crate::packing::Packing;
use crate::stock::Stock;
use arena_chunks::{Allocator, OutOfMemory};
use std::sync::ledger::Blank;
use std::sync::{Condvar, Mutex, MutexGuard, Wait};

// Arenas that threads borrow and give back, each with a loan.
#[derive(Drop)]
pub(crate) struct Shared<K: ChunkMaker, L: PoolName, P: Packing<Allocator<K::Chunks>>> {
    lender: Mutex<Lender<K, L, P>>,
    freed: Condvar,
}

impl<K: ChunkMaker, L: PoolName, P: Packing<Allocator<K::Chunks>>> Shared<K, L, P> {
    // Creates the pool over a new stock.
    pub(crate) fn over(stock: Stock<K, P>, blank: Blank) -> Shared<K, L, P>
        requires blank { IsBlankOf L.name L.parts blank }
        requires kind { stock.kind ≡ L.kind }
        requires limit { stock.limit ≡ L.limit }
        requires none_lent { stock.lent ≡ 0 }
    {
        let pair = (stock, Lending::open(blank));
        Shared {
            lender: Mutex::new(Lender { pair, waiting: 0 }),
            freed: Condvar::new(),
        }
    }

    // Returns the four counts, as they are while the lock is held.
    pub(crate) fn counts<R: Wait>(&self, rt: &R) -> Counts {
        self.lock(rt).counts()
    }

    // Lends an arena, with its loan.
    #[inline]
    pub(crate) fn lend<R: Wait>(&self, rt: &R) -> Result<(P::Packed, Loan<L>), OutOfMemory>
        ensures unused { IfOk result (λ lent. IsUnused L.kind (P.unpacked lent.0)) }
        ensures within { IfOk result (λ lent. IsWithin L.limit (P.unpacked lent.0)) }
        ensures fixed { IsTrue (is_fixed L.kind) → IsOk result }
    {
        let mut lender = self.ready(rt);
        let lent = lender.take();
        drop(lender);
        if lent.is_err() {
            // Nothing was lent: another waiting thread may find the memory.
            self.freed.notify_one();
        }
        lent
    }

    // Takes the lock. If it is free, that is one inlined step.
    #[inline]
    fn lock<R: Wait>(&self, rt: &R) -> MutexGuard<'_, Lender<K, L, P>> {
        match self.lender.try_lock() {
            Some(lender) => lender,
            None => self.lender.lock(rt),
        }
    }

    // Takes the lock, once an arena can be lent.
    #[inline]
    fn ready<R: Wait>(&self, rt: &R) -> MutexGuard<'_, Lender<K, L, P>>
        ensures { IsTrue (can_take (mutex_guard_value result)) }
    {
        let lender = self.lock(rt);
        if lender.can_take() {
            return lender;
        }
        self.wait(rt, lender)
    }

    // Waits until an arena can be lent. Waiting threads are counted, so that giving back wakes one only if there is
    // one.
    #[cold]
    #[inline(never)]
    fn wait<'b, R: Wait>(
        &self,
        rt: &R,
        lender: MutexGuard<'b, Lender<K, L, P>>,
    ) -> MutexGuard<'b, Lender<K, L, P>>
        ensures { IsTrue (can_take (mutex_guard_value result)) }
    {
        let mut lender = lender;
        lender.begin_wait();
        let mut lender = self
            .freed
            .wait_while(rt, lender, |lender| !lender.can_take());
        lender.end_wait();
        lender
    }

    // Releases the lock, and wakes one waiting thread.
    #[inline]
    fn wake_one(&self, lender: MutexGuard<'_, Lender<K, L, P>>) {
        let is_awaited = lender.is_awaited();
        drop(lender);
        if is_awaited {
            self.freed.notify_one();
        }
    }

    // Stores an arena with no bytes in use and `allocated` bytes in all, and wakes one waiting thread. If the arena
    // exceeds the limit, it is dropped after the lock is released.
    #[inline]
    pub(crate) fn add<R: Wait>(&self, rt: &R, arena: P::Packed, allocated: u64, loan: Loan<L>)
        requires unused { IsUnused L.kind (P.unpacked arena) }
        requires allocated { allocated ≡ allocated_bytes (P.unpacked arena).memory.state }
    {
        let mut lender = self.lock(rt);
        let gone = lender.keep(arena, allocated, loan);
        self.wake_one(lender);
        drop(gone);
    }

    // Ends the loan of an arena that won't come back. One thread that waits for its part of the ledger is woken.
    pub(crate) fn forget<R: Wait>(&self, rt: &R, loan: Loan<L>) {
        let mut lender = self.lock(rt);
        lender.forget(loan);
        self.wake_one(lender);
    }
}
