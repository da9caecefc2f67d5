// What a pool's lock protects.
ghost use Rattle.std.specs.Prelude.{◌≡◌, IfOk, OnErr, IsOk, IsTrue, Ok, Err};
ghost use Rattle.arena_rules.specs.State.{allocated_bytes};
ghost use Rattle.arena_pool.specs.Kinds.{is_fixed, IsUnused, IsWithin};
ghost use Rattle.arena_pool.specs.Pool.{Gets, can_take, keep, give_up};

use crate::book::{Counts, PoolErr};
use crate::lending::{Lending, Loan};
use crate::maker::ChunkMaker;
use crate::name::{MOST_LENT, PoolName};
use crate::packing::{Packing, Stored};
use crate::stock::Stock;
use arena_chunks::{Allocator, OutOfMemory};
use std::marker::Model;

// Lends the arenas of a named pool: its stock, and its loans. There is one loan for each lent arena. Contracts see the
// stock.
#[derive(Drop)]
pub(crate) struct Lender<K: ChunkMaker, L: PoolName, P: Packing<Allocator<K::Chunks>>> {
    // In a pair, which can be dropped whatever its parts are: the borrow checker covers no call between functions over
    // P that takes a stock.
    pub(crate) pair: (Stock<K, P>, Lending<L>),
    // The number of threads that wait for an arena.
    pub(crate) waiting: u64,
}

impl<K: ChunkMaker, L: PoolName, P: Packing<Allocator<K::Chunks>>> Model for Lender<K, L, P> {
    ghost use Rattle.std.specs.Prelude.{◌≡◌};
    ghost use Rattle.arena_pool.specs.Pool.{Pool};

    ghost Value = { Pool };

    ghost view = { λ l. l.pair.0 };

    ghost invariant = { λ l. (l.pair.0.kind ≡ L.kind) × (l.pair.0.limit ≡ L.limit) × (l.pair.1 ≡ l.pair.0.lent) };
}

impl<K: ChunkMaker, L: PoolName, P: Packing<Allocator<K::Chunks>>> Lender<K, L, P> {
    // Returns whether `take` lends an arena, or fails for lack of memory alone.
    pub(crate) fn can_take(&self) -> bool
        ensures { result ≡ can_take self.now }
    {
        let counts = self.pair.0.counts();
        counts.lent < MOST_LENT
            && (counts.stored > 0 || !self.pair.0.is_fixed() && counts.made < u64::MAX)
    }

    // Lends an arena, with a loan for it.
    #[inline]
    pub(crate) fn take(&mut self) -> Result<(P::Packed, Loan<L>), OutOfMemory>
        requires { IsTrue (can_take self.old) }
        ensures lent { IfOk result (λ lent. Gets self.old (Ok (P.unpacked lent.0, lent.1.id)) self.new) }
        ensures exhausted { OnErr result (Gets self.old (Err PoolErr.OutOfMemory) self.new) }
        ensures unused { IfOk result (λ lent. IsUnused L.kind (P.unpacked lent.0)) }
        ensures within { IfOk result (λ lent. IsWithin L.limit (P.unpacked lent.0)) }
        ensures fixed { IsTrue (is_fixed L.kind) → IsOk result }
    {
        let (stock, lending) = &mut self.pair;
        match stock.take() {
            Ok(Stored { arena, id }) => Ok((arena, lending.lend(id))),
            Err(PoolErr::OutOfMemory) => Err(OutOfMemory),
            Err(PoolErr::PoolEmpty | PoolErr::Limit) => unreachable!(),
        }
    }

    // Stores the arena of a loan, which has no bytes in use. If it exceeds the limit, it is returned for the caller to
    // drop.
    #[inline]
    pub(crate) fn keep(
        &mut self,
        arena: P::Packed,
        allocated: u64,
        loan: Loan<L>,
    ) -> Option<P::Packed>
        requires unused { IsUnused L.kind (P.unpacked arena) }
        requires allocated { allocated ≡ allocated_bytes (P.unpacked arena).memory.state }
        ensures { self.new ≡ keep self.old (P.unpacked arena, loan.id) }
    {
        let (stock, lending) = &mut self.pair;
        let id = lending.settle(loan);
        stock.keep(arena, allocated, id)
    }

    // Ends the loan of an arena that won't come back.
    pub(crate) fn forget(&mut self, loan: Loan<L>)
        ensures { self.new ≡ give_up self.old }
    {
        let (stock, lending) = &mut self.pair;
        let _ = lending.settle(loan);
        stock.forget();
    }

    // One more thread waits for an arena.
    pub(crate) fn begin_wait(&mut self)
        ensures { self.new ≡ self.old }
    {
        self.waiting = self.waiting.saturating_add(1);
    }

    // One thread less waits for an arena.
    pub(crate) fn end_wait(&mut self)
        ensures { self.new ≡ self.old }
    {
        self.waiting = self.waiting.saturating_sub(1);
    }

    // Whether a thread waits for an arena.
    #[inline]
    pub(crate) fn is_awaited(&self) -> bool {
        self.waiting > 0
    }

    pub(crate) fn counts(&self) -> Counts
        ensures made { result.made ≡ self.now.made }
        ensures stored { result.stored ≡ self.now.stored }
        ensures lent { result.lent ≡ self.now.lent }
        ensures given_up { result.given_up ≡ self.now.given_up }
    {
        self.pair.0.counts()
    }
}
