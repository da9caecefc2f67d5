// A standard pool that lends bare arenas.
ghost use Rattle.std.specs.Prelude.{◌≡◌, None, IfOk, IsOk};
ghost use Rattle.arena_pool.specs.Kinds.{IsOfKind, IsUnused};
ghost use Rattle.arena_pool.specs.Names.{IsBlankOf};
ghost use Rattle.arena_pool.specs.declared.kind.PoolKind.TheVariants.{Standard};

use crate::kind::{PoolKind, empty};
use crate::lending::Loan;
use crate::maker::ChunkMaker;
use crate::name::PoolName;
use crate::packing::Bare;
use crate::shared::Shared;
use crate::stock::Stock;
use arena_chunks::{Allocator, OutOfMemory};
use std::alloc::Global;
use std::sync::Wait;
use std::sync::ledger::Blank;

/// A pool of arenas that grow. Threads borrow them and give them back, each with its loan.
#[derive(Drop)]
pub struct StandardAllocatorPool<K: ChunkMaker, L: PoolName> {
    pool: Shared<K, L, Bare>,
    ghost kind: { L.kind ≡ Standard },
}

impl<K: ChunkMaker, L: PoolName> StandardAllocatorPool<K, L> {
    /// Creates a pool with `thread_count` arenas at first. It makes more if none is stored.
    ///
    /// # Errors
    ///
    /// Out of memory; never with 0 arenas.
    pub fn new(
        alloc: Global,
        thread_count: u32,
        maker: K,
        blank: Blank,
    ) -> Result<StandardAllocatorPool<K, L>, OutOfMemory>
    where
        K: Drop,
        requires blank { IsBlankOf L.name L.parts blank }
        requires kind { L.kind ≡ Standard }
        requires limit { L.limit ≡ None }
        ensures none { thread_count ≡ 0 → IsOk result }
    {
        let stock = Stock::of_kind(alloc, PoolKind::Standard, None, thread_count, maker)?;
        let pool = Shared::over(stock, blank);
        Ok(StandardAllocatorPool { pool })
    }

    /// Borrows an arena with no bytes in use. Waits as `AllocatorPool::get` does.
    ///
    /// # Errors
    ///
    /// Out of memory for the place of a new arena.
    pub fn get<R: Wait>(&self, rt: &R) -> Result<(Allocator<K::Chunks>, Loan<L>), OutOfMemory>
        ensures { IfOk result (λ lent. IsUnused Standard lent.0) }
    {
        self.pool.lend(rt)
    }

    /// Gives an arena back: it is reset and stored, and one waiting thread is woken. Takes no memory.
    pub fn add<R: Wait>(&self, rt: &R, a: Allocator<K::Chunks>, loan: Loan<L>)
        requires { IsOfKind Standard a.memory.state }
    {
        let mut a = a;
        let allocated = empty(&mut a);
        self.pool.add(rt, a, allocated, loan);
    }

    /// Ends the loan of an arena that won't come back.
    pub fn forget<R: Wait>(&self, rt: &R, loan: Loan<L>) {
        self.pool.forget(rt, loan);
    }
}
