// A fixed pool that lends bare arenas.
ghost use Rattle.std.specs.Prelude.{◌≡◌, ◌%◌, ◌≤◌, true, None, IfOk, IsOk};
ghost use Rattle.arena_pool.specs.Kinds.{is_fixed, IsOfKind, IsUnused};
ghost use Rattle.arena_pool.specs.Names.{IsBlankOf};
ghost use Rattle.arena_pool.specs.declared.kind.PoolKind.TheVariants.{FixedSize};

use crate::kind::{PoolKind, empty};
use crate::lending::Loan;
use crate::maker::ChunkMaker;
use crate::name::PoolName;
use crate::packing::Bare;
use crate::shared::Shared;
use crate::stock::Stock;
use arena_chunks::{Allocator, OutOfMemory};
use std::alloc::Global;
use std::sync::Wait;
use std::sync::ledger::Blank;

/// A pool of arenas over regions of one size. Threads borrow them and give them back, each with its loan.
#[derive(Drop)]
pub struct FixedSizeAllocatorPool<K: ChunkMaker, L: PoolName> {
    pool: Shared<K, L, Bare>,
    ghost fixed: { is_fixed L.kind ≡ true },
}

impl<K: ChunkMaker, L: PoolName> FixedSizeAllocatorPool<K, L> {
    /// Creates a pool of `thread_count` arenas, each over a region of `bytes` bytes. It makes no more.
    ///
    /// # Errors
    ///
    /// Out of memory; never with 0 arenas.
    pub fn new(
        alloc: Global,
        thread_count: u32,
        bytes: u64,
        maker: K,
        blank: Blank,
    ) -> Result<FixedSizeAllocatorPool<K, L>, OutOfMemory>
    where
        K: Drop,
        requires blank { IsBlankOf L.name L.parts blank }
        requires kind { L.kind ≡ FixedSize bytes }
        requires limit { L.limit ≡ None }
        requires units { bytes % 16 ≡ 0 }
        requires room { 48 ≤ bytes }
        ensures none { thread_count ≡ 0 → IsOk result }
    {
        let stock = Stock::of_kind(
            alloc,
            PoolKind::FixedSize { bytes },
            None,
            thread_count,
            maker,
        )?;
        let pool = Shared::over(stock, blank);
        Ok(FixedSizeAllocatorPool { pool })
    }

    /// Borrows an arena with no bytes in use, as `AllocatorPool::get` does. Waits while none is stored: forever once
    /// all were given up. Never refuses.
    ///
    /// # Errors
    ///
    /// None.
    pub fn get<R: Wait>(&self, rt: &R) -> Result<(Allocator<K::Chunks>, Loan<L>), OutOfMemory>
        ensures ok { IsOk result }
        ensures unused { IfOk result (λ lent. IsUnused L.kind lent.0) }
    {
        self.pool.lend(rt)
    }

    /// Gives an arena back: it is reset and stored, and one waiting thread is woken. Takes no memory.
    pub fn add<R: Wait>(&self, rt: &R, a: Allocator<K::Chunks>, loan: Loan<L>)
        requires { IsOfKind L.kind a.memory.state }
    {
        let mut a = a;
        let allocated = empty(&mut a);
        self.pool.add(rt, a, allocated, loan);
    }

    /// Ends the loan of an arena that won't come back. Once all were given up, `get` waits forever.
    pub fn forget<R: Wait>(&self, rt: &R, loan: Loan<L>) {
        self.pool.forget(rt, loan);
    }
}
