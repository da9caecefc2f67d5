// The pool under its lock.
ghost use Rattle.std.specs.Prelude.{◌≡◌, ◌%◌, ◌≤◌, None, Some, IfOk, IsOk, IsTrue};
ghost use Rattle.arena_pool.specs.Kinds.{is_fixed, HasLimit, HasRegions, IsUnused, IsWithin};
ghost use Rattle.arena_pool.specs.Names.{IsBlankOf};
ghost use Rattle.arena_pool.specs.declared.kind.PoolKind.TheVariants.{Standard, FixedSize};

use crate::book::Counts;
use crate::guard::AllocatorGuard;
use crate::kind::PoolKind;
use crate::maker::ChunkMaker;
use crate::name::PoolName;
use crate::packing::InBoxes;
use crate::shared::Shared;
use crate::stock::Stock;
use arena_chunks::OutOfMemory;
use std::alloc::Global;
use std::sync::Wait;
use std::sync::ledger::Blank;

/// A pool of arenas of one kind, which threads borrow and give back. Each is in a box, so only a pointer is moved.
#[derive(Drop)]
pub struct AllocatorPool<K: ChunkMaker, L: PoolName> {
    pub(crate) shared: Shared<K, L, InBoxes>,
}

impl<K: ChunkMaker, L: PoolName> AllocatorPool<K, L> {
    /// Creates a pool of this kind, with `count` arenas at first. The other three constructors are this one for a kind.
    ///
    /// # Errors
    ///
    /// Out of memory; never with 0 arenas.
    pub fn of_kind(
        alloc: Global,
        kind: PoolKind,
        limit: Option<u64>,
        count: u32,
        maker: K,
        blank: Blank,
    ) -> Result<AllocatorPool<K, L>, OutOfMemory>
    where
        K: Drop,
        requires blank { IsBlankOf L.name L.parts blank }
        requires kind { L.kind ≡ kind }
        requires limit { L.limit ≡ limit }
        requires regions { HasRegions kind }
        requires unlimited { HasLimit kind limit }
        ensures none { count ≡ 0 → IsOk result }
    {
        let stock = Stock::of_kind(alloc, kind, limit, count, maker)?;
        Ok(AllocatorPool {
            shared: Shared::over(stock, blank),
        })
    }

    /// Creates a pool of arenas that grow, with `thread_count` at first. One for each thread suffices; the pool makes
    /// more if none is stored.
    ///
    /// # Errors
    ///
    /// Out of memory; never with 0 arenas.
    pub fn new(
        alloc: Global,
        thread_count: u32,
        maker: K,
        blank: Blank,
    ) -> Result<AllocatorPool<K, L>, OutOfMemory>
    where
        K: Drop,
        requires blank { IsBlankOf L.name L.parts blank }
        requires kind { L.kind ≡ Standard }
        requires limit { L.limit ≡ None }
        ensures none { thread_count ≡ 0 → IsOk result }
    {
        AllocatorPool::of_kind(alloc, PoolKind::Standard, None, thread_count, maker, blank)
    }

    /// Creates a pool of arenas that grow, with a limit in bytes. A reset keeps only the newest chunk; an arena that
    /// comes back and still has more bytes than the limit is dropped and counted as given up.
    ///
    /// # Errors
    ///
    /// Out of memory; never with 0 arenas.
    pub fn new_with_limit(
        alloc: Global,
        thread_count: u32,
        limit: u64,
        maker: K,
        blank: Blank,
    ) -> Result<AllocatorPool<K, L>, OutOfMemory>
    where
        K: Drop,
        requires blank { IsBlankOf L.name L.parts blank }
        requires kind { L.kind ≡ Standard }
        requires limit { L.limit ≡ Some limit }
        ensures none { thread_count ≡ 0 → IsOk result }
    {
        let limit = Some(limit);
        AllocatorPool::of_kind(alloc, PoolKind::Standard, limit, thread_count, maker, blank)
    }

    /// Creates a pool of `thread_count` arenas that don't grow, each over a region of `bytes` bytes. It makes no more.
    ///
    /// # Errors
    ///
    /// Out of memory; never with 0 arenas.
    pub fn new_fixed_size(
        alloc: Global,
        thread_count: u32,
        bytes: u64,
        maker: K,
        blank: Blank,
    ) -> Result<AllocatorPool<K, L>, OutOfMemory>
    where
        K: Drop,
        requires blank { IsBlankOf L.name L.parts blank }
        requires kind { L.kind ≡ FixedSize bytes }
        requires limit { L.limit ≡ None }
        requires units { bytes % 16 ≡ 0 }
        requires room { 48 ≤ bytes }
        ensures none { thread_count ≡ 0 → IsOk result }
    {
        let kind = PoolKind::FixedSize { bytes };
        AllocatorPool::of_kind(alloc, kind, None, thread_count, maker, blank)
    }

    /// Borrows an arena with no bytes in use. Waits while none is stored and no new one can be made, and while
    /// `MOST_LENT` are lent: forever if all arenas of a fixed pool were given up. Bytes that an earlier borrower wrote
    /// stay in the arena, and a block shows them until it is written.
    ///
    /// # Errors
    ///
    /// Out of memory for the place or the box of a new arena. A fixed pool never refuses.
    pub fn get<R: Wait>(&self, rt: &R) -> Result<AllocatorGuard<'_, K, L>, OutOfMemory>
        ensures unused { IfOk result (λ guard. IsUnused L.kind guard.0) }
        ensures within { IfOk result (λ guard. IsWithin L.limit guard.0) }
        ensures fixed { IsTrue (is_fixed L.kind) → IsOk result }
    {
        let (arena, loan) = self.shared.lend(rt)?;
        Ok(AllocatorGuard::new(self, arena, loan))
    }

    /// The same as `get`, with a name that says that it waits.
    ///
    /// # Errors
    ///
    /// As for `get`.
    pub fn get_wait<R: Wait>(&self, rt: &R) -> Result<AllocatorGuard<'_, K, L>, OutOfMemory>
        ensures unused { IfOk result (λ guard. IsUnused L.kind guard.0) }
        ensures within { IfOk result (λ guard. IsWithin L.limit guard.0) }
        ensures fixed { IsTrue (is_fixed L.kind) → IsOk result }
    {
        self.get(rt)
    }

    /// Returns the four counts, as they are while the lock is held.
    pub fn counts<R: Wait>(&self, rt: &R) -> Counts {
        self.shared.counts(rt)
    }
}
