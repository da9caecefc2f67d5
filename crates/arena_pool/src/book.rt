// What a pool keeps: the arenas that are stored, and its counts.
ghost use Rattle.std.specs.Prelude.{◌≡◌, ◌+◌, ◌%◌, ◌<◌, ◌≤◌, None, Some, IfOk, IsOk};
ghost use Rattle.arena_pool.specs.Kinds.{HasId, IsOfKind};
ghost use Rattle.arena_pool.specs.Pool.{Begins, Gets, IsPool, IsPooled, put, give_up};
ghost use Rattle.arena_pool.specs.declared.kind.PoolKind.TheVariants.{Standard, FixedSize};

use crate::kind::{PoolKind, empty};
use crate::maker::ChunkMaker;
use crate::packing::{Bare, Stored};
use crate::stock::Stock;
use arena_chunks::{Allocator, OutOfMemory};
use std::alloc::Global;
use std::marker::Model;

/// Why no arena is lent.
#[derive(Clone, Copy, PartialEq, Eq, Debug, thiserror::Error)]
pub enum PoolErr {
    /// None is stored in a fixed pool.
    #[error("pool is empty")]
    PoolEmpty,
    /// None is stored, and there is no memory for a new one.
    #[error("out of memory")]
    OutOfMemory,
    /// None is stored, and 2^64 - 1 were made.
    #[error("pool limit reached")]
    Limit,
}

/// The numbers of arenas that a pool made, by where they are.
#[derive(Clone, Copy, PartialEq, Eq, Debug)]
pub struct Counts {
    /// All that the pool made.
    pub made: u64,
    /// Those that can be lent.
    pub stored: u64,
    /// Those that are lent, and may come back.
    pub lent: u64,
    /// Those that were lent, and won't come back.
    pub given_up: u64,
    pub ghost all: { made ≡ stored + lent + given_up },
}

/// The stored arenas of a pool, newest last, and its counts. Each stored arena is of the pool's kind, with no bytes in
/// use; if the pool has a limit, none has more bytes. A place is reserved for each lent arena, so giving one back takes
/// no memory.
#[derive(Drop)]
pub struct Book<K: ChunkMaker> {
    stock: Stock<K, Bare>,
}

impl<K: ChunkMaker> Model for Book<K> {
    ghost use Rattle.arena_pool.specs.Pool.{Pool};

    ghost Value = { Pool };

    ghost view = { λ b. b.stock };
}

impl<K: ChunkMaker> Book<K> {
    /// Creates a standard pool with `count` empty arenas.
    ///
    /// # Errors
    ///
    /// Out of memory for the table of arenas; never with 0.
    pub fn new(alloc: Global, count: u32, maker: K) -> Result<Book<K>, OutOfMemory>
    where
        K: Drop,
        ensures begins { IfOk result (Begins Standard None count) }
        ensures none { count ≡ 0 → IsOk result }
    {
        let stock = Stock::of_kind(alloc, PoolKind::Standard, None, count, maker)?;
        Ok(Book { stock })
    }

    /// Creates a standard pool with `count` empty arenas and a limit in bytes. A reset keeps only the newest chunk; an
    /// arena that comes back and still has more bytes than the limit isn't stored.
    ///
    /// # Errors
    ///
    /// Out of memory for the table of arenas; never with 0.
    pub fn new_with_limit(
        alloc: Global,
        count: u32,
        limit: u64,
        maker: K,
    ) -> Result<Book<K>, OutOfMemory>
    where
        K: Drop,
        ensures begins { IfOk result (Begins Standard (Some limit) count) }
        ensures none { count ≡ 0 → IsOk result }
    {
        let stock = Stock::of_kind(alloc, PoolKind::Standard, Some(limit), count, maker)?;
        Ok(Book { stock })
    }

    /// Creates a fixed pool with `count` arenas, each over a region of `bytes` bytes, with ids from 0.
    ///
    /// # Errors
    ///
    /// Out of memory for the table of arenas or for a region; never with 0 arenas.
    pub fn new_fixed(
        alloc: Global,
        count: u32,
        bytes: u64,
        maker: K,
    ) -> Result<Book<K>, OutOfMemory>
    where
        K: Drop,
        requires units { bytes % 16 ≡ 0 }
        requires room { 48 ≤ bytes }
        ensures begins { IfOk result (Begins (FixedSize bytes) None count) }
        ensures none { count ≡ 0 → IsOk result }
    {
        let stock = Stock::of_kind(alloc, PoolKind::FixedSize { bytes }, None, count, maker)?;
        Ok(Book { stock })
    }

    /// Lends the newest stored arena, with its id. This takes no memory. If none is stored, a standard pool makes a new
    /// arena and lends that.
    ///
    /// # Errors
    ///
    /// `PoolEmpty` if none is stored in a fixed pool; `Limit` if none is stored in a standard pool that has made
    /// 2^64 - 1; `OutOfMemory` if there is no memory for a new one. The stored arenas and the counts are unchanged.
    pub fn take(&mut self) -> Result<(Allocator<K::Chunks>, Option<u32>), PoolErr>
        ensures gets { Gets self.old result self.new }
        ensures lent { IfOk result (IsPooled self.old.kind self.old.limit) }
    {
        let Stored { arena, id } = self.stock.take()?;
        Ok((arena, id))
    }

    /// Resets a lent arena, and stores it. If it then has more bytes than the limit, it is dropped and counted as given
    /// up. Takes no memory.
    pub fn store(&mut self, a: Allocator<K::Chunks>, id: Option<u32>)
        requires lent { 0 < self.old.lent }
        requires kind { IsOfKind self.old.kind a.memory.state }
        requires id { HasId self.old.kind id }
        ensures { self.new ≡ put self.old a id }
    {
        let mut a = a;
        let allocated = empty(&mut a);
        drop(self.stock.keep(a, allocated, id));
    }

    /// Counts one lent arena as given up: it won't come back.
    pub fn forget(&mut self)
        requires { 0 < self.old.lent }
        ensures { self.new ≡ give_up self.old }
    {
        self.stock.forget();
    }

    /// Returns the limit on a stored arena's bytes, if there is one.
    pub fn limit(&self) -> Option<u64>
        ensures { result ≡ self.now.limit }
    {
        self.stock.limit()
    }

    /// Returns the four counts. The contract also says what every book keeps (`IsPool`).
    pub fn counts(&self) -> Counts
        ensures made { result.made ≡ self.now.made }
        ensures stored { result.stored ≡ self.now.stored }
        ensures lent { result.lent ≡ self.now.lent }
        ensures given_up { result.given_up ≡ self.now.given_up }
        ensures pool { IsPool self.now }
    {
        self.stock.counts()
    }
}
