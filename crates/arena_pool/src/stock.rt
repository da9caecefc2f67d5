// The stored arenas of a pool, however they are packed, and its counts.
ghost use Rattle.std.specs.Prelude.{◌≡◌, ◌+◌, ◌<◌, IfOk, IsOk};
ghost use Rattle.arena_rules.specs.State.{allocated_bytes};
ghost use Rattle.arena_pool.specs.Kinds.{is_fixed, is_within, HasId, HasLimit, HasRegions, IsNew, IsUnused, IsWithin};
ghost use Rattle.arena_pool.specs.Pool.{Begins, Gets, LendsStored, IsPool, IsPooled, store, keep, give_up};

use crate::book::{Counts, PoolErr};
use crate::kind::PoolKind;
use crate::maker::ChunkMaker;
use crate::packing::{Packing, Stored};
use arena_chunks::{Allocator, OutOfMemory};
use arena_region::Region;
use std::alloc::Global;
use std::marker::Model;

// The stored arenas of a pool, newest last, and its counts: what a `Book` is, for either way to pack arenas.
#[derive(Drop)]
pub(crate) struct Stock<K: ChunkMaker, P: Packing<Allocator<K::Chunks>>> {
    kind: PoolKind,
    limit: Option<u64>,
    stack: Vec<Stored<K, P>>,
    made: u64,
    lent: u64,
    given_up: u64,
    alloc: Global,
    maker: K,
}

impl<K: ChunkMaker, P: Packing<Allocator<K::Chunks>>> Model for Stock<K, P> {
    ghost use Rattle.std.specs.Prelude.{◌≡◌, ◌+◌, ◌≤◌, All, vec_len, vec_capacity};
    ghost use Rattle.arena_pool.specs.Kinds.{HasLimit};
    ghost use Rattle.arena_pool.specs.Pool.{Pool, IsPooled};

    ghost Value = { Pool };

    ghost view = { λ b. record {
      kind = b.kind;
      limit = b.limit;
      stack = b.stack.items;
      made = b.made;
      stored = vec_len b.stack;
      lent = b.lent;
      given_up = b.given_up;
    } };

    ghost invariant = { λ b. (b.made ≡ vec_len b.stack + b.lent + b.given_up)
        × (vec_len b.stack + b.lent ≤ vec_capacity b.stack)
        × All (IsPooled b.kind b.limit) b.stack.items
        × HasLimit b.kind b.limit };
}

// Makes a new arena of this kind.
fn new_arena<K: ChunkMaker>(
    alloc: Global,
    kind: PoolKind,
    maker: &mut K,
) -> Result<Allocator<K::Chunks>, OutOfMemory>
    requires { HasRegions kind }
    ensures new { IfOk result (IsNew kind) }
    ensures unused { IfOk result (IsUnused kind) }
{
    match kind {
        PoolKind::Standard => Ok(Allocator::new(alloc, maker.make())),
        PoolKind::FixedSize { bytes } => {
            let region = Region::zeros(alloc, bytes as usize)?;
            Ok(Allocator::from_region(alloc, region, maker.make()))
        }
    }
}

// The same, packed.
fn new_packed<K: ChunkMaker, P: Packing<Allocator<K::Chunks>>>(
    alloc: Global,
    kind: PoolKind,
    maker: &mut K,
) -> Result<P::Packed, OutOfMemory>
    requires { HasRegions kind }
    ensures new { IfOk result (λ p. IsNew kind (P.unpacked p)) }
    ensures unused { IfOk result (λ p. IsUnused kind (P.unpacked p)) }
{
    let arena = new_arena(alloc, kind, maker)?;
    P::pack(alloc, arena)
}

impl<K: ChunkMaker, P: Packing<Allocator<K::Chunks>>> Stock<K, P> {
    // Creates a pool with `count` new arenas, which stores no arena with more bytes than the limit. With 0 it takes no
    // memory.
    pub(crate) fn of_kind(
        alloc: Global,
        kind: PoolKind,
        limit: Option<u64>,
        count: u32,
        maker: K,
    ) -> Result<Stock<K, P>, OutOfMemory>
    where
        K: Drop,
        requires regions { HasRegions kind }
        requires limit { HasLimit kind limit }
        ensures begins { IfOk result (Begins kind limit count) }
        ensures none { count ≡ 0 → IsOk result }
    {
        let mut maker = maker;
        let mut stack = Vec::with_capacity(alloc, count as usize)?;
        for i in 0..count {
            let arena = new_packed::<K, P>(alloc, kind, &mut maker)?;
            stack.push_reserved(Stored {
                arena,
                id: kind.first_id(i),
            });
        }
        Ok(Stock {
            kind,
            limit,
            stack,
            made: u64::from(count),
            lent: 0,
            given_up: 0,
            alloc,
            maker,
        })
    }

    // Lends the newest stored arena, or if none is stored a new one, as `Book::take` does.
    #[inline]
    pub(crate) fn take(&mut self) -> Result<Stored<K, P>, PoolErr>
        ensures gets { Gets self.old result self.new }
        ensures lent { IfOk result (IsPooled self.old.kind self.old.limit) }
    {
        if self.stack.len() > 0 {
            return Ok(self.take_stored());
        }
        self.take_new()
    }

    // Lends the newest stored arena.
    #[inline]
    fn take_stored(&mut self) -> Stored<K, P>
        requires { 0 < self.old.stored }
        ensures lends { LendsStored self.old result self.new }
        ensures lent { IsPooled self.old.kind self.old.limit result }
    {
        self.lent += 1;
        self.stack.take_last()
    }

    // Lends a new arena. None is stored.
    #[cold]
    #[inline(never)]
    fn take_new(&mut self) -> Result<Stored<K, P>, PoolErr>
        requires { self.old.stored ≡ 0 }
        ensures gets { Gets self.old result self.new }
        ensures lent { IfOk result (IsPooled self.old.kind self.old.limit) }
    {
        if self.kind.is_fixed() {
            return Err(PoolErr::PoolEmpty);
        }
        if self.made == u64::MAX {
            return Err(PoolErr::Limit);
        }
        if self.stack.reserve(self.lent as usize + 1).is_err() {
            return Err(PoolErr::OutOfMemory);
        }
        let Ok(arena) = new_packed::<K, P>(self.alloc, PoolKind::Standard, &mut self.maker) else {
            return Err(PoolErr::OutOfMemory);
        };
        self.made += 1;
        self.lent += 1;
        Ok(Stored { arena, id: None })
    }

    // Stores a lent arena with no bytes in use. If it has more bytes than the limit, it is counted as given up, and
    // returned for the caller to drop.
    #[inline]
    pub(crate) fn keep(
        &mut self,
        arena: P::Packed,
        allocated: u64,
        id: Option<u32>,
    ) -> Option<P::Packed>
        requires lent { 0 < self.old.lent }
        requires unused { IsUnused self.old.kind (P.unpacked arena) }
        requires allocated { allocated ≡ allocated_bytes (P.unpacked arena).memory.state }
        requires id { HasId self.old.kind id }
        ensures { self.new ≡ keep self.old (P.unpacked arena, id) }
    {
        if self.is_within(allocated) {
            self.store(arena, id);
            return None;
        }
        self.forget();
        Some(arena)
    }

    // Returns whether an arena with `allocated` bytes is within the limit.
    #[inline]
    fn is_within(&self, allocated: u64) -> bool
        ensures { result ≡ is_within self.now.limit allocated }
    {
        match self.limit {
            Some(limit) => allocated <= limit,
            None => true,
        }
    }

    // Stores a lent arena with no bytes in use, which is within the limit.
    #[inline]
    fn store(&mut self, arena: P::Packed, id: Option<u32>)
        requires lent { 0 < self.old.lent }
        requires unused { IsUnused self.old.kind (P.unpacked arena) }
        requires within { IsWithin self.old.limit (P.unpacked arena) }
        requires id { HasId self.old.kind id }
        ensures { self.new ≡ store self.old (P.unpacked arena, id) }
    {
        self.stack.push_reserved(Stored { arena, id });
        self.lent -= 1;
    }

    // Counts one lent arena as given up.
    pub(crate) fn forget(&mut self)
        requires { 0 < self.old.lent }
        ensures { self.new ≡ give_up self.old }
    {
        self.lent -= 1;
        self.given_up += 1;
    }

    // The limit, if there is one.
    pub(crate) fn limit(&self) -> Option<u64>
        ensures { result ≡ self.now.limit }
    {
        self.limit
    }

    // Whether the arenas don't grow.
    pub(crate) fn is_fixed(&self) -> bool
        ensures { result ≡ is_fixed self.now.kind }
    {
        self.kind.is_fixed()
    }

    // The four counts.
    pub(crate) fn counts(&self) -> Counts
        ensures made { result.made ≡ self.now.made }
        ensures stored { result.stored ≡ self.now.stored }
        ensures lent { result.lent ≡ self.now.lent }
        ensures given_up { result.given_up ≡ self.now.given_up }
        ensures pool { IsPool self.now }
    {
        Counts {
            made: self.made,
            stored: self.stack.len() as u64,
            lent: self.lent,
            given_up: self.given_up,
        }
    }
}
