// Tests of bare arenas with their loans, one after another and in many threads.
ghost use Rattle.std.specs.Prelude.{◌≡◌, ◌%◌, ◌≤◌, None};
ghost use Rattle.arena_pool.specs.Names.{IsBlankOf};
ghost use Rattle.arena_pool.specs.declared.kind.PoolKind.TheVariants.{Standard, FixedSize};

use super::{VALUES, are_values, marks};
use crate::tests::{Rt, holds};
use arena_chunks::MemoryChunks;
use arena_pool::{ChunkMaker, FixedSizeAllocatorPool, MOST_LENT, PoolName, StandardAllocatorPool};
use example_collections::{
    all_through_fixed, all_through_standard, over_fixed, over_limited, over_standard,
    through_standard,
};
use std::alloc::Global;
use std::marker::Brand;
use std::process::Abort;
use std::sync::atomic::{AtomicU64, Ordering};
use std::sync::ledger::Blank;
use std::test::*;

/// Makes sources of a megabyte each, and counts them.
#[derive(Drop)]
struct Counted<'a> {
    alloc: Global,
    made: &'a AtomicU64,
}

impl ChunkMaker for Counted<'_> {
    type Chunks = MemoryChunks;

    fn make(&mut self) -> MemoryChunks {
        self.made.fetch_add(1, Ordering::SeqCst);
        MemoryChunks::new(self.alloc, 1 << 20)
    }
}

type Fixed<'a, L> = FixedSizeAllocatorPool<Counted<'a>, L>;

type Standards<'a, L> = StandardAllocatorPool<Counted<'a>, L>;

// Checks the number of sources that the pool's maker made, one for each arena.
fn are_made(rt: &impl Abort, made: &AtomicU64, arenas: u32) {
    let count = made.load(Ordering::SeqCst);
    holds(rt, count == u64::from(arenas), "a source for each arena");
}

// Checks that three arenas are lent at once. With only two this would wait forever.
fn three_are_lent<L: PoolName>(rt: &impl Rt, pool: &Fixed<'_, L>) {
    let (first, first_loan) = pool.get(rt).unwrap();
    let (second, second_loan) = pool.get(rt).unwrap();
    let (third, third_loan) = pool.get(rt).unwrap();
    pool.add(rt, second, second_loan);
    pool.add(rt, first, first_loan);
    pool.add(rt, third, third_loan);
}

// An arena is lent, and comes back with a marked block. Then an empty arena is lent, and doesn't come back.
fn one_comes_back<L: PoolName>(rt: &impl Rt, pool: &Fixed<'_, L>) {
    let (mut arena, loan) = pool.get(rt).unwrap();
    holds(rt, marks(&mut arena, 3), "a marked block");
    pool.add(rt, arena, loan);
    let (arena, loan) = pool.get(rt).unwrap();
    holds(rt, arena.used_bytes() == 0, "an empty arena");
    pool.forget(rt, loan);
}

fn loans_of<L: PoolName + Send + Sync>(rt: &impl Rt, arenas: u32, bytes: u64, blank: Blank)
    requires blank { IsBlankOf L.name L.parts blank }
    requires kind { L.kind ≡ FixedSize bytes }
    requires limit { L.limit ≡ None }
    requires units { bytes % 16 ≡ 0 }
    requires room { 48 ≤ bytes }
{
    let (alloc, made) = (rt.alloc(), AtomicU64::new(0));
    let maker = Counted { alloc, made: &made };
    let pool = Fixed::<L>::new(alloc, arenas, bytes, maker, blank);
    let pool = pool.ok().expect(rt, "a pool");
    are_made(rt, &made, arenas);
    if arenas >= 3 {
        three_are_lent(rt, &pool);
    }
    are_values(rt, all_through_fixed(rt, alloc, &pool, &VALUES));
    one_comes_back(rt, &pool);
    are_made(rt, &made, arenas);
}

// The earlier arena is lent, with its chunk, and doesn't come back.
fn first_is_lost<L: PoolName>(rt: &impl Rt, pool: &Standards<'_, L>) {
    let (mut arena, loan) = pool.get(rt).ok().expect(rt, "an arena");
    pool.forget(rt, loan);
    holds(rt, arena.capacity() == 16320, "the first chunk");
    holds(rt, marks(&mut arena, 3), "a marked block");
}

// A new arena is lent, and comes back.
fn next_is_new<L: PoolName>(rt: &impl Rt, pool: &Standards<'_, L>) {
    let (arena, loan) = pool.get(rt).ok().expect(rt, "an arena");
    holds(rt, arena.capacity() == 0, "no chunk");
    pool.add(rt, arena, loan);
}

fn loans_without_end<L: PoolName + Send + Sync>(rt: &impl Rt, arenas: u32, blank: Blank)
    requires blank { IsBlankOf L.name L.parts blank }
    requires kind { L.kind ≡ Standard }
    requires limit { L.limit ≡ None }
{
    let (alloc, made) = (rt.alloc(), AtomicU64::new(0));
    let maker = Counted { alloc, made: &made };
    let pool = Standards::<L>::new(alloc, arenas, maker, blank);
    let pool = pool.ok().expect(rt, "a pool");
    are_made(rt, &made, arenas);
    holds(rt, through_standard(rt, &pool, 9u32) == Some(9), "a nine");
    first_is_lost(rt, &pool);
    next_is_new(rt, &pool);
    are_made(rt, &made, arenas.max(2));
    are_values(rt, all_through_standard(rt, alloc, &pool, &VALUES));
}

#[test]
fn loans(rt: HostRuntime) {
    for arenas in [1, 3, 9] {
        loans_of::<Brand>(&rt, arenas, 112, Blank::new(MOST_LENT));
    }
    for arenas in [0, 2, 9] {
        loans_without_end::<Brand>(&rt, arenas, Blank::new(MOST_LENT));
    }
}

// The limited pool keeps no arena that comes back.
#[test]
fn values_through_new_pools(rt: HostRuntime) {
    let alloc = rt.alloc();
    are_values(&rt, over_standard(&rt, alloc, 2, 1 << 20, &VALUES));
    are_values(&rt, over_limited(&rt, alloc, 2, 0, 1 << 20, &VALUES));
    are_values(&rt, over_fixed(&rt, alloc, 1, 112, &VALUES));
}
