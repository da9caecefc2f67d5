// Many threads over one pool.
ghost use Rattle.std.specs.Prelude.{◌≡◌, ℕ, ◌%◌, ◌<◌, ◌≤◌, None, Some, IfOk, IfSome, length, vec_len, slice_index, slice_index_or};
ghost use Rattle.arena_pool.specs.Names.{IsBlankOf};
ghost use Rattle.arena_pool.specs.declared.kind.PoolKind.TheVariants.{Standard, FixedSize};
ghost use Rattle.example_collections.specs.Through.{ComeBack};

use crate::borrow::through;
use crate::loans::{through_fixed, through_standard};
use arena_pool::{
    AllocatorPool, ChunkMaker, FixedSizeAllocatorPool, MOST_LENT, MemoryMaker, OutOfMemory,
    PoolName, StandardAllocatorPool,
};
use std::alloc::Global;
use std::marker::Brand;
use std::sync::Wait;
use std::sync::ledger::Blank;
use std::thread;
use std::thread::Threads;

/// A pool of one of the three types.
#[derive(Drop)]
pub(crate) enum AnyPool<'a, K: ChunkMaker, L: PoolName> {
    Pool(&'a AllocatorPool<K, L>),
    FixedSize(&'a FixedSizeAllocatorPool<K, L>),
    Standard(&'a StandardAllocatorPool<K, L>),
}

// Places a value in an arena of a pool and reads it back.
fn sent<K: ChunkMaker, L: PoolName, R: Wait>(
    rt: &R,
    pool: &AnyPool<'_, K, L>,
    value: u64,
) -> Option<u64>
    ensures { IfSome result (λ v. v ≡ value) }
{
    match *pool {
        AnyPool::Pool(pool) => through(rt, pool, value),
        AnyPool::FixedSize(pool) => through_fixed(rt, pool, value),
        AnyPool::Standard(pool) => through_standard(rt, pool, value),
    }
}

// Runs `sent` for each value, in a thread of its own.
pub(crate) fn all_sent<K: ChunkMaker + Send, L: PoolName + Send + Sync, R: Threads + Wait + Sync>(
    rt: &R,
    alloc: Global,
    pool: &AnyPool<'_, K, L>,
    values: &[u64],
) -> Result<Vec<Option<u64>>, OutOfMemory>
    ensures { IfOk result (λ back. ComeBack values.now back.items) }
{
    let back = thread::map_indices(
        rt,
        alloc,
        values.len(),
        &|i| -> Option<u64>
            requires { i < length values.now }
            ensures { IfSome result (λ v. v ≡ slice_index values.entry.now i) }
        { sent(rt, pool, values[i]) },
    );
    back.map_err(|_| OutOfMemory)
}

/// Places each value in a borrowed arena and reads it back, in a thread of its own. Each comes back unchanged, or not
/// at all.
///
/// # Errors
///
/// Out of memory for the results.
pub fn all_through<K: ChunkMaker + Send, L: PoolName + Send + Sync, R: Threads + Wait + Sync>(
    rt: &R,
    alloc: Global,
    pool: &AllocatorPool<K, L>,
    values: &[u64],
) -> Result<Vec<Option<u64>>, OutOfMemory>
    ensures { IfOk result (λ back. ComeBack values.now back.items) }
{
    all_sent(rt, alloc, &AnyPool::Pool(pool), values)
}

/// Runs `all_through` over a new standard pool of `arenas` arenas, each with a budget in bytes.
///
/// # Errors
///
/// Out of memory.
pub fn over_standard<R: Threads + Wait + Sync>(
    rt: &R,
    alloc: Global,
    arenas: u32,
    budget: u64,
    values: &[u64],
) -> Result<Vec<Option<u64>>, OutOfMemory>
    ensures { IfOk result (λ back. ComeBack values.now back.items) }
{
    in_standard::<Brand, R>(rt, alloc, arenas, budget, Blank::new(MOST_LENT), values)
}

// The pool is named by `L`, which occurs in no type of the signature.
fn in_standard<L: PoolName + Send + Sync, R: Threads + Wait + Sync>(
    rt: &R,
    alloc: Global,
    arenas: u32,
    budget: u64,
    blank: Blank,
    values: &[u64],
) -> Result<Vec<Option<u64>>, OutOfMemory>
    requires blank { IsBlankOf L.name L.parts blank }
    requires kind { L.kind ≡ Standard }
    requires limit { L.limit ≡ None }
    ensures { IfOk result (λ back. ComeBack values.now back.items) }
{
    let maker = MemoryMaker::new(alloc, budget);
    let pool = AllocatorPool::<MemoryMaker, L>::new(alloc, arenas, maker, blank)?;
    all_through(rt, alloc, &pool, values)
}

/// Runs `all_through` over a new standard pool that keeps no arena of more than `limit` bytes.
///
/// # Errors
///
/// Out of memory.
pub fn over_limited<R: Threads + Wait + Sync>(
    rt: &R,
    alloc: Global,
    arenas: u32,
    limit: u64,
    budget: u64,
    values: &[u64],
) -> Result<Vec<Option<u64>>, OutOfMemory>
    ensures { IfOk result (λ back. ComeBack values.now back.items) }
{
    in_limited::<Brand, R>(
        rt,
        alloc,
        arenas,
        limit,
        budget,
        Blank::new(MOST_LENT),
        values,
    )
}

fn in_limited<L: PoolName + Send + Sync, R: Threads + Wait + Sync>(
    rt: &R,
    alloc: Global,
    arenas: u32,
    limit: u64,
    budget: u64,
    blank: Blank,
    values: &[u64],
) -> Result<Vec<Option<u64>>, OutOfMemory>
    requires blank { IsBlankOf L.name L.parts blank }
    requires kind { L.kind ≡ Standard }
    requires limit { L.limit ≡ Some limit }
    ensures { IfOk result (λ back. ComeBack values.now back.items) }
{
    let maker = MemoryMaker::new(alloc, budget);
    let pool = AllocatorPool::<MemoryMaker, L>::new_with_limit(alloc, arenas, limit, maker, blank)?;
    all_through(rt, alloc, &pool, values)
}

/// Runs `all_through` over a new pool of `arenas` arenas, each over a region of `bytes` bytes. If there are values
/// and no arenas, it waits forever.
///
/// # Errors
///
/// Out of memory.
pub fn over_fixed<R: Threads + Wait + Sync>(
    rt: &R,
    alloc: Global,
    arenas: u32,
    bytes: u64,
    values: &[u64],
) -> Result<Vec<Option<u64>>, OutOfMemory>
    requires units { bytes % 16 ≡ 0 }
    requires room { 48 ≤ bytes }
    ensures { IfOk result (λ back. ComeBack values.now back.items) }
{
    in_fixed::<Brand, R>(rt, alloc, arenas, bytes, Blank::new(MOST_LENT), values)
}

fn in_fixed<L: PoolName + Send + Sync, R: Threads + Wait + Sync>(
    rt: &R,
    alloc: Global,
    arenas: u32,
    bytes: u64,
    blank: Blank,
    values: &[u64],
) -> Result<Vec<Option<u64>>, OutOfMemory>
    requires blank { IsBlankOf L.name L.parts blank }
    requires kind { L.kind ≡ FixedSize bytes }
    requires limit { L.limit ≡ None }
    requires units { bytes % 16 ≡ 0 }
    requires room { 48 ≤ bytes }
    ensures { IfOk result (λ back. ComeBack values.now back.items) }
{
    let maker = MemoryMaker::new(alloc, 0);
    let pool = AllocatorPool::<MemoryMaker, L>::new_fixed_size(alloc, arenas, bytes, maker, blank)?;
    all_through(rt, alloc, &pool, values)
}
