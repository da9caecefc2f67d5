// Arenas that are borrowed without a guard, as a bare arena and its loan.
ghost use Rattle.std.specs.Prelude.{◌≡◌, ◌^◌, ◌≤◌, IfOk, IfSome};
ghost use Rattle.example_collections.specs.Through.{ComeBack};

use crate::borrow::read_back;
use crate::threads::{AnyPool, all_sent};
use arena_items::Item;
use arena_pool::{
    ChunkMaker, FixedSizeAllocatorPool, OutOfMemory, PoolName, StandardAllocatorPool,
};
use std::alloc::Global;
use std::sync::Wait;
use std::thread::Threads;

/// Places a value in a bare arena of a fixed-size pool, reads it back, and gives the arena back.
pub fn through_fixed<T: Item, K: ChunkMaker, L: PoolName, R: Wait>(
    rt: &R,
    pool: &FixedSizeAllocatorPool<K, L>,
    value: T,
) -> Option<T>
    requires { T.SIZE ≤ 2 ^ 24 }
    ensures { IfSome result (λ v. v ≡ value) }
{
    let Ok((mut arena, loan)) = pool.get(rt) else {
        unreachable!()
    };
    let found = read_back(&mut arena, value);
    pool.add(rt, arena, loan);
    found
}

/// Places a value in a bare arena of a standard pool, reads it back, and gives the arena back.
pub fn through_standard<T: Item, K: ChunkMaker, L: PoolName, R: Wait>(
    rt: &R,
    pool: &StandardAllocatorPool<K, L>,
    value: T,
) -> Option<T>
    requires { T.SIZE ≤ 2 ^ 24 }
    ensures { IfSome result (λ v. v ≡ value) }
{
    let (mut arena, loan) = pool.get(rt).ok()?;
    let found = read_back(&mut arena, value);
    pool.add(rt, arena, loan);
    found
}

/// Runs `through_fixed` for each value, in a thread of its own. Each value comes back unchanged, or not at all.
///
/// # Errors
///
/// Out of memory for the results.
pub fn all_through_fixed<K: ChunkMaker + Send, L: PoolName + Send + Sync, R: Threads + Wait + Sync>(
    rt: &R,
    alloc: Global,
    pool: &FixedSizeAllocatorPool<K, L>,
    values: &[u64],
) -> Result<Vec<Option<u64>>, OutOfMemory>
    ensures { IfOk result (λ back. ComeBack values.now back.items) }
{
    all_sent(rt, alloc, &AnyPool::FixedSize(pool), values)
}

/// Runs `through_standard` for each value, in a thread of its own. Each value comes back unchanged, or not at all.
///
/// # Errors
///
/// Out of memory for the results.
pub fn all_through_standard<
    K: ChunkMaker + Send,
    L: PoolName + Send + Sync,
    R: Threads + Wait + Sync,
>(
    rt: &R,
    alloc: Global,
    pool: &StandardAllocatorPool<K, L>,
    values: &[u64],
) -> Result<Vec<Option<u64>>, OutOfMemory>
    ensures { IfOk result (λ back. ComeBack values.now back.items) }
{
    all_sent(rt, alloc, &AnyPool::Standard(pool), values)
}
