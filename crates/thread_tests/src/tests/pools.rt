// Helpers for the tests of pools.
ghost use Rattle.arena_pool.specs.Kinds.{IsOfKind};
ghost use Rattle.arena_pool.specs.declared.kind.PoolKind.{PoolKind};

mod books;
mod claims;
mod guards;
mod loans;
mod owners;
mod threads;

use arena_chunks::{Allocator, ChunkSource};
use arena_place::Layout;
use arena_pool::laws::kinds;
use arena_pool::{OutOfMemory, PoolKind};
use std::process::Abort;
use std::sync::Wait;
use std::sync::atomic::{AtomicU64, Ordering};
use std::test::*;
use std::thread;

/// The number of bytes that a borrower writes.
const MARKED: u64 = 32;

/// Arenas over regions with room for 64 bytes.
const SMALL: PoolKind = PoolKind::FixedSize { bytes: 112 };

/// The values that threads place in arenas and read back.
const VALUES: [u64; 8] = [3, 1, 4, 1, 5, 9, 2, 6];

// Checks that all values came back.
fn are_values(rt: &impl Abort, back: Result<Vec<Option<u64>>, OutOfMemory>) {
    let back = back.ok().expect(rt, "results");
    let are_same = back
        .iter()
        .zip(&VALUES)
        .all(|(one, value)| *one == Some(*value));
    assert!(rt; are_same && back.len() == VALUES.len());
}

fn wait_until(rt: &impl Wait, stage: &AtomicU64, least: u64) {
    for _ in rt.forever() {
        if stage.load(Ordering::SeqCst) >= least {
            break;
        }
        thread::yield_now();
    }
}

// Whether an arena has a place for a block of `size` bytes.
#[tactic(auto, using(arena_pool::proofs::Layers::placed_of_kind))]
fn places<C: ChunkSource>(a: &mut Allocator<C>, size: u64) -> bool
    ensures { (kind : PoolKind) → IsOfKind kind a.old.memory.state → IsOfKind kind a.new.memory.state }
{
    kinds();
    match Layout::new(size, 1) {
        Some(layout) => a.alloc_layout(layout).is_ok(),
        None => false,
    }
}

// Whether an arena is empty at first, and a block in it still has its bytes after other threads had a turn.
#[tactic(auto, using(arena_pool::proofs::Layers::placed_of_kind, arena_pool::proofs::Layers::wrote_of_kind))]
fn marks<C: ChunkSource>(a: &mut Allocator<C>, mark: u8) -> bool
    ensures { (kind : PoolKind) → IsOfKind kind a.old.memory.state → IsOfKind kind a.new.memory.state }
{
    let is_unused = a.used_bytes() == 0;
    let Some(layout) = Layout::new(MARKED, 1) else {
        return false;
    };
    let Ok(block) = a.alloc_layout(layout) else {
        return false;
    };
    a.write(block, 0, &[mark; MARKED as usize]);
    thread::yield_now();
    a.read(block).iter().all(|b| *b == mark) && is_unused
}
