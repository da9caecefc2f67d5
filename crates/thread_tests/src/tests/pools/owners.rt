// Tests of arenas with two owners, which give up one after the other or at once.
ghost use Rattle.std.specs.Prelude.{◌≡◌, IfSome};

use super::{MARKED, wait_until};
use crate::tests::{Rt, holds};
use arena_chunks::{Allocator, MemoryChunks};
use arena_place::Layout;
use arena_pool::{Owner, share};
use example_collections::{alone, freed, freed_by_two};
use std::alloc::Global;
use std::process::Abort;
use std::sync::Wait;
use std::sync::atomic::{AtomicU64, Ordering};
use std::test::*;
use std::thread::join;

const ARENAS: u64 = 1000;

type Heap = Allocator<MemoryChunks>;

fn new_arena(alloc: Global) -> Heap {
    Allocator::new(alloc, MemoryChunks::new(alloc, 1 << 20))
}

// One owner gives up, and then the other, which gets the arena.
fn later_frees(rt: &impl Abort, first: Owner<MemoryChunks>, second: Owner<MemoryChunks>) {
    let second = alone(second).err().expect(rt, "an arena of two owners");
    holds(rt, freed(first).is_none(), "the first frees nothing");
    holds(rt, alone(second).is_ok(), "the second is alone");
}

#[test]
fn the_later_frees_the_arena(rt: HostRuntime) {
    let shared = share(rt.alloc(), new_arena(rt.alloc()));
    let (mut first, second) = shared.ok().expect(&rt, "owners");
    holds(&rt, first.is_double_owned(), "two owners");
    later_frees(&rt, first, second);
}

// Gives up once two threads have called it.
fn freed_together(rt: &impl Wait, here: &AtomicU64, owner: Owner<MemoryChunks>) -> Option<Heap>
    ensures { IfSome result (λ a. a ≡ owner.shared) }
{
    here.fetch_add(1, Ordering::SeqCst);
    wait_until(rt, here, 2);
    freed(owner)
}

// Two threads own the arena, meet, and give up. Returns the arena if exactly one of them got it.
fn freed_at_once(rt: &impl Rt, a: Heap) -> Option<Heap>
    ensures { IfSome result (λ b. b ≡ a) }
{
    let (one, other) = share(rt.alloc(), a).ok()?;
    let here = AtomicU64::new(0);
    let (ours, theirs) = join(
        rt,
        || freed_together(rt, &here, one),
        || freed_together(rt, &here, other),
    );
    match (ours, theirs) {
        (Some(arena), None) | (None, Some(arena)) => Some(arena),
        _ => None,
    }
}

// Whether exactly one of two threads that own an arena gets it, with the bytes that it had.
fn is_freed_once(rt: &impl Rt, mark: u8) -> bool {
    let layout = Layout::new(MARKED, 1).expect(rt, "a layout");
    let mut a = new_arena(rt.alloc());
    let block = a.alloc_layout(layout).ok().expect(rt, "a block");
    a.write(block, 0, &[mark; MARKED as usize]);
    match freed_at_once(rt, a) {
        Some(arena) => arena.read(block).iter().all(|b| *b == mark),
        None => false,
    }
}

#[test]
fn each_shared_arena_is_freed_once(rt: HostRuntime) {
    for i in 0..ARENAS {
        holds(&rt, is_freed_once(&rt, (i % 251) as u8), "its bytes");
    }
}

#[test]
fn one_of_two_threads_frees_the_arena(rt: HostRuntime) {
    let freed = freed_by_two(&rt, rt.alloc(), new_arena(rt.alloc()));
    let (ours, theirs) = freed.ok().expect(&rt, "owners");
    holds(&rt, ours.is_some() != theirs.is_some(), "one arena");
}
