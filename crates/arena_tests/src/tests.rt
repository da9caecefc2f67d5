// Worked examples of the rules, and one call of each function that takes memory. Most are tables of calls (`steps`),
// because a table costs almost nothing to prove.
mod allocators;
mod creation;
mod growth;
mod items;
mod layers;
mod layouts;
mod marks;
mod places;
mod reallocation;
mod regions;
mod replies;
mod resizes;
mod sources;
mod stage;
mod steps;
mod tables;
mod texts;
mod traits;

ghost use Rattle.std.specs.Prelude.{◌≡◌, Ok, IsTrue};
ghost use Rattle.arena_chunks.specs.Memory.{is_readable};

use arena_chunks::{Allocator, ArenaErr, Block, ChunkSource, MemoryChunks, RefusingChunks};
use arena_place::Layout;
use std::alloc::{AllocError, Global};
use std::fmt::Debug;
use std::process::Abort;

fn layout(rt: &impl Abort, size: u64, align: u64) -> Layout
    ensures size { result.size ≡ size }
    ensures align { result.align ≡ align }
{
    Layout::new(size, align).expect(rt, "a layout")
}

type Memory = Allocator<MemoryChunks>;

fn ample(alloc: Global) -> Memory {
    Allocator::new(alloc, MemoryChunks::new(alloc, 1 << 20))
}

// A source that refuses the requests with these numbers, counted from 1.
fn refusing(alloc: Global, refuse: &[u64]) -> Result<RefusingChunks, AllocError> {
    let refuse = refuse.to_vec(alloc)?;
    Ok(RefusingChunks::new(alloc, refuse))
}

// Returns the block. The test fails if it isn't held.
fn held<C: ChunkSource>(rt: &impl Abort, a: &Allocator<C>, block: Block) -> Block
    ensures readable { IsTrue (is_readable a.now.memory.state result) }
    ensures block { result ≡ block }
{
    must(rt, block, a.is_held_place(block));
    block
}

// Returns the block of a result. The test fails if there is none, or if it has another address or isn't held.
fn placed<C: ChunkSource>(
    rt: &impl Abort,
    what: &'static str,
    a: &Allocator<C>,
    answered: Result<Block, ArenaErr>,
    addr: u64,
) -> Block
    ensures readable { IsTrue (is_readable a.now.memory.state result) }
    ensures block { answered ≡ Ok result }
{
    let block = answered.expect(rt, what);
    same_at(rt, what, block.addr, addr);
    held(rt, a, block)
}

// Checks that the block is held and has these bytes.
fn reads<C: ChunkSource>(
    rt: &impl Abort,
    what: &'static str,
    a: &Allocator<C>,
    block: Block,
    wanted: &[u8],
) {
    let block = held(rt, a, block);
    must(rt, what, *a.read(block) == *wanted);
}

// Checks the bytes in use, and the counts of blocks that were placed and of blocks that were grown or shrunk.
fn has(rt: &impl Abort, what: &'static str, a: &Memory, used: u64, counts: (u64, u64)) {
    let found = (a.used_bytes(), a.get_allocation_stats());
    same_at(rt, what, found, (used, counts));
}

fn same<T: Copy + PartialEq + Debug>(rt: &impl Abort, found: T, wanted: T) {
    same_at(rt, "a value", found, wanted);
}

// Fails the test if the two values differ. `at` names the case.
fn same_at<A: Copy + Debug, T: Copy + PartialEq + Debug>(rt: &impl Abort, at: A, is: T, wanted: T) {
    if is != wanted {
        panic!(rt; "{at:?}: {is:?} in place of {wanted:?}");
    }
}

// Fails the test if the condition is false. `at` names the case.
fn must<A: Copy + Debug>(rt: &impl Abort, at: A, is: bool)
    ensures { IsTrue is }
{
    if !is {
        panic!(rt; "{at:?}");
    }
}
