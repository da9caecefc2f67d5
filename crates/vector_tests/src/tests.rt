// Worked examples of the rules, the Rust crate's tests and examples, refusals, and what no contract says. Most are
// tables of calls.
mod comparisons;
mod numbers;
mod splices;
mod vector_calls;
mod vector_hints;
mod vector_lists;
mod vector_parts;
mod vector_refusals;
mod vector_storage;
mod vector_types;
mod vector_walks;
mod vectors;

ghost use Rattle.std.specs.Prelude.{◌≡◌, IsTrue};
ghost use Rattle.arena_chunks.specs.Memory.{is_readable};

use arena_chunks::{Allocator, Block, ChunkSource, MemoryChunks};
use std::alloc::Global;
use std::fmt::Debug;
use std::process::Abort;

type Memory = Allocator<MemoryChunks>;

fn ample(alloc: Global) -> Memory {
    Allocator::new(alloc, MemoryChunks::new(alloc, 1 << 20))
}

// Returns the block. The test fails if it isn't held.
fn held<C: ChunkSource>(rt: &impl Abort, a: &Allocator<C>, block: Block) -> Block
    ensures readable { IsTrue (is_readable a.now.memory.state result) }
    ensures block { result ≡ block }
{
    assert!(rt; a.is_held_place(block), "a held block");
    block
}

fn same<T: Copy + PartialEq + Debug>(rt: &impl Abort, found: T, wanted: T) {
    same_at(rt, (), found, wanted);
}

// Fails the test if the two values differ. `at` names the case.
fn same_at<A: Copy + Debug, T: Copy + PartialEq + Debug>(rt: &impl Abort, at: A, is: T, wanted: T) {
    if is != wanted {
        panic!(rt; "{is:?} is not {wanted:?}, at {at:?}");
    }
}
