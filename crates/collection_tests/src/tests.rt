// Worked examples of the rules, one call of each function, and refusals of each kind of call. Most are tables of calls.
mod bits;
mod copies;
mod maps;
mod symbols;
mod texts;

use arena_chunks::{Allocator, MemoryChunks};
use arena_items::AllocError;
use std::alloc::Global;
use std::fmt::Debug;
use std::process::Abort;

// No place in an arena that requests no chunk, or none of such a size.
const NO_PLACE: AllocError = AllocError::AllocErr { refused: 0 };

// The source refused the one request.
const NO_CHUNK: AllocError = AllocError::AllocErr { refused: 1 };

type Memory = Allocator<MemoryChunks>;

// An allocator whose source has a budget of `bytes` bytes.
fn limited(alloc: Global, bytes: u64) -> Memory {
    Allocator::new(alloc, MemoryChunks::new(alloc, bytes))
}

fn ample(alloc: Global) -> Memory {
    limited(alloc, 1 << 28)
}

// An allocator over `bytes` bytes that aren't 0. It requests no chunk.
fn fixed(rt: &impl Abort, alloc: Global, bytes: usize) -> Memory {
    assert!(rt; bytes <= 4096 && bytes % 16 == 0);
    let region = vec![in alloc; 7u8; bytes + 48].expect(rt, "bytes");
    let made = Allocator::from_raw_parts(alloc, region, MemoryChunks::new(alloc, 0));
    made.ok().expect(rt, "an arena")
}

fn same<T: Copy + PartialEq + Debug>(rt: &impl Abort, found: T, wanted: T) {
    assert_eq!(rt; found, wanted);
}

// Fails the test if the two values differ. `at` names the case.
fn same_at<A: Copy + Debug, T: Copy + PartialEq + Debug>(rt: &impl Abort, at: A, is: T, wanted: T) {
    assert_eq!(rt; is, wanted, "{at:?}");
}
