// Worked inputs, calls that succeed, long inputs, and arenas that are full or get no chunk. Expected values are worked
// out by hand from the rules.
mod linter;
mod reports;
mod trees;

use arena_chunks::{Allocator, MemoryChunks, RefusingChunks};
use std::alloc::{Alloc, Global};
use std::fmt::Debug;
use std::process::Abort;
use std::sync::Wait;
use std::thread::Threads;

/// The handle of a test.
trait Rt: Threads + Wait + Abort + Alloc<A = Global> + Sync {}

impl<R: Threads + Wait + Abort + Alloc<A = Global> + Sync> Rt for R {}

// A text in parts, each with the number of its repetitions.
type Parts<'a> = &'a [(&'a [u8], u32)];

// Fails the test if the two values differ. `at` names the case.
fn same_at<A: Copy + Debug, T: Copy + PartialEq + Debug>(
    rt: &impl Abort,
    at: A,
    found: T,
    wanted: T,
) {
    if found != wanted {
        panic!(rt; "{at:?}: {found:?} in place of {wanted:?}");
    }
}

fn text_of(rt: &impl Rt, parts: Parts<'_>) -> Vec<u8> {
    let mut text = Vec::new(rt.alloc());
    for (part, count) in parts {
        for _ in 0..*count {
            text.extend_from_slice(part).expect(rt, "memory");
        }
    }
    text
}

fn ample(rt: &impl Rt) -> Allocator<MemoryChunks> {
    Allocator::new(rt.alloc(), MemoryChunks::new(rt.alloc(), 1 << 31))
}

// An allocator over `bytes` bytes, a multiple of 16, that requests no chunk.
fn fixed(rt: &impl Rt, bytes: usize) -> Allocator<MemoryChunks> {
    assert!(rt; bytes < 1 << 20 && bytes % 16 == 0);
    let alloc = rt.alloc();
    let region = vec![in alloc; 7; bytes + 48].expect(rt, "bytes");
    let a = Allocator::from_raw_parts(alloc, region, MemoryChunks::new(alloc, 0));
    a.ok().expect(rt, "an allocator")
}

// A source of chunks that refuses one request. The first request has number 1.
fn refusing(rt: &impl Rt, number: u64) -> RefusingChunks {
    let refuse = vec![in rt.alloc(); number].expect(rt, "a number");
    RefusingChunks::new(rt.alloc(), refuse)
}
