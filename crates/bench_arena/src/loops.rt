// The loops that are timed. Each gets a new arena and the number of its calls. It returns the time of the calls and a
// number that depends on the calls alone.
mod arena;
mod batches;
mod bits;
mod clones;
mod items;
mod maps;
mod older;
mod pool;
mod symbols;
mod texts;
mod trees;
mod vec;

use crate::bench::Bench;
use arena_chunks::{Allocator, ArenaErr, MemoryChunks};
use arena_items::ItemErr;
use arena_tree::TreeErr;
use arena_vec::AllocError;
pub use batches::in_batches;
use std::sync::Wait;
use std::thread::Threads;
use std::time::{Duration, Instant};
use std::{alloc, io};

/// An arena whose chunks come from memory.
pub type Heap = Allocator<MemoryChunks>;

// The most bytes that a loop's chunks may have in all.
const BUDGET: u64 = 1 << 30;

/// Times the loops that the words ask for, in this order.
pub fn time<R: Threads + Wait + Sync>(bench: &Bench, threads: &R) -> Result<(), Failed> {
    arena::time(bench)?;
    older::time(bench)?;
    items::time(bench)?;
    vec::time(bench)?;
    pool::time(bench, threads)?;
    texts::time(bench)?;
    bits::time(bench)?;
    maps::time(bench)?;
    clones::time(bench)?;
    symbols::time(bench)?;
    trees::time(bench)
}

/// Returns an arena without a chunk.
pub fn new_allocator(rt: &HostRuntime) -> Heap {
    Allocator::new(rt.alloc(), MemoryChunks::new(rt.alloc(), BUDGET))
}

// Returns an arena whose first chunk has `capacity` bytes.
fn with_capacity(rt: &HostRuntime, capacity: u64) -> Result<Heap, Failed> {
    let chunks = MemoryChunks::new(rt.alloc(), BUDGET);
    match Allocator::with_capacity(rt.alloc(), chunks, capacity) {
        Ok(a) => Ok(a),
        Err(_) => Err(Failed::NoPlace),
    }
}

/// Why a loop ended early.
#[derive(Clone, Copy)]
pub enum Failed {
    NoPlace,
    NoClock,
}

impl From<ArenaErr> for Failed {
    fn from(_: ArenaErr) -> Failed {
        Failed::NoPlace
    }
}

impl From<ItemErr> for Failed {
    fn from(_: ItemErr) -> Failed {
        Failed::NoPlace
    }
}

impl From<AllocError> for Failed {
    fn from(_: AllocError) -> Failed {
        Failed::NoPlace
    }
}

impl From<alloc::AllocError> for Failed {
    fn from(_: alloc::AllocError) -> Failed {
        Failed::NoPlace
    }
}

impl From<TreeErr> for Failed {
    fn from(_: TreeErr) -> Failed {
        Failed::NoPlace
    }
}

impl From<io::Error> for Failed {
    fn from(_: io::Error) -> Failed {
        Failed::NoClock
    }
}

/// The time that a loop took, and its number.
#[derive(Clone, Copy)]
pub struct Timed {
    pub time: Duration,
    pub number: u64,
}

// The time at which a loop began, if the clock could be read.
#[derive(Clone, Copy)]
struct Clock {
    began: Option<Instant>,
}

impl Clock {
    fn start(rt: &HostRuntime) -> Clock {
        Clock {
            began: Instant::now(rt).ok(),
        }
    }

    fn stop(self, rt: &HostRuntime, number: u64) -> Result<Timed, Failed> {
        let Some(began) = self.began else {
            return Err(Failed::NoClock);
        };
        let time = began.elapsed(rt)?;
        Ok(Timed { time, number })
    }
}

fn count(calls: u64) -> Result<u32, Failed> {
    u32::try_from(calls).map_err(|_| Failed::NoPlace)
}
