// A test of the order of events for each source: the gate is told that it begins, then its arena requests chunks,
// then the gate is told that it is finished.
use super::super::text_of;
use super::over::{ALONE, linted_over};
use arena_chunks::{ChunkSource, MemoryChunks};
use arena_lint::Gate;
use arena_pool::ChunkMaker;
use std::alloc::Global;
use std::sync::atomic::{AtomicU64, Ordering};
use std::test::*;

/// The stages: no source has begun; one has begun; its arena has requested a chunk.
const IDLE: u64 = 0;

const BEGUN: u64 = 1;

const ASKED: u64 = 2;

/// The stage of the only worker, the number of events out of order, and the number of finished sources.
#[derive(Drop, Default)]
struct Stage {
    at: AtomicU64,
    mixed_up: AtomicU64,
    finished: AtomicU64,
}

impl Stage {
    // Moves from one stage to another.
    fn comes(&self, from: u64, to: u64) {
        if self.at.swap(to, Ordering::SeqCst) != from {
            self.mixed_up.fetch_add(1, Ordering::SeqCst);
        }
    }

    // The arena requests a chunk, for the first time or again.
    fn asks(&self) {
        if self.at.swap(ASKED, Ordering::SeqCst) == IDLE {
            self.mixed_up.fetch_add(1, Ordering::SeqCst);
        }
    }

    // Whether `count` sources are finished, and all events came in order.
    fn is_over(&self, count: u64) -> bool {
        self.at.load(Ordering::SeqCst) == IDLE
            && self.mixed_up.load(Ordering::SeqCst) == 0
            && self.finished.load(Ordering::SeqCst) == count
    }
}

impl Gate for Stage {
    fn started(&self, _piece: u32) {
        self.comes(IDLE, BEGUN);
    }

    fn finished(&self, _piece: u32) {
        self.comes(ASKED, IDLE);
        self.finished.fetch_add(1, Ordering::SeqCst);
    }
}

/// A source of chunks that reports its requests to the stage.
#[derive(Drop)]
struct Chunks<'a> {
    memory: MemoryChunks,
    stage: &'a Stage,
}

impl ChunkSource for Chunks<'_> {
    ghost use Rattle.std.specs.Prelude.{None};

    ghost source = { λ c. record { refusals = c.memory.refused; asked = None } };

    fn request(&mut self, size: u64, align: u64) -> Option<Vec<u8>> {
        self.stage.asks();
        self.memory.request(size, align)
    }
}

#[derive(Drop)]
struct Maker<'a> {
    alloc: Global,
    stage: &'a Stage,
}

impl<'a> ChunkMaker for Maker<'a> {
    type Chunks = Chunks<'a>;

    fn make(&mut self) -> Chunks<'a> {
        Chunks {
            memory: MemoryChunks::new(self.alloc, 1 << 20),
            stage: self.stage,
        }
    }
}

// Each source has more statements than the one before, and needs a further chunk.
#[test]
fn each_source_in_its_turn(rt: HostRuntime) -> Result<(), Fail> {
    let parts: &[(&[u8], u32)] = &[
        (b"1;\n%%\n", 1),
        (b"1;", 400),
        (b"\n%%\n", 1),
        (b"1;", 2000),
    ];
    let input = text_of(&rt, parts);
    let (alloc, stage) = (rt.alloc(), &Stage::default());
    let told = linted_over(&rt, ALONE, Maker { alloc, stage }, stage, &input)?;
    assert!(rt; told.as_slice() == b"source 0\nsource 1\nsource 2\n".as_slice());
    assert!(rt; stage.is_over(3));
    Ok(())
}
