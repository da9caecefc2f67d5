// Tests of the words as seen by makers of sources, by sources and by jobs: the number of arenas, the number of
// workers that are at work at the same time, and the arenas that are lent again.
use super::{asks, serve, streams};
use arena_chunks::{Allocator, ChunkSource, MemoryChunks};
use arena_pool::ChunkMaker;
use arena_script::{Job, run_script};
use script_rules::{Outcome, Script};
use std::alloc::Global;
use std::sync::atomic::{AtomicU64, Ordering};
use std::test::Fail;
use std::thread;

/// How often a worker checks whether the others are at work.
const TURNS: u32 = 1_000_000;

/// Watches a run, in which `at_once` workers must be at work at the same time.
#[derive(Drop, Default)]
struct Watch {
    at_once: u64,
    // The number of workers that came to work, and the number of those that waited for others in vain.
    here: AtomicU64,
    alone: AtomicU64,
    // The number of sources that were made, one for each arena.
    made: AtomicU64,
    // The sum of the arenas' bytes, at each time that one was lent to a script.
    lent: AtomicU64,
}

impl Watch {
    // A worker comes to work, and waits for the others.
    fn meet(&self) {
        self.here.fetch_add(1, Ordering::SeqCst);
        for _ in 0..TURNS {
            if self.here.load(Ordering::SeqCst) >= self.at_once {
                return;
            }
            thread::yield_now();
        }
        self.alone.fetch_add(1, Ordering::SeqCst);
    }

    // Whether no worker waited in vain, `made` arenas were made, and the lent ones had `lent` bytes in all.
    fn saw(&self, made: u64, lent: u64) -> bool {
        self.alone.load(Ordering::SeqCst) == 0
            && self.made.load(Ordering::SeqCst) == made
            && self.lent.load(Ordering::SeqCst) == lent
    }
}

/// Makes sources that are watched.
#[derive(Drop)]
struct Maker<'a> {
    alloc: Global,
    watch: &'a Watch,
}

impl<'a> ChunkMaker for Maker<'a> {
    type Chunks = Chunks<'a>;

    fn make(&mut self) -> Chunks<'a> {
        self.watch.made.fetch_add(1, Ordering::SeqCst);
        Chunks {
            memory: MemoryChunks::new(self.alloc, 1 << 20),
            watch: self.watch,
        }
    }
}

/// Memory. A worker that requests a chunk is at work.
#[derive(Drop)]
struct Chunks<'a> {
    memory: MemoryChunks,
    watch: &'a Watch,
}

impl ChunkSource for Chunks<'_> {
    ghost use Rattle.std.specs.Prelude.{None};

    ghost source = { λ c. record { refusals = c.memory.refused; asked = None } };

    fn request(&mut self, size: u64, align: u64) -> Option<Vec<u8>> {
        self.watch.meet();
        self.memory.request(size, align)
    }
}

impl<C: ChunkSource> Job<C> for Watch {
    ghost worked = { λ script outcome. Unit {0} };

    fn run(&self, alloc: Global, a: &mut Allocator<C>, script: &Script) -> Outcome {
        self.lent.fetch_add(a.capacity(), Ordering::SeqCst);
        self.meet();
        run_script(alloc, a, script)
    }
}

/// Inputs of no script, and of three, each of which takes 8 bytes.
const NONE: &str = "";

const THREE: &str = "script\nvalue 0 1\nscript\nvalue 0 1\nscript\nvalue 0 1\n";

/// An input of three sources, each of one statement.
const THREE_SOURCES: &str = "1;\n%%\n1;\n%%\n1;\n";

// The words, the input, the number of workers that are at work at the same time, the number of arenas, and the sum of
// their bytes when they are lent.
type Row = (&'static [&'static str], &'static str, u64, u64, u64);

// At first, as many arenas are made as the words say. The empty input is one source.
const AT_FIRST: &[Row] = &[
    (&["scripts", "64"], NONE, 0, 64, 0),
    (&["scripts", "7", "fixed", "48", "2"], NONE, 0, 2, 0),
    (&["lint", "5"], NONE, 0, 5, 0),
];

// As many workers as the words say are at work at the same time.
const AT_ONCE: &[Row] = &[
    (&["scripts", "3"], THREE, 3, 3, 0),
    (&["scripts", "3", "keep", "0"], THREE, 3, 3, 0),
    (&["scripts", "3", "fixed", "64", "3"], THREE, 3, 3, 48),
    (&["lint", "3"], THREE_SOURCES, 3, 3, 0),
];

// An arena comes back with its first chunk, of 16320 bytes. It is lent again, unless it exceeds the limit.
const AGAIN: &[Row] = &[
    (&["scripts", "1"], THREE, 1, 1, 32640),
    (&["scripts", "1", "keep", "16320"], THREE, 1, 1, 32640),
    (&["scripts", "1", "keep", "16319"], THREE, 1, 3, 0),
    (&["scripts", "1", "fixed", "144", "1"], THREE, 1, 1, 288),
];

#[test]
fn as_many_arenas_and_workers_as_the_words_say(rt: HostRuntime) -> Result<(), Fail> {
    let alloc = rt.alloc();
    for rows in [AT_FIRST, AT_ONCE, AGAIN] {
        for (words, text, at_once, made, lent) in rows {
            let (mut input, mut output) = streams(alloc, &asks(words, text.as_bytes()))?;
            let watch = &Watch {
                at_once: *at_once,
                ..Default::default()
            };
            let mut chunks = MemoryChunks::new(alloc, 0);
            let maker = Maker { alloc, watch };
            let status = serve(
                &rt,
                words,
                &mut chunks,
                &mut input,
                &mut output,
                maker,
                watch,
            )?;
            let is_so = status.code() == 0 && watch.saw(*made, *lent);
            assert!(rt; is_so, "{words:?}");
        }
    }
    Ok(())
}
