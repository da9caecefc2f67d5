// Helpers for the tests of the program. Arguments are called words.
mod calls;
mod long;
mod programs;
mod rows;
mod watched;

use arena_calls::{Input, MemoryInput, MemoryOutput, Output, Status};
use arena_chunks::{Arena, ChunkSource, MemoryChunks};
use arena_pool::{ChunkMaker, MemoryMaker};
use arena_program::arena_main;
use arena_script::{Engine, Job};
use short_bytes::Bytes;
use std::alloc::{Alloc, Global};
use std::process::Abort;
use std::sync::Wait;
use std::test::Fail;
use std::thread::Threads;

/// The handle of a test.
trait Rt: Threads + Wait + Abort + Alloc<A = Global> + Sync {}

impl<R: Threads + Wait + Abort + Alloc<A = Global> + Sync> Rt for R {}

// Words and an input. A read gives at most `given` bytes and a write takes at most `taken`, but at least one. The
// reads and writes with the listed numbers fail.
#[derive(Drop)]
struct Asked<'a> {
    words: &'a [&'a str],
    text: &'a [u8],
    given: u32,
    reads: &'a [u64],
    taken: u32,
    writes: &'a [u64],
}

// The word `calls`, without failing reads or writes.
const CALLS: Asked<'static> = Asked {
    words: &["calls"],
    text: b"",
    given: 4096,
    reads: &[],
    taken: 4096,
    writes: &[],
};

// These words and this input, without failing reads or writes.
fn asks<'a>(words: &'a [&'a str], text: &'a [u8]) -> Asked<'a> {
    Asked {
        words,
        text,
        ..CALLS
    }
}

fn streams(alloc: Global, asked: &Asked) -> Result<(MemoryInput, MemoryOutput), Fail> {
    let text = asked.text.to_vec(alloc)?;
    let (reads, writes) = (asked.reads.to_vec(alloc)?, asked.writes.to_vec(alloc)?);
    let input = MemoryInput::new(alloc, text, asked.given.max(1), reads);
    Ok((input, MemoryOutput::new(alloc, asked.taken.max(1), writes)))
}

fn holds(rt: &impl Abort, is_so: bool, row: &str) {
    assert!(rt; is_so, "{row:?}");
}

// How a run ended, and what it wrote.
#[derive(Drop)]
struct Ended {
    status: Status,
    text: Vec<u8>,
}

impl Ended {
    // Whether the run ended with this exit code, this number of a refused line or 0, and this output.
    fn is(&self, (code, line, text): (u8, u64, &[u8])) -> bool {
        let refused = match self.status {
            Status::BadLine(n) => n,
            _ => 0,
        };
        self.status.code() == code && refused == line && self.text.as_slice() == text
    }
}

// Runs the words over a new arena and a source.
fn serve<K: ChunkMaker + Drop + Send>(
    rt: &impl Rt,
    words: &[&str],
    chunks: &mut impl ChunkSource,
    input: &mut impl Input,
    output: &mut impl Output,
    maker: K,
    job: &(impl Job<K::Chunks> + Sync),
) -> Result<Status, Fail> {
    let alloc = rt.alloc();
    let mut list = Vec::new(alloc);
    for word in words {
        list.push(Bytes::of(alloc, word.as_bytes())?)?;
    }
    Ok(arena_main(
        rt,
        alloc,
        &list,
        &mut Arena::<1>::new(alloc),
        chunks,
        input,
        output,
        maker,
        job,
        &mut Vec::new(alloc),
    ))
}

fn run_over(rt: &impl Rt, chunks: &mut impl ChunkSource, asked: &Asked) -> Result<Ended, Fail> {
    let (mut input, mut output) = streams(rt.alloc(), asked)?;
    let maker = MemoryMaker::new(rt.alloc(), 1 << 26);
    let words = asked.words;
    let status = serve(rt, words, chunks, &mut input, &mut output, maker, &Engine)?;
    let text = output.bytes().to_vec(rt.alloc())?;
    Ok(Ended { status, text })
}

// Checks how the words end with ample memory.
fn ends_so(rt: &impl Rt, asked: &Asked, wanted: (u8, u64, &[u8]), row: &str) -> Result<(), Fail> {
    let ended = run_over(rt, &mut MemoryChunks::new(rt.alloc(), 1 << 30), asked)?;
    holds(rt, ended.is(wanted), row);
    Ok(())
}
