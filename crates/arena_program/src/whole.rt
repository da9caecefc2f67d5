// The call that the program makes.
ghost use Rattle.arena_chunks.specs.Source.{view};
ghost use Rattle.arena_calls.specs.Ends.{outside};
ghost use Rattle.arena_program.specs.MainEnds.{MainEnds};

use crate::lint::run_sources;
use crate::run::run_lines_of_scripts;
use crate::tasks::{linters_of, task_of};
use arena_calls::{Input, Output, Status, arena_calls};
use arena_chunks::{Arena, ChunkSource};
use arena_pool::ChunkMaker;
use arena_script::Job;
use script_workers::Starved;
use short_bytes::Bytes;
use std::alloc::Global;
use std::sync::Wait;
use std::thread::Threads;

/// Does what the words ask for: runs calls on the arena, as `arena_calls` does, or runs scripts by `job` or lints
/// sources, each on an arena of a pool with a source of `maker`. Then writes the replies, the outcomes or the reports;
/// nothing is written before all was run. For scripts and sources it waits at the pool's lock, and `starved` gains the
/// number of each that ended refused, with what shows that it was starved.
#[tactic(auto, using(crate::proofs::MainLemmas::scripts_end, crate::proofs::MainLemmas::lint_end, crate::proofs::MainLemmas::calls_end))]
pub fn arena_main<
    C: ChunkSource,
    I: Input,
    O: Output,
    R: Threads + Wait + Sync,
    K: ChunkMaker + Drop + Send,
    J: Job<K::Chunks> + Sync,
>(
    rt: &R,
    alloc: Global,
    words: &[Bytes],
    arena: &mut Arena<1>,
    chunks: &mut C,
    input: &mut I,
    output: &mut O,
    maker: K,
    job: &J,
    starved: &mut Vec<(u32, Starved<K::Chunks>)>,
) -> Status
    ensures { MainEnds K.Chunks.source J.worked words.now result
        (outside (I.left input.old) (I.faults input.old) (O.written output.old) (O.faults output.old)
        (view arena.old (C.source chunks.old)))
        (outside (I.left input.new) (I.faults input.new) (O.written output.new) (O.faults output.new)
        (view arena.new (C.source chunks.new)))
        starved.old.items starved.new.items }
{
    match task_of(words) {
        Some(task) => run_lines_of_scripts(rt, alloc, task, input, output, maker, job, starved),
        None => match linters_of(words) {
            Some(workers) => run_sources(rt, alloc, workers, input, output, maker, starved),
            None => arena_calls(alloc, words, arena, chunks, input, output),
        },
    }
}
