// Makes calls from one number, runs them, and writes a summary of their replies.
ghost use Rattle.std.specs.Prelude.{◌≡◌, ℕ, ◌⊎◌, List, Option, IfOk, OnErr};
ghost use Rattle.call_rules.specs.Generator.{gen_calls};
ghost use Rattle.call_rules.specs.declared.calls.Reply.{Reply};
ghost use Rattle.arena_chunks.specs.Source.{view};
ghost use Rattle.arena_runs.specs.Runs.{Runs, RunsFirst};
ghost use Rattle.arena_store.specs.declared.block.Block.{Block};
ghost use Rattle.arena_calls.specs.Tallies.{IsTally};
ghost use Rattle.arena_calls.specs.Ends.{outside, GenEnds};

use super::calls::Draws;
use super::summary::{put_summary, room_for_text};
use super::tally::Tally;
use crate::printing::print;
use crate::status::Status;
use crate::streams::Output;
use arena_chunks::{Arena, ChunkSource, OutOfMemory};
use arena_runs::{Replies, Run};
use std::alloc::Global;
use std::mem;

// Runs `count` calls from this start, each made when its turn comes, and counts their replies.
fn count_replies<C: ChunkSource>(
    alloc: Global,
    start: u64,
    count: usize,
    arena: &mut Arena<1>,
    chunks: &mut C,
) -> Result<Tally, OutOfMemory>
    ensures ok { IfOk result (λ tally. (replies : List Reply) × (blocks : List (ℕ × Block))
        × Runs (view arena.old (C.source chunks.old)) (view arena.new (C.source chunks.new)) (gen_calls start count) replies blocks
        × IsTally tally replies) }
    ensures err { OnErr result
        ((view arena.new (C.source chunks.new) ≡ view arena.old (C.source chunks.old))
        ⊎ ((done : ℕ)
        × RunsFirst (view arena.old (C.source chunks.old)) (view arena.new (C.source chunks.new)) (gen_calls start count) done)) }
{
    let mut draws = Draws::new(alloc, start);
    let mut run = Run::new(alloc, arena)?;
    let mut tally = Tally::new();
    tally.reserve(count)?;
    for i in 0..count {
        let call = draws.call(i);
        run.serve(arena, chunks, &call, count - i - 1, &mut tally)?;
        // A drawn call takes no memory, so there is none to free.
        mem::forget(call);
    }
    run.held(arena)?;
    Ok(tally)
}

/// Runs `count` calls from this start on the arena, and writes their summary. Nothing is written before the last call
/// was run.
pub fn run_generated<C: ChunkSource, O: Output>(
    alloc: Global,
    start: u64,
    count: usize,
    arena: &mut Arena<1>,
    chunks: &mut C,
    output: &mut O,
) -> Status
    ensures { (left : Option (List ℕ)) (read_faults : ℕ) → GenEnds start count result
        (outside left read_faults (O.written output.old) (O.faults output.old) (view arena.old (C.source chunks.old)))
        (outside left read_faults (O.written output.new) (O.faults output.new) (view arena.new (C.source chunks.new))) }
{
    let Ok(mut text) = room_for_text(alloc) else {
        return Status::OutOfMemory;
    };
    let Ok(tally) = count_replies(alloc, start, count, arena, chunks) else {
        return Status::OutOfMemory;
    };
    put_summary(&tally, arena, &mut text);
    print(output, text.as_slice())
}
