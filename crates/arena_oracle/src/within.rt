// Runs over an arena, of which the source keeps its limits.
ghost use Rattle.std.specs.Prelude.{◌≡◌, ◌^◌, ◌≤◌, ℕ, List, IfOk, IsErr, OnErr};
ghost use Rattle.call_rules.specs.Generator.{gen_calls};
ghost use Rattle.call_rules.specs.declared.calls.Reply.{Reply};
ghost use Rattle.arena_store.specs.Source.{view};
ghost use Rattle.arena_store.specs.declared.block.Block.{Block};
ghost use Rattle.arena_runs.specs.Runs.{Runs};
ghost use Rattle.arena_runs.specs.Replies.{TakesMore};
ghost use Rattle.arena_calls.specs.Tallies.{IsTally};
ghost use Rattle.arena_oracle.specs.Limits.{KeepsThose};
ghost use Rattle.arena_oracle.specs.Sources.{source_of, StopsEarly};

use crate::source::ListedChunks;
use arena_calls::{Draws, Tally};
use arena_chunks::{Arena, Block, OutOfMemory};
use arena_runs::{Replies, Run};
use call_rules::Call;
use std::alloc::Global;

/// Runs calls over an arena, as `run_calls_into` does.
///
/// # Errors
///
/// Out of memory, also if it ran out for a request.
pub fn run_calls_within<R: Replies>(
    alloc: Global,
    arena: &mut Arena<1>,
    chunks: &mut ListedChunks,
    calls: &[Call],
    replies: &mut R,
) -> Result<Vec<(u32, Block)>, OutOfMemory>
    ensures ok { IfOk result (λ held. (list : List Reply)
        × Runs (view arena.old (source_of chunks.old)) (view arena.new (source_of chunks.new)) calls.now list held.items
        × KeepsThose (source_of chunks.old) arena.old.state calls.now list
        × TakesMore R.has_taken replies.old replies.new list) }
    ensures err { OnErr result
        (StopsEarly (view arena.old (source_of chunks.old)) (view arena.new (source_of chunks.new)) calls.now) }
{
    let mut run = Run::new(alloc, arena)?;
    replies.reserve(calls.len())?;
    let mut exhausted = false;
    for (done, call) in calls.iter().enumerate() {
        let (made, refused) = (chunks.asked(), chunks.refused);
        run.serve(arena, chunks, call, calls.len() - done - 1, replies)?;
        // A call makes no request after one that is granted, but its contract doesn't say which one that is.
        let ends = chunks.ends_granted(made, refused);
        exhausted |= chunks.exhausted | !ends;
    }
    let held = run.held(arena)?;
    if exhausted {
        return Err(OutOfMemory);
    }
    Ok(held)
}

/// Runs `count` calls from this start over an arena, and counts their replies.
///
/// # Errors
///
/// Out of memory, also if it ran out for a request.
pub fn run_generated_within(
    alloc: Global,
    start: u64,
    count: usize,
    arena: &mut Arena<1>,
    chunks: &mut ListedChunks,
) -> Result<Tally, OutOfMemory>
    ensures ok { IfOk result (λ tally. (list : List Reply) × (held : List (ℕ × Block))
        × Runs (view arena.old (source_of chunks.old)) (view arena.new (source_of chunks.new)) (gen_calls start count) list held
        × KeepsThose (source_of chunks.old) arena.old.state (gen_calls start count) list
        × IsTally tally list) }
    ensures err { OnErr result
        (StopsEarly (view arena.old (source_of chunks.old)) (view arena.new (source_of chunks.new)) (gen_calls start count)) }
    ensures many { 2 ^ 32 ≤ count → IsErr result }
{
    let mut draws = Draws::new(alloc, start);
    let mut run = Run::new(alloc, arena)?;
    let mut tally = Tally::new();
    tally.reserve(count)?;
    let mut exhausted = false;
    for i in 0..count {
        let call = draws.call(i);
        let (made, refused) = (chunks.asked(), chunks.refused);
        run.serve(arena, chunks, &call, count - i - 1, &mut tally)?;
        let ends = chunks.ends_granted(made, refused);
        exhausted |= chunks.exhausted | !ends;
    }
    run.held(arena)?;
    if exhausted {
        return Err(OutOfMemory);
    }
    Ok(tally)
}
