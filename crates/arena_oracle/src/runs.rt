// Runs over a new arena, with bytes in memory.
ghost use Rattle.std.specs.Prelude.{◌≡◌, ℕ, ◌^◌, ◌<◌, ◌≤◌, false, List, [], length, Some, IfOk, IfErr, IsErrAnd};
ghost use Rattle.call_rules.specs.declared.calls.Reply.{Reply};
ghost use Rattle.arena_store.specs.Source.{view};
ghost use Rattle.arena_runs.specs.Replies.{TakesMore};
ghost use Rattle.arena_calls.specs.Ends.{RunsInput, outside};
ghost use Rattle.arena_calls.specs.ReadAll.{limit};
ghost use Rattle.arena_calls.specs.declared.status.Status.{Status};
ghost use Rattle.arena_oracle.specs.Limits.{KeepsThose, limited};
ghost use Rattle.arena_oracle.specs.Sources.{source_of};
ghost use Rattle.arena_oracle.specs.Answers.{CallsWithin, DrawsWithin, GenWithin, YieldsWithin, YieldsNothing, is_done};

use crate::source::ListedChunks;
use crate::within::{run_calls_within, run_generated_within};
use arena_calls::{LinesErr, Status, Text, parse_calls, put_summary, room_for_text};
use arena_chunks::{Arena, Block};
use arena_drawing::picture_of;
use arena_runs::Replies;
use std::alloc::Global;

// How many bytes lines may have.
const LIMIT: usize = 16_777_216;

// Runs lines of calls over an arena. Returns the blocks that names hold afterwards, or the status of a run that has
// nothing to write.
#[tactic(auto, using(crate::proofs::EndLemmas::stop_laws))]
fn run_lines(
    alloc: Global,
    lines: &[u8],
    arena: &mut Arena<1>,
    chunks: &mut ListedChunks,
    text: &mut Text,
) -> Result<Vec<(u32, Block)>, Status>
    ensures ok { IfOk result (λ held. (list : List Reply)
        × (run : RunsInput (Some lines.now) (Some [])
        (view arena.old (source_of chunks.old)) (view arena.new (source_of chunks.new)) list held.items)
        × KeepsThose (source_of chunks.old) arena.old.state run.calls list
        × TakesMore (⟦<Text as Replies>⟧.has_taken) text.old text.new list) }
    ensures err { IfErr result (λ status. YieldsNothing status lines.now
        (view arena.old (source_of chunks.old)) (view arena.new (source_of chunks.new))) }
    ensures undone { IfErr result (λ status. is_done status ≡ false) }
    ensures long { limit < length lines.now → IsErrAnd result (λ status. status ≡ Status.InputTooLong) }
{
    if lines.len() > LIMIT {
        return Err(Status::InputTooLong);
    }
    let calls = match parse_calls(alloc, lines) {
        Ok(calls) => calls,
        Err(LinesErr::BadLine(n)) => return Err(Status::BadLine(n)),
        Err(LinesErr::OutOfMemory) => return Err(Status::OutOfMemory),
    };
    match run_calls_within(alloc, arena, chunks, calls.as_slice(), text) {
        Ok(held) => Ok(held),
        Err(_) => Err(Status::OutOfMemory),
    }
}

/// Runs lines of calls over a new arena, and returns the text of the replies.
///
/// # Errors
///
/// The status of a run that has nothing to write.
pub fn run_text(alloc: Global, lines: &[u8], chunks: &mut ListedChunks) -> Result<Vec<u8>, Status>
    ensures ok { IfOk result (λ text.
        YieldsWithin CallsWithin lines.now (source_of chunks.old) (source_of chunks.new) Status.Done text.items) }
    ensures err { IfErr result (λ status.
        YieldsWithin CallsWithin lines.now (source_of chunks.old) (source_of chunks.new) status []) }
    ensures long { limit < length lines.now → IsErrAnd result (λ status. status ≡ Status.InputTooLong) }
{
    let mut arena = Arena::<1>::new(alloc);
    let mut text = Text::new(alloc);
    match run_lines(alloc, lines, &mut arena, chunks, &mut text) {
        Ok(_) => Ok(text.bytes),
        Err(status) => Err(status),
    }
}

/// Runs `count` calls from `start` over a new arena, and returns their summary.
///
/// # Errors
///
/// Out of memory.
pub fn gen_text(
    alloc: Global,
    start: u64,
    count: usize,
    chunks: &mut ListedChunks,
) -> Result<Vec<u8>, Status>
    ensures ok { IfOk result (λ text.
        YieldsWithin (GenWithin start count) [] (source_of chunks.old) (source_of chunks.new) Status.Done text.items) }
    ensures err { IfErr result (λ status.
        YieldsWithin (GenWithin start count) [] (source_of chunks.old) (source_of chunks.new) status []) }
    ensures many { 2 ^ 32 ≤ count → IsErrAnd result (λ status. status ≡ Status.OutOfMemory) }
{
    let mut arena = Arena::<1>::new(alloc);
    let Ok(mut text) = room_for_text(alloc) else {
        return Err(Status::OutOfMemory);
    };
    let Ok(tally) = run_generated_within(alloc, start, count, &mut arena, chunks) else {
        return Err(Status::OutOfMemory);
    };
    put_summary(&tally, &arena, &mut text);
    Ok(text)
}

// Runs lines of calls over an arena, and returns the picture of the arena afterwards.
fn draw_over(
    alloc: Global,
    lines: &[u8],
    arena: &mut Arena<1>,
    chunks: &mut ListedChunks,
) -> Result<Vec<u8>, Status>
    ensures ok { (budget : ℕ) (refuse : List ℕ) → source_of chunks.old ≡ limited budget refuse
        → IfOk result (λ text. DrawsWithin budget refuse Status.Done
        (outside (Some lines.now) 0 (Some []) 0 (view arena.old (source_of chunks.old)))
        (outside (Some []) 0 (Some text.items) 0 (view arena.new (source_of chunks.new)))) }
    ensures err { IfErr result (λ status. YieldsNothing status lines.now
        (view arena.old (source_of chunks.old)) (view arena.new (source_of chunks.new))) }
    ensures undone { IfErr result (λ status. is_done status ≡ false) }
    ensures long { limit < length lines.now → IsErrAnd result (λ status. status ≡ Status.InputTooLong) }
{
    let mut replies = Text::new(alloc);
    let held = run_lines(alloc, lines, arena, chunks, &mut replies)?;
    match picture_of(alloc, arena, held.as_slice()) {
        Ok(text) => Ok(text),
        Err(_) => Err(Status::OutOfMemory),
    }
}

/// Runs lines of calls over a new arena, and returns the picture of the arena afterwards.
///
/// # Errors
///
/// The status of a run that has nothing to write.
pub fn draw_text(alloc: Global, lines: &[u8], chunks: &mut ListedChunks) -> Result<Vec<u8>, Status>
    ensures ok { IfOk result (λ text.
        YieldsWithin DrawsWithin lines.now (source_of chunks.old) (source_of chunks.new) Status.Done text.items) }
    ensures err { IfErr result (λ status.
        YieldsWithin DrawsWithin lines.now (source_of chunks.old) (source_of chunks.new) status []) }
    ensures long { limit < length lines.now → IsErrAnd result (λ status. status ≡ Status.InputTooLong) }
{
    let mut arena = Arena::<1>::new(alloc);
    draw_over(alloc, lines, &mut arena, chunks)
}
