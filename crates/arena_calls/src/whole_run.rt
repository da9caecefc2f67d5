// A run of calls.
ghost use Rattle.std.specs.Prelude.{◌≡◌, ℕ, List, Option, IfOk, IfErr, OnOk};
ghost use Rattle.call_rules.specs.declared.calls.Reply.{Reply};
ghost use Rattle.arena_chunks.specs.Source.{view};
ghost use Rattle.arena_runs.specs.Replies.{TakesMore};
ghost use Rattle.arena_calls.specs.Ends.{Ends, EndsBy, EndsUnwritten, RunsInput, outside};

use crate::arguments::{Command, asked_for};
use crate::generator::run_generated;
use crate::lines::parse_calls;
use crate::printing::print;
use crate::replies::Text;
use crate::status::Status;
use crate::streams::{Input, Output, ReadErr, read_all};
use arena_chunks::{Arena, Block, ChunkSource};
use arena_runs::{Replies, run_calls_into};
use line_parts::LinesErr;
use short_bytes::Bytes;
use std::alloc::Global;

/// Reads all of the input as calls, and runs them on the arena. Returns the blocks that names hold afterwards.
///
/// # Errors
///
/// The status of a run that has nothing to write.
pub fn run_input<C: ChunkSource, I: Input, R: Replies>(
    alloc: Global,
    arena: &mut Arena<1>,
    chunks: &mut C,
    input: &mut I,
    replies: &mut R,
) -> Result<Vec<(u32, Block)>, Status>
    ensures ok { IfOk result (λ held. (list : List Reply)
        × RunsInput (I.left input.old) (I.left input.new)
        (view arena.old (C.source chunks.old)) (view arena.new (C.source chunks.new)) list held.items
        × TakesMore R.has_taken replies.old replies.new list) }
    ensures no_fault { OnOk result (I.faults input.new ≡ I.faults input.old) }
    ensures err { IfErr result (λ status. (written : Option (List ℕ)) (faults : ℕ) → EndsUnwritten status
        (outside (I.left input.old) (I.faults input.old) written faults (view arena.old (C.source chunks.old)))
        (outside (I.left input.new) (I.faults input.new) written faults (view arena.new (C.source chunks.new)))) }
{
    let bytes = match read_all(alloc, input) {
        Ok(bytes) => bytes,
        Err(ReadErr::Failed) => return Err(Status::ReadFault),
        Err(ReadErr::TooLong) => return Err(Status::InputTooLong),
        Err(ReadErr::OutOfMemory) => return Err(Status::OutOfMemory),
    };
    let calls = match parse_calls(alloc, bytes.as_slice()) {
        Ok(calls) => calls,
        Err(LinesErr::BadLine(n)) => return Err(Status::BadLine(n)),
        Err(LinesErr::OutOfMemory) => return Err(Status::OutOfMemory),
    };
    // The input is freed before the run, since the text of the replies needs the most memory.
    drop(bytes);
    match run_calls_into(alloc, arena, chunks, calls.as_slice(), replies) {
        Ok(held) => Ok(held),
        Err(_) => Err(Status::OutOfMemory),
    }
}

// Runs the input's calls on the arena, and writes the replies.
fn run_lines<C: ChunkSource, I: Input, O: Output>(
    alloc: Global,
    arena: &mut Arena<1>,
    chunks: &mut C,
    input: &mut I,
    output: &mut O,
) -> Status
    ensures { Ends result
        (outside (I.left input.old) (I.faults input.old) (O.written output.old) (O.faults output.old)
        (view arena.old (C.source chunks.old)))
        (outside (I.left input.new) (I.faults input.new) (O.written output.new) (O.faults output.new)
        (view arena.new (C.source chunks.new))) }
{
    let mut text = Text::new(alloc);
    match run_input(alloc, arena, chunks, input, &mut text) {
        Ok(_) => print(output, text.bytes.as_slice()),
        Err(status) => status,
    }
}

/// Does what the words ask for: runs the lines of the input, or calls from a number, on the arena, and writes the
/// replies, or a summary of them. Nothing is written before the last call was run.
pub fn arena_calls<C: ChunkSource, I: Input, O: Output>(
    alloc: Global,
    words: &[Bytes],
    arena: &mut Arena<1>,
    chunks: &mut C,
    input: &mut I,
    output: &mut O,
) -> Status
    ensures { EndsBy words.now result
        (outside (I.left input.old) (I.faults input.old) (O.written output.old) (O.faults output.old)
        (view arena.old (C.source chunks.old)))
        (outside (I.left input.new) (I.faults input.new) (O.written output.new) (O.faults output.new)
        (view arena.new (C.source chunks.new))) }
{
    match asked_for(words) {
        Some(Command::Calls) => run_lines(alloc, arena, chunks, input, output),
        Some(Command::Gen { start, count }) => {
            run_generated(alloc, start, count, arena, chunks, output)
        }
        None => Status::Usage,
    }
}
