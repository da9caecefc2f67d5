// The program: what it draws, writes and returns.
ghost use Rattle.std.specs.Prelude.{◌≡◌, []};
ghost use Rattle.std.specs.Process.{exit_status};
ghost use Rattle.arena_rules.specs.Creation.{empty_state};
ghost use Rattle.arena_chunks.specs.Source.{view};
ghost use Rattle.arena_chunks.specs.Creating.{uncounted_memory};
ghost use Rattle.arena_calls.specs.Budget.{budget};
ghost use Rattle.arena_calls.specs.Ends.{outside, code_of};
ghost use Rattle.arena_calls.specs.Messages.{Explains};
ghost use Rattle.arena_calls.specs.declared.status.Status.{Status};
ghost use Rattle.arena_drawing.specs.Ends.{Draws};

use crate::picture::draw_lines;
use arena_calls::{Budgeted, Input, Output, exit_with};
use arena_chunks::Arena;
use std::alloc::Global;
use std::process::ExitCode;

/// The program: draws a new arena with a budget of 1 GiB after the calls of the input. If it fails, it writes the
/// reason to `messages`. Returns the exit status, which is the same if `messages` can't be written.
pub fn run_picture<C: Budgeted, I: Input, O: Output, E: Output>(
    alloc: Global,
    arena: &mut Arena<1>,
    chunks: &mut C,
    input: &mut I,
    output: &mut O,
    messages: &mut E,
) -> ExitCode
    requires new { arena.old ≡ uncounted_memory (empty_state 1) [] }
    requires budget { C.left chunks.old ≡ budget }
    requires unrefused { (C.source chunks.old).refusals ≡ 0 }
    ensures { (status : Status) × (exit_status result ≡ code_of status)
        × Draws status
        (outside (I.left input.old) (I.faults input.old) (O.written output.old) (O.faults output.old)
        (view arena.old (C.source chunks.old)))
        (outside (I.left input.new) (I.faults input.new) (O.written output.new) (O.faults output.new)
        (view arena.new (C.source chunks.new)))
        × Explains [] status (E.written messages.old) (E.faults messages.old) (E.written messages.new) (E.faults messages.new) }
{
    let status = draw_lines(alloc, arena, chunks, input, output);
    // The program takes no words, so it needs no line for `Usage`.
    exit_with(messages, &status, b"")
}
