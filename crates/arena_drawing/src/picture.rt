// The picture of an arena after calls.
ghost use Rattle.std.specs.Prelude.{◌≡◌, IfOk};
ghost use Rattle.arena_chunks.specs.Source.{view};
ghost use Rattle.arena_calls.specs.Ends.{outside};
ghost use Rattle.arena_drawing.specs.Ends.{Draws, picture_of};

use crate::shapes::shapes_of;
use crate::text::svg_of;
use arena_calls::{Input, Output, Status, Text, print, run_input};
use arena_chunks::{Arena, Block, ChunkSource};
use std::alloc::{AllocError, Global};

/// Returns the picture of the arena and of these blocks, by name.
///
/// # Errors
///
/// Out of memory.
pub fn picture_of(
    alloc: Global,
    arena: &Arena<1>,
    held: &[(u32, Block)],
) -> Result<Vec<u8>, AllocError>
    ensures { IfOk result (λ text. text.items ≡ picture_of arena.now.state held.now) }
{
    let mut chunks = Vec::new(alloc);
    for chunk in arena.iter_chunks() {
        chunks.push(chunk)?;
    }
    let shapes = shapes_of(alloc, chunks.as_slice(), held)?;
    svg_of(alloc, chunks.as_slice(), shapes.as_slice())
}

/// Reads all of the input as calls, runs them on the arena, and writes the picture of the arena after them. Nothing is
/// written before the last call was run.
pub fn draw_lines<C: ChunkSource, I: Input, O: Output>(
    alloc: Global,
    arena: &mut Arena<1>,
    chunks: &mut C,
    input: &mut I,
    output: &mut O,
) -> Status
    ensures { Draws result
        (outside (I.left input.old) (I.faults input.old) (O.written output.old) (O.faults output.old)
        (view arena.old (C.source chunks.old)))
        (outside (I.left input.new) (I.faults input.new) (O.written output.new) (O.faults output.new)
        (view arena.new (C.source chunks.new))) }
{
    let mut replies = Text::new(alloc);
    let held = match run_input(alloc, arena, chunks, input, &mut replies) {
        Ok(held) => held,
        Err(status) => return status,
    };
    let Ok(text) = picture_of(alloc, arena, held.as_slice()) else {
        return Status::OutOfMemory;
    };
    print(output, text.as_slice())
}
