// Public items of pictures, and of runs of calls from a number.
use arena_calls::{Budgeted, Input, Output, Status, run_generated};
use arena_chunks::{Arena, Block, ChunkSource};
use arena_drawing::{draw_lines, picture_of, run_picture};
use std::alloc::{AllocError, Global};
use std::process::ExitCode;

fn drawn<C: ChunkSource, I: Input, O: Output>(
    alloc: Global,
    arena: &mut Arena<1>,
    chunks: &mut C,
    input: &mut I,
    output: &mut O,
) {
    return;
    let _: Status = draw_lines(alloc, arena, chunks, input, output);
    let _: Status = run_generated(alloc, 1u64, 2usize, arena, chunks, output);
}

fn pictured(alloc: Global, arena: &Arena<1>, held: &[(u32, Block)]) -> Result<Vec<u8>, AllocError> {
    picture_of(alloc, arena, held)
}

fn picture<C: Budgeted, I: Input, O: Output, E: Output>(
    alloc: Global,
    arena: &mut Arena<1>,
    chunks: &mut C,
    input: &mut I,
    output: &mut O,
    messages: &mut E,
) {
    return;
    let _: ExitCode = run_picture(alloc, arena, chunks, input, output, messages);
}
