// What a picture shows, and where.
ghost use Rattle.std.specs.Prelude.{◌≡◌, IfOk};
ghost use Rattle.arena_drawing.specs.Shapes.{has_block, place_from, shapes_of, shown_blocks};

use arena_chunks::{Block, Chunk};
use std::alloc::{AllocError, Global};

/// A shape of a picture. Each chunk has a row, the newest the first one.
#[derive(Clone, Copy)]
pub enum Shape {
    Chunk {
        row: u64,
        chunk: Chunk,
    },
    /// A block that a name holds, `x` bytes from the row's left end.
    Block {
        row: u64,
        x: u64,
        name: u32,
        block: Block,
    },
}

// Whether the chunk has all addresses of the block; that of an empty one may be the chunk's data end.
fn has_block(chunk: &Chunk, block: &Block) -> bool
    ensures { result ≡ has_block chunk.now block.now }
{
    chunk.base <= block.addr
        && block.addr - chunk.base <= chunk.size
        && block.size <= chunk.size - (block.addr - chunk.base)
}

// The row of the chunk that has the block, and where the block begins in it; a row below all chunks where none has it.
fn place_of(chunks: &[Chunk], block: &Block) -> (u64, u64)
    ensures { result ≡ place_from 0 chunks.now block.now }
{
    for i in 0..chunks.len() {
        if has_block(&chunks[i], block) {
            return (i as u64, block.addr - chunks[i].base);
        }
    }
    (chunks.len() as u64, 0)
}

/// Returns the shapes of these chunks, newest first, and of the blocks that names hold, in their order.
pub fn shapes_of(
    alloc: Global,
    chunks: &[Chunk],
    held: &[(u32, Block)],
) -> Result<Vec<Shape>, AllocError>
    ensures shapes { IfOk result (λ shapes. shapes.items ≡ shapes_of chunks.now held.now) }
    ensures shown { IfOk result (λ shapes. shown_blocks shapes.items ≡ held.now) }
{
    let mut shapes = Vec::new(alloc);
    for i in 0..chunks.len() {
        let (row, chunk) = (i as u64, chunks[i]);
        shapes.push(Shape::Chunk { row, chunk })?;
    }
    for &(name, block) in held {
        let (row, x) = place_of(chunks, &block);
        shapes.push(Shape::Block {
            row,
            x,
            name,
            block,
        })?;
    }
    Ok(shapes)
}
