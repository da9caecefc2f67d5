// What is known about a readable block, and a write after its bytes.
ghost use Rattle.std.specs.Prelude.{◌≡◌, ◌+◌, ◌<◌, ◌≤◌, ◌++◌, IfOk, IsTrue, length};
ghost use Rattle.arena_chunks.specs.Memory.{is_readable, image, bytes_from};
ghost use Rattle.arena_chunks.specs.Answers.{answer_of};
ghost use Rattle.arena_chunks.specs.BlockCalls.{GrowsBlock};
ghost use Rattle.example_blocks.specs.Blocks.{bytes_of};

use arena_chunks::laws::readable;
use arena_chunks::{Alloc, Allocator, ArenaErr, Block, ChunkSource};
use arena_place::Layout;

/// Returns the address after a block's last byte, which fits in 64 bits.
pub fn end_of<C: ChunkSource>(a: &Allocator<C>, block: Block) -> u64
    requires readable { IsTrue (is_readable a.now.memory.state block) }
    requires filled { 0 < block.size }
    ensures { result ≡ block.addr + block.size }
{
    readable();
    // For the proof: the arena's state is valid.
    a.known();
    block.addr + block.size
}

/// Grows a block and appends bytes to its own. The whole is described as one growth.
///
/// # Errors
///
/// Those of `grow`.
#[tactic(auto, using(arena_chunks::proofs::Layers::layer_laws))]
pub fn extend<C: ChunkSource>(
    a: &mut Allocator<C>,
    block: Block,
    layout: Layout,
    bytes: &[u8],
) -> Result<Block, ArenaErr>
    requires readable { IsTrue (is_readable a.old.memory.state block) }
    requires size { block.size + length bytes.now ≡ layout.size }
    ensures grown { GrowsBlock a.old a.new block layout.size layout.align (answer_of result) }
    ensures bytes { IfOk result (λ b. bytes_of a.new.memory b ≡ bytes_of a.old.memory block ++ bytes.now) }
{
    let grown = a.grow(block, layout)?;
    a.write(grown, block.size, bytes);
    Ok(grown)
}
