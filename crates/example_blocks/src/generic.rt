// Blocks that are placed and grown through the trait `Alloc`.
ghost use Rattle.std.specs.Prelude.{◌≡◌, ◌≤◌, IfOk, IsTrue, [], ◌∷◌};
ghost use Rattle.arena_rules.specs.Blocks.{IsBlock};
ghost use Rattle.arena_chunks.specs.Memory.{is_readable, image, bytes_from};
ghost use Rattle.arena_chunks.specs.Frame.{AreBlocksApart, Frame, Stays};
ghost use Rattle.arena_chunks.specs.Answers.{answer_of};
ghost use Rattle.arena_chunks.specs.BlockCalls.{GrowsBlock, place_of};
ghost use Rattle.example_blocks.specs.Blocks.{bytes_of};
ghost use Rattle.example_blocks.specs.TwoCalls.{PlacesThen};

use arena_chunks::laws::{frames, placed, resized};
use arena_chunks::{Alloc, ArenaErr, Block};
use arena_place::Layout;

/// Grows a block. Its bytes are kept, and so is another block that is disjoint from it, with its bytes.
///
/// # Errors
///
/// Those of `grow`. No block and no byte changes.
#[tactic(auto, using(arena_chunks::proofs::Layers::layer_laws))]
pub fn grow_beside<A: Alloc>(
    a: &mut A,
    block: Block,
    other: Block,
    layout: Layout,
) -> Result<Block, ArenaErr>
    requires block { IsTrue (is_readable (A.view a.old).memory.state block) }
    requires other { IsTrue (is_readable (A.view a.old).memory.state other) }
    requires apart { AreBlocksApart other block }
    requires size { block.size ≤ layout.size }
    ensures grown { GrowsBlock (A.view a.old) (A.view a.new) block layout.size layout.align (answer_of result) }
    ensures bytes { IfOk result (λ b. bytes_from (image (A.view a.new).memory) b.addr block.size
        ≡ bytes_of (A.view a.old).memory block) }
    ensures other { IfOk result (λ b. Stays (A.view a.old).memory (A.view a.new).memory (b ∷ []) other) }
{
    let grown = a.grow(block, layout)?;
    Ok(grown)
}

/// Places a block and grows it. The result is a block of the arena, and all that was in use is unchanged.
///
/// # Errors
///
/// Those of `alloc`; or those of `grow`, and then the smaller block stays placed.
#[tactic(auto, using(arena_chunks::proofs::Layers::layer_laws))]
pub fn place_and_grow<A: Alloc>(a: &mut A, small: Layout, large: Layout) -> Result<Block, ArenaErr>
    requires { small.size ≤ large.size }
    ensures calls { PlacesThen (A.view a.old) (A.view a.new) small.size small.align
        (λ between b. GrowsBlock between (A.view a.new) b large.size large.align (answer_of result)) result }
    ensures is_block { IfOk result (λ b. IsBlock (A.view a.new).memory.state (place_of b)) }
    ensures frame { IfOk result (λ b. Frame (A.view a.old).memory (A.view a.new).memory [] (b ∷ [])) }
{
    frames();
    placed();
    resized();
    let block = a.alloc(small)?;
    let grown = a.grow(block, large)?;
    Ok(grown)
}
