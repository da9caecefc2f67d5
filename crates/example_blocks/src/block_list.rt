// A list of blocks that are pairwise disjoint.
ghost use Rattle.std.specs.Prelude.{◌≡◌, ◌⊎◌, ◌++◌, [], ◌∷◌, IfOk, IfErr, Err};
ghost use Rattle.arena_chunks.specs.Answers.{answer_of};
ghost use Rattle.arena_chunks.specs.Answers.Answer.{Placed};
ghost use Rattle.arena_chunks.specs.Frame.{ArePairwiseApart};
ghost use Rattle.arena_chunks.specs.BlockCalls.{PlacesBlock};
ghost use Rattle.arena_store.specs.declared.block.Block.{Block};
ghost use Rattle.arena_store.specs.declared.block.ArenaErr.TheVariants.{OutOfMemory};
ghost use Rattle.example_blocks.specs.Blocks.{AreReadable};

use arena_chunks::laws::{apart, placed};
use arena_chunks::{Allocator, ArenaErr, Block, ChunkSource};
use arena_place::Layout;

/// Places a block and appends it to the list. All blocks of the list stay readable and pairwise disjoint.
///
/// # Errors
///
/// Those of `alloc_layout`; and `OutOfMemory` if there is no memory for the list, before the arena is called.
/// The list is unchanged.
pub fn add_block<C: ChunkSource>(
    a: &mut Allocator<C>,
    blocks: &mut Vec<Block>,
    layout: Layout,
) -> Result<(), ArenaErr>
    requires readable { AreReadable a.old.memory blocks.old.items }
    requires apart { ArePairwiseApart blocks.old.items }
    ensures readable { AreReadable a.new.memory blocks.new.items }
    ensures apart { ArePairwiseApart blocks.new.items }
    ensures placed { IfOk result (λ _. (b : Block)
        × PlacesBlock a.old a.new layout.size layout.align (Placed b)
        × (blocks.new.items ≡ blocks.old.items ++ b ∷ [])) }
    ensures err { IfErr result (λ e. PlacesBlock a.old a.new layout.size layout.align (answer_of (Err e))
        ⊎ ((e ≡ OutOfMemory) × (a.new ≡ a.old))) }
    ensures list { IfErr result (λ e. blocks.new.items ≡ blocks.old.items) }
{
    apart();
    placed();
    let Ok(()) = blocks.reserve(1) else {
        return Err(ArenaErr::OutOfMemory);
    };
    let block = a.alloc_layout(layout)?;
    blocks.push_reserved(block);
    Ok(())
}
