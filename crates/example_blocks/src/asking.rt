// Bounds on what calls request from the source of chunks, and the causes of their errors.
ghost use Rattle.std.specs.Prelude.{◌≡◌, ◌+◌, ◌^◌, ◌≤◌, IfOk, IsTrue, [], ◌∷◌};
ghost use Rattle.arena_rules.specs.State.{used_bytes};
ghost use Rattle.arena_chunks.specs.Answers.{answer_of};
ghost use Rattle.arena_chunks.specs.BlockCalls.{GrowsBlock};
ghost use Rattle.example_blocks.specs.TwoCalls.{PlacesThen};
ghost use Rattle.example_blocks.specs.Accounts.{Accounts, needed};

use arena_chunks::laws::{asks, full, starved, used_by_placing, used_by_resizing};
use arena_chunks::{Alloc, Allocator, ArenaErr, Block, ChunkSource};
use arena_place::Layout;
use arena_rules::laws::{asked_together, starved_together};

/// Places a block and grows it. Each chunk that the arena requests has at most five pages and twice the bytes that
/// are needed: those in use, and both sizes with their padding.
///
/// # Errors
///
/// Those of `alloc_layout`; or those of `grow`, and then the smaller block stays placed. After an `AllocErr`, an arena
/// that grows was starved, and one that doesn't grow has fewer bytes than are needed.
pub fn place_then_grow<C: ChunkSource>(
    a: &mut Allocator<C>,
    small: Layout,
    large: Layout,
) -> Result<Block, ArenaErr>
    requires size { small.size ≤ large.size }
    requires align { small.align ≤ large.align }
    requires low_align { large.align ≤ 16 }
    requires few { large.size ≤ 2 ^ 60 }
    ensures calls { PlacesThen a.old a.new small.size small.align
        (λ between b. GrowsBlock between a.new b large.size large.align (answer_of result)) result }
    ensures accounts { Accounts (2 ^ 63) (needed a.old small.size large.size) a.old a.new (answer_of result) }
    ensures used { IfOk result (λ _.
        used_bytes a.new.memory.state ≤ needed a.old small.size large.size) }
{
    asks();
    starved();
    full();
    asked_together();
    starved_together();
    used_by_placing();
    used_by_resizing();
    // For the proof: the least alignment is 1.
    a.known();
    let block = a.alloc_layout(small)?;
    let grown = a.grow(block, large)?;
    Ok(grown)
}
