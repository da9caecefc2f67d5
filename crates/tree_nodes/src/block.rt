// Blocks in an arena.
ghost use Rattle.std.specs.Prelude.{◌+◌, ◌-◌, ◌^◌, ◌≤◌, [], ◌∷◌, None, IfOk};
ghost use Rattle.arena_chunks.specs.Frame.{Frame};
ghost use Rattle.arena_items.specs.Asks.{Fresh};
ghost use Rattle.arena_items.specs.Denied.{Only};
ghost use Rattle.arena_items.specs.Values.{IsHeld};
ghost use Rattle.tree_nodes.specs.Asking.{AsksFor};
ghost use Rattle.tree_nodes.specs.Spending.{Spends, error_of};

use arena_chunks::{Allocator, ArenaErr, Block, ChunkSource};
use arena_items::{AllocError, Grown};
use arena_place::Layout;

// Places a block.
#[inline(always)]
pub(crate) fn place_block<C: ChunkSource>(a: &mut Allocator<C>, layout: Layout) -> Grown<Block>
    requires aligned { layout.align ≤ 16 }
    requires small { layout.size + 64 ≤ 2 ^ 63 }
    ensures held { IfOk result (IsHeld layout.size layout.align a.new.memory.state) }
    ensures frame { IfOk result (λ b. Frame a.old.memory a.new.memory [] (b ∷ [])) }
    ensures spends { Spends (Only layout.size layout.align) (layout.size + (layout.align - 1)) 0 0 a.old a.new (error_of result) }
    ensures asks { AsksFor (Fresh layout.size layout.align) None (λ b. b) a.old a.new result }
{
    // For the proof: the least alignment is 1.
    a.known();
    match a.alloc_layout(layout) {
        Ok(block) => Ok(block),
        Err(ArenaErr::AllocErr { refused }) => Err(AllocError::AllocErr { refused }),
        Err(ArenaErr::OutOfMemory) => Err(AllocError::OutOfMemory),
    }
}
