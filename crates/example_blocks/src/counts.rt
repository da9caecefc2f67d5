// By how much calls lower the number of bytes in use.
ghost use Rattle.std.specs.Prelude.{◌≡◌, ℕ, ◌+◌, ◌-◌, ◌≤◌, IsTrue, [], ◌∷◌};
ghost use Rattle.arena_rules.specs.State.{cursor_of, used_bytes};
ghost use Rattle.arena_rules.specs.Doubling.{IsDoubling};
ghost use Rattle.arena_rules.specs.Moves.Resizing.{Moves};
ghost use Rattle.arena_chunks.specs.Memory.{is_readable, image};
ghost use Rattle.arena_chunks.specs.Frame.{Frame};
ghost use Rattle.arena_chunks.specs.Answers.Answer.{Placed};
ghost use Rattle.arena_chunks.specs.BlockCalls.{ShrinksBlock, GivesBack, shrinking_of};

use arena_chunks::laws::{doubling, given_back, used_by_giving_back, used_by_resizing};
use arena_chunks::{Alloc, Allocator, Block, ChunkSource};
use arena_place::Layout;

/// Gives a block back. Other blocks stay, with their bytes. If the block is at the cursor, the bytes in use fall by
/// its size.
pub fn give_back<C: ChunkSource>(a: &mut Allocator<C>, block: Block)
    requires { IsTrue (is_readable a.old.memory.state block) }
    ensures given { GivesBack a.old.memory a.new.memory block }
    ensures source { a.new.source ≡ a.old.source }
    ensures frame { Frame a.old.memory a.new.memory (block ∷ []) [] }
    ensures bytes { (p : ℕ) → image a.new.memory p ≡ image a.old.memory p }
    ensures used { block.addr ≡ cursor_of a.old.memory.state.chunks
        → used_bytes a.new.memory.state + block.size ≡ used_bytes a.old.memory.state }
    ensures doubling { (z : ℕ)
        → IsDoubling z a.old.memory.state.chunks → IsDoubling z a.new.memory.state.chunks }
{
    // For the proof: the least alignment is 1.
    a.known();
    doubling();
    given_back();
    used_by_giving_back();
    a.dealloc(block);
}

/// Shrinks a block, which never fails. If the block moves up to an address `q`, the bytes in use fall by the distance.
pub fn shrink_in_place<C: ChunkSource>(a: &mut Allocator<C>, block: Block, layout: Layout) -> Block
    requires readable { IsTrue (is_readable a.old.memory.state block) }
    requires size { layout.size ≤ block.size }
    requires align { layout.align ≤ block.align }
    ensures shrunk { ShrinksBlock a.old a.new block layout.size layout.align (Placed result) }
    ensures used { (q : ℕ) → shrinking_of a.old.memory block layout.size layout.align ≡ Moves q
        → used_bytes a.new.memory.state + (q - block.addr) ≡ used_bytes a.old.memory.state }
{
    used_by_resizing();
    let Ok(shrunk) = a.shrink(block, layout) else {
        unreachable!();
    };
    shrunk
}
