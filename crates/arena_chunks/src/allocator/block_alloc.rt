// The trait of allocators of blocks.
ghost use Rattle.std.specs.Prelude.{◌≡◌, ◌+◌, ◌-◌, ◌≤◌, IfOk, IsTrue, IsOk, replicate};
ghost use Rattle.arena_store.specs.Memory.{is_readable, image, bytes_from};
ghost use Rattle.arena_core.specs.Answers.{answer_of};
ghost use Rattle.arena_core.specs.BlockCalls.{PlacesBlock, GivesBack, GrowsBlock, ShrinksBlock};

use crate::allocator::{Allocator, OverArena};
use arena_place::Layout;
use arena_store::{ArenaErr, Block, ChunkSource};

/// An allocator of blocks.
pub trait BlockAlloc: OverArena {
    /// Places a block.
    ///
    /// # Errors
    ///
    /// `AllocErr` if there is no place and all requests for a chunk were refused, `OutOfMemory` if there is no memory
    /// for the table of chunks. Nothing changes.
    fn allocate(&mut self, layout: Layout) -> Result<Block, ArenaErr>
        ensures { PlacesBlock (Self.view self.old) (Self.view self.new) layout.size layout.align
            (answer_of result) };

    /// Gives a block back.
    fn deallocate(&mut self, block: Block)
        requires { IsTrue (is_readable (Self.view self.old).memory.state block) }
        ensures given { GivesBack (Self.view self.old).memory (Self.view self.new).memory block }
        ensures source { (Self.view self.new).source ≡ (Self.view self.old).source };

    /// Grows a block, which may move it. Its bytes are kept.
    ///
    /// # Errors
    ///
    /// Those of `allocate`, if it doesn't grow in place, and `AllocErr` without a request if the growth isn't a valid
    /// layout. The block is unchanged.
    fn grow(&mut self, block: Block, layout: Layout) -> Result<Block, ArenaErr>
        requires readable { IsTrue (is_readable (Self.view self.old).memory.state block) }
        requires size { block.size ≤ layout.size }
        ensures { GrowsBlock (Self.view self.old) (Self.view self.new) block layout.size layout.align
            (answer_of result) };

    /// Grows a block as `grow` does, and sets each new byte to 0.
    ///
    /// # Errors
    ///
    /// See `grow`.
    fn grow_zeroed(&mut self, block: Block, layout: Layout) -> Result<Block, ArenaErr>
        requires readable { IsTrue (is_readable (Self.view self.old).memory.state block) }
        requires size { block.size ≤ layout.size }
        ensures grown { GrowsBlock (Self.view self.old) (Self.view self.new) block layout.size layout.align
            (answer_of result) }
        ensures zeros { let more = layout.size - block.size in IfOk result (λ b.
            bytes_from (image (Self.view self.new).memory) (b.addr + block.size) more ≡ replicate more 0) };

    /// Shrinks a block, which may move it. Its first bytes are kept.
    ///
    /// # Errors
    ///
    /// Those of `allocate`, if the block must move to a greater alignment; the block is unchanged.
    fn shrink(&mut self, block: Block, layout: Layout) -> Result<Block, ArenaErr>
        requires readable { IsTrue (is_readable (Self.view self.old).memory.state block) }
        requires size { layout.size ≤ block.size }
        ensures shrunk { ShrinksBlock (Self.view self.old) (Self.view self.new)
            block layout.size layout.align (answer_of result) }
        ensures succeeds { layout.align ≤ block.align → IsOk result };
}

impl<C: ChunkSource> BlockAlloc for Allocator<C> {
    fn allocate(&mut self, layout: Layout) -> Result<Block, ArenaErr> {
        self.arena.alloc_layout(&mut self.chunks, layout)
    }

    fn deallocate(&mut self, block: Block) {
        self.arena.dealloc(block);
    }

    #[inline(always)]
    fn grow(&mut self, block: Block, layout: Layout) -> Result<Block, ArenaErr> {
        self.arena.grow(&mut self.chunks, block, layout)
    }

    fn grow_zeroed(&mut self, block: Block, layout: Layout) -> Result<Block, ArenaErr> {
        self.arena.grow_zeroed(&mut self.chunks, block, layout)
    }

    fn shrink(&mut self, block: Block, layout: Layout) -> Result<Block, ArenaErr> {
        self.arena.shrink(&mut self.chunks, block, layout)
    }
}
