// The trait by which collections place their blocks.
ghost use Rattle.std.specs.Prelude.{◌≡◌, ◌≤◌, IsTrue, IsOk};
ghost use Rattle.arena_store.specs.Memory.{is_readable};
ghost use Rattle.arena_core.specs.Answers.{answer_of};
ghost use Rattle.arena_core.specs.BlockCalls.{PlacesBlock, GivesBack, GrowsBlock, ShrinksBlock};

use crate::allocator::{Allocator, OverArena};
use arena_place::Layout;
use arena_store::{ArenaErr, Block, ChunkSource};

/// An allocator of blocks in an arena, for collections.
pub trait Alloc: OverArena {
    /// Places a block.
    ///
    /// # Errors
    ///
    /// `AllocErr` if there is no place and all requests for a chunk were refused, `OutOfMemory` if there is no memory
    /// for the table of chunks. Nothing changes.
    fn alloc(&mut self, layout: Layout) -> Result<Block, ArenaErr>
        ensures { PlacesBlock (Self.view self.old) (Self.view self.new) layout.size layout.align
            (answer_of result) };

    /// Gives a block back.
    fn dealloc(&mut self, block: Block)
        requires { IsTrue (is_readable (Self.view self.old).memory.state block) }
        ensures given { GivesBack (Self.view self.old).memory (Self.view self.new).memory block }
        ensures source { (Self.view self.new).source ≡ (Self.view self.old).source };

    /// Grows a block, which may move it. Its bytes are kept.
    ///
    /// # Errors
    ///
    /// Those of `alloc`, if it doesn't grow in place, and `AllocErr` without a request if the growth isn't a valid
    /// layout. The block is unchanged.
    fn grow(&mut self, block: Block, layout: Layout) -> Result<Block, ArenaErr>
        requires readable { IsTrue (is_readable (Self.view self.old).memory.state block) }
        requires size { block.size ≤ layout.size }
        ensures { GrowsBlock (Self.view self.old) (Self.view self.new) block layout.size layout.align
            (answer_of result) };

    /// Shrinks a block, which may move it. Its first bytes are kept.
    ///
    /// # Errors
    ///
    /// Those of `alloc`, if the block must move to a greater alignment; the block is unchanged.
    fn shrink(&mut self, block: Block, layout: Layout) -> Result<Block, ArenaErr>
        requires readable { IsTrue (is_readable (Self.view self.old).memory.state block) }
        requires size { layout.size ≤ block.size }
        ensures shrunk { ShrinksBlock (Self.view self.old) (Self.view self.new)
            block layout.size layout.align (answer_of result) }
        ensures succeeds { layout.align ≤ block.align → IsOk result };
}

impl<C: ChunkSource> Alloc for Allocator<C> {
    fn alloc(&mut self, layout: Layout) -> Result<Block, ArenaErr> {
        self.arena.alloc_layout(&mut self.chunks, layout)
    }

    fn dealloc(&mut self, block: Block) {
        self.arena.dealloc(block);
    }

    fn grow(&mut self, block: Block, layout: Layout) -> Result<Block, ArenaErr> {
        self.arena.grow(&mut self.chunks, block, layout)
    }

    fn shrink(&mut self, block: Block, layout: Layout) -> Result<Block, ArenaErr> {
        self.arena.shrink(&mut self.chunks, block, layout)
    }
}
