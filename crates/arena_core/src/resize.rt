// How an arena grows and shrinks blocks.
ghost use Rattle.std.specs.Prelude.{◌≡◌, ◌+◌, ◌-◌, ◌^◌, ◌%◌, nat_lt, ◌≤◌, ◌<◌, if◌then◌else◌, IsOk, IsTrue, min};

use crate::alloc::SlowAnswer;
use crate::arena::Arena;
use arena_place::{Layout, is_aligned_to, place, round_down_to, round_up_to_unchecked};
use arena_store::{ArenaErr, Block, ChunkSource};

// Returns one less, unless the count is at its maximum.
fn one_fewer(count: u64) -> u64
    requires { 0 < count }
    ensures { result ≡ (if nat_lt count (2 ^ 64 - 1) then count - 1 else count) }
{
    if count < u64::MAX { count - 1 } else { count }
}

impl<const MIN_ALIGN: usize> Arena<MIN_ALIGN> {
    ghost use Rattle.arena_rules.specs.State.{IsValid, start_of, cursor_of, top_of, with_cursor, is_range_used};
    ghost use Rattle.arena_rules.specs.Moves.Resizing.{Anew};
    ghost use Rattle.arena_rules.specs.Statistics.{one_reallocation};
    ghost use Rattle.arena_store.specs.Memory.{Memory, Writes, is_readable, image, bytes_from};
    ghost use Rattle.arena_store.specs.Source.{view};
    ghost use Rattle.arena_core.specs.Answers.{answer_of, OnCounted, at_cursor};
    ghost use Rattle.arena_core.specs.BlockCalls.{GrowsBlock, ShrinksBlock, ResizesAfter, growing_of, shrinking_of};
    ghost use Rattle.arena_core.specs.Resizes.{FitsBelow, IsMovedDown, IsResizedUnasked, replaced};

    /// Shrinks a block, which may move it. Its first bytes are kept. If the alignment doesn't rise, this allocates
    /// nothing and can't fail.
    ///
    /// # Errors
    ///
    /// Those of `try_alloc_layout`, if the block must move to a greater alignment; the block is unchanged.
    #[inline]
    pub fn shrink<C: ChunkSource>(
        &mut self,
        chunks: &mut C,
        block: Block,
        layout: Layout,
    ) -> Result<Block, ArenaErr>
        requires readable { IsTrue (is_readable self.old.state block) }
        requires size { layout.size ≤ block.size }
        ensures shrunk { ShrinksBlock
            (view self.old (C.source chunks.old)) (view self.new (C.source chunks.new))
            block layout.size layout.align (answer_of result) }
        ensures succeeds { layout.align ≤ block.align → IsOk result }
    {
        let (shrunk, _) = self.shrink_counted(chunks, block, layout)?;
        Ok(shrunk)
    }

    /// Grows a block, which may move it. Its bytes are kept. If it grows in place, this allocates nothing, and moves
    /// its bytes in one memory move.
    ///
    /// # Errors
    ///
    /// Those of `try_alloc_layout`, if it doesn't grow in place, and `AllocErr` without a request if the growth isn't a
    /// valid layout. The block is unchanged.
    #[inline(always)]
    pub fn grow<C: ChunkSource>(
        &mut self,
        chunks: &mut C,
        block: Block,
        layout: Layout,
    ) -> Result<Block, ArenaErr>
        requires readable { IsTrue (is_readable self.old.state block) }
        requires size { block.size ≤ layout.size }
        ensures { GrowsBlock (view self.old (C.source chunks.old)) (view self.new (C.source chunks.new))
            block layout.size layout.align (answer_of result) }
    {
        let (grown, _) = self.grow_counted(chunks, block, layout)?;
        Ok(grown)
    }

    /// Shrinks a block as `shrink` does, and also returns how many requests were refused.
    pub fn shrink_counted<C: ChunkSource>(
        &mut self,
        chunks: &mut C,
        block: Block,
        layout: Layout,
    ) -> Result<(Block, u32), ArenaErr>
        requires readable { IsTrue (is_readable self.old.state block) }
        requires size { layout.size ≤ block.size }
        ensures shrunk { OnCounted result (ResizesAfter (shrinking_of self.old block layout.size layout.align)
            (view self.old (C.source chunks.old)) (view self.new (C.source chunks.new))
            block layout.size layout.align) }
        ensures succeeds { layout.align ≤ block.align → IsOk result }
    {
        if layout.align <= block.align {
            return Ok((self.shrink_here(block, layout), 0));
        }
        if is_aligned_to(block.addr, layout.align) {
            return Ok((self.block_of(block.addr, layout), 0));
        }
        let slow = self.copy_to_new(chunks, block, layout, layout.size);
        self.slow_block(slow, layout)
    }

    /// Grows a block as `grow` does, and also returns how many requests were refused.
    #[inline(always)]
    pub fn grow_counted<C: ChunkSource>(
        &mut self,
        chunks: &mut C,
        block: Block,
        layout: Layout,
    ) -> Result<(Block, u32), ArenaErr>
        requires readable { IsTrue (is_readable self.old.state block) }
        requires size { block.size ≤ layout.size }
        ensures { OnCounted result (ResizesAfter (growing_of self.old block layout.size layout.align)
            (view self.old (C.source chunks.old)) (view self.new (C.source chunks.new))
            block layout.size layout.align) }
    {
        if block.align < layout.align || block.addr != self.newest.cursor {
            let old = block;
            let slow = self.copy_to_new(chunks, old, layout, block.size);
            return self.slow_block(slow, layout);
        }
        let more = round_up_to_unchecked(layout.size, MIN_ALIGN as u64) - block.size;
        let Some(below) = Layout::new(more, block.align) else {
            return Err(ArenaErr::AllocErr { refused: 0 });
        };
        match place(
            self.newest.base,
            self.newest.cursor,
            below,
            MIN_ALIGN as u64,
        ) {
            Some(addr) => {
                self.move_down(addr, block.size);
                Ok((self.block_of(addr, layout), 0))
            }
            None => {
                // A copy for the out-of-line call, so that the block itself stays in registers.
                let old = block;
                let slow = self.copy_to_new(chunks, old, layout, block.size);
                self.slow_block(slow, layout)
            }
        }
    }

    // Shrinks a block whose alignment doesn't rise. At the cursor it moves up, if that frees at least half of it.
    fn shrink_here(&mut self, block: Block, layout: Layout) -> Block
        requires readable { IsTrue (is_readable self.old.state block) }
        requires size { layout.size ≤ block.size }
        requires align { layout.align ≤ block.align }
        ensures { IsResizedUnasked (shrinking_of self.old block layout.size layout.align) self.old self.new
            block layout.size layout.align result }
    {
        if block.addr != self.newest.cursor {
            return self.block_of(block.addr, layout);
        }
        let delta = round_down_to(block.size - layout.size, layout.align.max(MIN_ALIGN as u64));
        if delta < block.size - delta {
            return self.block_of(block.addr, layout);
        }
        let addr = block.addr + delta;
        let shrunk = self.block_of(addr, layout);
        self.move_in_newest(block.addr, addr, layout.size);
        self.move_cursor(addr);
        shrunk
    }

    // Moves the cursor down to an address, with the n bytes that begin at it, and counts a reallocation.
    #[inline(always)]
    fn move_down(&mut self, addr: u64, n: u64)
        requires { FitsBelow self.old.state addr n }
        ensures { IsMovedDown self.old self.new addr n }
    {
        if self.newest.is_untouched(addr) {
            self.move_into_untouched(addr, n);
        } else {
            self.move_at_once(addr, n);
        }
    }

    // Does so where the byte at the address isn't ready. It is kept out of line, so that no branches join before the
    // other move: then the compiler still knows there how large the block may be.
    #[cold]
    #[inline(never)]
    fn move_into_untouched(&mut self, addr: u64, n: u64)
        requires { FitsBelow self.old.state addr n }
        ensures { IsMovedDown self.old self.new addr n }
    {
        self.move_at_once(addr, n);
    }

    #[inline(always)]
    fn move_at_once(&mut self, addr: u64, n: u64)
        requires { FitsBelow self.old.state addr n }
        ensures { IsMovedDown self.old self.new addr n }
    {
        let from = self.newest.cursor;
        self.newest.set_cursor(addr);
        self.reallocations = self.reallocations.saturating_add(1);
        self.move_in_newest(from, addr, n);
    }

    // Allocates a block again, with the first n bytes of the old one.
    #[cold]
    #[inline(never)]
    fn copy_to_new<C: ChunkSource>(
        &mut self,
        chunks: &mut C,
        block: Block,
        layout: Layout,
        n: u64,
    ) -> SlowAnswer
        requires readable { IsTrue (is_readable self.old.state block) }
        requires n { n ≡ min block.size layout.size }
        ensures { OnCounted (at_cursor self.new.state layout.size layout.align result)
            (ResizesAfter Anew
            (view self.old (C.source chunks.old)) (view self.new (C.source chunks.new))
            block layout.size layout.align) }
    {
        match self.find_place(chunks, layout) {
            Ok((addr, refused)) => {
                self.place_copy_at(addr, layout, block.addr, n);
                self.count_move();
                SlowAnswer::AtCursor { refused }
            }
            Err(ArenaErr::AllocErr { refused }) => SlowAnswer::NoChunk { refused },
            Err(ArenaErr::OutOfMemory) => SlowAnswer::NoMemory,
        }
    }

    // Returns the block at an address.
    pub(crate) fn block_of(&self, addr: u64, layout: Layout) -> Block
        ensures block { result ≡ record {
          generation = self.now.state.generation;
          addr = addr;
          size = layout.size;
          align = layout.align;
        } }
        ensures valid { IsValid self.now.state }
    {
        Block {
            generation: self.generation,
            addr,
            size: layout.size,
            align: layout.align,
        }
    }

    // Moves the cursor up, and counts a reallocation.
    fn move_cursor(&mut self, addr: u64)
        requires low { cursor_of self.old.state.chunks ≤ addr }
        requires high { addr ≤ top_of self.old.state.chunks }
        requires aligned { addr % self.old.state.min_align ≡ 0 }
        ensures { self.new ≡ record {
          state = with_cursor addr self.old.state;
          statistics = one_reallocation self.old.statistics;
          bytes = self.old.bytes;
        } }
    {
        self.newest.cursor = addr;
        self.reallocations = self.reallocations.saturating_add(1);
    }

    // Counts the last allocation as a reallocation instead.
    fn count_move(&mut self)
        requires { 0 < self.old.statistics.allocations }
        ensures { self.new ≡ record {
          state = self.old.state;
          statistics = replaced self.old.statistics;
          bytes = self.old.bytes;
        } }
    {
        self.allocations = one_fewer(self.allocations);
        self.reallocations = self.reallocations.saturating_add(1);
    }
}
