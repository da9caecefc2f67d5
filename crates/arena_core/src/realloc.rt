// How an arena resizes a block either way, and grows one with zeros.
ghost use Rattle.std.specs.Prelude.{◌≡◌, ◌+◌, ◌-◌, ◌≤◌, IfOk, IsTrue, replicate};

use crate::arena::Arena;
use arena_place::Layout;
use arena_store::{ArenaErr, Block, ChunkSource};

impl<const MIN_ALIGN: usize> Arena<MIN_ALIGN> {
    ghost use Rattle.arena_store.specs.Memory.{Memory, is_readable, image, bytes_from};
    ghost use Rattle.arena_store.specs.Source.{view};
    ghost use Rattle.arena_core.specs.Answers.{answer_of};
    ghost use Rattle.arena_core.specs.BlockCalls.{GrowsBlock, Reallocates};

    /// Grows a block as `grow` does, and sets each new byte to 0.
    ///
    /// # Errors
    ///
    /// See `grow`.
    pub fn grow_zeroed<C: ChunkSource>(
        &mut self,
        chunks: &mut C,
        block: Block,
        layout: Layout,
    ) -> Result<Block, ArenaErr>
        requires readable { IsTrue (is_readable self.old.state block) }
        requires size { block.size ≤ layout.size }
        ensures grown { GrowsBlock (view self.old (C.source chunks.old)) (view self.new (C.source chunks.new))
            block layout.size layout.align (answer_of result) }
        ensures zeros { let more = layout.size - block.size in
            IfOk result (λ b. bytes_from (image self.new) (b.addr + block.size) more ≡ replicate more 0) }
    {
        let grown = self.grow(chunks, block, layout)?;
        self.fill(grown, block.size, 0);
        Ok(grown)
    }

    /// Resizes a block and keeps its alignment: by `shrink` or by `grow`. An empty block is allocated again.
    ///
    /// # Errors
    ///
    /// `AllocErr` without a request if the new size and the alignment aren't a valid layout, and otherwise the errors
    /// of the call that is used. The block is unchanged.
    pub fn realloc<C: ChunkSource>(
        &mut self,
        chunks: &mut C,
        block: Block,
        new_size: u64,
    ) -> Result<Block, ArenaErr>
        requires { IsTrue (is_readable self.old.state block) }
        ensures { Reallocates (view self.old (C.source chunks.old)) (view self.new (C.source chunks.new))
            block new_size (answer_of result) }
    {
        let Some(layout) = Layout::new(new_size, block.align) else {
            return Err(ArenaErr::AllocErr { refused: 0 });
        };
        if block.size == 0 {
            self.try_alloc_layout(chunks, layout)
        } else if new_size <= block.size {
            self.shrink(chunks, block, layout)
        } else {
            self.grow(chunks, block, layout)
        }
    }
}
