//! The allocator trait of the fork of bumpalo.
ghost use Rattle.std.specs.Prelude.{◌≡◌, ◌*◌, ◌<◌, ◌≤◌, ◌↔◌, ◌&&◌, false, Some, is_some, IfSome, Ok, IfOk, IsErr, IsTrue, codes, replicate};
ghost use Rattle.arena_store.specs.Memory.{is_readable, image, bytes_from};
ghost use Rattle.arena_core.specs.Answers.{answer_of, answer_by};
ghost use Rattle.arena_core.specs.BlockCalls.{PlacesBlock, GivesBack, Reallocates, Refuses, is_array};

use crate::allocator::{Allocator, OverArena};
use arena_place::Layout;
use arena_store::{ArenaErr, Block, ChunkSource};
use std::error::Error;
use std::fmt;

/// A block with its size.
#[derive(Drop, Debug)]
pub struct Excess(pub Block, pub u64);

/// A block can't be given the requested size in place.
#[derive(Clone, Copy, PartialEq, Eq, Debug)]
pub struct CannotReallocInPlace;

impl CannotReallocInPlace {
    /// Returns the message of the error.
    pub fn description(&self) -> &'static str
        ensures { result.now ≡ codes "cannot reallocate allocator's memory in place" }
    {
        "cannot reallocate allocator's memory in place"
    }
}

impl fmt::Display for CannotReallocInPlace {
    ghost output = { λ _. Some (codes "cannot reallocate allocator's memory in place") };

    fn fmt<W: fmt::Write>(&self, f: &mut fmt::Formatter<W>) -> fmt::Result {
        f.write_str(self.description())
    }
}

impl Error for CannotReallocInPlace {}

// Returns the layout of `n` elements in a row, if it is valid and not empty.
fn array_of(element: Layout, n: u64) -> Option<Layout>
    ensures answer { is_some result ≡ is_array element.size element.align n }
    ensures value { IfSome result (λ layout. (layout.size ≡ n * element.size)
        × (layout.align ≡ element.align)) }
{
    let layout = Layout::array(n, element.size, element.align)?;
    if layout.size == 0 {
        return None;
    }
    Some(layout)
}

/// An allocator of blocks, of single elements, and of arrays. An element is given by its layout.
pub trait Alloc: OverArena {
    /// Places a block.
    ///
    /// # Errors
    ///
    /// `AllocErr` if there is no place and all requests for a chunk were refused, `OutOfMemory` if there is no memory
    /// for the table of chunks. Nothing changes.
    fn alloc(&mut self, layout: Layout) -> Result<Block, ArenaErr>
        ensures { PlacesBlock (Self.view self.old) (Self.view self.new) layout.size layout.align
            (answer_of result) };

    /// Gives a block back.
    fn dealloc(&mut self, block: Block)
        requires { IsTrue (is_readable (Self.view self.old).memory.state block) }
        ensures given { GivesBack (Self.view self.old).memory (Self.view self.new).memory block }
        ensures source { (Self.view self.new).source ≡ (Self.view self.old).source };

    /// Resizes a block and keeps its alignment. An empty block is allocated again.
    ///
    /// # Errors
    ///
    /// `AllocErr` without a request if the new size and the alignment aren't a valid layout, and otherwise those of
    /// `alloc`. The block is unchanged.
    fn realloc(&mut self, block: Block, new_size: u64) -> Result<Block, ArenaErr>
        requires { IsTrue (is_readable (Self.view self.old).memory.state block) }
        ensures { Reallocates (Self.view self.old) (Self.view self.new) block new_size (answer_of result) };

    /// Places a block as `alloc` does, and sets each byte to 0.
    ///
    /// # Errors
    ///
    /// See `alloc`.
    fn alloc_zeroed(&mut self, layout: Layout) -> Result<Block, ArenaErr>
        ensures placed { PlacesBlock (Self.view self.old) (Self.view self.new) layout.size layout.align
            (answer_of result) }
        ensures zeros { IfOk result (λ b.
            bytes_from (image (Self.view self.new).memory) b.addr layout.size ≡ replicate layout.size 0) };

    /// Returns the least and the greatest size that a block of this layout may be given back with: both are its own.
    fn usable_size(&self, layout: Layout) -> (u64, u64)
        ensures { result ≡ (layout.size, layout.size) }
    {
        (layout.size, layout.size)
    }

    /// Places a block as `alloc` does, and returns it with its size.
    ///
    /// # Errors
    ///
    /// See `alloc`.
    fn alloc_excess(&mut self, layout: Layout) -> Result<Excess, ArenaErr>
        ensures placed { PlacesBlock (Self.view self.old) (Self.view self.new) layout.size layout.align
            (answer_by (λ e. e.0) result) }
        ensures size { IfOk result (λ e. e.1 ≡ layout.size) }
    {
        let block = self.alloc(layout)?;
        Ok(Excess(block, layout.size))
    }

    /// Resizes a block as `realloc` does, and returns it with its new size.
    ///
    /// # Errors
    ///
    /// See `realloc`.
    fn realloc_excess(&mut self, block: Block, new_size: u64) -> Result<Excess, ArenaErr>
        requires { IsTrue (is_readable (Self.view self.old).memory.state block) }
        ensures moved { Reallocates (Self.view self.old) (Self.view self.new) block new_size
            (answer_by (λ e. e.0) result) }
        ensures size { IfOk result (λ e. e.1 ≡ new_size) }
    {
        let moved = self.realloc(block, new_size)?;
        Ok(Excess(moved, new_size))
    }

    /// Grows a block in place. This succeeds only for the block's own size.
    ///
    /// # Errors
    ///
    /// `CannotReallocInPlace` if the new size is greater.
    fn grow_in_place(&mut self, block: Block, new_size: u64) -> Result<(), CannotReallocInPlace>
        requires { block.size ≤ new_size }
        ensures refused { IsErr result ↔ (block.size < new_size) }
        ensures kept { self.new ≡ self.old }
    {
        if new_size > block.size {
            return Err(CannotReallocInPlace);
        }
        Ok(())
    }

    /// Shrinks a block in place. This succeeds only for the block's own size.
    ///
    /// # Errors
    ///
    /// `CannotReallocInPlace` if the new size is smaller.
    fn shrink_in_place(&mut self, block: Block, new_size: u64) -> Result<(), CannotReallocInPlace>
        requires { new_size ≤ block.size }
        ensures refused { IsErr result ↔ (new_size < block.size) }
        ensures kept { self.new ≡ self.old }
    {
        if new_size < block.size {
            return Err(CannotReallocInPlace);
        }
        Ok(())
    }

    /// Places a block for one element.
    ///
    /// # Errors
    ///
    /// `AllocErr` without a request for an element of no bytes, and otherwise those of `alloc`.
    fn alloc_one(&mut self, element: Layout) -> Result<Block, ArenaErr>
        ensures empty { element.size ≡ 0 → Refuses (Self.view self.old) (Self.view self.new)
            (answer_of result) }
        ensures placed { 0 < element.size
            → PlacesBlock (Self.view self.old) (Self.view self.new) element.size element.align
            (answer_of result) }
    {
        if element.size == 0 {
            return Err(ArenaErr::AllocErr { refused: 0 });
        }
        self.alloc(element)
    }

    /// Gives the block of one element back. A block of no bytes isn't given back.
    fn dealloc_one(&mut self, block: Block)
        requires { IsTrue (is_readable (Self.view self.old).memory.state block) }
        ensures empty { block.size ≡ 0 → self.new ≡ self.old }
        ensures given { 0 < block.size
            → GivesBack (Self.view self.old).memory (Self.view self.new).memory block }
        ensures source { (Self.view self.new).source ≡ (Self.view self.old).source }
    {
        if block.size > 0 {
            self.dealloc(block);
        }
    }

    /// Places a block for `n` elements in a row.
    ///
    /// # Errors
    ///
    /// `AllocErr` without a request if the array is no valid layout or has no bytes, and otherwise those of `alloc`.
    fn alloc_array(&mut self, element: Layout, n: u64) -> Result<Block, ArenaErr>
        ensures refused { is_array element.size element.align n ≡ false
            → Refuses (Self.view self.old) (Self.view self.new) (answer_of result) }
        ensures placed { IsTrue (is_array element.size element.align n) → PlacesBlock
            (Self.view self.old) (Self.view self.new) (n * element.size) element.align (answer_of result) }
    {
        match array_of(element, n) {
            Some(layout) => self.alloc(layout),
            None => Err(ArenaErr::AllocErr { refused: 0 }),
        }
    }

    /// Resizes the block of `n_old` elements for `n_new`.
    ///
    /// # Errors
    ///
    /// `AllocErr` without a request if one of the arrays is no valid layout or has no bytes, and otherwise those of
    /// `realloc`.
    fn realloc_array(
        &mut self,
        block: Block,
        element: Layout,
        n_old: u64,
        n_new: u64,
    ) -> Result<Block, ArenaErr>
        requires readable { IsTrue (is_readable (Self.view self.old).memory.state block) }
        requires size { block.size ≡ n_old * element.size }
        requires align { block.align ≡ element.align }
        ensures refused { let are = is_array element.size element.align in (are n_old && are n_new) ≡ false
            → Refuses (Self.view self.old) (Self.view self.new) (answer_of result) }
        ensures moved { let are = is_array element.size element.align in IsTrue (are n_old && are n_new)
            → Reallocates (Self.view self.old) (Self.view self.new) block (n_new * element.size)
            (answer_of result) }
    {
        match (array_of(element, n_old), array_of(element, n_new)) {
            (Some(_), Some(layout)) => self.realloc(block, layout.size),
            _ => Err(ArenaErr::AllocErr { refused: 0 }),
        }
    }

    /// Gives the block of `n` elements back.
    ///
    /// # Errors
    ///
    /// `AllocErr` if the array is no valid layout or has no bytes. Nothing changes.
    fn dealloc_array(&mut self, block: Block, element: Layout, n: u64) -> Result<(), ArenaErr>
        requires { IsTrue (is_readable (Self.view self.old).memory.state block) }
        ensures refused { is_array element.size element.align n ≡ false
            → (result ≡ Err (ArenaErr.AllocErr 0)) × (Self.view self.new ≡ Self.view self.old) }
        ensures answer { IsTrue (is_array element.size element.align n) → result ≡ Ok tt }
        ensures given { IsTrue (is_array element.size element.align n)
            → GivesBack (Self.view self.old).memory (Self.view self.new).memory block }
        ensures source { (Self.view self.new).source ≡ (Self.view self.old).source }
    {
        if array_of(element, n).is_none() {
            return Err(ArenaErr::AllocErr { refused: 0 });
        }
        self.dealloc(block);
        Ok(())
    }
}

impl<C: ChunkSource> Alloc for Allocator<C> {
    fn alloc(&mut self, layout: Layout) -> Result<Block, ArenaErr> {
        self.arena.alloc_layout(&mut self.chunks, layout)
    }

    fn dealloc(&mut self, block: Block) {
        self.arena.dealloc(block);
    }

    fn realloc(&mut self, block: Block, new_size: u64) -> Result<Block, ArenaErr> {
        self.arena.realloc(&mut self.chunks, block, new_size)
    }

    #[tactic(auto, using(arena_core::proofs::BlockCallLemmas::places_written))]
    fn alloc_zeroed(&mut self, layout: Layout) -> Result<Block, ArenaErr> {
        let block = self.arena.alloc_layout(&mut self.chunks, layout)?;
        self.arena.fill(block, 0, 0);
        Ok(block)
    }
}
