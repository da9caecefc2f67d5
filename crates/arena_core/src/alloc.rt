// How an arena places blocks, and gives them back.
ghost use Rattle.std.specs.Prelude.{◌≡◌, ℕ, ◌+◌, ◌-◌, ◌^◌, ◌<◌, ◌≤◌, IfOk, IfErr, OnErr, IsTrue, Err, Some, None, [], ◌∷◌, take, true};
ghost use Rattle.arena_rules.specs.Causes.{counted};

use crate::arena::Arena;
use arena_place::{Layout, place, round_down_to, round_up_to_unchecked};
use arena_store::chunk::install;
use arena_store::search::{Granted, ask_above};
use arena_store::{ArenaErr, Block, ChunkSource};

// The result of a slow path, which is kept out of line: the block is at the cursor, after this many refused requests,
// or there is none. This is returned in registers. A block would be returned in memory, which the callers would also
// clear on the fast path.
#[derive(Clone, Copy)]
pub(crate) enum SlowAnswer {
    AtCursor { refused: u32 },
    NoChunk { refused: u32 },
    NoMemory,
}

// Adds 1 to a count, up to its maximum. A branch that isn't taken is faster here than a conditional move, since the
// next call waits for the count.
#[inline(always)]
fn count_one(count: &mut u64)
    ensures { count.new ≡ counted count.old 1 }
{
    match count.checked_add(1) {
        Some(n) => *count = n,
        None => stay_at_last(count),
    }
}

// Writes the maximum again. As a call, it makes the compiler emit a branch.
#[cold]
#[inline(never)]
fn stay_at_last(count: &mut u64)
    ensures { count.new ≡ 2 ^ 64 - 1 }
{
    *count = u64::MAX;
}

impl<const MIN_ALIGN: usize> Arena<MIN_ALIGN> {
    ghost use Rattle.arena_rules.specs.State.{IsValid, cursor_of, with_cursor, is_range_used};
    ghost use Rattle.arena_rules.specs.Search.{place};
    ghost use Rattle.arena_rules.specs.Moves.{reset};
    ghost use Rattle.arena_rules.specs.Statistics.{uncounted, one_allocation};
    ghost use Rattle.arena_store.specs.Memory.{Memory, Writes, is_readable, image, bytes_from};
    ghost use Rattle.arena_store.specs.Source.{view};
    ghost use Rattle.arena_core.specs.Answers.{answer_of, OnCounted, at_cursor};
    ghost use Rattle.arena_core.specs.BlockCalls.{PlacesBlock, PlacesAfter, GivesBack};
    ghost use Rattle.arena_core.specs.Adding.{AddsChunk, OnFound, FindsPlace};
    ghost use Rattle.arena_core.specs.Resizes.{NoneReadable};

    /// Places a block, in a new chunk if the newest has no place for it. No byte in use changes. If the ready part of
    /// the newest chunk has a place, this takes a few machine operations and no memory.
    ///
    /// # Errors
    ///
    /// `AllocErr` if there is no place and the source refused every request, or none could be made: the arena is fixed,
    /// or no chunk can be that large. `OutOfMemory` if there is no memory for the table of chunks; the source wasn't
    /// asked. The arena is unchanged.
    #[inline]
    pub fn try_alloc_layout<C: ChunkSource>(
        &mut self,
        chunks: &mut C,
        layout: Layout,
    ) -> Result<Block, ArenaErr>
        ensures { PlacesBlock (view self.old (C.source chunks.old)) (view self.new (C.source chunks.new))
            layout.size layout.align (answer_of result) }
    {
        let (block, _) = self.alloc_counted(chunks, layout)?;
        Ok(block)
    }

    /// Places a block as `try_alloc_layout` does: both return errors.
    ///
    /// # Errors
    ///
    /// See `try_alloc_layout`.
    #[inline]
    pub fn alloc_layout<C: ChunkSource>(
        &mut self,
        chunks: &mut C,
        layout: Layout,
    ) -> Result<Block, ArenaErr>
        ensures { PlacesBlock (view self.old (C.source chunks.old)) (view self.new (C.source chunks.new))
            layout.size layout.align (answer_of result) }
    {
        self.try_alloc_layout(chunks, layout)
    }

    /// Places a block as `try_alloc_layout` does, and also returns how many requests were refused for it.
    #[inline]
    pub fn alloc_counted<C: ChunkSource>(
        &mut self,
        chunks: &mut C,
        layout: Layout,
    ) -> Result<(Block, u32), ArenaErr>
        ensures { OnCounted result
            (PlacesAfter (view self.old (C.source chunks.old)) (view self.new (C.source chunks.new))
            layout.size layout.align) }
    {
        match place(
            self.newest.floor(),
            self.newest.cursor,
            layout,
            MIN_ALIGN as u64,
        ) {
            Some(addr) => {
                self.newest.cursor = addr;
                count_one(&mut self.allocations);
                Ok((self.block_of(addr, layout), 0))
            }
            None => {
                let slow = self.alloc_below(chunks, layout);
                self.slow_block(slow, layout)
            }
        }
    }

    // Returns the block that a slow path placed, or why there is none.
    #[inline(always)]
    pub(crate) fn slow_block(
        &self,
        slow: SlowAnswer,
        layout: Layout,
    ) -> Result<(Block, u32), ArenaErr>
        ensures { result ≡ at_cursor self.now.state layout.size layout.align slow }
    {
        match slow {
            SlowAnswer::AtCursor { refused } => Ok((self.block_of(self.cursor(), layout), refused)),
            SlowAnswer::NoChunk { refused } => Err(ArenaErr::AllocErr { refused }),
            SlowAnswer::NoMemory => Err(ArenaErr::OutOfMemory),
        }
    }

    // Places a block for which the ready part of the newest chunk has no room: in bytes that are made ready for it, or
    // in a new chunk. It is kept out of line, so that an allocation in the ready part is small enough to be inlined.
    #[cold]
    #[inline(never)]
    fn alloc_below<C: ChunkSource>(&mut self, chunks: &mut C, layout: Layout) -> SlowAnswer
        ensures { OnCounted (at_cursor self.new.state layout.size layout.align result)
            (PlacesAfter (view self.old (C.source chunks.old)) (view self.new (C.source chunks.new))
            layout.size layout.align) }
    {
        match self.find_place(chunks, layout) {
            Ok((addr, refused)) => {
                self.place_at(addr, layout);
                SlowAnswer::AtCursor { refused }
            }
            Err(ArenaErr::AllocErr { refused }) => SlowAnswer::NoChunk { refused },
            Err(ArenaErr::OutOfMemory) => SlowAnswer::NoMemory,
        }
    }

    // Returns the place of a block in the newest chunk, or in one that becomes the newest for it, and how many requests
    // were refused.
    pub(crate) fn find_place<C: ChunkSource>(
        &mut self,
        chunks: &mut C,
        layout: Layout,
    ) -> Result<(u64, u32), ArenaErr>
        ensures found { IfOk result (λ found. FindsPlace
            (view self.old (C.source chunks.old)) (view self.new (C.source chunks.new))
            layout.size layout.align found.1 found.0) }
        ensures refused { IfErr result (λ e. OnCounted (Err e)
            (PlacesAfter (view self.old (C.source chunks.old)) (view self.new (C.source chunks.new))
            layout.size layout.align)) }
    {
        match place(
            self.newest.base,
            self.newest.cursor,
            layout,
            MIN_ALIGN as u64,
        ) {
            Some(addr) => Ok((addr, 0)),
            None => {
                let added = self.add_chunk(chunks, layout)?;
                Ok(added)
            }
        }
    }

    // Places a block in the newest chunk, and makes its bytes ready.
    fn place_at(&mut self, addr: u64, layout: Layout)
        requires { place self.old.state layout.size layout.align ≡ Some addr }
        ensures { self.new ≡ record {
          state = with_cursor addr self.old.state;
          statistics = one_allocation self.old.statistics;
          bytes = self.old.bytes;
        } }
    {
        self.newest.set_cursor(addr);
        count_one(&mut self.allocations);
    }

    // Places a block, and copies n bytes into it from an address; they are in use once the block is placed. Those of an
    // older chunk are written as the bytes are made ready.
    pub(crate) fn place_copy_at(&mut self, addr: u64, layout: Layout, from: u64, n: u64)
        requires place { place self.old.state layout.size layout.align ≡ Some addr }
        requires source { 0 < n → IsTrue (is_range_used (with_cursor addr self.old.state).chunks from n) }
        requires fits { n ≤ layout.size }
        ensures state { self.new.state ≡ with_cursor addr self.old.state }
        ensures statistics { self.new.statistics ≡ one_allocation self.old.statistics }
        ensures bytes { Writes self.old self.new addr (bytes_from (image self.old) from n) }
    {
        let newest = self.newest.base;
        if n == 0 || from >= newest {
            self.place_at(addr, layout);
            self.move_in_newest(from, addr, n);
            return;
        }
        let bytes = self.older.bytes(from, n);
        self.newest.make_ready_with(addr, bytes);
        self.newest.cursor = addr;
        count_one(&mut self.allocations);
    }

    // Makes a new chunk for the block the newest. Returns the block's place in it, and how many requests were refused.
    fn add_chunk<C: ChunkSource>(
        &mut self,
        chunks: &mut C,
        layout: Layout,
    ) -> Result<(u64, u32), ArenaErr>
        ensures added { OnFound result
            (AddsChunk (view self.old (C.source chunks.old)) (view self.new (C.source chunks.new))
            layout.size layout.align)
            ((self.old.state.is_growing ≡ true) × (C.source chunks.new ≡ C.source chunks.old)) }
        ensures err { OnErr result (self.new ≡ self.old) }
    {
        if !self.is_growing {
            return Err(ArenaErr::AllocErr { refused: 0 });
        }
        if self.older.reserve().is_err() {
            return Err(ArenaErr::OutOfMemory);
        }
        let Granted {
            base,
            chunk,
            refused,
        } = ask_above(chunks, self.newest.end(), self.newest.size(), layout);
        let Some(bytes) = chunk else {
            return Err(ArenaErr::AllocErr { refused });
        };
        install(&mut self.newest, &mut self.older, base, bytes);
        let last = self.newest.cursor - layout.size;
        let addr = round_down_to(last, layout.align.max(MIN_ALIGN as u64));
        Ok((addr, refused))
    }

    /// Gives a block back. If it is at the cursor, the cursor moves up, and its bytes can be used again; otherwise they
    /// can't until a reset or a rewind. No byte changes.
    pub fn dealloc(&mut self, block: Block)
        requires { IsTrue (is_readable self.old.state block) }
        ensures { GivesBack self.old self.new block }
    {
        if block.addr == self.newest.cursor {
            self.newest.cursor = round_up_to_unchecked(block.addr + block.size, MIN_ALIGN as u64);
        }
    }

    /// Gives all blocks back, and frees all chunks but the newest. Blocks placed before are no longer readable, except
    /// empty ones: the generation rises, up to 2^64 - 1. The statistics begin at 0 again. The bytes of the chunk that
    /// is kept don't change.
    #[inline]
    pub fn reset(&mut self)
        ensures memory { self.new ≡ record {
          state = reset self.old.state;
          statistics = uncounted;
          bytes = take 1 self.old.bytes;
        } }
        ensures ends { NoneReadable self.new.state }
        ensures valid { IsValid self.new.state }
    {
        self.newest.cursor = self.newest.base + self.newest.size();
        self.older.clear();
        self.generation = self.generation.saturating_add(1);
        self.allocations = 0;
        self.reallocations = 0;
    }
}
