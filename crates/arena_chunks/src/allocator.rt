// An arena with its source of chunks.
ghost use Rattle.std.specs.Prelude.{◌≡◌, ◌+◌, ◌-◌, ◌*◌, ◌^◌, ◌%◌, ◌≤◌, [], ◌∷◌, Some, Ok, Err, IfOk, IfErr, IsOk, ℕ, List, IsTrue, length, take};
ghost use Rattle.std.specs.Borrow.{sem};
ghost use Rattle.arena_rules.specs.State.{IsValid, used_bytes, allocated_bytes, top_of};
ghost use Rattle.arena_rules.specs.Moves.{reset};
ghost use Rattle.arena_rules.specs.Creation.{empty_state, fixed_state};
ghost use Rattle.arena_rules.specs.Statistics.{uncounted};
ghost use Rattle.arena_store.specs.Memory.{is_readable, image, bytes_from};
ghost use Rattle.arena_store.specs.Source.{View, view};
ghost use Rattle.arena_core.specs.Answers.{answer_of};
ghost use Rattle.arena_core.specs.Resizes.{NoneReadable};
ghost use Rattle.arena_core.specs.Creating.{uncounted_memory, IsCreation, Creates};
ghost use Rattle.arena_core.specs.BlockCalls.{PlacesBlock, WritesBlock, EditsBlock};

mod alloc;
mod block_alloc;
mod over_arena;
mod text;

pub use alloc::Alloc;
use arena_bases::Steps;
use arena_core::{Arena, Checkpoint, RawErr};
use arena_place::Layout;
use arena_region::Region;
use arena_store::{ArenaErr, Block, ChunkSource, Edit};
pub use block_alloc::BlockAlloc;
pub use over_arena::OverArena;
use std::alloc::Global;
use std::marker::Model;
use std::sync::ledger::Ledger;
pub use text::Str;

/// An arena of least alignment 1 together with the source of its chunks. Contracts see the arena's memory, and the
/// source's refusals and requests.
#[derive(Drop)]
pub struct Allocator<C: ChunkSource> {
    pub(crate) arena: Arena<1>,
    pub(crate) chunks: C,
}

impl<C: ChunkSource> Model for Allocator<C> {
    ghost use Rattle.arena_store.specs.Source.{View};

    ghost Value = { View };

    ghost view = { λ a. record { memory = a.arena; source = C.source a.chunks } };
}

impl<C: ChunkSource> Allocator<C> {
    ghost use Rattle.arena_store.specs.Lends.{with_block};
    ghost use Rattle.arena_chunks.specs.AllocatorLends.{LendsBlockOf};
    ghost use Rattle.arena_core.specs.Checkpoints.{checkpoint_of, is_accepted, sent_back, GoesBack};
    ghost use Rattle.arena_core.specs.Finding.{chunk_number};

    /// Creates an allocator over an empty growing arena. Doesn't allocate.
    pub fn new(alloc: Global, chunks: C) -> Allocator<C>
        ensures { result ≡ view (uncounted_memory (empty_state 1) []) (C.source chunks) }
    {
        Allocator::of(Arena::new(alloc), chunks)
    }

    /// Joins an arena and a source to an allocator.
    pub fn of(arena: Arena<1>, chunks: C) -> Allocator<C>
        ensures { result ≡ view arena (C.source chunks) }
    {
        Allocator { arena, chunks }
    }

    /// Creates an allocator whose arena grows and has one chunk of at least `capacity` bytes, or no chunk for 0.
    ///
    /// # Errors
    ///
    /// Those of the arena's `with_capacity`. The source is returned with the error.
    pub fn with_capacity(
        alloc: Global,
        chunks: C,
        capacity: u64,
    ) -> Result<Allocator<C>, (ArenaErr, C)>
        ensures ok { IfOk result (λ a. IsCreation 1 capacity 0 (Some a.memory) (C.source chunks) a.source) }
        ensures err { IfErr result (λ e. Creates 1 capacity (C.source chunks) (C.source e.1) (Err e.0)) }
    {
        let mut chunks = chunks;
        match Arena::with_capacity(alloc, &mut chunks, capacity) {
            Ok(arena) => Ok(Allocator::of(arena, chunks)),
            Err(e) => Err((e, chunks)),
        }
    }

    /// Creates an allocator whose arena is fixed, with one chunk: the region but its last 48 bytes. Always returns
    /// `Ok`.
    pub fn from_raw_parts(
        alloc: Global,
        region: Vec<u8>,
        chunks: C,
    ) -> Result<Allocator<C>, (RawErr, C)>
        requires units { length region.items % 16 ≡ 0 }
        requires room { 48 ≤ length region.items }
        ensures ok { IsOk result }
        ensures view { let size = length region.items - 48 in IfOk result (λ a.
            a ≡ view (uncounted_memory (fixed_state 1 size) (take size region.items ∷ []))
            (C.source chunks)) }
    {
        match Arena::from_raw_parts(alloc, region) {
            Ok(arena) => Ok(Allocator::of(arena, chunks)),
            Err(e) => Err((e, chunks)),
        }
    }

    /// Creates an allocator whose arena is fixed over a region, as `from_raw_parts` does. The region's memory may not
    /// be touched yet.
    pub fn from_region(alloc: Global, region: Region, chunks: C) -> Allocator<C>
        requires units { length region.items % 16 ≡ 0 }
        requires room { 48 ≤ length region.items }
        ensures { let size = length region.items - 48 in
            result ≡ view (uncounted_memory (fixed_state 1 size) (take size region.items ∷ []))
            (C.source chunks) }
    {
        Allocator::of(Arena::from_region(alloc, region), chunks)
    }

    /// Splits the allocator into its two parts, which `of` joins again.
    pub fn into_parts(self) -> (Arena<1>, C)
        ensures memory { result.0 ≡ self.memory }
        ensures source { C.source result.1 ≡ self.source }
    {
        let Allocator { arena, chunks } = self;
        (arena, chunks)
    }

    /// Places a block, as the arena's `try_alloc_layout` does.
    ///
    /// # Errors
    ///
    /// Those of the arena's `try_alloc_layout`.
    #[inline]
    pub fn alloc_layout(&mut self, layout: Layout) -> Result<Block, ArenaErr>
        ensures { PlacesBlock self.old self.new layout.size layout.align (answer_of result) }
    {
        self.arena.try_alloc_layout(&mut self.chunks, layout)
    }

    /// Gives all blocks back, and frees all chunks but the newest, as the arena's `reset` does.
    pub fn reset(&mut self)
        ensures memory { self.new.memory ≡ record {
          state = reset self.old.memory.state;
          statistics = uncounted;
          bytes = take 1 self.old.memory.bytes;
        } }
        ensures source { self.new.source ≡ self.old.source }
        ensures ends { NoneReadable self.new.memory.state }
        ensures valid { IsValid self.new.memory.state }
    {
        self.arena.reset();
    }

    /// Returns a mark of the present state, as the arena's `checkpoint` does. Doesn't allocate.
    pub fn checkpoint(&self) -> Checkpoint
        ensures { result ≡ checkpoint_of self.now.memory.state }
    {
        self.arena.checkpoint()
    }

    /// Returns whether the arena can go back to a mark, as its `accepts` does.
    pub fn accepts(&self, c: Checkpoint) -> bool
        ensures { result ≡ is_accepted c self.now.memory.state }
    {
        self.arena.accepts(c)
    }

    /// Goes back to a mark, as the arena's `rewind` does.
    pub fn rewind(&mut self, c: Checkpoint)
        requires { IsTrue (is_accepted c self.old.memory.state) }
        ensures memory { self.new.memory ≡ sent_back c self.old.memory }
        ensures source { self.new.source ≡ self.old.source }
        ensures back { GoesBack self.old.memory self.new.memory }
    {
        self.arena.rewind(c);
    }

    /// Returns the number of the chunk that has an address, as the arena's `find_chunk` does.
    pub fn find_chunk<L: Ledger>(&self, addr: u64, steps: &mut Steps<L>) -> Option<u64>
        ensures number { result ≡ chunk_number addr self.now.memory.state.chunks }
        ensures rises { steps.old ≤ steps.new }
        ensures cost { 2 ^ (steps.new - steps.old) ≤ 2 * length self.now.memory.state.chunks + 1 }
    {
        self.arena.find_chunk(addr, steps)
    }

    /// Returns how many bytes the chunks have.
    pub fn capacity(&self) -> u64
        ensures { result ≡ allocated_bytes self.now.memory.state }
    {
        self.arena.allocated_bytes()
    }

    /// Returns how many bytes of the chunks are used.
    pub fn used_bytes(&self) -> u64
        ensures { result ≡ used_bytes self.now.memory.state }
    {
        self.arena.used_bytes()
    }

    /// Returns how many blocks were placed and how many were reallocated, as the arena's `get_allocation_stats` does. A
    /// shrink that leaves the block where it is isn't counted.
    pub fn get_allocation_stats(&self) -> (u64, u64)
        ensures { let s = self.now.memory.statistics in result ≡ (s.allocations, s.reallocations) }
    {
        self.arena.get_allocation_stats()
    }

    /// Returns the data end of the newest chunk; 16 without a chunk.
    pub fn data_end(&self) -> u64
        ensures { result ≡ top_of self.now.memory.state.chunks }
    {
        self.arena.data_end()
    }

    /// Does nothing. A call makes the facts of its contract known, which hold for every allocator.
    #[inline(always)]
    pub fn known(&self)
        ensures state { self.now.memory.state.min_align ≡ 1 }
        ensures valid { IsValid self.now.memory.state }
    {
        self.arena.known();
    }

    /// Returns 1, the least alignment of the arena's blocks. A call makes it known that the arena's state is valid.
    pub fn min_align(&self) -> u64
        ensures value { result ≡ 1 }
        ensures state { self.now.memory.state.min_align ≡ 1 }
        ensures valid { IsValid self.now.memory.state }
    {
        self.arena.min_align()
    }

    /// Returns whether the arena grows.
    pub fn is_growing(&self) -> bool
        ensures { result ≡ self.now.memory.state.is_growing }
    {
        self.arena.is_growing()
    }

    /// Returns whether a block is readable, as the arena's `is_held_place` does.
    pub fn is_held_place(&self, block: Block) -> bool
        ensures { result ≡ is_readable self.now.memory.state block }
    {
        self.arena.is_held_place(block)
    }

    /// Returns the bytes of a block.
    pub fn read(&self, block: Block) -> &[u8]
        requires { IsTrue (is_readable self.now.memory.state block) }
        ensures { result.now ≡ bytes_from (image self.now.memory) block.addr block.size }
    {
        self.arena.read(block)
    }

    /// Returns the bytes of a block for writing, as the arena's `read_mut` does.
    pub fn read_mut(&mut self, block: Block) -> &mut [u8]
        requires { IsTrue (is_readable self.old.memory.state block) }
        ensures* writes_back { sem 𝓛 (LendsBlockOf C.row C.ChunkSource self.entry block result) }
        ensures value { result.now ≡ bytes_from (image self.old.memory) block.addr block.size }
        ensures writes { (list : List ℕ) → length list ≡ block.size
            → WritesBlock self.old.memory (with_block self.old.memory block list) block 0 list }
    {
        self.arena.read_mut(block)
    }

    /// Replaces bytes of a block, from the index `at` on.
    pub fn write(&mut self, block: Block, at: u64, bytes: &[u8])
        requires readable { IsTrue (is_readable self.old.memory.state block) }
        requires range { at + length bytes.now ≤ block.size }
        ensures writes { WritesBlock self.old.memory self.new.memory block at bytes.now }
        ensures source { self.new.source ≡ self.old.source }
    {
        self.arena.write(block, at, bytes);
    }

    /// Changes a range of a block's bytes in place, as the arena's `write_with` does.
    #[inline(always)]
    pub fn write_with<E: Edit>(&mut self, block: Block, at: u64, size: u64, e: &E)
        requires readable { IsTrue (is_readable self.old.memory.state block) }
        requires range { at + size ≤ block.size }
        requires suits { E.suits e.now (bytes_from (image self.old.memory) (block.addr + at) size) }
        ensures edits { EditsBlock self.old.memory self.new.memory block at size (E.relates e.now) }
        ensures source { self.new.source ≡ self.old.source }
    {
        self.arena.write_with(block, at, size, e);
    }

    /// Moves a range of a block's bytes to another index of the block, in one memory move. The two ranges may overlap.
    #[inline(always)]
    pub fn move_within(&mut self, block: Block, from: u64, to: u64, size: u64)
        requires readable { IsTrue (is_readable self.old.memory.state block) }
        requires source_range { from + size ≤ block.size }
        requires target_range { to + size ≤ block.size }
        ensures writes { WritesBlock self.old.memory self.new.memory block to
            (bytes_from (image self.old.memory) (block.addr + from) size) }
        ensures source { self.new.source ≡ self.old.source }
    {
        self.arena.move_within(block, from, to, size);
    }

    /// Copies `size` bytes of a block, from the index `from` on, to the index `to` of another block of this arena or of
    /// the same block, in one memory move. The two ranges may overlap.
    pub fn copy_between(&mut self, source: Block, from: u64, target: Block, to: u64, size: u64)
        requires source { IsTrue (is_readable self.old.memory.state source) }
        requires target { IsTrue (is_readable self.old.memory.state target) }
        requires source_range { from + size ≤ source.size }
        requires target_range { to + size ≤ target.size }
        ensures writes { WritesBlock self.old.memory self.new.memory target to
            (bytes_from (image self.old.memory) (source.addr + from) size) }
        ensures source { self.new.source ≡ self.old.source }
    {
        self.arena.copy_between(source, from, target, to, size);
    }
}
