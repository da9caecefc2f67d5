// The arena.
ghost use Rattle.std.specs.Prelude.{◌≡◌, ◌≢◌, ◌-◌, ◌%◌, ◌≤◌, []};

use arena_place::CHUNK_FOOTER_SIZE;
use arena_rules::Place;
use arena_store::Block;
use arena_store::chunk::{NOWHERE, StoredChunk};
use arena_store::table::Table;
use std::marker::Model;

/// A bump arena, which places blocks downwards in its newest chunk. The least alignment of its blocks is MIN_ALIGN: 1,
/// 2, 4, 8 or 16. By its invariant its state is valid.
#[derive(Drop)]
pub struct Arena<const MIN_ALIGN: usize> {
    // The newest chunk, in which blocks are placed. A base of 16 means that there is none, and no older ones either.
    pub(crate) newest: StoredChunk,
    // The other chunks.
    pub(crate) older: Table,
    // Whether more chunks are asked for.
    pub(crate) is_growing: bool,
    // How often the arena was reset or its cursor was set, up to 2^64 - 1.
    pub(crate) generation: u64,
    // The statistics.
    pub(crate) allocations: u64,
    pub(crate) reallocations: u64,
}

impl<const MIN_ALIGN: usize> Model for Arena<MIN_ALIGN> {
    ghost use Rattle.arena_store.specs.Memory.{Memory};

    ghost Value = { Memory };

    ghost use Rattle.arena_store.specs.Stored.{memory_of, IsStored};

    ghost view = { λ a. memory_of MIN_ALIGN a.is_growing a.generation a.allocations a.reallocations a.newest
        a.older.items };

    ghost invariant = { λ a. IsStored (memory_of MIN_ALIGN a.is_growing a.generation a.allocations
        a.reallocations a.newest a.older.items) a.newest a.older.items };
}

impl<const MIN_ALIGN: usize> Arena<MIN_ALIGN> {
    ghost use Rattle.arena_rules.specs.State.{IsValid, start_of, cursor_of, top_of, used_bytes, allocated_bytes};
    ghost use Rattle.arena_rules.specs.Moves.{set_cursor};
    ghost use Rattle.arena_store.specs.Memory.{Memory, end_of};
    ghost use Rattle.arena_store.specs.Memory.{block_at};

    /// Returns how many bytes of the chunks are used.
    pub fn used_bytes(&self) -> u64
        ensures value { result ≡ used_bytes self.now.state }
        ensures valid { IsValid self.now.state }
    {
        self.newest.used() + self.older.used()
    }

    /// Returns how many bytes the chunks have.
    pub fn allocated_bytes(&self) -> u64
        ensures value { result ≡ allocated_bytes self.now.state }
        ensures valid { IsValid self.now.state }
    {
        self.newest.size() + self.older.size()
    }

    /// Returns how many bytes of the newest chunk are unused: all that can still be placed in it.
    pub fn chunk_capacity(&self) -> u64
        ensures { result ≡ cursor_of self.now.state.chunks - start_of self.now.state.chunks }
    {
        self.newest.cursor - self.newest.base
    }

    /// Returns the data end of the newest chunk, one past its last byte; 16 without a chunk.
    pub fn data_end(&self) -> u64
        ensures { result ≡ top_of self.now.state.chunks }
    {
        self.newest.base + self.newest.size()
    }

    /// Returns the address 48 past the newest data end, at or above which the next chunk begins; 16 without a chunk.
    pub fn end(&self) -> u64
        ensures { result ≡ end_of self.now.state.chunks }
    {
        match self.newest.end() {
            Some(end) => end + CHUNK_FOOTER_SIZE,
            None => NOWHERE,
        }
    }

    /// Returns MIN_ALIGN, in bytes.
    pub fn min_align(&self) -> u64
        ensures value { result ≡ MIN_ALIGN }
        ensures state { result ≡ self.now.state.min_align }
        ensures valid { IsValid self.now.state }
    {
        // For the proof: a use of a field makes the invariant known.
        let _ = &self.newest;
        MIN_ALIGN as u64
    }

    /// Returns whether the arena asks its source for more chunks.
    pub fn is_growing(&self) -> bool
        ensures { result ≡ self.now.state.is_growing }
    {
        self.is_growing
    }

    /// Returns how many blocks were placed, and how many were reallocated, since the arena was created or reset, each
    /// up to 2^64 - 1. A reallocation is a resize that grows a block in place, moves it up as it shrinks, or allocates
    /// it again, which isn't counted as a placed block too. A shrink that leaves the block where it is isn't counted.
    pub fn get_allocation_stats(&self) -> (u64, u64)
        ensures { result ≡ (self.now.statistics.allocations, self.now.statistics.reallocations) }
    {
        (self.allocations, self.reallocations)
    }

    /// Moves the cursor of the newest chunk, whatever blocks are there. Blocks placed before aren't known to be
    /// readable afterwards: the generation rises, up to 2^64 - 1.
    pub fn set_cursor(&mut self, addr: u64)
        requires chunk { self.old.state.chunks ≢ [] }
        requires low { start_of self.old.state.chunks ≤ addr }
        requires high { addr ≤ top_of self.old.state.chunks }
        requires aligned { addr % self.old.state.min_align ≡ 0 }
        ensures memory { self.new ≡ record {
          state = set_cursor addr self.old.state;
          statistics = self.old.statistics;
          bytes = self.old.bytes;
        } }
        ensures valid { IsValid self.new.state }
    {
        self.newest.set_cursor(addr);
        self.generation = self.generation.saturating_add(1);
    }

    /// Does nothing. A call makes the facts of its contract known, which hold for every arena.
    #[inline(always)]
    pub fn known(&self)
        ensures valid { IsValid self.now.state }
        ensures min_align { self.now.state.min_align ≡ MIN_ALIGN }
    {
        let _ = &self.newest;
    }

    /// Returns the newest cursor. A call makes the invariant known.
    pub fn cursor(&self) -> u64
        ensures value { result ≡ cursor_of self.now.state.chunks }
        ensures valid { IsValid self.now.state }
        ensures min_align { self.now.state.min_align ≡ MIN_ALIGN }
    {
        self.newest.cursor
    }

    /// Returns the generation that blocks are placed in.
    pub fn generation(&self) -> u64
        ensures { result ≡ self.now.state.generation }
    {
        self.generation
    }

    /// Returns the block at a place, of the arena's generation.
    pub fn block_at(&self, place: Place) -> Block
        ensures { result ≡ block_at self.now.state.generation place }
    {
        Block {
            generation: self.generation,
            addr: place.addr,
            size: place.size,
            align: place.align,
        }
    }
}
