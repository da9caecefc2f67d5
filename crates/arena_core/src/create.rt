// How an arena is created.
ghost use Rattle.std.specs.Prelude.{◌≡◌, ◌+◌, ◌-◌, ◌%◌, ◌≤◌, [], ◌∷◌, Ok, IsTrue, IfSome, length, take};
ghost use Rattle.std.specs.Option.{option_map};
ghost use Rattle.arena_rules.specs.Rounding.{is_layout};
ghost use Rattle.arena_rules.specs.State.{is_min_align};
ghost use Rattle.arena_rules.specs.Creation.{empty_state, fixed_state, capacity_chunk};
ghost use Rattle.arena_store.specs.Memory.{Memory};
ghost use Rattle.arena_store.specs.Stored.{memory_of, IsStored};
ghost use Rattle.arena_core.specs.Creating.{uncounted_memory, Creates};

use crate::arena::Arena;
use arena_place::{CHUNK_ALIGN, CHUNK_FOOTER_SIZE, Layout, TYPICAL_PAGE_SIZE};
use arena_region::Region;
use arena_store::chunk::StoredChunk;
use arena_store::search::possible_size;
use arena_store::table::Table;
use arena_store::{ArenaErr, ChunkSource};
use std::alloc::Global;
use std::fmt;

/// Why no arena was created over a region.
#[derive(Drop)]
pub enum RawErr {
    /// Out of memory. The region is returned.
    OutOfMemory { region: Vec<u8> },
}

impl fmt::Debug for RawErr {
    fn fmt<W: fmt::Write>(&self, f: &mut fmt::Formatter<W>) -> fmt::Result {
        let RawErr::OutOfMemory { region } = self;
        f.debug_struct("OutOfMemory")
            .field("len", &region.len())
            .finish()
    }
}

impl Arena<1> {
    /// Creates an empty growing arena of least alignment 1. Doesn't allocate.
    pub fn new(alloc: Global) -> Arena<1>
        ensures { result ≡ uncounted_memory (empty_state 1) [] }
    {
        Arena::with_min_align(alloc)
    }

    /// Creates a growing arena of least alignment 1, with one chunk of at least `capacity` bytes, or none for 0.
    ///
    /// # Errors
    ///
    /// `AllocErr` if no chunk can be that large (then nothing was requested), or if the source refused the one request.
    pub fn with_capacity<C: ChunkSource>(
        alloc: Global,
        chunks: &mut C,
        capacity: u64,
    ) -> Result<Arena<1>, ArenaErr>
        ensures { Creates 1 capacity (C.source chunks.old) (C.source chunks.new) result }
    {
        Arena::with_min_align_and_capacity(alloc, chunks, capacity)
    }

    /// Creates an arena as `with_capacity` does: both return errors.
    ///
    /// # Errors
    ///
    /// See `with_capacity`.
    pub fn try_with_capacity<C: ChunkSource>(
        alloc: Global,
        chunks: &mut C,
        capacity: u64,
    ) -> Result<Arena<1>, ArenaErr>
        ensures { Creates 1 capacity (C.source chunks.old) (C.source chunks.new) result }
    {
        Arena::with_capacity(alloc, chunks, capacity)
    }
}

impl<const MIN_ALIGN: usize> Arena<MIN_ALIGN> {
    /// Creates an empty growing arena. Doesn't allocate.
    pub fn with_min_align(alloc: Global) -> Arena<MIN_ALIGN>
        requires { IsTrue (is_min_align MIN_ALIGN) }
        ensures { result ≡ uncounted_memory (empty_state MIN_ALIGN) [] }
    {
        Arena::over(alloc, StoredChunk::none(alloc), true)
    }

    /// Creates a growing arena with one chunk of at least `capacity` bytes, or with no chunk for 0.
    ///
    /// # Errors
    ///
    /// `AllocErr` if no chunk can be that large (then nothing was requested), or if the source refused the one request.
    pub fn with_min_align_and_capacity<C: ChunkSource>(
        alloc: Global,
        chunks: &mut C,
        capacity: u64,
    ) -> Result<Arena<MIN_ALIGN>, ArenaErr>
        requires { IsTrue (is_min_align MIN_ALIGN) }
        ensures { Creates MIN_ALIGN capacity (C.source chunks.old) (C.source chunks.new) result }
    {
        if capacity == 0 {
            return Ok(Arena::with_min_align(alloc));
        }
        let Some(size) = first_size(capacity, MIN_ALIGN as u64) else {
            return Err(ArenaErr::AllocErr { refused: 0 });
        };
        match chunks.request_region(size, CHUNK_ALIGN) {
            Some(bytes) => {
                let first = StoredChunk::unused(TYPICAL_PAGE_SIZE, bytes);
                Ok(Arena::over(alloc, first, true))
            }
            None => Err(ArenaErr::AllocErr { refused: 1 }),
        }
    }

    /// Creates an arena as `with_min_align_and_capacity` does: both return errors.
    ///
    /// # Errors
    ///
    /// See `with_min_align_and_capacity`.
    pub fn try_with_min_align_and_capacity<C: ChunkSource>(
        alloc: Global,
        chunks: &mut C,
        capacity: u64,
    ) -> Result<Arena<MIN_ALIGN>, ArenaErr>
        requires { IsTrue (is_min_align MIN_ALIGN) }
        ensures { Creates MIN_ALIGN capacity (C.source chunks.old) (C.source chunks.new) result }
    {
        Arena::with_min_align_and_capacity(alloc, chunks, capacity)
    }

    /// Creates a fixed arena with one chunk: the region except its last 48 bytes. The arena never asks a source. This
    /// allocates nothing and always returns `Ok`.
    pub fn from_raw_parts(alloc: Global, region: Vec<u8>) -> Result<Arena<MIN_ALIGN>, RawErr>
        requires min_align { IsTrue (is_min_align MIN_ALIGN) }
        requires units { length region.items % 16 ≡ 0 }
        requires room { 48 ≤ length region.items }
        ensures { let size = length region.items - 48 in
            result ≡ Ok (uncounted_memory (fixed_state MIN_ALIGN size) (take size region.items ∷ [])) }
    {
        Ok(Arena::from_region(alloc, Region::from_vec(region)))
    }

    /// Creates a fixed arena over a region, as `from_raw_parts` does. The region's memory may not be touched yet.
    pub fn from_region(alloc: Global, region: Region) -> Arena<MIN_ALIGN>
        requires min_align { IsTrue (is_min_align MIN_ALIGN) }
        requires units { length region.items % 16 ≡ 0 }
        requires room { 48 ≤ length region.items }
        ensures { let size = length region.items - 48 in
            result ≡ uncounted_memory (fixed_state MIN_ALIGN size) (take size region.items ∷ []) }
    {
        let mut bytes = region;
        bytes.truncate(bytes.len() - CHUNK_FOOTER_SIZE as usize);
        let only = StoredChunk::unused(TYPICAL_PAGE_SIZE, bytes);
        Arena::over(alloc, only, false)
    }

    // Returns an arena with this chunk alone, whose counts are 0.
    fn over(alloc: Global, newest: StoredChunk, is_growing: bool) -> Arena<MIN_ALIGN>
        requires { IsStored (memory_of MIN_ALIGN is_growing 0 0 0 newest []) newest [] }
        ensures { result ≡ memory_of MIN_ALIGN is_growing 0 0 0 newest [] }
    {
        Arena {
            newest,
            older: Table::new(alloc),
            is_growing,
            generation: 0,
            allocations: 0,
            reallocations: 0,
        }
    }
}

// Returns the data size of the one chunk that an arena of this capacity begins with.
fn first_size(capacity: u64, min_align: u64) -> Option<u64>
    requires { IsTrue (is_min_align min_align) }
    ensures value { option_map (λ size. (4096, size)) result ≡ capacity_chunk capacity min_align }
    ensures fits { IfSome result (λ size. IsTrue (is_layout (size + 48) 16)) }
{
    let layout = Layout::new(capacity, min_align)?;
    possible_size(TYPICAL_PAGE_SIZE, capacity, layout)
}
