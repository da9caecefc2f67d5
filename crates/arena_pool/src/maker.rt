// Where the sources of new arenas come from.
ghost use Rattle.std.specs.Prelude.{◌≡◌, None};
ghost use Rattle.arena_pool.specs.Kinds.{IsFresh};

use arena_chunks::{ChunkSource, MemoryChunks};
use std::alloc::Global;

/// Makes the source of chunks of each new arena.
pub trait ChunkMaker {
    /// The type of the sources.
    type Chunks: ChunkSource + Drop + Send;

    /// Makes a source that has refused nothing, and has recorded no request, if it records them.
    fn make(&mut self) -> Self::Chunks
        ensures { IsFresh (Self.Chunks.source result) };
}

/// Makes sources of memory, each with the same budget of bytes.
#[derive(Clone, Copy, Debug)]
pub struct MemoryMaker {
    alloc: Global,
    /// The budget of each source.
    pub budget: u64,
}

impl MemoryMaker {
    /// Returns a maker of sources of at most `budget` bytes each. Takes no memory.
    pub fn new(alloc: Global, budget: u64) -> MemoryMaker
        ensures { result.budget ≡ budget }
    {
        MemoryMaker { alloc, budget }
    }
}

impl ChunkMaker for MemoryMaker {
    type Chunks = MemoryChunks;

    fn make(&mut self) -> MemoryChunks
        ensures source { ⟦<MemoryChunks as ChunkSource>⟧.source result
            ≡ record { refusals = 0; asked = None } }
        ensures budget { result.left ≡ self.old.budget }
        ensures same { self.new ≡ self.old }
    {
        MemoryChunks::new(self.alloc, self.budget)
    }
}
