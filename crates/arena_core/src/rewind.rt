// Going back to a marked state.
ghost use Rattle.std.specs.Prelude.{◌≡◌, ◌%◌, ◌≤◌, ◌<◌, IsTrue, length, true};

use crate::arena::Arena;
use arena_store::chunk::{NOWHERE, StoredChunk};

/// A mark of an arena's state: its generation, how many chunks there were, and the cursor.
#[derive(Clone, Copy, PartialEq, Eq, Debug, Drop)]
pub struct Checkpoint {
    /// The arena's generation.
    pub generation: u64,
    /// How many chunks there were.
    pub chunks: u64,
    /// The cursor, an address; 16 without a chunk.
    pub addr: u64,
}

impl<const MIN_ALIGN: usize> Arena<MIN_ALIGN> {
    ghost use Rattle.arena_rules.specs.State.{IsValid, start_of, top_of};
    ghost use Rattle.arena_rules.specs.Back.{back, first_chunks};
    ghost use Rattle.arena_store.specs.Memory.{Memory};
    ghost use Rattle.arena_core.specs.Checkpoints.{checkpoint_of, mark_at, is_accepted, with_first, with_raised, sent_back, GoesBack};

    /// Returns a mark of the present state. Doesn't allocate.
    pub fn checkpoint(&self) -> Checkpoint
        ensures { result ≡ checkpoint_of self.now.state }
    {
        Checkpoint {
            generation: self.generation,
            chunks: self.chunk_count(),
            addr: self.newest.cursor,
        }
    }

    /// Returns whether the arena can go back to a mark: the arena is of the mark's generation and has at least as many
    /// chunks, and the mark's cursor is in the last of those, at a multiple of the least alignment. A mark without a
    /// chunk is accepted if the arena grows.
    pub fn accepts(&self, c: Checkpoint) -> bool
        ensures { result ≡ is_accepted c self.now.state }
    {
        if c.generation != self.generation {
            return false;
        }
        if c.chunks == 0 {
            return c.addr == NOWHERE && self.is_growing;
        }
        if c.chunks > self.chunk_count() {
            return false;
        }
        let (start, end) = self.ends_of(c.chunks);
        start <= c.addr && c.addr <= end && c.addr % MIN_ALIGN as u64 == 0
    }

    // Returns the base and the data end of the last of the n oldest chunks.
    fn ends_of(&self, n: u64) -> (u64, u64)
        requires some { 0 < n }
        requires within { n ≤ length self.now.state.chunks }
        ensures start { result.0 ≡ start_of (first_chunks n self.now.state.chunks) }
        ensures top { result.1 ≡ top_of (first_chunks n self.now.state.chunks) }
    {
        if n > self.older.len() as u64 {
            return (self.newest.base, self.newest.base + self.newest.size());
        }
        self.older.ends(n as usize - 1)
    }

    /// Goes back to a mark: newer chunks are freed, and so are blocks that were placed since. What stays in use keeps
    /// its bytes. Doesn't allocate.
    pub fn rewind(&mut self, c: Checkpoint)
        requires { IsTrue (is_accepted c self.old.state) }
        ensures memory { self.new ≡ sent_back c self.old }
        ensures back { GoesBack self.old self.new }
    {
        self.keep_first(c.chunks);
        self.raise(c.addr);
    }

    // Returns the number of chunks.
    fn chunk_count(&self) -> u64
        ensures { result ≡ length self.now.state.chunks }
    {
        if self.newest.base == NOWHERE {
            return 0;
        }
        self.older.len() as u64 + 1
    }

    // Frees all but the n oldest chunks.
    fn keep_first(&mut self, n: u64)
        requires within { n ≤ length self.old.state.chunks }
        requires growing { n ≡ 0 → self.old.state.is_growing ≡ true }
        ensures memory { self.new ≡ with_first n self.old }
        ensures entry { IsValid self.old.state }
        ensures valid { IsValid self.new.state }
        ensures paired { length self.old.bytes ≡ length self.old.state.chunks }
    {
        let count = self.chunk_count();
        if n == count {
            return;
        }
        if n == 0 {
            self.newest = StoredChunk::none(self.older.alloc());
            self.older.clear();
            return;
        }
        self.newest = self.older.back_to(n as usize);
    }

    // Moves the newest cursor up to an address, if it is below.
    fn raise(&mut self, addr: u64)
        requires high { addr ≤ top_of self.old.state.chunks }
        requires aligned { addr % self.old.state.min_align ≡ 0 }
        ensures memory { self.new ≡ with_raised addr self.old }
        ensures valid { IsValid self.new.state }
    {
        self.newest.cursor = self.newest.cursor.max(addr);
    }
}
