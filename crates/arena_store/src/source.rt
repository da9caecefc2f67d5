// Where an arena's chunks come from.
ghost use Rattle.std.specs.Prelude.{◌≡◌, ℕ, ◌+◌, ◌-◌, ◌^◌, ◌<◌, ◌≤◌, List, [], ◌∷◌, Option, None, IsTrue, IsNone, IfSome, IfNone, OnSome, IfOk, replicate};
ghost use Rattle.arena_rules.specs.Rounding.{is_layout};
ghost use Rattle.arena_rules.specs.Causes.{counted, TellsRequests};
ghost use Rattle.arena_rules.specs.Source.{Source};

use arena_region::Region;
use std::alloc::{AllocError, Global};

/// A source of chunks. It may refuse requests, and counts the refusals: a granted request leaves the count, and a
/// refused one adds 1, up to 2^64 - 1.
pub trait ChunkSource {
    // What contracts see of the source: how often it has refused, and its requests, if it reports them.
    ghost source: { Self → Source };

    /// Returns a chunk of `size` zeros for an address that is a multiple of `align`, or `None`, which is a refusal.
    /// `size` plus 48 and `align` must be a valid layout.
    fn request(&mut self, size: u64, align: u64) -> Option<Vec<u8>>
        requires { IsTrue (is_layout (size + 48) align) }
        ensures zeros { IfSome result (λ chunk. chunk.items ≡ replicate size 0) }
        ensures granted { OnSome result ((source self.new).refusals ≡ (source self.old).refusals) }
        ensures refused { IfNone result ((source self.new).refusals ≡ counted (source self.old).refusals 1) }
        ensures bounded { IfNone result ((source self.new).refusals < 2 ^ 64) }
        ensures told { TellsRequests (source self.old).asked (source self.new).asked ((size, align) ∷ []) };

    /// Requests a chunk as `request` does, and returns it as a region. A source that can grant memory that wasn't
    /// touched yet does so here.
    fn request_region(&mut self, size: u64, align: u64) -> Option<Region>
        requires { IsTrue (is_layout (size + 48) align) }
        ensures zeros { IfSome result (λ chunk. chunk.items ≡ replicate size 0) }
        ensures granted { OnSome result ((source self.new).refusals ≡ (source self.old).refusals) }
        ensures refused { IfNone result ((source self.new).refusals ≡ counted (source self.old).refusals 1) }
        ensures bounded { IfNone result ((source self.new).refusals < 2 ^ 64) }
        ensures told { TellsRequests (source self.old).asked (source self.new).asked ((size, align) ∷ []) }
    {
        let chunk = self.request(size, align)?;
        Some(Region::from_vec(chunk))
    }
}

/// Chunks from memory, up to a budget of bytes. It doesn't report its requests. Chunks that an arena frees don't return
/// to the budget.
#[derive(Drop)]
pub struct MemoryChunks {
    alloc: Global,
    /// How many bytes are left of the budget.
    pub left: u64,
    /// How many requests were refused, up to 2^64 - 1.
    pub refused: u64,
}

impl MemoryChunks {
    /// Returns a source of at most `budget` bytes. Doesn't allocate.
    pub fn new(alloc: Global, budget: u64) -> MemoryChunks
        ensures source { ⟦<MemoryChunks as ChunkSource>⟧.source result
            ≡ record { refusals = 0; asked = None } }
        ensures budget { result.left ≡ budget }
    {
        MemoryChunks {
            alloc,
            left: budget,
            refused: 0,
        }
    }

    // Takes a chunk's bytes from the budget.
    fn take(&mut self, size: u64)
        requires { size ≤ self.old.left }
        ensures { self.new ≡ record self.old { left = self.old.left - size } }
    {
        self.left -= size;
    }

    // Counts a refusal.
    fn refuse(&mut self)
        ensures counted { self.new ≡ record self.old { refused = counted self.old.refused 1 } }
        ensures bounded { self.new.refused < 2 ^ 64 }
    {
        self.refused = self.refused.saturating_add(1);
    }
}

impl ChunkSource for MemoryChunks {
    ghost source = { λ c. record { refusals = c.refused; asked = None } };

    fn request(&mut self, size: u64, align: u64) -> Option<Vec<u8>>
        ensures zeros { IfSome result (λ chunk. chunk.items ≡ replicate size 0) }
        ensures granted { OnSome result (self.new.refused ≡ self.old.refused) }
        ensures refused { IfNone result (self.new.refused ≡ counted self.old.refused 1) }
        ensures bounded { IfNone result (self.new.refused < 2 ^ 64) }
        ensures budget { self.old.left < size → IsNone result }
        ensures within { OnSome result (self.new.left + size ≡ self.old.left) }
        ensures kept { IfNone result (self.new.left ≡ self.old.left) }
    {
        let _ = align;
        if size <= self.left
            && let Ok(chunk) = zeros(self.alloc, size as usize)
        {
            self.take(size);
            return Some(chunk);
        }
        self.refuse();
        None
    }

    fn request_region(&mut self, size: u64, align: u64) -> Option<Region>
        ensures zeros { IfSome result (λ chunk. chunk.items ≡ replicate size 0) }
        ensures granted { OnSome result (self.new.refused ≡ self.old.refused) }
        ensures refused { IfNone result (self.new.refused ≡ counted self.old.refused 1) }
        ensures bounded { IfNone result (self.new.refused < 2 ^ 64) }
        ensures budget { self.old.left < size → IsNone result }
        ensures within { OnSome result (self.new.left + size ≡ self.old.left) }
        ensures kept { IfNone result (self.new.left ≡ self.old.left) }
    {
        // The bytes are a region, and addresses are numbers of the arena's own: any alignment can be had.
        let _ = align;
        if size <= self.left
            && let Ok(chunk) = Region::zeros(self.alloc, size as usize)
        {
            self.take(size);
            return Some(chunk);
        }
        self.refuse();
        None
    }
}

// Returns a vector of zeros.
pub(crate) fn zeros(alloc: Global, size: usize) -> Result<Vec<u8>, AllocError>
    ensures { IfOk result (λ v. v.items ≡ replicate size 0) }
{
    let mut vec = Vec::new(alloc);
    vec.resize(size, 0)?;
    Ok(vec)
}
