// A source that refuses chosen requests, for tests.
ghost use Rattle.std.specs.Prelude.{◌≡◌, ℕ, ◌+◌, ◌-◌, ◌^◌, ◌<◌, List, [], ◌∷◌, Option, Some, None, IsTrue, IsSome, IsNone, IfSome, IfNone, OnSome, false, replicate};
ghost use Rattle.std.specs.List.{Contains};
ghost use Rattle.arena_rules.specs.Causes.{counted, TellsRequests};
ghost use Rattle.arena_store.specs.Telling.{told, Notes};

use crate::ChunkSource;
use crate::source::zeros;
use arena_region::Region;
use std::alloc::Global;

/// Chunks from memory, except for the requests whose numbers are listed, counted from 1: it refuses those. It reports
/// its requests. If there is no memory to note a request, it refuses it and reports no requests from then on.
#[derive(Drop)]
pub struct RefusingChunks {
    alloc: Global,
    /// The numbers of the requests that are refused, from 1.
    pub refuse: Vec<u64>,
    /// How many requests there were, up to 2^64 - 1.
    pub count: u64,
    /// How many requests were refused, up to 2^64 - 1.
    pub refused: u64,
    /// All requests so far, as size and alignment, or `None` if one couldn't be noted.
    pub notes: Option<Vec<(u64, u64)>>,
}

impl RefusingChunks {
    /// Returns a source that refuses the listed requests, and has had none. Doesn't allocate.
    pub fn new(alloc: Global, refuse: Vec<u64>) -> RefusingChunks
        ensures source { ⟦<RefusingChunks as ChunkSource>⟧.source result
            ≡ record { refusals = 0; asked = Some [] } }
        ensures refuse { result.refuse ≡ refuse }
        ensures count { result.count ≡ 0 }
    {
        RefusingChunks {
            alloc,
            refuse,
            count: 0,
            refused: 0,
            notes: Some(Vec::new(alloc)),
        }
    }

    /// Returns all requests so far, as size and alignment, or `None` if one couldn't be noted.
    pub fn requests(&self) -> Option<&[(u64, u64)]>
        ensures told { IfSome result (λ all. told self.now.notes ≡ Some all.now) }
        ensures untold { IfNone result (self.now.notes ≡ None) }
    {
        match &self.notes {
            Some(notes) => Some(notes.as_slice()),
            None => None,
        }
    }

    // Notes a request, and returns whether to serve it.
    #[tactic(auto, using(crate::proofs::TellingLemmas::notes_tell))]
    fn notes_and_serves(&mut self, size: u64, align: u64) -> bool
        ensures refused { self.new.refused ≡ self.old.refused }
        ensures notes { Notes self.old.notes self.new.notes (size, align) }
        ensures told { TellsRequests (told self.old.notes) (told self.new.notes) ((size, align) ∷ []) }
        ensures listed { Contains self.old.refuse.items (counted self.old.count 1) → result ≡ false }
        ensures noted { IsTrue result → IsSome self.old.notes → IsSome self.new.notes }
        ensures count { self.new.count ≡ counted self.old.count 1 }
        ensures refuse { self.new.refuse ≡ self.old.refuse }
    {
        self.count = self.count.saturating_add(1);
        if let Some(mut notes) = self.notes.take() {
            if notes.push((size, align)).is_err() {
                return false;
            }
            self.notes = Some(notes);
        }
        !self.refuse.contains(&self.count)
    }
}

impl ChunkSource for RefusingChunks {
    ghost source = { λ c. record { refusals = c.refused; asked = told c.notes } };

    fn request(&mut self, size: u64, align: u64) -> Option<Vec<u8>>
        ensures zeros { IfSome result (λ chunk. chunk.items ≡ replicate size 0) }
        ensures granted { OnSome result (self.new.refused ≡ self.old.refused) }
        ensures refused { IfNone result (self.new.refused ≡ counted self.old.refused 1) }
        ensures bounded { IfNone result (self.new.refused < 2 ^ 64) }
        ensures told { TellsRequests (told self.old.notes) (told self.new.notes) ((size, align) ∷ []) }
        // The request is noted; if there is no room for it, it is refused.
        ensures notes { Notes self.old.notes self.new.notes (size, align) }
        ensures noted { OnSome result (IsSome self.old.notes → IsSome self.new.notes) }
        ensures listed { Contains self.old.refuse.items (counted self.old.count 1) → IsNone result }
        ensures count { self.new.count ≡ counted self.old.count 1 }
        ensures refuse { self.new.refuse ≡ self.old.refuse }
    {
        if self.notes_and_serves(size, align)
            && let Ok(chunk) = zeros(self.alloc, size as usize)
        {
            return Some(chunk);
        }
        self.refused = self.refused.saturating_add(1);
        None
    }

    fn request_region(&mut self, size: u64, align: u64) -> Option<Region>
        ensures zeros { IfSome result (λ chunk. chunk.items ≡ replicate size 0) }
        ensures granted { OnSome result (self.new.refused ≡ self.old.refused) }
        ensures refused { IfNone result (self.new.refused ≡ counted self.old.refused 1) }
        ensures bounded { IfNone result (self.new.refused < 2 ^ 64) }
        ensures told { TellsRequests (told self.old.notes) (told self.new.notes) ((size, align) ∷ []) }
        // The request is noted; if there is no room for it, it is refused.
        ensures notes { Notes self.old.notes self.new.notes (size, align) }
        ensures noted { OnSome result (IsSome self.old.notes → IsSome self.new.notes) }
        ensures listed { Contains self.old.refuse.items (counted self.old.count 1) → IsNone result }
        ensures count { self.new.count ≡ counted self.old.count 1 }
        ensures refuse { self.new.refuse ≡ self.old.refuse }
    {
        if self.notes_and_serves(size, align)
            && let Ok(chunk) = Region::zeros(self.alloc, size as usize)
        {
            return Some(chunk);
        }
        self.refused = self.refused.saturating_add(1);
        None
    }
}
