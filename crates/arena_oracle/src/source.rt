// Chunks from memory within limits: a budget, and numbers of requests that are refused.
ghost use Rattle.std.specs.Prelude.{◌≡◌, ◌<◌, ◌^◌, ◌-◌, ◌||◌, ◌==◌, not, IsTrue, length, take};
ghost use Rattle.arena_oracle.specs.Limits.{left_of, refusals_of};

use arena_chunks::ChunkSource;
use arena_region::Region;
use std::alloc::Global;

/// Chunks from memory, up to a budget of bytes, except for the requests whose numbers are listed, counted from 1: it
/// refuses those. Once memory has run out for a chunk or for the list of requests, it reports none.
#[derive(Drop)]
pub struct ListedChunks<'a> {
    alloc: Global,
    /// How many bytes all chunks together may have.
    pub budget: u64,
    /// The numbers of the requests that are refused, from 1.
    pub refuse: &'a [u64],
    /// How many bytes are left of the budget.
    pub left: u64,
    /// The requests so far, as size and alignment.
    pub requests: Vec<(u64, u64)>,
    /// Whether memory has run out.
    pub exhausted: bool,
    /// How many requests weren't granted, up to 2^64 - 1.
    pub refused: u64,
    /// Whether the last request was granted.
    pub granted: bool,
    pub ghost few: { length requests.items < 2 ^ 63 },
    pub ghost remains: { IsTrue (exhausted || left == left_of refuse.now 1 budget requests.items) },
    pub ghost refusals: { IsTrue (exhausted || refused == refusals_of refuse.now 1 budget requests.items) },
    pub ghost last: { IsTrue (not granted || exhausted
        || refused == refusals_of refuse.now 1 budget (take (length requests.items - 1) requests.items)) },
}

impl<'a> ListedChunks<'a> {
    ghost use Rattle.std.specs.Prelude.{◌+◌, ◌-◌, [], ◌∷◌, true, false, take};
    ghost use Rattle.arena_rules.specs.Causes.{TellsRequests, counted};
    ghost use Rattle.arena_oracle.specs.Limits.{is_allowed, limited, refusals_of, reported};

    /// Returns a source within these limits that has had no request. Doesn't allocate.
    pub fn new(alloc: Global, budget: u64, refuse: &'a [u64]) -> ListedChunks<'a>
        ensures { ⟦<ListedChunks<'a> as ChunkSource>⟧.source result ≡ limited budget refuse.now }
    {
        ListedChunks {
            alloc,
            budget,
            refuse,
            left: budget,
            requests: Vec::new(alloc),
            exhausted: false,
            refused: 0,
            granted: false,
        }
    }

    // Returns whether the limits allow the next request, for a chunk of this size.
    fn is_allowed(&self, size: u64) -> bool
        ensures { result ≡ is_allowed self.now.refuse.now (length self.now.requests.items + 1) self.now.left size }
    {
        let number = self.requests.len() as u64 + 1;
        size <= self.left && !self.refuse.contains(&number)
    }

    // Reports a request, and returns whether the limits allow it. If so, its bytes are taken from the budget.
    fn admit(&mut self, size: u64, align: u64) -> bool
        ensures granted { IsTrue result → self.new.refused ≡ self.old.refused }
        ensures refused { result ≡ false → self.new.refused ≡ counted self.old.refused 1 }
        ensures bounded { result ≡ false → self.new.refused < 2 ^ 64 }
        ensures reported { TellsRequests
            (reported self.old.exhausted self.old.budget self.old.refuse.now self.old.requests.items)
            (reported self.new.exhausted self.new.budget self.new.refuse.now self.new.requests.items)
            ((size, align) ∷ []) }
    {
        let allowed = self.is_allowed(size);
        if self.requests.push((size, align)).is_err() {
            self.run_out();
            return false;
        }
        self.granted = allowed;
        if allowed {
            self.left -= size;
        } else {
            self.refused = self.refused.saturating_add(1);
        }
        allowed
    }

    /// Returns how many requests there were.
    pub fn asked(&self) -> usize
        ensures { result ≡ length self.now.requests.items }
    {
        self.requests.len()
    }

    /// Returns whether the requests after the first `made`, of which `refused` weren't granted, end with the only one
    /// of them that was granted, or none was.
    pub fn ends_granted(&self, made: usize, refused: u64) -> bool
        ensures { IsTrue result → self.now.exhausted ≡ false → self.now.refused
            ≡ refusals_of self.now.refuse.now 1 self.now.budget (take (made + (self.now.refused - refused)) self.now.requests.items) }
    {
        let most = (made as u64).saturating_add(self.refused.saturating_sub(refused));
        let len = self.requests.len() as u64;
        len == most || (self.granted && len == most.saturating_add(1))
    }

    // Refuses a request, since memory has run out.
    fn run_out(&mut self)
        ensures refused { self.new.refused ≡ counted self.old.refused 1 }
        ensures bounded { self.new.refused < 2 ^ 64 }
        ensures exhausted { self.new.exhausted ≡ true }
    {
        self.exhausted = true;
        self.granted = false;
        self.refused = self.refused.saturating_add(1);
    }
}

impl<'a> ChunkSource for ListedChunks<'a> {
    ghost use Rattle.arena_oracle.specs.Limits.{reported};

    ghost source = { λ c. record {
      refusals = c.refused;
      asked = reported c.exhausted c.budget c.refuse.now c.requests.items;
    } };

    fn request(&mut self, size: u64, align: u64) -> Option<Vec<u8>> {
        if !self.admit(size, align) {
            return None;
        }
        let Ok(chunk) = Vec::from_elem(self.alloc, 0u8, size as usize) else {
            self.run_out();
            return None;
        };
        Some(chunk)
    }

    fn request_region(&mut self, size: u64, align: u64) -> Option<Region> {
        if !self.admit(size, align) {
            return None;
        }
        let Ok(chunk) = Region::zeros(self.alloc, size as usize) else {
            self.run_out();
            return None;
        };
        Some(chunk)
    }
}
