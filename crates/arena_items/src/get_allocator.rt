// Types that have an allocator.
ghost use Rattle.std.specs.Prelude.{◌≡◌, refl};
ghost use Rattle.std.specs.Borrow.{Lends, sem};
ghost use Rattle.arena_chunks.specs.Source.{View};
ghost use Rattle.arena_chunks.specs.contracts.allocator.Allocator.{the_row};

use arena_chunks::{Allocator, ChunkSource};

/// A type that has an allocator, and lends it.
pub trait GetAllocator {
    type Chunks: ChunkSource;

    // The allocator, and the value with another one in its place.
    ghost lent: { Self → View };

    ghost with_lent: { Self → View → Self };

    /// Returns the allocator. Code that is generic over the type calls `allocator_of` instead.
    fn allocator(&mut self) -> &mut Allocator<Self::Chunks>
        ensures* writes_back { sem 𝓛 (Lends Self.row (the_row Self.Chunks.row Self.Chunks.ChunkSource)
            self.entry result (with_lent self.entry.now)) }
        ensures shows { result.now ≡ lent self.entry.now };

    // The allocator that is put in place is the one that is read back.
    ghost lent_back: { (s : Self) (a : View) → lent (with_lent s a) ≡ a };

    // Lending touches nothing else: putting back what was there changes nothing, and only the last one put back counts.
    ghost rest_stays: { (s : Self) → with_lent s (lent s) ≡ s };

    ghost last_counts: { (s : Self) (a c : View) → with_lent (with_lent s a) c ≡ with_lent s c };
}

impl<C: ChunkSource> GetAllocator for Allocator<C> {
    type Chunks = C;

    ghost lent = { λ a. a };

    ghost with_lent = { λ s a. a };

    ghost lent_back = { λ s a. refl };

    ghost rest_stays = { λ s. refl };

    ghost last_counts = { λ s a c. refl };

    fn allocator(&mut self) -> &mut Allocator<C> {
        self
    }
}

/// Returns the allocator of a value of any type that has one. Generic code calls this, since its contract says what
/// becomes of the value.
pub fn allocator_of<A: GetAllocator>(a: &mut A) -> &mut Allocator<A::Chunks>
    ensures* writes_back { sem 𝓛 (Lends A.row (the_row A.Chunks.row A.Chunks.ChunkSource)
        a.entry result (A.with_lent a.entry.now)) }
    ensures shows { result.now ≡ A.lent a.entry.now }
{
    a.allocator()
}
