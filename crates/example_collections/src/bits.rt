// Callers of bit sets. The proofs use the contracts of the calls and the laws alone.
ghost use Rattle.std.specs.Prelude.{◌≡◌, ◌*◌, ◌<◌, length, not};
ghost use Rattle.arena_chunks.specs.Frame.{AreBlocksApart};
ghost use Rattle.arena_bits.specs.Bits.{with_bit, members};
ghost use Rattle.arena_bits.specs.Sets.{IsSetIn, set_of, BecomesSet, PlacesSet};

use arena_bits::BitSet;
use arena_bits::laws::{filled_law, limit_law};
use arena_chunks::{Allocator, ChunkSource};
use arena_items::Grown;
use arena_items::laws::frame_law;

/// Adds a number to a set, and returns whether it is new there. Another set is unchanged.
pub fn insert_beside<C: ChunkSource>(
    a: &mut Allocator<C>,
    set: &mut BitSet,
    other: BitSet,
    bit: u64,
) -> bool
    requires held { IsSetIn a.old.memory set.old }
    requires within { bit < 64 * set.old.words.length }
    requires other { IsSetIn a.old.memory other }
    requires apart { AreBlocksApart other.words.block set.old.words.block }
    ensures new { result ≡ not (set_of a.old.memory set.old bit) }
    ensures becomes { BecomesSet a.old a.new set.old (with_bit (set_of a.old.memory set.old) bit) }
    ensures handle { set.new ≡ set.old }
    ensures held { IsSetIn a.new.memory other }
    ensures other { set_of a.new.memory other ≡ set_of a.old.memory other }
{
    frame_law::<BitSet>();
    let is_new = !set.has_bit(a, bit);
    set.set_bit(a, bit);
    is_new
}

/// Returns a new set with the numbers and the capacity of another. The two are disjoint in memory, so they can be
/// joined without a check.
///
/// # Errors
///
/// Those of `new_in`.
pub fn copied<C: ChunkSource>(a: &mut Allocator<C>, set: &BitSet) -> Grown<BitSet>
    requires { IsSetIn a.old.memory set.now }
    ensures { PlacesSet a.old a.new set.now.capacity (set_of a.old.memory set.now) result }
{
    frame_law::<BitSet>();
    limit_law();
    filled_law();
    let mut copy = BitSet::new_in(set.capacity, a)?;
    copy.union(a, set);
    Ok(copy)
}

/// Returns the number of elements that a set has below its capacity.
pub fn count<C: ChunkSource>(a: &Allocator<C>, set: &BitSet) -> usize
    requires { IsSetIn a.now.memory set.now }
    ensures { result ≡ length (members (set_of a.now.memory set.now) 0 set.now.capacity) }
{
    set.ones(a).count()
}
