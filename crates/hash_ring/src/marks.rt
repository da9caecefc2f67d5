// Marks: the control bytes before a table's slots, one for each. The mark of a free slot is 0. Otherwise its high half
// is the pair's probe distance, from its home to the slot, plus 1, at most 15, and its low half is the top four bits of
// the hash.

ghost use Rattle.std.specs.Prelude.{◌≡◌, ℕ, ◌+◌, ◌/◌, ◌*◌, ◌%◌, ◌^◌, ◌<◌};
ghost use Rattle.std.specs.Int.{IsPowerOfTwo};
ghost use Rattle.hash_ring.specs.Slots.{spot};
ghost use Rattle.hash_ring.specs.Marks.{home_of, mark_of, IsRing};

/// The least mark that doesn't give the distance, which is then at least 14.
pub const FAR: u8 = 0xf0;

/// The least mark of a pair away from home. Lower marks are of free slots and of pairs at home.
pub const AWAY: u8 = 0x20;

/// Where the search for a content ended.
#[derive(Clone, Copy)]
pub enum Spot {
    /// The search ended at the slot that has the content.
    Taken {
        /// The slot.
        at: u64,
    },
    /// The search ended where the content would go.
    Open {
        /// The slot; exact if `mark` is below `FAR`.
        at: u64,
        /// The mark that a pair with this content would have there.
        mark: u8,
    },
}

/// Returns the mark of a pair with this hash at its home.
#[inline]
pub fn home_mark(hash: u64) -> u8
    ensures { result ≡ mark_of hash 0 }
{
    0x10 + (hash >> 60) as u8
}

/// Returns the mark of the same pair one slot farther from its home.
#[inline]
pub fn farther(mark: u8) -> u8
    ensures { (hash distance : ℕ) → mark ≡ mark_of hash distance → result ≡ mark_of hash (distance + 1) }
{
    if mark < FAR { mark + 0x10 } else { mark }
}

/// Returns the least mark of pairs as far from home as one with this mark.
#[inline]
pub fn least(mark: u8) -> u8
    ensures { result ≡ mark / 16 * 16 }
{
    mark / 16 * 16
}

/// Returns the mark of a pair with this hash at this distance from its home.
#[inline]
pub fn mark_of(hash: u64, distance: u64) -> u8
    requires { distance < 2 ^ 33 }
    ensures { result ≡ mark_of hash distance }
{
    (distance + 1).min(15) as u8 * 16 + (hash >> 60) as u8
}

/// Returns the slot of the ring for a number: the number modulo the number of slots.
#[tactic(auto, using(crate::proofs::Homes::ring_laws))]
#[inline]
pub fn ring(slots: u64, at: u64) -> u64
    requires { IsPowerOfTwo slots }
    ensures { result ≡ at % slots }
{
    at & (slots - 1)
}

/// Returns the probe distance of a slot: how far it is from the home of a hash.
#[tactic(auto, using(crate::proofs::Homes::ring_laws))]
#[inline]
pub fn distance(slots: u64, hash: u64, at: u64) -> u64
    requires ring { IsRing slots }
    requires at { at < slots }
    ensures less { result < slots }
    ensures place { at ≡ spot slots (home_of slots hash) result }
{
    ring(slots, at.wrapping_sub(hash))
}
