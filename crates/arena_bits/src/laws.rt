// What sets and walks over them are. Each law is a call that does nothing: made in a body, it gives its facts
// there.
ghost use Rattle.std.specs.Prelude.{◌≡◌, ℕ, ◌*◌, ◌<◌, ◌≤◌, List, length, false, IsTrue, Ok};
ghost use Rattle.std.specs.List.{All, Contains};
ghost use Rattle.std.specs.List.Sorted.{IsStrictlyIncreasing};
ghost use Rattle.arena_chunks.specs.Memory.{Memory};
ghost use Rattle.arena_chunks.specs.Source.{View};
ghost use Rattle.arena_bits.specs.Bits.{Set, below, bits_of, members};
ghost use Rattle.arena_bits.specs.Sets.{set_of, BecomesSet, PlacesSet};
ghost use Rattle.arena_bits.specs.declared.set.BitSet.{BitSet};

/// A walk gives only numbers of the set within its bounds, and all of them, in ascending order, so each comes once.
#[tactic(auto, using(crate::proofs::MemberLemmas::member_laws))]
pub fn walk_law()
    ensures given { (set : Set) (from to : ℕ)
        → All (λ n. (from ≤ n) × (n < to) × IsTrue (set n)) (members set from to) }
    ensures every { (set : Set) (from to n : ℕ) → from ≤ n → n < to → IsTrue (set n)
        → Contains (members set from to) n }
    ensures rises { (set : Set) (from to : ℕ) → IsStrictlyIncreasing (members set from to) }
{}

/// No number past the last word is in a set, so all of a set is below that.
#[tactic(auto, using(crate::proofs::WholeLemmas::bits_past, crate::proofs::WholeLemmas::all_below))]
pub fn limit_law()
    ensures past { (words : List ℕ) (n : ℕ) → 64 * length words ≤ n → bits_of words n ≡ false }
    ensures below { (memory : Memory) (s : BitSet) → below (64 * s.words.length) (set_of memory s)
        ≡ set_of memory s }
{}

/// Placing a set and then turning it into another is one call that places the other.
#[tactic(auto, using(crate::proofs::WholeLemmas::filled))]
pub fn filled_law()
    ensures { (old mid new : View) (bits : ℕ) (first set : Set) (s : BitSet)
        → PlacesSet old mid bits first (Ok s) → BecomesSet mid new s set → PlacesSet old new bits set (Ok s) }
{}
