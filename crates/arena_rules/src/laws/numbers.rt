// Numbers: multiples, powers of two, and the sizes that are tried.
ghost use Rattle.std.specs.Prelude.{◌≡◌, ℕ, ◌/◌, ◌%◌, ◌^◌, ◌<◌, ◌≤◌, ◌↔◌, IsTrue, [], ◌∷◌};
ghost use Rattle.std.specs.Int.{IsPowerOfTwo};
ghost use Rattle.arena_rules.specs.Rounding.{down, up, is_power};
ghost use Rattle.arena_rules.specs.Search.{power_at_least, halves};

/// Rounding down gives the greatest multiple at or below a number, and rounding up the least at or above it.
#[tactic(auto, using(crate::proofs::RoundingLemmas::rounding_laws))]
pub fn rounding()
    ensures down_multiple { (n d : ℕ) → 0 < d → down n d % d ≡ 0 }
    ensures down_below { (n d : ℕ) → 0 < d → down n d ≤ n }
    ensures down_greatest { (n d m : ℕ) → 0 < d → m % d ≡ 0 → m ≤ n → m ≤ down n d }
    ensures up_multiple { (n d : ℕ) → 0 < d → up n d % d ≡ 0 }
    ensures up_above { (n d : ℕ) → 0 < d → n ≤ up n d }
    ensures up_least { (n d m : ℕ) → 0 < d → m % d ≡ 0 → n ≤ m → up n d ≤ m }
{}

/// For numbers of 64 bits the test finds exactly the powers of two, and doubling 1 as often as needed, at most 64
/// times, gives the least power of two at or above a number.
#[tactic(auto, using(crate::proofs::RoundingLemmas::power_tested, crate::proofs::SizeLemmas::power_laws))]
pub fn powers()
    ensures tested { (n : ℕ) → n < 2 ^ 64 → IsTrue (is_power n) ↔ IsPowerOfTwo n }
    ensures power { (n : ℕ) → n ≤ 2 ^ 64 → IsPowerOfTwo (power_at_least n) }
    ensures above { (n : ℕ) → n ≤ 2 ^ 64 → n ≤ power_at_least n }
    ensures least { (n p : ℕ) → n ≤ 2 ^ 64 → IsPowerOfTwo p → n ≤ p → power_at_least n ≤ p }
{}

/// The sizes that are tried start with a 64-bit number, and each is followed by its half, until one is below the least
/// size: the limit of 64 sizes cuts none off.
#[tactic(auto, using(crate::proofs::SearchLemmas::halves_more, crate::proofs::SearchLemmas::halves_none))]
pub fn tried_sizes()
    ensures goes_on { (n least : ℕ) → n < 2 ^ 64 → 0 < least → least ≤ n
        → halves 64 n least ≡ n ∷ halves 64 (n / 2) least }
    ensures ends { (n least : ℕ) → n < least → halves 64 n least ≡ [] }
{}
