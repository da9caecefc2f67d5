// The growth rule, as facts. A law is a call that does nothing: made in a body, it gives its facts there.
#![tactic(auto, unfolding(raw_vec::specs::Growth::fits, raw_vec::specs::Growth::amortised, raw_vec::specs::Growth::growth_to))]

ghost use Rattle.std.specs.Prelude.{◌≡◌, ℕ, ◌*◌, ◌^◌, ◌<◌, ◌≤◌, ◌⊎◌, max};
ghost use Rattle.raw_vec.specs.Growth.{amortised, growth_to};
ghost use Rattle.arena_items.specs.declared.room.Growth.{Growth};

mod compare;
mod growth;

pub use compare::{equality_law, hash_law, order_law, partial_equality_law};
pub use growth::{growth_costs, vector_costs};

/// When a growth does nothing, when it overflows, and what capacity it leads to otherwise. Amortised growth doubles if
/// twice the capacity fits and is enough, and otherwise takes what is required.
pub fn growth_rule()
    ensures stays { (size cap required wanted : ℕ) → required ≤ cap
        → growth_to size cap required wanted ≡ Growth.Stays }
    ensures overflows { (size cap required wanted : ℕ) → cap < required
        → (2 ^ 32 ≤ required) ⊎ (2 ^ 32 ≤ required * size)
        → growth_to size cap required wanted ≡ Growth.Overflows }
    ensures grows { (size cap required wanted : ℕ) → cap < required → required < 2 ^ 32
        → required * size < 2 ^ 32 → growth_to size cap required wanted ≡ Growth.GrowsTo wanted }
    ensures doubles { (size cap required : ℕ) → max (2 * cap) required < 2 ^ 32
        → max (2 * cap) required * size < 2 ^ 32 → amortised size cap required ≡ max (2 * cap) required }
    ensures required { (size cap required : ℕ)
        → (2 ^ 32 ≤ max (2 * cap) required) ⊎ (2 ^ 32 ≤ max (2 * cap) required * size)
        → amortised size cap required ≡ required }
{}
