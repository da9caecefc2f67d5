// What consecutive calls ask for, and why they are refused.
ghost use Rattle.std.specs.Prelude.{◌≡◌, ℕ, ◌+◌, ◌^◌, ◌≤◌, true};
ghost use Rattle.arena_rules.specs.State.{State, top_of};
ghost use Rattle.arena_rules.specs.Source.{Source};
ghost use Rattle.arena_rules.specs.Asking.{HasGrown, AsksWithin, IsRefusedBySource, IsStarved};

/// Without a call nothing is asked for. What stays within a number of bytes stays within a larger one, and two calls
/// within a bound are together within it.
#[tactic(auto, using(crate::proofs::AskingLemmas::asked_laws))]
pub fn asked_together()
    ensures nothing { (bytes : ℕ) (state : State) (source : Source) → AsksWithin bytes state state source source }
    ensures more { (few many : ℕ) (old new : State) (before after : Source) → few ≤ many
        → AsksWithin few old new before after → AsksWithin many old new before after }
    ensures then { (bytes : ℕ) (old mid new : State) (before between after : Source)
        → AsksWithin bytes old mid before between → AsksWithin bytes mid new between after
        → AsksWithin bytes old new before after }
{}

/// A call is starved if its source refused whenever the newest data end was at or below `far`. A starved call is also
/// starved for any lower limit. With earlier calls counted in, the limit is lower by 2^61, and a refusal in the last
/// call is one of all of them together.
#[tactic(auto, using(crate::proofs::AskingLemmas::starved_laws))]
pub fn starved_together()
    ensures by { (far : ℕ) (old new : State) (before after : Source) → old.is_growing ≡ true
        → (top_of old.chunks ≤ far → IsRefusedBySource before after) → IsStarved far old new before after }
    ensures nearer { (far near : ℕ) (old new : State) (before after : Source) → near ≤ far
        → IsStarved far old new before after → IsStarved near old new before after }
    ensures refused { (bytes : ℕ) (old mid : State) (before between after : Source)
        → AsksWithin bytes old mid before between → IsRefusedBySource between after
        → IsRefusedBySource before after }
    ensures after { (bytes far : ℕ) (old mid new : State) (before between after : Source) → old.is_growing ≡ true
        → AsksWithin bytes old mid before between → HasGrown mid new
        → IsStarved (far + 2 ^ 61) mid new between after → IsStarved far old new before after }
{}
