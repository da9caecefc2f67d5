// When calls are starved.
ghost use Rattle.std.specs.Prelude.{ℕ, ◌≤◌};
ghost use Rattle.arena_rules.specs.State.{State};
ghost use Rattle.arena_rules.specs.Source.{Source};
ghost use Rattle.arena_rules.specs.Asking.{IsStarvedWithin};

/// Calls that are starved within a bound are starved within any larger one.
#[tactic(auto, using(arena_rules::proofs::AskingLemmas::asks_more))]
pub fn starved()
    ensures { (bytes more : ℕ) (old new : State) (before after : Source) → bytes ≤ more
        → IsStarvedWithin bytes old new before after → IsStarvedWithin more old new before after }
{}
