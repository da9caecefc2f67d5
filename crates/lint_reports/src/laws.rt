// How many sources an input has, and how long they are.
ghost use Rattle.std.specs.Prelude.{ℕ, ◌+◌, ◌≤◌, List, length};
ghost use Rattle.std.specs.List.{AllByRecursion};
ghost use Rattle.lint_reports.specs.Sources.{sources};

/// An input has at most one source more than it has bytes, and none is longer than the input.
#[tactic(auto, using(crate::proofs::SizeLemmas::few, crate::proofs::SizeLemmas::short))]
pub fn sizes()
    ensures few { (bytes : List ℕ) → length (sources bytes) ≤ length bytes + 1 }
    ensures short { (bytes : List ℕ) → AllByRecursion (λ source. length source ≤ length bytes) (sources bytes) }
{}
