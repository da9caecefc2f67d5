// Laws of the texts of scripts and outcomes.
ghost use Rattle.std.specs.Prelude.{◌≡◌, ℕ, List, map, Result};
ghost use Rattle.std.specs.List.{AllByRecursion};
ghost use Rattle.script_rules.specs.Objects.{Objects, AreObjects};
ghost use Rattle.script_rules.specs.Machine.{run_from};
ghost use Rattle.script_rules.specs.Grammar.{ScriptsOf};
ghost use Rattle.script_rules.specs.Outcomes.{HasBytes, HaveBytes, told, text_of_outcomes};
ghost use Rattle.script_rules.specs.declared.commands.Command.{Command};
ghost use Rattle.script_rules.specs.declared.outcome.Outcome.{Outcome};

/// Two lists of outcomes with the same text differ at most in the bytes used, which aren't printed. The bytes of
/// replies must be from 0 to 255, and printed forms must have neither line feed nor dash. Numbers have no bound.
#[tactic(auto, using(crate::proofs::TextLemmas::same_outcomes))]
pub fn one_text()
    ensures { (a b : List Outcome) → AllByRecursion HaveBytes a → AllByRecursion HaveBytes b
        → text_of_outcomes a ≡ text_of_outcomes b → map told a ≡ map told b }
{}

/// The replies of a run meet the condition of `one_text`.
#[tactic(auto, using(crate::proofs::RunLemmas::run_bytes))]
pub fn run_bytes()
    ensures { (objects : Objects) (script : List Command) → AreObjects objects
        → AllByRecursion HasBytes (run_from objects script).replies }
{}

/// Bytes have at most one reading: a list of scripts, or the number of the first line that is refused.
#[tactic(auto, using(crate::proofs::OneReadingLemmas::same_reading))]
pub fn one_reading()
    ensures { (bytes : List ℕ) (r s : Result (List (List Command)) ℕ)
        → ScriptsOf bytes r → ScriptsOf bytes s → r ≡ s }
{}

/// All bytes have a reading, and by `one_reading` exactly one.
#[tactic(auto, using(crate::proofs::SomeReadingLemmas::some_reading))]
pub fn some_reading()
    ensures { (bytes : List ℕ) → (r : Result (List (List Command)) ℕ) × ScriptsOf bytes r }
{}
