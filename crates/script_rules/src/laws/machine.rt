// What commands and scripts leave, need and cost.
ghost use Rattle.std.specs.Prelude.{◌≡◌, ℕ, ◌+◌, ◌≤◌, true, List, [], ◌++◌, length, take};
ghost use Rattle.script_rules.specs.Objects.{Objects, need, AreObjects};
ghost use Rattle.script_rules.specs.Machine.{step, is_refusal, run, run_from, ran_on, sum, cost_of, cost_of_first};
ghost use Rattle.script_rules.specs.declared.commands.Command.{Command};

/// A command leaves well-formed objects. They need no more than the objects before and the command's cost together. A
/// refused command leaves the objects unchanged and costs nothing.
pub fn steps()
    ensures keeps { (c : Command) (objects : Objects) → AreObjects objects
        → AreObjects (step c objects).objects }
    ensures need { (c : Command) (objects : Objects) → AreObjects objects
        → need (step c objects).objects ≤ need objects + (step c objects).cost }
    ensures refused_objects { (c : Command) (objects : Objects) → AreObjects objects
        → is_refusal (step c objects).reply ≡ true → (step c objects).objects ≡ objects }
    ensures refused_cost { (c : Command) (objects : Objects) → AreObjects objects
        → is_refusal (step c objects).reply ≡ true → (step c objects).cost ≡ 0 }
{}

/// A run ends with well-formed objects. They need no more than the objects before and the cost of all commands
/// together. There is one reply and one cost per command. A script begins with no objects, so its last objects need no
/// more than it costs.
#[tactic(auto, using(crate::proofs::RunLemmas::run_laws))]
pub fn runs()
    ensures keeps { (objects : Objects) (script : List Command) → AreObjects objects
        → AreObjects (run_from objects script).objects }
    ensures need { (objects : Objects) (script : List Command) → AreObjects objects
        → need (run_from objects script).objects ≤ need objects + sum (run_from objects script).costs }
    ensures replies { (objects : Objects) (script : List Command)
        → length (run_from objects script).replies ≡ length script }
    ensures costs { (objects : Objects) (script : List Command)
        → length (run_from objects script).costs ≡ length script }
    ensures first { AreObjects [] }
    ensures script_need { (script : List Command) → need (run script).objects ≤ cost_of script }
{}

/// Runs can be continued: more commands run on what those before them left. So the first commands of a script have its
/// first replies and the costs that they have in it, and more of them cost no less.
#[tactic(auto, using(crate::proofs::RunLemmas::prefix_laws))]
pub fn prefixes()
    ensures goes_on { (objects : Objects) (a b : List Command)
        → run_from objects (a ++ b) ≡ ran_on (run_from objects a) b }
    ensures replies { (i : ℕ) (script : List Command)
        → (run (take i script)).replies ≡ take i (run script).replies }
    ensures cost { (i : ℕ) (script : List Command) → cost_of (take i script) ≡ cost_of_first i script }
    ensures rises { (i j : ℕ) (script : List Command) → i ≤ j
        → cost_of_first i script ≤ cost_of_first j script }
    ensures within { (i : ℕ) (script : List Command) → cost_of_first i script ≤ cost_of script }
{}
