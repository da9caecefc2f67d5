// How texts are read.
ghost use Rattle.std.specs.Prelude.{◌≡◌, ℕ, List, Result, Option};
ghost use Rattle.tree_rules.specs.Tokens.{Token};
ghost use Rattle.tree_rules.specs.Trees.{Stmts};
ghost use Rattle.tree_rules.specs.Grammar.{IsProgram};
ghost use Rattle.tree_rules.specs.Refusals.{TreeOf, IsReading};
ghost use Rattle.tree_rules.specs.Reading.{refusal_of, refused_by};
ghost use Rattle.tree_rules.specs.Report.{IsReport};
ghost use Rattle.tree_rules.specs.declared.finding.Finding.{Finding};
ghost use Rattle.tree_rules.specs.declared.refused.Refused.{Refused};

/// Tokens are the program of at most one tree, with one depth of nesting.
pub fn one_program()
    ensures { (ts : List Token) (trees others : Stmts) (n m : ℕ)
        → IsProgram ts trees n → IsProgram ts others m → (trees ≡ others) × (n ≡ m) }
{}

/// A text has at most one reading: a tree, or the first token that is refused and why.
#[tactic(auto, using(crate::proofs::RefusalLemmas::same_reading))]
pub fn one_reading()
    ensures { (bytes : List ℕ) (r s : Result Stmts Refused) → TreeOf bytes r → TreeOf bytes s → r ≡ s }
{}

/// Each text has a reading, and by `one_reading` exactly one.
#[tactic(auto, using(crate::proofs::RefusalLemmas::some_reading))]
pub fn some_reading()
    ensures { (bytes : List ℕ) → (r : Result Stmts Refused) × TreeOf bytes r }
{}

/// The machine that judges a text token by token refuses it exactly as its reading says.
#[tactic(auto, using(crate::proofs::RefusalLemmas::machine_says, crate::proofs::RefusalLemmas::reading))]
pub fn machine()
    ensures same { (bytes : List ℕ) (r : Result Stmts Refused) → TreeOf bytes r → refusal_of bytes ≡ refused_by r }
    ensures read { (bytes : List ℕ) → IsReading bytes (refusal_of bytes) }
{}

/// A text has exactly one report: its refusal, or the findings of its tree.
#[tactic(auto, using(crate::proofs::RefusalLemmas::same_report, crate::proofs::RefusalLemmas::some_report))]
pub fn one_report()
    ensures one { (bytes : List ℕ) (r s : Result (List Finding) Refused) → IsReport bytes r → IsReport bytes s
        → r ≡ s }
    ensures some { (bytes : List ℕ) → (r : Result (List Finding) Refused) × IsReport bytes r }
{}
