// What texts mean by the grammar, and what the nodes of trees are worth.
ghost use Rattle.std.specs.Prelude.{◌≡◌, ◌≤◌, ◌↔◌, List, ℕ, Ok, Err};
ghost use Rattle.arena.specs.AstRows.{no_rows};
ghost use Rattle.example_language.specs.Grammar.{Spells, waits, IsFirstError};
ghost use Rattle.example_language.specs.Meaning.{Expr, words_of, reading};
ghost use Rattle.example_language.specs.Placing.{placed};
ghost use Rattle.example_language.specs.Values.{value_of, tree_value};
ghost use Rattle.example_language.specs.declared.parsing.ParseErr.{ParseErr};

/// A text has the tree that its words spell by the grammar, if at most 64 trees wait at once for their sign. Otherwise it
/// has an error, at the first word that can't follow the trees before it, or at the end where several are left.
pub fn parsed_words()
    ensures tree { (text : List ℕ) (tree : Expr)
        → (reading text ≡ Ok tree) ↔ (Spells tree (words_of text) × (waits tree ≤ 64)) }
    ensures wrong { (text : List ℕ) (e : ParseErr) → reading text ≡ Err e → IsFirstError text e }
{}

/// The value of the nodes that are placed for a tree is the value of the tree, where each name has the value with its number.
#[tactic(auto, using(crate::proofs::TreeValueLemmas::value_placed))]
pub fn placed_values()
    ensures { (values : List ℕ) (tree : Expr)
        → value_of values (placed tree no_rows).nodes ≡ tree_value values (placed tree no_rows).names tree }
{}
