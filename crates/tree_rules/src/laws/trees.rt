// Trees, their texts and values.
ghost use Rattle.std.specs.Prelude.{◌≡◌, ◌≤◌, ℕ, ℤ, List, Ok, length};
ghost use Rattle.tree_rules.specs.Tokens.{tokens, without_places};
ghost use Rattle.tree_rules.specs.Trees.{Expr, Stmts, AreStmts, StmtsFit, text, value_of, folded, folded_stmts};
ghost use Rattle.tree_rules.specs.Weights.{weights};
ghost use Rattle.tree_rules.specs.Grammar.{IsProgram};
ghost use Rattle.tree_rules.specs.Refusals.{TreeOf, most_nest};

/// The text of a tree is a program, and its tree is that tree. So it is read as that tree, if its numbers fit and it
/// isn't nested too deep.
pub fn texts()
    ensures program { (t : Stmts) → AreStmts t → (n : ℕ) × IsProgram (without_places (tokens (text t))) t n }
    ensures tree { (t : Stmts) → AreStmts t → StmtsFit t → (n : ℕ)
        → IsProgram (without_places (tokens (text t))) t n → n ≤ most_nest → TreeOf (text t) (Ok t) }
{}

/// The tree of a text is well formed, and its numbers fit.
pub fn well_formed()
    ensures { (bytes : List ℕ) (t : Stmts) → TreeOf bytes (Ok t) → AreStmts t × StmtsFit t }
{}

/// A text has at least as many bytes as the weight of its tree: one for each definition and each block, and those of
/// the names that are defined.
#[tactic(auto, using(crate::proofs::WeightLemmas::tree_light))]
pub fn tree_weight()
    ensures { (bytes : List ℕ) (t : Stmts) → TreeOf bytes (Ok t) → weights t ≤ length bytes }
{}

/// Folding keeps the value of an expression, whatever the values of names. Folded trees are well formed and their
/// numbers fit, if that was so before.
#[tactic(auto, using(crate::proofs::FoldLemmas::same_value, crate::proofs::FoldLemmas::stmts_plain, crate::proofs::FoldLemmas::all_small))]
pub fn folding()
    ensures value { (e : Expr) (env : List ℕ → ℤ) → value_of (folded e) env ≡ value_of e env }
    ensures keeps { (t : Stmts) → AreStmts t → AreStmts (folded_stmts t) }
    ensures fits { (t : Stmts) → StmtsFit t → StmtsFit (folded_stmts t) }
{}
