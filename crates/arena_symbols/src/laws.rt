// Laws of the numbers of texts and the values of ids. Each is a function that does nothing: a call in a body makes its
// facts available there.
ghost use Rattle.std.specs.Prelude.{◌≡◌, ◌==◌, ℕ, ◌<◌, List, Some, slice_get, length, if◌then◌else◌};
ghost use Rattle.arena_chunks.specs.Memory.{Memory};
ghost use Rattle.arena_symbols.specs.Interner.{number_of, AreDistinct};
ghost use Rattle.arena_symbols.specs.Scoping.{lookup, with_pair};
ghost use Rattle.arena_symbols.specs.Tables.{entry_item, IsTableIn, scopes_in};
ghost use Rattle.arena_symbols.specs.declared.scopes.Scopes.{Scopes};

/// In a list of distinct texts, as an interner's is, two texts have the same number exactly if they are equal: the text
/// with a number is at that place (`there`), each text has its place as its number (`place`), numbers are below the
/// number of texts (`below`), and texts with the same number are equal (`one`).
#[tactic(auto, using(crate::proofs::NumberLemmas::number_there, crate::proofs::NumberLemmas::number_place))]
pub fn numbers_law()
    ensures there { (texts : List (List ℕ)) (text : List ℕ) (n : ℕ) → number_of texts text ≡ Some n
        → slice_get texts n ≡ Some text }
    ensures below { (texts : List (List ℕ)) (text : List ℕ) (n : ℕ) → number_of texts text ≡ Some n → n < length texts }
    ensures place { (texts : List (List ℕ)) (text : List ℕ) (n : ℕ) → AreDistinct texts
        → slice_get texts n ≡ Some text → number_of texts text ≡ Some n }
    ensures one { (texts : List (List ℕ)) (text other : List ℕ) (n : ℕ) → number_of texts text ≡ Some n
        → number_of texts other ≡ Some n → text ≡ other }
{}

/// A scoped table has at least one map. After a pair is put into the innermost map, its id has that value, and every
/// other id has the value that it had.
#[tactic(auto, using(crate::proofs::ScopeLemmas::lookup_put, crate::proofs::TableLemmas::depth_is))]
pub fn scopes_law()
    ensures some { (memory : Memory) (s : Scopes) → IsTableIn entry_item memory s
        → 0 < length (scopes_in entry_item memory s) }
    ensures put { (scopes : List (List (ℕ × ℕ))) (id value q : ℕ) → 0 < length scopes
        → lookup (with_pair scopes id value) q ≡ (if id == q then Some value else lookup scopes q) }
{}
