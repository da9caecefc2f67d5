// What equality, order and hash of vectors mean, as facts about lists. The bound says that those of the elements are lawful.
#![tactic(auto, using(crate::proofs::CompareLemmas::order_laws))]

ghost use Rattle.std.specs.Prelude.{◌≡◌, ◌≢◌, ◌↔◌, ℕ, List, ◌∷◌, ◌++◌, IsTrue, Some};
ghost use Rattle.std.specs.Cmp.{IsEquivalence, IsPartialEquivalence, IsTotalOrder};
ghost use Rattle.std.specs.Cmp.Lexicographic.{pointwise, slice_cmp, slice_partial_cmp};
ghost use Rattle.std.specs.Hash as fed;
ghost use Rattle.std.specs.Ordering.{is_eq};
ghost use Rattle.std.specs.declared.cmp.Ordering.TheVariants.{Less, Equal};
ghost use Rattle.arena_vec.specs.Comparing.{AreAlike};

use std::hash::Hash;

/// Equal vectors have the same length, and equal values at each index. This equality is symmetric and transitive.
pub fn partial_equality_law<T: PartialEq>()
    ensures places { (xs ys : List T) → (IsTrue (pointwise T.eq xs ys)) ↔ (AreAlike T.eq xs ys) }
    ensures partial { IsPartialEquivalence (pointwise T.eq) }
{}

/// If each element is equal to itself, equality is an equivalence.
pub fn equality_law<T: Eq>()
    ensures { IsEquivalence (pointwise T.eq) }
{}

/// The order is lexicographic: the first index at which two vectors differ decides, and a proper prefix comes first. It
/// is total, agrees with equality, and is what the elements' `partial_cmp` gives.
pub fn order_law<T: Ord>()
    ensures first { (before front : List T) (x y : T) (xs ys : List T) → IsTrue (pointwise T.eq before front)
        → T.cmp x y ≢ Equal → slice_cmp T.cmp (before ++ x ∷ xs) (front ++ y ∷ ys) ≡ T.cmp x y }
    ensures shorter { (before front : List T) (y : T) (ys : List T) → IsTrue (pointwise T.eq before front)
        → slice_cmp T.cmp before (front ++ y ∷ ys) ≡ Less }
    ensures total { IsTotalOrder (slice_cmp T.cmp) }
    ensures equal { (xs ys : List T) → pointwise T.eq xs ys ≡ is_eq (slice_cmp T.cmp xs ys) }
    ensures partial { (xs ys : List T)
        → slice_partial_cmp T.partial_cmp xs ys ≡ Some (slice_cmp T.cmp xs ys) }
{}

/// Equal vectors have equal hashes: a hasher is fed the same.
pub fn hash_law<T: Hash>()
    ensures { (xs ys : List T) → IsTrue (pointwise T.eq xs ys)
        → fed.slice T.hash_input xs ≡ fed.slice T.hash_input ys }
{}
