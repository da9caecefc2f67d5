// Equality and order, which are those of the lists.
ghost use Rattle.std.specs.Prelude.{◌≡◌, ◌^◌, ◌≤◌, Some};
ghost use Rattle.std.specs.Cmp.Lexicographic.{pointwise, slice_cmp};
ghost use Rattle.arena_vec.specs.Vecs.{IsVecIn, vec_list};

use crate::vec::Vec;
use arena_chunks::{Allocator, ChunkSource};
use arena_items::Item;
use std::cmp::Ordering;

#[tactic(auto, using(crate::proofs::CompareLemmas::loop_laws))]
impl<T: Item + PartialEq> Vec<T> {
    /// Returns whether two vectors have the same length, and equal values at each index.
    pub fn eq<C: ChunkSource>(&self, a: &Allocator<C>, other: &Vec<T>) -> bool
        requires small { T.SIZE ≤ 2 ^ 24 }
        requires held { IsVecIn T.Item a.now.memory self.now }
        requires other { IsVecIn T.Item a.now.memory other.now }
        ensures { result ≡ pointwise T.eq (vec_list T.Item a.now.memory self.now)
            (vec_list T.Item a.now.memory other.now) }
    {
        if self.raw.len != other.raw.len {
            return false;
        }
        for i in 0..self.raw.len {
            if self.get(a, i) != other.get(a, i) {
                return false;
            }
        }
        true
    }

    /// Returns whether a vector and a slice have the same length, and equal values at each index.
    pub fn eq_slice<C: ChunkSource>(&self, a: &Allocator<C>, other: &[T]) -> bool
        requires small { T.SIZE ≤ 2 ^ 24 }
        requires held { IsVecIn T.Item a.now.memory self.now }
        ensures { result ≡ pointwise T.eq (vec_list T.Item a.now.memory self.now) other.now }
    {
        if self.raw.len as usize != other.len() {
            return false;
        }
        for (i, value) in other.iter().enumerate() {
            if self.get(a, i as u32) != *value {
                return false;
            }
        }
        true
    }
}

#[tactic(auto, using(crate::proofs::CompareLemmas::loop_laws))]
impl<T: Item + Ord> Vec<T> {
    /// Compares two vectors. The first index at which they differ decides, and otherwise their lengths do.
    pub fn cmp<C: ChunkSource>(&self, a: &Allocator<C>, other: &Vec<T>) -> Ordering
        requires small { T.SIZE ≤ 2 ^ 24 }
        requires held { IsVecIn T.Item a.now.memory self.now }
        requires other { IsVecIn T.Item a.now.memory other.now }
        ensures { result ≡ slice_cmp T.cmp (vec_list T.Item a.now.memory self.now)
            (vec_list T.Item a.now.memory other.now) }
    {
        let (n, m) = (self.raw.len, other.raw.len);
        for i in 0..n.min(m) {
            let found = self.get(a, i).cmp(&other.get(a, i));
            if found.is_ne() {
                return found;
            }
        }
        n.cmp(&m)
    }

    /// Compares as `cmp` does, and returns the result in `Some`.
    pub fn partial_cmp<C: ChunkSource>(&self, a: &Allocator<C>, other: &Vec<T>) -> Option<Ordering>
        requires small { T.SIZE ≤ 2 ^ 24 }
        requires held { IsVecIn T.Item a.now.memory self.now }
        requires other { IsVecIn T.Item a.now.memory other.now }
        ensures { result ≡ Some (slice_cmp T.cmp (vec_list T.Item a.now.memory self.now)
            (vec_list T.Item a.now.memory other.now)) }
    {
        Some(self.cmp(a, other))
    }
}
