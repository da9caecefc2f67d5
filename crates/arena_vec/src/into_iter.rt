// The values of a vector, from both ends.
ghost use Rattle.std.specs.Prelude.{◌≡◌, ℕ, ◌+◌, ◌*◌, ◌^◌, ◌≤◌, Some, IfSome, length};
ghost use Rattle.std.specs.Iterator.{YieldsFirst, YieldsLast, UpTo, at_most, item_count};
ghost use Rattle.std.specs.Iterator.SizeHint.{IsWithinCount};
ghost use Rattle.arena_items.specs.Values.{elements};
ghost use Rattle.arena_vec.specs.Vecs.{IsVecIn, vec_list};

use crate::vec::Vec;
use arena_chunks::{Allocator, ChunkSource};
use arena_items::Item;
use std::iter::FusedIterator;
use std::marker::Model;

/// The rest of a vector's values.
#[derive(Drop)]
pub struct IntoIter<'a, T: Item, C: ChunkSource> {
    arena: &'a Allocator<C>,
    vec: Vec<T>,
    front: u32,
    back: u32,
}

impl<'a, T: Item, C: ChunkSource> Model for IntoIter<'a, T, C> {
    ghost use Rattle.std.specs.Prelude.{ℕ, ◌^◌, ◌≤◌, List};
    ghost use Rattle.arena_vec.specs.Vecs.{IsVecIn, vec_list};
    ghost use Rattle.raw_vec.specs.Rows.{window};

    ghost Value = { List T };

    ghost view = { λ s. window (vec_list T.Item s.arena.now.memory s.vec) s.front s.back };

    ghost invariant = { λ s. IsVecIn T.Item s.arena.now.memory s.vec × (s.back ≤ s.vec.raw.len)
        × (s.front ≤ s.back) × (T.SIZE ≤ 2 ^ 24) };
}

#[tactic(auto, using(raw_vec::proofs::Windows::window_laws))]
impl<T: Item> Vec<T> {
    /// Returns an iterator over all values, from both ends.
    pub fn into_iter<'a, C: ChunkSource>(self, a: &'a Allocator<C>) -> IntoIter<'a, T, C>
        requires small { T.SIZE ≤ 2 ^ 24 }
        requires held { IsVecIn T.Item a.now.memory self }
        ensures { result ≡ vec_list T.Item a.now.memory self }
    {
        IntoIter {
            arena: a,
            vec: self,
            front: 0,
            back: self.raw.len,
        }
    }
}

#[tactic(auto, using(raw_vec::proofs::Windows::window_laws))]
impl<'a, T: Item, C: ChunkSource> IntoIter<'a, T, C> {
    /// Returns the bytes of the values that are left, one after another.
    pub fn as_slice(&self) -> &[u8]
        ensures length { length result.now ≡ length self.now * T.SIZE }
        ensures list { elements T.SIZE T.decoded (length self.now) result.now ≡ self.now }
    {
        let size = T::SIZE as usize;
        let first = self.front as usize * size;
        let end = self.back as usize * size;
        &self.arena.read(self.vec.raw.block)[first..end]
    }
}

#[tactic(auto, using(raw_vec::proofs::Windows::window_laws))]
impl<'a, T: Item, C: ChunkSource> Iterator for IntoIter<'a, T, C> {
    type Item = T;

    ghost next_gives = { YieldsFirst (λ s. s) };

    ghost remaining = { item_count (λ s. s) };

    fn next(&mut self) -> Option<T> {
        if self.front == self.back {
            return None;
        }
        let item = self.vec.get(self.arena, self.front);
        self.front += 1;
        Some(item)
    }

    fn size_hint(&self) -> (usize, Option<usize>)
        ensures lower { IsWithinCount result.0 (at_most (length self.now)) }
        ensures upper { IfSome result.1 (UpTo (at_most (length self.now))) }
        ensures exact { result ≡ (length self.now, Some (length self.now)) }
    {
        let left = (self.back - self.front) as usize;
        (left, Some(left))
    }
}

#[tactic(auto, using(raw_vec::proofs::Windows::window_laws))]
impl<'a, T: Item, C: ChunkSource> DoubleEndedIterator for IntoIter<'a, T, C> {
    ghost next_back_gives = { YieldsLast (λ s. s) };

    fn next_back(&mut self) -> Option<T> {
        if self.front == self.back {
            return None;
        }
        let item = self.vec.get(self.arena, self.back - 1);
        self.back -= 1;
        Some(item)
    }
}

#[tactic(auto, using(raw_vec::proofs::Windows::window_laws))]
impl<'a, T: Item, C: ChunkSource> ExactSizeIterator for IntoIter<'a, T, C> {
    fn len(&self) -> usize {
        (self.back - self.front) as usize
    }
}

impl<'a, T: Item, C: ChunkSource> FusedIterator for IntoIter<'a, T, C> {}
