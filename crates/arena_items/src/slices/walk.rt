// The values of a boxed slice, one after another.
ghost use Rattle.std.specs.Prelude.{◌≡◌, ℕ, ◌^◌, ◌≤◌, Some, IfSome, length};
ghost use Rattle.std.specs.Iterator.{YieldsFirst, UpTo, at_most, item_count};
ghost use Rattle.std.specs.Iterator.SizeHint.{IsWithinCount};
ghost use Rattle.arena_items.specs.Values.{IsSliceIn, slice_list};

use crate::item::Item;
use crate::slices::BoxSlice;
use arena_chunks::{Allocator, ChunkSource};
use std::iter::FusedIterator;
use std::marker::Model;

/// The rest of a boxed slice's values. In contracts it is the list of them.
#[derive(Drop)]
pub struct SliceIter<'a, T: Item, C: ChunkSource> {
    arena: &'a Allocator<C>,
    slice: BoxSlice<T>,
    at: u64,
}

impl<'a, T: Item, C: ChunkSource> Model for SliceIter<'a, T, C> {
    ghost use Rattle.std.specs.Prelude.{ℕ, ◌^◌, ◌≤◌, List, drop};
    ghost use Rattle.arena_items.specs.Values.{IsSliceIn, slice_list};

    ghost Value = { List T };

    ghost view = { λ s. drop s.at (slice_list T.Item s.arena.now.memory s.slice) };

    ghost invariant = { λ s. IsSliceIn T.Item s.arena.now.memory s.slice × (s.at ≤ s.slice.length)
        × (T.SIZE ≤ 2 ^ 24) };
}

impl<T: Item> BoxSlice<T> {
    /// Returns an iterator over all values.
    pub fn iter<'a, C: ChunkSource>(self, a: &'a Allocator<C>) -> SliceIter<'a, T, C>
        requires small { T.SIZE ≤ 2 ^ 24 }
        requires held { IsSliceIn T.Item a.now.memory self }
        ensures { result ≡ slice_list T.Item a.now.memory self }
    {
        SliceIter {
            arena: a,
            slice: self,
            at: 0,
        }
    }
}

#[tactic(auto, using(crate::proofs::ElementLemmas::walk_laws))]
impl<'a, T: Item, C: ChunkSource> Iterator for SliceIter<'a, T, C> {
    type Item = T;

    ghost next_gives = { YieldsFirst (λ s. s) };

    ghost remaining = { item_count (λ s. s) };

    fn next(&mut self) -> Option<T> {
        if self.at == self.slice.length {
            return None;
        }
        let item = self.slice.get(self.arena, self.at);
        self.at += 1;
        Some(item)
    }

    fn size_hint(&self) -> (usize, Option<usize>)
        ensures lower { IsWithinCount result.0 (at_most (length self.now)) }
        ensures upper { IfSome result.1 (UpTo (at_most (length self.now))) }
        ensures exact { result ≡ (length self.now, Some (length self.now)) }
    {
        let left = (self.slice.length - self.at) as usize;
        (left, Some(left))
    }
}

#[tactic(auto, using(crate::proofs::ElementLemmas::walk_laws))]
impl<'a, T: Item, C: ChunkSource> ExactSizeIterator for SliceIter<'a, T, C> {
    fn len(&self) -> usize {
        (self.slice.length - self.at) as usize
    }
}

impl<'a, T: Item, C: ChunkSource> FusedIterator for SliceIter<'a, T, C> {}
