// A range of a vector that is drained.
ghost use Rattle.std.specs.Prelude.{◌≡◌, ℕ, ◌+◌, ◌-◌, ◌*◌, ◌^◌, ◌≤◌, Some, IfSome, length};
ghost use Rattle.std.specs.List.{remove_range};
ghost use Rattle.std.specs.Iterator.{YieldsFirst, YieldsLast, UpTo, at_most, item_count};
ghost use Rattle.std.specs.Iterator.SizeHint.{IsWithinCount};
ghost use Rattle.arena_vec.specs.Vecs.{IsVecIn, vec_list};
ghost use Rattle.raw_vec.specs.Rows.{window};
ghost use Rattle.arena_vec.specs.Changes.{Becomes};
ghost use Rattle.arena_vec.specs.Draining.{IsDrain, left, SameDrain};

use crate::vec::Vec;
use arena_chunks::{Allocator, ChunkSource};
use arena_items::Item;
use std::iter::FusedIterator;

/// A range of a vector that is drained. Its values are taken from both ends, and `finish` removes the range.
#[derive(Drop)]
pub struct Drain<'s, T: Item, C: ChunkSource> {
    /// The vector.
    pub vec: &'s mut Vec<T>,
    /// The arena that it is in.
    pub arena: &'s mut Allocator<C>,
    /// Where the range starts.
    pub start: u32,
    /// Where it ends.
    pub end: u32,
    /// Where what is left of it starts.
    pub front: u32,
    /// Where that ends.
    pub back: u32,
}

#[tactic(auto, using(raw_vec::proofs::Windows::drain_laws))]
impl<T: Item> Vec<T> {
    /// Removes a range, once `finish` is called. If the iterator is dropped before, the vector is as it was.
    pub fn drain<'s, C: ChunkSource>(
        &'s mut self,
        a: &'s mut Allocator<C>,
        start: u32,
        end: u32,
    ) -> Drain<'s, T, C>
        requires small { T.SIZE ≤ 2 ^ 24 }
        requires held { IsVecIn T.Item a.old.memory self.old }
        requires order { start ≤ end }
        requires within { end ≤ self.old.raw.len }
        ensures same_vec { result.vec.ghost_name ≡ self.entry.ghost_name }
        ensures same_arena { result.arena.ghost_name ≡ a.entry.ghost_name }
        ensures vec { result.vec.now ≡ self.old }
        ensures arena { result.arena.now ≡ a.old }
        ensures drains { IsDrain T.Item result }
        ensures range { (result.start ≡ start) × (result.end ≡ end) }
        ensures left { left T.Item result ≡ window (vec_list T.Item a.old.memory self.old) start end }
    {
        Drain {
            vec: self,
            arena: a,
            start,
            end,
            front: start,
            back: end,
        }
    }
}

impl<'s, T: Item, C: ChunkSource> Drain<'s, T, C> {
    /// Removes the range from the vector, however much of it was taken. What comes after it moves down in one move of
    /// memory.
    pub fn finish(self)
        requires { IsDrain T.Item self }
        ensures { let old = self.entry.arena.now in
            let list = remove_range (vec_list T.Item old.memory self.entry.vec.now) self.entry.start
            self.entry.end in
            Becomes T.Item old self.exit.1.0.now self.entry.vec.now list self.exit.0.now }
    {
        let Drain {
            vec,
            arena,
            start,
            end,
            front: _,
            back: _,
        } = self;
        *vec = (*vec).without(arena, start, end);
    }
}

#[tactic(auto, using(raw_vec::proofs::Windows::drain_laws))]
impl<'s, T: Item, C: ChunkSource> Iterator for Drain<'s, T, C> {
    type Item = T;

    ghost can_next = { IsDrain T.Item };

    ghost next_gives = { λ s r t. YieldsFirst (left T.Item) s r t × SameDrain T.Item s t };

    ghost remaining = { item_count (left T.Item) };

    fn next(&mut self) -> Option<T> {
        if self.front == self.back {
            return None;
        }
        let item = self.vec.get(self.arena, self.front);
        self.front += 1;
        Some(item)
    }

    fn size_hint(&self) -> (usize, Option<usize>)
        ensures lower { IsWithinCount result.0 (at_most (length (left T.Item self.now))) }
        ensures upper { IfSome result.1 (UpTo (at_most (length (left T.Item self.now)))) }
        ensures exact { let n = length (left T.Item self.now) in result ≡ (n, Some n) }
    {
        let left = self.back.saturating_sub(self.front) as usize;
        (left, Some(left))
    }
}

#[tactic(auto, using(raw_vec::proofs::Windows::drain_laws))]
impl<'s, T: Item, C: ChunkSource> DoubleEndedIterator for Drain<'s, T, C> {
    ghost can_next_back = { IsDrain T.Item };

    ghost next_back_gives = { λ s r t. YieldsLast (left T.Item) s r t × SameDrain T.Item s t };

    fn next_back(&mut self) -> Option<T> {
        if self.front == self.back {
            return None;
        }
        let item = self.vec.get(self.arena, self.back - 1);
        self.back -= 1;
        Some(item)
    }
}

#[tactic(auto, using(raw_vec::proofs::Windows::drain_laws))]
impl<'s, T: Item, C: ChunkSource> ExactSizeIterator for Drain<'s, T, C> {
    fn len(&self) -> usize {
        self.back.saturating_sub(self.front) as usize
    }
}

impl<'s, T: Item, C: ChunkSource> FusedIterator for Drain<'s, T, C> {}
