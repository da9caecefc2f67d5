// A range of a vector that is replaced by an iterator's items.
ghost use Rattle.std.specs.Prelude.{◌≡◌, ℕ, ◌+◌, ◌-◌, ◌*◌, ◌^◌, ◌<◌, ◌≤◌, true, false, IfNone, IfSome, OnSome, Some, length};
ghost use Rattle.std.specs.List.{replace_range};
ghost use Rattle.std.specs.Iterator.{IsFinite, YieldsFirst, YieldsLast, UpTo, at_most, item_count};
ghost use Rattle.std.specs.Iterator.SizeHint.{IsWithinCount};
ghost use Rattle.arena_chunks.specs.Frame.{AreBlocksApart};
ghost use Rattle.raw_vec.specs.Growth.{amortised_growth};
ghost use Rattle.arena_vec.specs.Vecs.{IsVecIn, vec_list};
ghost use Rattle.raw_vec.specs.Rows.{window};
ghost use Rattle.arena_vec.specs.Changes.{Grows};
ghost use Rattle.arena_vec.specs.Splicing.{IsSplice, SameSplice, left_of, Replaces, Fills, Widens, FillsThen, PutsRest, is_useful, PutsMore, Splices};

use crate::vec::Vec;
use arena_chunks::{Allocator, ChunkSource};
use arena_items::{Grown, Item, copy_items, move_items, put_item};
use raw_vec::{has_room, roomy};

/// A range of a vector that is replaced by an iterator's items. Its values are taken from both ends, and `finish` puts
/// the items in its place.
pub struct Splice<'s, T: Item, C: ChunkSource, I: Drop> {
    /// The vector.
    pub vec: &'s mut Vec<T>,
    /// The arena that it is in.
    pub arena: &'s mut Allocator<C>,
    /// The iterator of the items that replace the range.
    pub with: I,
    /// Where the range starts.
    pub start: u32,
    /// Where it ends.
    pub end: u32,
    /// Where what is left of it starts.
    pub front: u32,
    /// Where that ends.
    pub back: u32,
}

impl<'s, T: Item, C: ChunkSource, I: Drop> Drop for Splice<'s, T, C, I> {
    fn drop(self)
        ensures vec { self.exit.0.now ≡ self.entry.vec.now }
        ensures arena { self.exit.1.0.now ≡ self.entry.arena.now }
    {
        let Splice {
            vec: _,
            arena: _,
            with: _,
            start: _,
            end: _,
            front: _,
            back: _,
        } = self;
    }
}

// Puts an iterator's items in a range's place, and returns whether they fill it. If they are fewer the tail moves down,
// in one move of memory.
fn fill<T: Item, C: ChunkSource, I: Iterator<Item = T>>(
    vec: &mut Vec<T>,
    a: &mut Allocator<C>,
    start: u32,
    end: u32,
    iter: &mut I,
) -> bool
    requires small { T.SIZE ≤ 2 ^ 24 }
    requires held { IsVecIn T.Item a.old.memory vec.old }
    requires order { start ≤ end }
    requires within { end ≤ vec.old.raw.len }
    requires can { I.can_next iter.old }
    requires ends { IsFinite (I.remaining iter.old) }
    ensures fills { Fills T.Item I.next_gives iter.old iter.new a.old a.new vec.old start end vec.new result }
    ensures goes { result ≡ true → I.can_next iter.new × IsFinite (I.remaining iter.new) }
{
    let whole = *vec;
    for k in start..end {
        let Some(item) = iter.next() else {
            *vec = whole.without(a, k, end);
            return false;
        };
        put_item(a, whole.raw.block, k as u64, item);
    }
    true
}

// Makes room for `n` values at an index. What is there and after it moves up, in one move of memory.
fn widen<T: Item, C: ChunkSource>(
    vec: &mut Vec<T>,
    a: &mut Allocator<C>,
    at: u32,
    n: u64,
) -> Grown<()>
    requires small { T.SIZE ≤ 2 ^ 24 }
    requires held { IsVecIn T.Item a.old.memory vec.old }
    requires index { at ≤ vec.old.raw.len }
    ensures { Widens T.Item a.old a.new vec.old at n vec.new result }
{
    let mut raw = roomy(a, vec.raw, n)?;
    let from = at as u64;
    move_items::<T, C>(a, raw.block, from, from + n, raw.len as u64 - from);
    raw.len += n as u32;
    vec.raw = raw;
    Ok(())
}

// Inserts the values of another vector at an index, in one move of memory.
fn insert_all<T: Item, C: ChunkSource>(
    vec: &mut Vec<T>,
    a: &mut Allocator<C>,
    at: u32,
    other: Vec<T>,
) -> Grown<()>
    requires small { T.SIZE ≤ 2 ^ 24 }
    requires held { IsVecIn T.Item a.old.memory vec.old }
    requires index { at ≤ vec.old.raw.len }
    requires other { IsVecIn T.Item a.old.memory other }
    requires apart { AreBlocksApart other.raw.block vec.old.raw.block }
    ensures { let growth = amortised_growth T.SIZE vec.old.raw.cap (vec.old.raw.len + other.raw.len) in
        let list = replace_range (vec_list T.Item a.old.memory vec.old) at at
        (vec_list T.Item a.old.memory other) in
        Grows T.Item a.old a.new vec.old growth list vec.new result }
{
    let n = other.raw.len as u64;
    if n == 0 {
        return Ok(());
    }
    widen(vec, a, at, n)?;
    copy_items::<T, C>(a, other.raw.block, 0, vec.raw.block, at as u64, n);
    Ok(())
}

// Gathers an iterator's items in a new vector, and then inserts them at an index.
fn put_rest<T: Item, C: ChunkSource, I: Iterator<Item = T> + Drop>(
    vec: &mut Vec<T>,
    a: &mut Allocator<C>,
    at: u32,
    iter: I,
) -> Grown<()>
    requires small { T.SIZE ≤ 2 ^ 24 }
    requires held { IsVecIn T.Item a.old.memory vec.old }
    requires index { at ≤ vec.old.raw.len }
    requires can { I.can_next iter }
    requires ends { IsFinite (I.remaining iter) }
    ensures { PutsRest T.Item I.next_gives I.remaining iter a.old a.new vec.old at vec.new result }
{
    let mut rest = Vec::new_in();
    rest.extend(a, iter)?;
    insert_all(vec, a, at, rest)
}

// Makes room for `n` items at an index, puts them there, and then all that are left.
fn put_hinted<T: Item, C: ChunkSource, I: Iterator<Item = T> + Drop>(
    vec: &mut Vec<T>,
    a: &mut Allocator<C>,
    at: u32,
    n: u32,
    iter: I,
) -> Grown<()>
    requires small { T.SIZE ≤ 2 ^ 24 }
    requires held { IsVecIn T.Item a.old.memory vec.old }
    requires index { at ≤ vec.old.raw.len }
    requires fits { vec.old.raw.len + n < 2 ^ 32 }
    requires can { I.can_next iter }
    requires ends { IsFinite (I.remaining iter) }
    ensures { let growth = amortised_growth T.SIZE vec.old.raw.cap (vec.old.raw.len + n) in
        FillsThen T.Item I.next_gives iter a.old a.new vec.old growth at at n vec.new result
        (λ now between u. PutsRest T.Item I.next_gives I.remaining now between a.new u (at + n) vec.new
        result) }
{
    widen(vec, a, at, n as u64)?;
    let mut iter = iter;
    if !fill(vec, a, at, at + n, &mut iter) {
        return Ok(());
    }
    put_rest(vec, a, at + n, iter)
}

// Returns how many items are said to come, if it is useful to make room for them.
#[tactic(auto, unfolding(raw_vec::specs::Growth::fits, crate::specs::Splicing::is_useful))]
fn useful_hint(size: u64, len: u32, hint: u64) -> Option<u32>
    requires small { size ≤ 2 ^ 24 }
    ensures none { IfNone result (is_useful size len hint ≡ false) }
    ensures some { IfSome result (λ n. (is_useful size len hint ≡ true) × (n ≡ hint)) }
    ensures fits { OnSome result (len + hint < 2 ^ 32) }
{
    if hint == 0 || hint > u32::MAX as u64 || !has_room(size, len as u64 + hint) {
        return None;
    }
    Some(hint as u32)
}

// Inserts an iterator's items at an index: as many as it says are to come, if that is useful, and then all that are
// left.
fn put_more<T: Item, C: ChunkSource, I: Iterator<Item = T> + Drop>(
    vec: &mut Vec<T>,
    a: &mut Allocator<C>,
    at: u32,
    iter: I,
) -> Grown<()>
    requires small { T.SIZE ≤ 2 ^ 24 }
    requires held { IsVecIn T.Item a.old.memory vec.old }
    requires index { at ≤ vec.old.raw.len }
    requires can { I.can_next iter }
    requires ends { IsFinite (I.remaining iter) }
    ensures { PutsMore T.Item I.next_gives I.remaining iter a.old a.new vec.old at vec.new result }
{
    let hint = iter.size_hint().0 as u64;
    let Some(n) = useful_hint(T::SIZE, vec.raw.len, hint) else {
        return put_rest(vec, a, at, iter);
    };
    put_hinted(vec, a, at, n, iter)
}

impl<T: Item> Vec<T> {
    // Replaces a range by an iterator's items.
    fn replace_range<C: ChunkSource, I: Iterator<Item = T> + Drop>(
        &mut self,
        a: &mut Allocator<C>,
        start: u32,
        end: u32,
        with: I,
    ) -> Grown<()>
        requires small { T.SIZE ≤ 2 ^ 24 }
        requires held { IsVecIn T.Item a.old.memory self.old }
        requires order { start ≤ end }
        requires within { end ≤ self.old.raw.len }
        requires can { I.can_next with }
        requires ends { IsFinite (I.remaining with) }
        ensures replaces { Replaces T.Item I.next_gives with a.old.memory a.new.memory self.old start end
            self.new result }
        ensures splices { Splices T.Item I.next_gives I.remaining with a.old a.new self.old start end
            self.new result }
    {
        if end == self.raw.len {
            self.raw.len = start;
            self.extend(a, with)?;
            return Ok(());
        }
        let mut with = with;
        if !fill(self, a, start, end, &mut with) {
            return Ok(());
        }
        put_more(self, a, end, with)
    }

    /// Replaces a range by an iterator's items, once `finish` is called. If the `Splice` is dropped before, the vector
    /// is as it was.
    #[tactic(auto, using(raw_vec::proofs::Windows::drain_laws))]
    pub fn splice<'s, C: ChunkSource, I: Iterator<Item = T> + Drop>(
        &'s mut self,
        a: &'s mut Allocator<C>,
        start: u32,
        end: u32,
        with: I,
    ) -> Splice<'s, T, C, I>
        requires small { T.SIZE ≤ 2 ^ 24 }
        requires held { IsVecIn T.Item a.old.memory self.old }
        requires order { start ≤ end }
        requires within { end ≤ self.old.raw.len }
        requires can { I.can_next with }
        requires ends { IsFinite (I.remaining with) }
        ensures same_vec { result.vec.ghost_name ≡ self.entry.ghost_name }
        ensures same_arena { result.arena.ghost_name ≡ a.entry.ghost_name }
        ensures vec { result.vec.now ≡ self.old }
        ensures arena { result.arena.now ≡ a.old }
        ensures with { result.with ≡ with }
        ensures splices { IsSplice T.Item I.can_next I.remaining result }
        ensures range { (result.start ≡ start) × (result.end ≡ end) }
        ensures left { left_of T.Item result ≡ window (vec_list T.Item a.old.memory self.old) start end }
    {
        Splice {
            vec: self,
            arena: a,
            with,
            start,
            end,
            front: start,
            back: end,
        }
    }
}

impl<'s, T: Item, C: ChunkSource, I: Iterator<Item = T> + Drop> Splice<'s, T, C, I> {
    /// Puts the iterator's items in the range's place, however much of the range was taken. If nothing comes after it
    /// this is `extend`. Otherwise its places are filled first. If the iterator then says that items are to come, and
    /// they fit, room is made for them and filled. What is left is gathered in a new vector, whose block stays, and
    /// inserted after one more growth.
    ///
    /// # Errors
    ///
    /// As for `try_reserve`. The values before the range are there, then the first of the items that were taken, then
    /// the values after the range.
    pub fn finish(self) -> Grown<()>
        requires { IsSplice T.Item I.can_next I.remaining self }
        ensures replaces { let s = self.entry in
            Replaces T.Item I.next_gives s.with s.arena.now.memory self.exit.1.0.now.memory s.vec.now
            s.start s.end self.exit.0.now result }
        ensures splices { let s = self.entry in
            Splices T.Item I.next_gives I.remaining s.with s.arena.now self.exit.1.0.now s.vec.now
            s.start s.end self.exit.0.now result }
    {
        let Splice {
            vec,
            arena,
            with,
            start,
            end,
            front: _,
            back: _,
        } = self;
        vec.replace_range(arena, start, end, with)
    }
}

#[tactic(auto, using(raw_vec::proofs::Windows::drain_laws))]
impl<'s, T: Item, C: ChunkSource, I: Iterator<Item = T> + Drop> Iterator for Splice<'s, T, C, I> {
    type Item = T;

    ghost can_next = { IsSplice T.Item I.can_next I.remaining };

    ghost next_gives = { λ s r t. YieldsFirst (left_of T.Item) s r t
        × SameSplice T.Item I.can_next I.remaining s t };

    ghost remaining = { item_count (left_of T.Item) };

    fn next(&mut self) -> Option<T> {
        if self.front == self.back {
            return None;
        }
        let item = self.vec.get(self.arena, self.front);
        self.front += 1;
        Some(item)
    }

    fn size_hint(&self) -> (usize, Option<usize>)
        ensures lower { IsWithinCount result.0 (at_most (length (left_of T.Item self.now))) }
        ensures upper { IfSome result.1 (UpTo (at_most (length (left_of T.Item self.now)))) }
        ensures exact { let n = length (left_of T.Item self.now) in result ≡ (n, Some n) }
    {
        let left = self.back.saturating_sub(self.front) as usize;
        (left, Some(left))
    }
}

#[tactic(auto, using(raw_vec::proofs::Windows::drain_laws))]
impl<'s, T: Item, C: ChunkSource, I: Iterator<Item = T> + Drop> DoubleEndedIterator
    for Splice<'s, T, C, I> {
    ghost can_next_back = { IsSplice T.Item I.can_next I.remaining };

    ghost next_back_gives = { λ s r t. YieldsLast (left_of T.Item) s r t
        × SameSplice T.Item I.can_next I.remaining s t };

    fn next_back(&mut self) -> Option<T> {
        if self.front == self.back {
            return None;
        }
        let item = self.vec.get(self.arena, self.back - 1);
        self.back -= 1;
        Some(item)
    }
}

#[tactic(auto, using(raw_vec::proofs::Windows::drain_laws))]
impl<'s, T: Item, C: ChunkSource, I: Iterator<Item = T> + Drop> ExactSizeIterator
    for Splice<'s, T, C, I> {
    fn len(&self) -> usize {
        self.back.saturating_sub(self.front) as usize
    }
}
