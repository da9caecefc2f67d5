// Items of iterators.
ghost use Rattle.std.specs.Prelude.{◌≡◌, ℕ, ◌+◌, ◌^◌, ◌≤◌, ◌++◌, [], ◌∷◌, Ok, IfOk, OnOk, IfErr, OnErr};
ghost use Rattle.std.specs.Iterator.{IsFinite};
ghost use Rattle.std.specs.Iterator.SizeHint.{IsWithinCount};
ghost use Rattle.arena_chunks.specs.Frame.{Frame};
ghost use Rattle.arena_chunks.specs.Source.{View};
ghost use Rattle.raw_vec.specs.Growth.{amortised_growth};
ghost use Rattle.raw_vec.specs.Storage.{Makes};
ghost use Rattle.arena_vec.specs.Vecs.{IsVecIn, vec_list};
ghost use Rattle.arena_vec.specs.Changes.{Grows};
ghost use Rattle.arena_vec.specs.Extending.{hinted_growth, first_room, TakesAll, TakesSome, BuildsWith, BuildsFrom};

use crate::vec::Vec;
use arena_chunks::{Allocator, ChunkSource};
use arena_items::{Grown, Item};
use raw_vec::has_room;

// Returns for how many more values a vector makes room, if `hint` are said to follow one that is appended.
#[tactic(auto, unfolding(raw_vec::specs::Growth::fits, raw_vec::specs::Growth::growth_to, crate::specs::Extending::hinted_growth))]
fn wanted(size: u64, cap: u32, len: u32, hint: u64) -> u64
    requires small { size ≤ 2 ^ 24 }
    ensures some { 1 ≤ result }
    ensures same { amortised_growth size cap (len + result) ≡ hinted_growth size cap len hint }
{
    if len < cap || hint >= u32::MAX as u64 {
        return 1;
    }
    if has_room(size, len as u64 + (hint + 1)) {
        return hint + 1;
    }
    1
}

// Returns for how many values a new vector has room, by an iterator's hints.
#[tactic(auto, unfolding(crate::specs::Extending::first_room))]
fn room_at_first(size: u64, least: u64, most: Option<usize>) -> u64
    requires small { size ≤ 2 ^ 24 }
    ensures { result ≡ first_room size least most }
{
    if let Some(n) = most {
        if has_room(size, n as u64) {
            return n as u64;
        }
    }
    if has_room(size, least) { least } else { 0 }
}

// Returns the least number of items that an iterator says are to come, if that is wanted.
#[inline]
fn hint_of<I: Iterator>(iter: &I, is_wanted: bool) -> u64
    ensures { IsWithinCount result (I.remaining iter.now) }
{
    if is_wanted {
        iter.size_hint().0 as u64
    } else {
        0
    }
}

impl<T: Item> Vec<T> {
    // Appends a value. A full vector makes room for `hint` more too, if they fit.
    fn push_hinted<C: ChunkSource>(
        &mut self,
        a: &mut Allocator<C>,
        value: T,
        hint: u64,
    ) -> Grown<()>
        requires small { T.SIZE ≤ 2 ^ 24 }
        requires held { IsVecIn T.Item a.old.memory self.old }
        ensures { let growth = hinted_growth T.SIZE self.old.raw.cap self.old.raw.len hint in
            let list = vec_list T.Item a.old.memory self.old ++ value ∷ [] in
            Grows T.Item a.old a.new self.old growth list self.new result }
    {
        let more = wanted(T::SIZE, self.raw.cap, self.raw.len, hint);
        self.push_with_room(a, value, more)
    }

    /// Appends an iterator's items, one after another. A vector that is full makes room for the items that the iterator
    /// says are to come, if they fit, and otherwise for one.
    ///
    /// # Errors
    ///
    /// As for `try_reserve`. The items taken before are appended, except for the last, which is lost.
    #[tactic(auto, using(crate::proofs::ExtendLemmas::extend_laws))]
    pub fn extend<C: ChunkSource, I: Iterator<Item = T>>(
        &mut self,
        a: &mut Allocator<C>,
        iter: I,
    ) -> Grown<()>
    where
        I: Drop,
        requires small { T.SIZE ≤ 2 ^ 24 }
        requires held { IsVecIn T.Item a.old.memory self.old }
        requires can { I.can_next iter }
        requires ends { IsFinite (I.remaining iter) }
        ensures held { IsVecIn T.Item a.new.memory self.new }
        ensures frame { Frame a.old.memory a.new.memory (self.old.raw.block ∷ []) (self.new.raw.block ∷ []) }
        ensures ok { OnOk result (TakesAll T.Item I.next_gives I.remaining iter a.old a.new self.old self.new) }
        ensures err { IfErr result (TakesSome T.Item I.next_gives I.remaining iter a.old a.new self.old
            self.new) }
    {
        let mut iter = iter;
        while let Some(value) = iter.next() {
            let hint = hint_of(&iter, self.raw.len == self.raw.cap);
            self.push_hinted(a, value, hint)?;
        }
        Ok(())
    }

    /// Returns a vector of an iterator's items, with room at first for exactly `room`. No item is taken before there is
    /// that room. If more come it grows, as by `extend`.
    ///
    /// # Errors
    ///
    /// As for `with_capacity_in`, and then as for `extend`. What was placed stays.
    pub fn from_iter_with_room_in<C: ChunkSource, I: Iterator<Item = T>>(
        iter: I,
        room: u64,
        a: &mut Allocator<C>,
    ) -> Grown<Vec<T>>
    where
        I: Drop,
        requires small { T.SIZE ≤ 2 ^ 24 }
        requires can { (between : View) (empty : Vec T)
            → Makes T.Item (λ v. v.raw) a.old between room [] (Ok empty) → I.can_next iter }
        requires ends { IsFinite (I.remaining iter) }
        ensures held { IfOk result (IsVecIn T.Item a.new.memory) }
        ensures frame { IfOk result (λ v. Frame a.old.memory a.new.memory [] (v.raw.block ∷ [])) }
        ensures beside { OnErr result (Frame a.old.memory a.new.memory [] []) }
        ensures builds { BuildsWith T.Item I.next_gives I.remaining iter a.old a.new room result }
    {
        let mut vec = Vec::with_capacity_in(room, a)?;
        vec.extend(a, iter)?;
        Ok(vec)
    }

    /// Returns a vector of an iterator's items, by `from_iter_with_room_in` with the room that the iterator's hints
    /// give: for the greatest number that it says are to come, or otherwise for the least, if they fit. Of what fits,
    /// only the iterator bounds the greatest number.
    ///
    /// # Errors
    ///
    /// As for `from_iter_with_room_in`.
    pub fn from_iter_in<C: ChunkSource, I: Iterator<Item = T>>(
        iter: I,
        a: &mut Allocator<C>,
    ) -> Grown<Vec<T>>
    where
        I: Drop,
        requires small { T.SIZE ≤ 2 ^ 24 }
        requires can { (room : ℕ) (between : View) (empty : Vec T)
            → Makes T.Item (λ v. v.raw) a.old between room [] (Ok empty) → I.can_next iter }
        requires ends { IsFinite (I.remaining iter) }
        ensures held { IfOk result (IsVecIn T.Item a.new.memory) }
        ensures frame { IfOk result (λ v. Frame a.old.memory a.new.memory [] (v.raw.block ∷ [])) }
        ensures beside { OnErr result (Frame a.old.memory a.new.memory [] []) }
        ensures builds { BuildsFrom T.Item I.next_gives I.remaining iter a.old a.new result }
    {
        let (least, most) = iter.size_hint();
        let room = room_at_first(T::SIZE, least as u64, most);
        Vec::from_iter_with_room_in(iter, room, a)
    }
}
