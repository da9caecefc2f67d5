// A vector of which a test picks the values to remove.
ghost use Rattle.std.specs.Prelude.{◌≡◌, ℕ, List, ◌-◌, ◌*◌, ◌^◌, ◌≤◌, [], ◌∷◌, ◌++◌, drop, IsTrue, Some, IfSome};
ghost use Rattle.std.specs.Fn.{CalledAtMut};
ghost use Rattle.std.specs.Iterator.{UpTo, at_most};
ghost use Rattle.std.specs.Iterator.SizeHint.{IsWithinCount};
ghost use Rattle.arena_chunks.specs.Memory.{is_readable};
ghost use Rattle.arena_chunks.specs.Frame.{Frame};
ghost use Rattle.arena_items.specs.Values.{bytes_of, elements};
ghost use Rattle.arena_items.specs.Room.{SamePlaces};
ghost use Rattle.arena_vec.specs.Vecs.{IsVecIn, vec_list};
ghost use Rattle.arena_vec.specs.Calling.{CallableOnListMut};
ghost use Rattle.arena_vec.specs.Filtering.{IsFilter, untested, stayed, Filters, Stays};
ghost use Rattle.std.specs.List.Retain.{RetainsInTurn};
ghost use Rattle.arena_vec.specs.Changes.{Becomes};

use crate::vec::Vec;
use arena_chunks::{Allocator, Block, ChunkSource};
use arena_items::{Item, item_at, put_item};

/// A vector of which a test picks the values to remove. They are taken in order, and `finish` removes the rest of them.
#[derive(Drop)]
pub struct DrainFilter<'s, T: Item, C: ChunkSource, F: Drop> {
    /// The vector.
    pub vec: &'s mut Vec<T>,
    /// The arena that it is in.
    pub arena: &'s mut Allocator<C>,
    /// The test, which picks by `true`.
    pub pred: F,
    /// How many values were tested.
    pub front: u32,
    /// How many of those stay. They come first.
    pub kept: u32,
}

impl<T: Item> Vec<T> {
    /// Removes the values that a test picks, once `finish` is called. If the iterator is dropped before, values may
    /// have been moved: nothing is said of the vector's list then.
    #[tactic(auto, using(raw_vec::proofs::Windows::drain_laws, crate::proofs::SiftLemmas::values_drop))]
    pub fn drain_filter<'s, C: ChunkSource, F: FnMut(&mut T) -> bool + Drop>(
        &'s mut self,
        a: &'s mut Allocator<C>,
        pred: F,
    ) -> DrainFilter<'s, T, C, F>
        requires small { T.SIZE ≤ 2 ^ 24 }
        requires held { IsVecIn T.Item a.old.memory self.old }
        requires callable { CallableOnListMut F.FnMut (vec_list T.Item a.old.memory self.old) pred }
        ensures same_vec { result.vec.ghost_name ≡ self.entry.ghost_name }
        ensures same_arena { result.arena.ghost_name ≡ a.entry.ghost_name }
        ensures vec { result.vec.now ≡ self.old }
        ensures arena { result.arena.now ≡ a.old }
        ensures pred { result.pred ≡ pred }
        ensures filters { IsFilter T.Item (CallableOnListMut F.FnMut) result }
        ensures untested { untested T.Item result ≡ vec_list T.Item a.old.memory self.old }
        ensures stayed { stayed T.Item result ≡ [] }
    {
        DrainFilter {
            vec: self,
            arena: a,
            pred,
            front: 0,
            kept: 0,
        }
    }
}

// Tests the values from `front` on. Those that the test doesn't pick move down after the first `kept`.
fn drop_rest<T: Item, C: ChunkSource, F: FnMut(&mut T) -> bool + Drop>(
    a: &mut Allocator<C>,
    block: Block,
    len: u32,
    front: u32,
    kept: u32,
    pred: F,
) -> u32
    requires small { T.SIZE ≤ 2 ^ 24 }
    requires readable { IsTrue (is_readable a.old.memory.state block) }
    requires room { len * T.SIZE ≤ block.size }
    requires order { kept ≤ front }
    requires within { front ≤ len }
    requires callable { CallableOnListMut F.FnMut
        (elements T.SIZE T.decoded (len - front) (drop (front * T.SIZE) (bytes_of a.old.memory block))) pred }
    ensures fewer { result ≤ len }
    ensures list { (rest : List T) × RetainsInTurn (Stays (CalledAtMut F.FnMut)) pred
        (elements T.SIZE T.decoded (len - front) (drop (front * T.SIZE) (bytes_of a.old.memory block))) rest
        × (elements T.SIZE T.decoded result (bytes_of a.new.memory block)
        ≡ elements T.SIZE T.decoded kept (bytes_of a.old.memory block) ++ rest) }
    ensures places { SamePlaces a.old a.new }
    ensures frame { Frame a.old.memory a.new.memory (block ∷ []) (block ∷ []) }
{
    let mut pred = pred;
    let mut stay = kept;
    for k in front..len {
        let mut item: T = item_at(a, block, k as u64);
        if !pred(&mut item) {
            put_item(a, block, stay as u64, item);
            stay += 1;
        }
    }
    stay
}

impl<'s, T: Item, C: ChunkSource, F: FnMut(&mut T) -> bool + Drop> DrainFilter<'s, T, C, F> {
    /// Removes the rest of the values that the test picks. The others stay, as the test left them.
    pub fn finish(self)
        requires { IsFilter T.Item (CallableOnListMut F.FnMut) self }
        ensures becomes { (rest : List T) × RetainsInTurn (Stays (CalledAtMut F.FnMut)) self.entry.pred
            (untested T.Item self.entry) rest
            × Becomes T.Item self.entry.arena.now self.exit.1.0.now self.entry.vec.now
            (stayed T.Item self.entry ++ rest) self.exit.0.now }
        ensures held { IsVecIn T.Item self.exit.1.0.now.memory self.exit.0.now }
        ensures places { SamePlaces self.entry.arena.now self.exit.1.0.now }
        ensures frame { Frame self.entry.arena.now.memory self.exit.1.0.now.memory (self.entry.vec.now.raw.block ∷ [])
            (self.exit.0.now.raw.block ∷ []) }
    {
        let DrainFilter {
            vec,
            arena,
            pred,
            front,
            kept,
        } = self;
        vec.raw.len = drop_rest(arena, vec.raw.block, vec.raw.len, front, kept, pred);
    }
}

impl<'s, T: Item, C: ChunkSource, F: FnMut(&mut T) -> bool + Drop> Iterator
    for DrainFilter<'s, T, C, F> {
    type Item = T;

    ghost can_next = { IsFilter T.Item (CallableOnListMut F.FnMut) };

    ghost next_gives = { Filters T.Item (CallableOnListMut F.FnMut) (CalledAtMut F.FnMut) };

    ghost remaining = { λ s. at_most (s.vec.now.raw.len - s.front) };

    fn next(&mut self) -> Option<T> {
        let block = self.vec.raw.block;
        let len = self.vec.raw.len;
        while self.front < len {
            let mut item: T = item_at(self.arena, block, self.front as u64);
            self.front += 1;
            if (self.pred)(&mut item) {
                return Some(item);
            }
            put_item(self.arena, block, self.kept as u64, item);
            self.kept += 1;
        }
        None
    }

    fn size_hint(&self) -> (usize, Option<usize>)
        ensures lower { IsWithinCount result.0 (at_most (self.now.vec.now.raw.len - self.now.front)) }
        ensures upper { IfSome result.1 (UpTo (at_most (self.now.vec.now.raw.len - self.now.front))) }
        ensures exact { result ≡ (0, Some (self.now.vec.now.raw.len - self.now.front)) }
    {
        (
            0,
            Some(self.vec.raw.len.saturating_sub(self.front) as usize),
        )
    }
}
