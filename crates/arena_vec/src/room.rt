// Room for more values, and for no more than there are.
ghost use Rattle.std.specs.Prelude.{◌≡◌, ◌+◌, ◌^◌, ◌≤◌, OnOk};
ghost use Rattle.raw_vec.specs.Growth.{amortised_growth, exact_growth};
ghost use Rattle.raw_vec.specs.Storage.{ShrinksTo};
ghost use Rattle.arena_vec.specs.Vecs.{IsVecIn, vec_list};
ghost use Rattle.arena_vec.specs.Changes.{Grows};

use crate::vec::Vec;
use arena_chunks::{Allocator, ChunkSource};
use arena_items::{Grown, Item};
use raw_vec::{reserved, roomy};

#[tactic(auto, using(crate::proofs::VecLemmas::vec_laws))]
impl<T: Item> Vec<T> {
    /// Makes room for `additional` more values. If there is less, the capacity becomes twice what it is, or what is
    /// required if that is more or if twice the capacity doesn't fit.
    ///
    /// # Errors
    ///
    /// `CapacityOverflow` if that many don't fit, and otherwise as for the arena's `alloc_layout` or `grow`. Nothing
    /// changes.
    pub fn try_reserve<C: ChunkSource>(
        &mut self,
        a: &mut Allocator<C>,
        additional: u64,
    ) -> Grown<()>
        requires small { T.SIZE ≤ 2 ^ 24 }
        requires held { IsVecIn T.Item a.old.memory self.old }
        ensures grows { let growth = amortised_growth T.SIZE self.old.raw.cap
            (self.old.raw.len + additional) in
            Grows T.Item a.old a.new self.old growth (vec_list T.Item a.old.memory self.old) self.new result }
        ensures enough { OnOk result (self.old.raw.len + additional ≤ self.new.raw.cap) }
    {
        self.raw = roomy(a, self.raw, additional)?;
        Ok(())
    }

    /// The same as `try_reserve`.
    ///
    /// # Errors
    ///
    /// As for `try_reserve`.
    pub fn reserve<C: ChunkSource>(&mut self, a: &mut Allocator<C>, additional: u64) -> Grown<()>
        requires small { T.SIZE ≤ 2 ^ 24 }
        requires held { IsVecIn T.Item a.old.memory self.old }
        ensures grows { let growth = amortised_growth T.SIZE self.old.raw.cap
            (self.old.raw.len + additional) in
            Grows T.Item a.old a.new self.old growth (vec_list T.Item a.old.memory self.old) self.new result }
        ensures enough { OnOk result (self.old.raw.len + additional ≤ self.new.raw.cap) }
    {
        self.try_reserve(a, additional)
    }

    /// Makes room for exactly `additional` more values, if there is less.
    ///
    /// # Errors
    ///
    /// As for `try_reserve`.
    pub fn try_reserve_exact<C: ChunkSource>(
        &mut self,
        a: &mut Allocator<C>,
        additional: u64,
    ) -> Grown<()>
        requires small { T.SIZE ≤ 2 ^ 24 }
        requires held { IsVecIn T.Item a.old.memory self.old }
        ensures grows { let growth = exact_growth T.SIZE self.old.raw.cap (self.old.raw.len + additional) in
            Grows T.Item a.old a.new self.old growth (vec_list T.Item a.old.memory self.old) self.new result }
        ensures enough { OnOk result (self.old.raw.len + additional ≤ self.new.raw.cap) }
    {
        self.raw = reserved(a, self.raw, self.raw.len, additional, true)?;
        Ok(())
    }

    /// The same as `try_reserve_exact`.
    ///
    /// # Errors
    ///
    /// As for `try_reserve`.
    pub fn reserve_exact<C: ChunkSource>(
        &mut self,
        a: &mut Allocator<C>,
        additional: u64,
    ) -> Grown<()>
        requires small { T.SIZE ≤ 2 ^ 24 }
        requires held { IsVecIn T.Item a.old.memory self.old }
        ensures grows { let growth = exact_growth T.SIZE self.old.raw.cap (self.old.raw.len + additional) in
            Grows T.Item a.old a.new self.old growth (vec_list T.Item a.old.memory self.old) self.new result }
        ensures enough { OnOk result (self.old.raw.len + additional ≤ self.new.raw.cap) }
    {
        self.try_reserve_exact(a, additional)
    }

    /// Shrinks the capacity to the number of values. If there are none the block is given back. For values of no bytes
    /// nothing changes.
    pub fn shrink_to_fit<C: ChunkSource>(&mut self, a: &mut Allocator<C>)
        requires small { T.SIZE ≤ 2 ^ 24 }
        requires held { IsVecIn T.Item a.old.memory self.old }
        ensures shrinks { ShrinksTo T.Item a.old a.new self.old.raw self.old.raw.len self.new.raw }
        ensures held { IsVecIn T.Item a.new.memory self.new }
        ensures list { vec_list T.Item a.new.memory self.new ≡ vec_list T.Item a.old.memory self.old }
    {
        let len = self.raw.len;
        self.raw.shrink_to_fit(a, len);
    }
}
