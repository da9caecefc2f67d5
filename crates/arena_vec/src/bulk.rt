// Many values at once.
ghost use Rattle.std.specs.Prelude.{◌≡◌, ◌+◌, ◌-◌, ◌*◌, ◌^◌, ◌≤◌, [], ◌++◌, take, drop, length, replicate, OnOk, OnErr};
ghost use Rattle.std.specs.List.{flat_map};
ghost use Rattle.arena_chunks.specs.Memory.{Memory};
ghost use Rattle.arena_chunks.specs.Frame.{AreBlocksApart};
ghost use Rattle.arena_items.specs.Values.{IsSliceIn, slice_list};
ghost use Rattle.raw_vec.specs.Growth.{amortised_growth};
ghost use Rattle.raw_vec.specs.Storage.{Makes};
ghost use Rattle.arena_vec.specs.Vecs.{IsVecIn, vec_list};
ghost use Rattle.arena_vec.specs.Changes.{Grows, IsNow};

use crate::vec::Vec;
use arena_chunks::{Allocator, Block, ChunkSource};
use arena_items::{BoxSlice, Grown, Item, copy_items, put_copies, put_items};
use raw_vec::{RawVec, count_all, put_all, roomy};
use std::marker::PhantomData;

#[tactic(auto, using(crate::proofs::VecLemmas::vec_laws))]
impl<T: Item> Vec<T> {
    /// Appends values, in one pass.
    ///
    /// # Errors
    ///
    /// As for `try_reserve`. None of them was appended.
    #[inline(always)]
    pub fn extend_from_slice<C: ChunkSource>(
        &mut self,
        a: &mut Allocator<C>,
        other: &[T],
    ) -> Grown<()>
        requires small { T.SIZE ≤ 2 ^ 24 }
        requires held { IsVecIn T.Item a.old.memory self.old }
        ensures { let growth = amortised_growth T.SIZE self.old.raw.cap
            (self.old.raw.len + length other.now) in
            let list = vec_list T.Item a.old.memory self.old ++ other.now in
            Grows T.Item a.old a.new self.old growth list self.new result }
    {
        let n = other.len() as u64;
        let mut raw = roomy(a, self.raw, n)?;
        put_items(a, raw.block, raw.len as u64, other);
        raw.len += n as u32;
        self.raw = raw;
        Ok(())
    }

    /// The same as `extend_from_slice`.
    ///
    /// # Errors
    ///
    /// As for `extend_from_slice`.
    pub fn extend_from_slice_copy<C: ChunkSource>(
        &mut self,
        a: &mut Allocator<C>,
        other: &[T],
    ) -> Grown<()>
        requires small { T.SIZE ≤ 2 ^ 24 }
        requires held { IsVecIn T.Item a.old.memory self.old }
        ensures { let growth = amortised_growth T.SIZE self.old.raw.cap
            (self.old.raw.len + length other.now) in
            let list = vec_list T.Item a.old.memory self.old ++ other.now in
            Grows T.Item a.old a.new self.old growth list self.new result }
    {
        self.extend_from_slice(a, other)
    }

    /// Appends the values of many slices, one slice after another. Room is made once.
    ///
    /// # Errors
    ///
    /// As for `extend_from_slice`.
    pub fn extend_from_slices_copy<C: ChunkSource>(
        &mut self,
        a: &mut Allocator<C>,
        slices: &[&[T]],
    ) -> Grown<()>
        requires small { T.SIZE ≤ 2 ^ 24 }
        requires held { IsVecIn T.Item a.old.memory self.old }
        ensures { let more = flat_map (λ s. s.now) slices.now in
            let growth = amortised_growth T.SIZE self.old.raw.cap (self.old.raw.len + length more) in
            let list = vec_list T.Item a.old.memory self.old ++ more in
            Grows T.Item a.old a.new self.old growth list self.new result }
    {
        // For the proof: the capacity fits in 32 bits.
        let _cap = self.raw.cap;
        let n = count_all(slices);
        let mut raw = roomy(a, self.raw, n)?;
        put_all(a, raw.block, raw.len as u64, slices);
        raw.len += n as u32;
        self.raw = raw;
        Ok(())
    }

    /// Resizes the vector to `new_len` values: the first ones, or all and then copies of `value`, written in one pass.
    ///
    /// # Errors
    ///
    /// As for `try_reserve`. Nothing changes.
    pub fn resize<C: ChunkSource>(
        &mut self,
        a: &mut Allocator<C>,
        new_len: u32,
        value: T,
    ) -> Grown<()>
        requires small { T.SIZE ≤ 2 ^ 24 }
        requires held { IsVecIn T.Item a.old.memory self.old }
        ensures { let growth = amortised_growth T.SIZE self.old.raw.cap new_len in
            let first = take new_len (vec_list T.Item a.old.memory self.old) in
            let list = first ++ replicate (new_len - self.old.raw.len) value in
            Grows T.Item a.old a.new self.old growth list self.new result }
    {
        if new_len <= self.raw.len {
            self.raw.len = new_len;
            return Ok(());
        }
        let n = (new_len - self.raw.len) as u64;
        let mut raw = roomy(a, self.raw, n)?;
        put_copies(a, raw.block, raw.len as u64, n, value);
        raw.len = new_len;
        self.raw = raw;
        Ok(())
    }

    /// Appends the values of another vector, in one move of memory, and leaves that one empty.
    ///
    /// # Errors
    ///
    /// As for `try_reserve`. Nothing changes.
    pub fn append<C: ChunkSource>(&mut self, a: &mut Allocator<C>, other: &mut Vec<T>) -> Grown<()>
        requires small { T.SIZE ≤ 2 ^ 24 }
        requires held { IsVecIn T.Item a.old.memory self.old }
        requires other { IsVecIn T.Item a.old.memory other.old }
        requires apart { AreBlocksApart other.old.raw.block self.old.raw.block }
        ensures grows { let growth = amortised_growth T.SIZE self.old.raw.cap
            (self.old.raw.len + other.old.raw.len) in
            let list = vec_list T.Item a.old.memory self.old ++ vec_list T.Item a.old.memory other.old in
            Grows T.Item a.old a.new self.old growth list self.new result }
        ensures other { OnOk result (IsNow T.Item a.new.memory other.old [] other.new) }
        ensures kept { OnErr result (other.new ≡ other.old) }
        ensures apart { AreBlocksApart other.new.raw.block self.new.raw.block }
    {
        let n = other.raw.len;
        let mut raw = roomy(a, self.raw, n as u64)?;
        copy_items::<T, C>(a, other.raw.block, 0, raw.block, raw.len as u64, n as u64);
        raw.len += n;
        self.raw = raw;
        other.raw.len = 0;
        Ok(())
    }

    /// Splits off the values from an index on into a new vector, in one move of memory.
    ///
    /// # Errors
    ///
    /// As for `with_capacity_in`. Nothing changes.
    pub fn split_off<C: ChunkSource>(&mut self, a: &mut Allocator<C>, at: u32) -> Grown<Vec<T>>
        requires small { T.SIZE ≤ 2 ^ 24 }
        requires held { IsVecIn T.Item a.old.memory self.old }
        requires index { at ≤ self.old.raw.len }
        ensures makes { let tail = drop at (vec_list T.Item a.old.memory self.old) in
            Makes T.Item (λ v. v.raw) a.old a.new (self.old.raw.len - at) tail result }
        ensures first { let first = take at (vec_list T.Item a.old.memory self.old) in
            OnOk result (IsNow T.Item a.new.memory self.old first self.new) }
        ensures kept { OnErr result (self.new ≡ self.old) }
    {
        let n = self.raw.len - at;
        let mut raw = RawVec::with_capacity_in(n as u64, a)?;
        copy_items::<T, C>(a, self.raw.block, at as u64, raw.block, 0, n as u64);
        raw.len = n;
        self.raw.len = at;
        Ok(Vec { raw })
    }

    /// Returns the values as a boxed slice, which names a front of the vector's block. Nothing is moved.
    pub fn into_boxed_slice(self) -> BoxSlice<T>
        requires small { T.SIZE ≤ 2 ^ 24 }
        ensures held { (memory : Memory) → IsVecIn T.Item memory self → IsSliceIn T.Item memory result }
        ensures list { (memory : Memory) → IsVecIn T.Item memory self
            → slice_list T.Item memory result ≡ vec_list T.Item memory self }
        ensures length { result.length ≡ self.raw.len }
        ensures block { result.block ≡ record self.raw.block { size = self.raw.len * T.SIZE } }
    {
        let block = self.raw.block;
        BoxSlice {
            block: Block {
                generation: block.generation,
                addr: block.addr,
                size: self.raw.len as u64 * T::SIZE,
                align: block.align,
            },
            length: self.raw.len as u64,
            of: PhantomData,
        }
    }

    /// The same as `into_boxed_slice`.
    pub fn into_arena_slice(self) -> BoxSlice<T>
        requires small { T.SIZE ≤ 2 ^ 24 }
        ensures held { (memory : Memory) → IsVecIn T.Item memory self → IsSliceIn T.Item memory result }
        ensures list { (memory : Memory) → IsVecIn T.Item memory self
            → slice_list T.Item memory result ≡ vec_list T.Item memory self }
        ensures length { result.length ≡ self.raw.len }
        ensures block { result.block ≡ record self.raw.block { size = self.raw.len * T.SIZE } }
    {
        self.into_boxed_slice()
    }

    /// The same as `into_boxed_slice`.
    pub fn into_arena_slice_mut(self) -> BoxSlice<T>
        requires small { T.SIZE ≤ 2 ^ 24 }
        ensures held { (memory : Memory) → IsVecIn T.Item memory self → IsSliceIn T.Item memory result }
        ensures list { (memory : Memory) → IsVecIn T.Item memory self
            → slice_list T.Item memory result ≡ vec_list T.Item memory self }
        ensures length { result.length ≡ self.raw.len }
        ensures block { result.block ≡ record self.raw.block { size = self.raw.len * T.SIZE } }
    {
        self.into_boxed_slice()
    }
}

impl<T: Item> From<Vec<T>> for BoxSlice<T> {
    ghost from_gives = { λ v s. (s.length ≡ v.raw.len)
        × (T.SIZE ≤ 2 ^ 24 → s.block ≡ record v.raw.block { size = v.raw.len * T.SIZE })
        × (T.SIZE ≤ 2 ^ 24 → (memory : Memory) → IsVecIn T.Item memory v
        → IsSliceIn T.Item memory s × (slice_list T.Item memory s ≡ vec_list T.Item memory v)) };

    fn from(vec: Vec<T>) -> BoxSlice<T> {
        let block = vec.raw.block;
        let length = vec.raw.len as u64;
        BoxSlice {
            block: Block {
                generation: block.generation,
                addr: block.addr,
                size: length.wrapping_mul(T::SIZE),
                align: block.align,
            },
            length,
            of: PhantomData,
        }
    }
}
