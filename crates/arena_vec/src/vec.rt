// Vectors.
ghost use Rattle.std.specs.Prelude.{◌≡◌, ◌+◌, ◌-◌, ◌*◌, ◌^◌, ◌<◌, ◌≤◌, [], ◌∷◌, ◌++◌, take, length, Some, IfOk, slice_get, slice_set, if◌then◌else◌, ◌==◌};
ghost use Rattle.std.specs.List.{insert, remove, swap_remove, remove_range};
ghost use Rattle.arena_chunks.specs.Memory.{Memory, image, bytes_from};
ghost use Rattle.arena_chunks.specs.Source.{View};
ghost use Rattle.arena_chunks.specs.BlockCalls.{WritesBlock};
ghost use Rattle.arena_items.specs.Values.{elements, bytes_of, IsHeld};
ghost use Rattle.raw_vec.specs.Growth.{amortised_growth, empty_capacity};
ghost use Rattle.raw_vec.specs.Held.{empty_block};
ghost use Rattle.raw_vec.specs.Storage.{Makes};
ghost use Rattle.arena_vec.specs.Vecs.{IsVecIn, vec_list};
ghost use Rattle.arena_vec.specs.Changes.{Becomes, Grows};

use arena_chunks::{Allocator, Block, ChunkSource};
use arena_items::{Grown, Item, item_at, move_items, put_item, put_items};
use raw_vec::{RawVec, roomy};

/// The handle of a list in an arena. It is a name: two of them may name the same list.
#[derive(Clone, Copy)]
pub struct Vec<T> {
    /// The storage of the values.
    pub raw: RawVec<T>,
}

/// The Rust crate's name for it.
pub type ArenaVec<T> = Vec<T>;

#[tactic(auto, using(crate::proofs::VecLemmas::vec_laws))]
impl<T: Item> Vec<T> {
    /// Returns a vector without values or storage.
    pub fn new_in() -> Vec<T>
        ensures held { (memory : Memory) → IsVecIn T.Item memory result }
        ensures list { (memory : Memory) → vec_list T.Item memory result ≡ [] }
        ensures len { result.raw.len ≡ 0 }
        ensures cap { result.raw.cap ≡ empty_capacity T.SIZE }
        ensures block { result.raw.block ≡ empty_block T.ALIGN }
    {
        Vec {
            raw: RawVec::new_in(),
        }
    }

    /// Returns a vector without values, with room for exactly `capacity`. For values of no bytes there is room for
    /// 4,294,967,295.
    ///
    /// # Errors
    ///
    /// `CapacityOverflow` if that many don't fit, and otherwise as for the arena's `alloc_layout`.
    pub fn with_capacity_in<C: ChunkSource>(capacity: u64, a: &mut Allocator<C>) -> Grown<Vec<T>>
        requires { T.SIZE ≤ 2 ^ 24 }
        ensures { Makes T.Item (λ v. v.raw) a.old a.new capacity [] result }
    {
        let raw = RawVec::with_capacity_in(capacity, a)?;
        Ok(Vec { raw })
    }

    /// Returns a vector of one value, with room for it alone.
    ///
    /// # Errors
    ///
    /// As for `with_capacity_in`.
    pub fn from_value_in<C: ChunkSource>(value: T, a: &mut Allocator<C>) -> Grown<Vec<T>>
        requires { T.SIZE ≤ 2 ^ 24 }
        ensures { Makes T.Item (λ v. v.raw) a.old a.new 1 (value ∷ []) result }
    {
        let mut raw = RawVec::with_capacity_in(1, a)?;
        put_item(a, raw.block, 0, value);
        raw.len = 1;
        Ok(Vec { raw })
    }

    /// Returns a vector of an array's values, with room for them alone.
    ///
    /// # Errors
    ///
    /// As for `with_capacity_in`.
    pub fn from_array_in<const N: usize, C: ChunkSource>(
        array: [T; N],
        a: &mut Allocator<C>,
    ) -> Grown<Vec<T>>
        requires { T.SIZE ≤ 2 ^ 24 }
        ensures { Makes T.Item (λ v. v.raw) a.old a.new (length array) array result }
    {
        let values: &[T] = &array;
        let n = values.len() as u64;
        let mut raw = RawVec::with_capacity_in(n, a)?;
        put_items(a, raw.block, 0, values);
        raw.len = n as u32;
        Ok(Vec { raw })
    }

    /// Returns a vector of the values in a block. For values of no bytes there is room for 4,294,967,295, whatever
    /// `capacity` says.
    pub fn from_raw_parts_in(block: Block, length: u32, capacity: u32) -> Vec<T>
        requires size { block.size ≡ capacity * T.SIZE }
        requires align { block.align ≡ T.ALIGN }
        requires within { length ≤ capacity }
        ensures held { (memory : Memory) → IsHeld (capacity * T.SIZE) T.ALIGN memory.state block
            → IsVecIn T.Item memory result }
        ensures list { (memory : Memory) → vec_list T.Item memory result
            ≡ elements T.SIZE T.decoded length (bytes_of memory block) }
        ensures block { result.raw.block ≡ block }
        ensures len { result.raw.len ≡ length }
        ensures cap { result.raw.cap ≡ (if T.SIZE == 0 then 2 ^ 32 - 1 else capacity) }
    {
        Vec {
            raw: RawVec::from_raw_parts_in(block, length, capacity),
        }
    }

    /// Returns the number of values.
    #[inline]
    pub fn len(&self) -> u32
        ensures { result ≡ self.now.raw.len }
    {
        self.raw.len
    }

    /// Returns whether there are none.
    #[inline]
    pub fn is_empty(&self) -> bool
        ensures { result ≡ (self.now.raw.len == 0) }
    {
        self.raw.len == 0
    }

    /// Returns the number of values for which there is room.
    #[inline]
    pub fn capacity(&self) -> u32
        ensures { result ≡ self.now.raw.cap }
    {
        self.raw.cap
    }

    /// Returns the block of the values.
    pub fn as_ptr(&self) -> Block
        ensures { result ≡ self.now.raw.block }
    {
        self.raw.block
    }

    /// Returns the block of the values.
    pub fn as_mut_ptr(&mut self) -> Block
        ensures block { result ≡ self.old.raw.block }
        ensures handle { self.new ≡ self.old }
    {
        self.raw.block
    }

    /// Returns the value at an index.
    #[inline]
    pub fn get<C: ChunkSource>(&self, a: &Allocator<C>, i: u32) -> T
        requires small { T.SIZE ≤ 2 ^ 24 }
        requires held { IsVecIn T.Item a.now.memory self.now }
        requires index { i < self.now.raw.len }
        ensures { slice_get (vec_list T.Item a.now.memory self.now) i ≡ Some result }
    {
        item_at(a, self.raw.block, i as u64)
    }

    /// Replaces the value at an index. Only the value's own bytes change.
    #[inline]
    pub fn set<C: ChunkSource>(&mut self, a: &mut Allocator<C>, i: u32, value: T)
        requires small { T.SIZE ≤ 2 ^ 24 }
        requires held { IsVecIn T.Item a.old.memory self.old }
        requires index { i < self.old.raw.len }
        ensures becomes { let list = slice_set (vec_list T.Item a.old.memory self.old) i value in
            Becomes T.Item a.old a.new self.old list self.new }
        ensures writes { WritesBlock a.old.memory a.new.memory self.old.raw.block (i * T.SIZE)
            (T.encoded value) }
    {
        put_item(a, self.raw.block, i as u64, value);
    }

    /// Returns the bytes of the values, one after another.
    pub fn as_slice<'x, C: ChunkSource>(&self, a: &'x Allocator<C>) -> &'x [u8]
        requires small { T.SIZE ≤ 2 ^ 24 }
        requires held { IsVecIn T.Item a.now.memory self.now }
        ensures bytes { result.now
            ≡ bytes_from (image a.now.memory) self.now.raw.block.addr (self.now.raw.len * T.SIZE) }
        ensures list { elements T.SIZE T.decoded self.now.raw.len result.now
            ≡ vec_list T.Item a.now.memory self.now }
    {
        let n = (self.raw.len as u64 * T::SIZE) as usize;
        &a.read(self.raw.block)[..n]
    }

    /// Keeps the first `len` values, or all if they are fewer.
    #[inline]
    pub fn truncate(&mut self, len: u32)
        ensures held { (m : Memory) → IsVecIn T.Item m self.old → IsVecIn T.Item m self.new }
        ensures becomes { (a : View) → IsVecIn T.Item a.memory self.old
            → Becomes T.Item a a self.old (take len (vec_list T.Item a.memory self.old)) self.new }
    {
        if len < self.raw.len {
            self.raw.len = len;
        }
    }

    /// Removes all values. The storage stays.
    #[inline]
    pub fn clear(&mut self)
        ensures held { (m : Memory) → IsVecIn T.Item m self.old → IsVecIn T.Item m self.new }
        ensures becomes { (a : View) → IsVecIn T.Item a.memory self.old → Becomes T.Item a a self.old [] self.new }
    {
        self.raw.len = 0;
    }

    // Appends a value, after making room for `additional` more values, of which it is one.
    #[inline(always)]
    pub(crate) fn push_with_room<C: ChunkSource>(
        &mut self,
        a: &mut Allocator<C>,
        value: T,
        additional: u64,
    ) -> Grown<()>
        requires small { T.SIZE ≤ 2 ^ 24 }
        requires held { IsVecIn T.Item a.old.memory self.old }
        requires some { 1 ≤ additional }
        ensures { let growth = amortised_growth T.SIZE self.old.raw.cap (self.old.raw.len + additional) in
            let list = vec_list T.Item a.old.memory self.old ++ value ∷ [] in
            Grows T.Item a.old a.new self.old growth list self.new result }
    {
        let mut raw = roomy(a, self.raw, additional)?;
        put_item(a, raw.block, raw.len as u64, value);
        raw.len += 1;
        self.raw = raw;
        Ok(())
    }

    /// Appends a value. Below the capacity no memory is taken.
    ///
    /// # Errors
    ///
    /// As for `try_reserve`.
    #[inline(always)]
    pub fn push<C: ChunkSource>(&mut self, a: &mut Allocator<C>, value: T) -> Grown<()>
        requires small { T.SIZE ≤ 2 ^ 24 }
        requires held { IsVecIn T.Item a.old.memory self.old }
        ensures { let growth = amortised_growth T.SIZE self.old.raw.cap (self.old.raw.len + 1) in
            let list = vec_list T.Item a.old.memory self.old ++ value ∷ [] in
            Grows T.Item a.old a.new self.old growth list self.new result }
    {
        self.push_with_room(a, value, 1)
    }

    /// The same as `push`.
    ///
    /// # Errors
    ///
    /// As for `try_reserve`.
    #[inline]
    pub fn push_fast<C: ChunkSource>(&mut self, a: &mut Allocator<C>, value: T) -> Grown<()>
        requires small { T.SIZE ≤ 2 ^ 24 }
        requires held { IsVecIn T.Item a.old.memory self.old }
        ensures { let growth = amortised_growth T.SIZE self.old.raw.cap (self.old.raw.len + 1) in
            let list = vec_list T.Item a.old.memory self.old ++ value ∷ [] in
            Grows T.Item a.old a.new self.old growth list self.new result }
    {
        self.push(a, value)
    }

    /// Appends a value, as `push` does, and returns its index.
    ///
    /// # Errors
    ///
    /// As for `try_reserve`.
    #[inline]
    pub fn push_mut<C: ChunkSource>(&mut self, a: &mut Allocator<C>, value: T) -> Grown<u32>
        requires small { T.SIZE ≤ 2 ^ 24 }
        requires held { IsVecIn T.Item a.old.memory self.old }
        ensures grows { let growth = amortised_growth T.SIZE self.old.raw.cap (self.old.raw.len + 1) in
            let list = vec_list T.Item a.old.memory self.old ++ value ∷ [] in
            Grows T.Item a.old a.new self.old growth list self.new result }
        ensures index { IfOk result (λ i. i ≡ self.old.raw.len) }
    {
        let index = self.raw.len;
        self.push(a, value)?;
        Ok(index)
    }

    /// The same as `push_mut`.
    ///
    /// # Errors
    ///
    /// As for `try_reserve`.
    #[inline]
    pub fn push_fast_mut<C: ChunkSource>(&mut self, a: &mut Allocator<C>, value: T) -> Grown<u32>
        requires small { T.SIZE ≤ 2 ^ 24 }
        requires held { IsVecIn T.Item a.old.memory self.old }
        ensures grows { let growth = amortised_growth T.SIZE self.old.raw.cap (self.old.raw.len + 1) in
            let list = vec_list T.Item a.old.memory self.old ++ value ∷ [] in
            Grows T.Item a.old a.new self.old growth list self.new result }
        ensures index { IfOk result (λ i. i ≡ self.old.raw.len) }
    {
        self.push_mut(a, value)
    }

    /// Removes the last value and returns it.
    #[inline]
    pub fn pop<C: ChunkSource>(&mut self, a: &Allocator<C>) -> Option<T>
        requires small { T.SIZE ≤ 2 ^ 24 }
        requires held { IsVecIn T.Item a.now.memory self.old }
        ensures becomes { let list = take (self.old.raw.len - 1) (vec_list T.Item a.now.memory self.old) in
            Becomes T.Item a.now a.now self.old list self.new }
        ensures value { slice_get (vec_list T.Item a.now.memory self.old) (self.old.raw.len - 1) ≡ result }
    {
        if self.raw.len == 0 {
            return None;
        }
        let last = self.get(a, self.raw.len - 1);
        self.raw.len -= 1;
        Some(last)
    }

    /// Inserts a value at an index. Those from there on move up by one, in one move of memory.
    ///
    /// # Errors
    ///
    /// As for `try_reserve`.
    pub fn insert<C: ChunkSource>(&mut self, a: &mut Allocator<C>, i: u32, value: T) -> Grown<()>
        requires small { T.SIZE ≤ 2 ^ 24 }
        requires held { IsVecIn T.Item a.old.memory self.old }
        requires index { i ≤ self.old.raw.len }
        ensures { let growth = amortised_growth T.SIZE self.old.raw.cap (self.old.raw.len + 1) in
            let list = insert (vec_list T.Item a.old.memory self.old) i value in
            Grows T.Item a.old a.new self.old growth list self.new result }
    {
        let mut raw = roomy(a, self.raw, 1)?;
        let at = i as u64;
        move_items::<T, C>(a, raw.block, at, at + 1, raw.len as u64 - at);
        put_item(a, raw.block, at, value);
        raw.len += 1;
        self.raw = raw;
        Ok(())
    }

    // Returns the vector without a range. What comes after it moves down, in one move of memory.
    pub(crate) fn without<C: ChunkSource>(
        self,
        a: &mut Allocator<C>,
        start: u32,
        end: u32,
    ) -> Vec<T>
        requires held { IsVecIn T.Item a.old.memory self }
        requires order { start ≤ end }
        requires within { end ≤ self.raw.len }
        ensures { let list = remove_range (vec_list T.Item a.old.memory self) start end in
            Becomes T.Item a.old a.new self list result }
    {
        let mut raw = self.raw;
        move_items::<T, C>(
            a,
            raw.block,
            end as u64,
            start as u64,
            (raw.len - end) as u64,
        );
        raw.len -= end - start;
        Vec { raw }
    }

    /// Removes the value at an index and returns it. Those after it move down by one, in one move of memory.
    pub fn remove<C: ChunkSource>(&mut self, a: &mut Allocator<C>, i: u32) -> T
        requires small { T.SIZE ≤ 2 ^ 24 }
        requires held { IsVecIn T.Item a.old.memory self.old }
        requires index { i < self.old.raw.len }
        ensures becomes { let list = remove (vec_list T.Item a.old.memory self.old) i in
            Becomes T.Item a.old a.new self.old list self.new }
        ensures value { slice_get (vec_list T.Item a.old.memory self.old) i ≡ Some result }
    {
        // For the proof: the length fits in 32 bits.
        let _len = self.raw.len;
        let value = self.get(a, i);
        *self = self.without(a, i, i + 1);
        value
    }

    /// Removes the value at an index and returns it. The last one takes its place.
    pub fn swap_remove<C: ChunkSource>(&mut self, a: &mut Allocator<C>, i: u32) -> T
        requires small { T.SIZE ≤ 2 ^ 24 }
        requires held { IsVecIn T.Item a.old.memory self.old }
        requires index { i < self.old.raw.len }
        ensures becomes { let list = swap_remove (vec_list T.Item a.old.memory self.old) i result in
            Becomes T.Item a.old a.new self.old list self.new }
        ensures value { slice_get (vec_list T.Item a.old.memory self.old) i ≡ Some result }
    {
        let value = self.get(a, i);
        let end = self.raw.len - 1;
        let last = self.get(a, end);
        put_item(a, self.raw.block, i as u64, last);
        self.raw.len = end;
        value
    }
}
