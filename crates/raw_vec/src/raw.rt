// The storage of a vector: a block, with a length and a capacity.
ghost use Rattle.std.specs.Prelude.{◌≡◌, ℕ, ◌+◌, ◌-◌, ◌*◌, ◌^◌, ◌<◌, ◌≤◌, [], OnOk, IfOk, OnErr, if◌then◌else◌, ◌==◌};
ghost use Rattle.arena_chunks.specs.Memory.{Memory};
ghost use Rattle.arena_chunks.specs.BlockCalls.{GivesBack};
ghost use Rattle.arena_items.specs.Values.{IsHeld};
ghost use Rattle.raw_vec.specs.Growth.{amortised_growth, exact_growth, growth_by, empty_capacity, IsMore};
ghost use Rattle.raw_vec.specs.Held.{IsRawIn, empty_block};
ghost use Rattle.arena_items.specs.Room.{MakesRoom};
ghost use Rattle.raw_vec.specs.Storage.{IsGrown, Reserves, Makes, ShrinksTo};

use crate::growth::plan;
use arena_chunks::{Allocator, Block, BlockAlloc, ChunkSource};
use arena_items::{AllocError, Grown, Growth, Item, take_room};
use arena_place::Layout;
use std::marker::PhantomData;

/// A block with room for values, their number, and the capacity. It is a name: two of them may name the same block.
#[derive(Clone, Copy)]
pub struct RawVec<T> {
    /// The number of values for which there is room.
    pub cap: u32,
    /// The number of values.
    pub len: u32,
    /// The block of the values' bytes.
    pub block: Block,
    /// The type of the values, which takes no space in the handle.
    pub of: PhantomData<T>,
}

// Returns the layout of `n` values.
#[tactic(auto, using(arena_items::proofs::Layers::row_is_layout))]
#[inline(always)]
fn layout_of<T: Item>(n: u64) -> Layout
    requires small { T.SIZE ≤ 2 ^ 24 }
    requires few { n < 2 ^ 32 }
    ensures size { result.size ≡ n * T.SIZE }
    ensures align { result.align ≡ T.ALIGN }
{
    Layout::of(n * T::SIZE, T::ALIGN)
}

// Returns the same block, with a layout that the compiler knows.
#[inline(always)]
pub(crate) fn known_block<T: Item>(block: Block, cap: u64) -> Block
    requires small { T.SIZE ≤ 2 ^ 24 }
    requires few { cap < 2 ^ 32 }
    requires size { block.size ≡ cap * T.SIZE }
    requires align { block.align ≡ T.ALIGN }
    ensures { result ≡ block }
{
    Block {
        generation: block.generation,
        addr: block.addr,
        size: cap * T::SIZE,
        align: T::ALIGN,
    }
}

// Returns the storage after a growth.
#[tactic(auto, using(crate::proofs::RoomLemmas::taken))]
#[inline(always)]
fn grown<T: Item, C: ChunkSource>(
    a: &mut Allocator<C>,
    old: RawVec<T>,
    growth: Growth,
) -> Grown<RawVec<T>>
    requires small { T.SIZE ≤ 2 ^ 24 }
    requires held { IsRawIn T.Item a.old.memory old }
    requires more { IsMore T.SIZE old.cap growth }
    ensures made { MakesRoom T.SIZE T.ALIGN a.old a.new old.block old.cap growth (λ r. r.block) result }
    ensures grown { IfOk result (IsGrown T.Item a.old.memory a.new.memory old growth) }
    ensures err { OnErr result (a.new.memory ≡ a.old.memory) }
{
    match growth {
        Growth::Stays => Ok(old),
        Growth::Overflows => Err(AllocError::CapacityOverflow),
        Growth::GrowsTo { cap } => {
            let had = old.cap as u64;
            let block = known_block::<T>(old.block, had);
            let block = take_room(a, block, had, layout_of::<T>(cap))?;
            Ok(RawVec {
                block: known_block::<T>(block, cap),
                len: old.len,
                cap: cap as u32,
                of: PhantomData,
            })
        }
    }
}

/// Returns the storage with room for `additional` values after the first `len`: for exactly these if `exact`, and
/// otherwise by amortised growth. Inlined together with the arena's call, so that the storage stays in registers.
///
/// # Errors
///
/// `CapacityOverflow` if that many don't fit, and otherwise as for the arena's `alloc_layout` or `grow`.
#[tactic(auto, using(crate::proofs::RoomLemmas::growths))]
#[inline(always)]
pub fn reserved<T: Item, C: ChunkSource>(
    a: &mut Allocator<C>,
    old: RawVec<T>,
    len: u32,
    additional: u64,
    exact: bool,
) -> Grown<RawVec<T>>
    requires small { T.SIZE ≤ 2 ^ 24 }
    requires held { IsRawIn T.Item a.old.memory old }
    ensures made { let growth = growth_by exact T.SIZE old.cap (len + additional) in
        MakesRoom T.SIZE T.ALIGN a.old a.new old.block old.cap growth (λ r. r.block) result }
    ensures grown { let growth = growth_by exact T.SIZE old.cap (len + additional) in
        IfOk result (IsGrown T.Item a.old.memory a.new.memory old growth) }
    ensures enough { IfOk result (λ r. len + additional ≤ r.cap) }
    ensures err { OnErr result (a.new.memory ≡ a.old.memory) }
{
    let growth = plan(T::SIZE, old.cap, len, additional, exact);
    grown(a, old, growth)
}

#[tactic(auto, using(crate::proofs::RoomLemmas::room_laws))]
impl<T: Item> RawVec<T> {
    /// Returns storage without values or block. For values of no bytes there is room for 4,294,967,295.
    pub fn new_in() -> RawVec<T>
        ensures held { (memory : Memory) → IsRawIn T.Item memory result }
        ensures len { result.len ≡ 0 }
        ensures cap { result.cap ≡ empty_capacity T.SIZE }
        ensures block { result.block ≡ empty_block T.ALIGN }
    {
        RawVec {
            block: Block::empty(T::ALIGN),
            len: 0,
            cap: if T::SIZE == 0 { u32::MAX } else { 0 },
            of: PhantomData,
        }
    }

    /// Returns storage without values, with room for exactly `cap`. For values of no bytes there is room for
    /// 4,294,967,295.
    ///
    /// # Errors
    ///
    /// `CapacityOverflow` if that many don't fit, and otherwise as for the arena's `alloc_layout`.
    pub fn with_capacity_in<C: ChunkSource>(cap: u64, a: &mut Allocator<C>) -> Grown<RawVec<T>>
        requires { T.SIZE ≤ 2 ^ 24 }
        ensures { Makes T.Item (λ r. r) a.old a.new cap [] result }
    {
        let raw = reserved(a, RawVec::new_in(), 0, cap, true)?;
        Ok(raw)
    }

    /// Returns storage made of these parts. For values of no bytes there is room for 4,294,967,295, whatever `cap`
    /// says.
    pub fn from_raw_parts_in(block: Block, len: u32, cap: u32) -> RawVec<T>
        requires size { block.size ≡ cap * T.SIZE }
        requires align { block.align ≡ T.ALIGN }
        requires within { len ≤ cap }
        ensures held { (memory : Memory) → IsHeld (cap * T.SIZE) T.ALIGN memory.state block
            → IsRawIn T.Item memory result }
        ensures block { result.block ≡ block }
        ensures len { result.len ≡ len }
        ensures cap { result.cap ≡ (if T.SIZE == 0 then 2 ^ 32 - 1 else cap) }
    {
        RawVec {
            block,
            len,
            cap: if T::SIZE == 0 { u32::MAX } else { cap },
            of: PhantomData,
        }
    }

    /// Returns the block.
    pub fn ptr(&self) -> Block
        ensures { result ≡ self.now.block }
    {
        self.block
    }

    /// Returns the number of values.
    pub fn len_u32(&self) -> u32
        ensures { result ≡ self.now.len }
    {
        self.len
    }

    /// Returns the number of values.
    pub fn len_usize(&self) -> usize
        ensures { result ≡ self.now.len }
    {
        self.len as usize
    }

    /// Returns the number of values for which there is room.
    pub fn capacity_u32(&self) -> u32
        ensures { result ≡ self.now.cap }
    {
        self.cap
    }

    /// Returns the number of values for which there is room.
    pub fn capacity_usize(&self) -> usize
        ensures { result ≡ self.now.cap }
    {
        self.cap as usize
    }

    /// Increases the number of values by `n`.
    pub fn increase_len(&mut self, n: u32)
        requires { self.old.len + n ≤ self.old.cap }
        ensures { self.new ≡ record self.old { len = self.old.len + n } }
    {
        self.len += n;
    }

    /// Decreases the number of values by `n`.
    pub fn decrease_len(&mut self, n: u32)
        requires within { n ≤ self.old.len }
        ensures { self.new ≡ record self.old { len = self.old.len - n } }
    {
        self.len -= n;
    }

    // Makes room for `additional` values after the first `len`.
    fn reserve_by<C: ChunkSource>(
        &mut self,
        a: &mut Allocator<C>,
        len: u32,
        additional: u64,
        exact: bool,
    ) -> Grown<()>
        requires small { T.SIZE ≤ 2 ^ 24 }
        requires held { IsRawIn T.Item a.old.memory self.old }
        ensures reserves { let growth = growth_by exact T.SIZE self.old.cap (len + additional) in
            Reserves T.Item a.old a.new self.old growth self.new result }
        ensures enough { OnOk result (len + additional ≤ self.new.cap) }
    {
        *self = reserved(a, *self, len, additional, exact)?;
        Ok(())
    }

    /// Makes room for `additional` values after the first `len`. If there is less, the capacity becomes twice what it
    /// is, or what is required if that is more or if twice the capacity doesn't fit.
    ///
    /// # Errors
    ///
    /// `CapacityOverflow` if that many don't fit, and otherwise as for the arena's `alloc_layout` or `grow`. Nothing
    /// changes.
    pub fn try_reserve<C: ChunkSource>(
        &mut self,
        a: &mut Allocator<C>,
        len: u32,
        additional: u64,
    ) -> Grown<()>
        requires small { T.SIZE ≤ 2 ^ 24 }
        requires held { IsRawIn T.Item a.old.memory self.old }
        ensures reserves { let growth = amortised_growth T.SIZE self.old.cap (len + additional) in
            Reserves T.Item a.old a.new self.old growth self.new result }
        ensures enough { OnOk result (len + additional ≤ self.new.cap) }
    {
        self.reserve_by(a, len, additional, false)
    }

    /// Makes room for `additional` values after the first `len`, as `try_reserve` does.
    ///
    /// # Errors
    ///
    /// `CapacityOverflow` if that many don't fit, and otherwise as for the arena's `alloc_layout` or `grow`. Nothing
    /// changes.
    pub fn reserve<C: ChunkSource>(
        &mut self,
        a: &mut Allocator<C>,
        len: u32,
        additional: u64,
    ) -> Grown<()>
        requires small { T.SIZE ≤ 2 ^ 24 }
        requires held { IsRawIn T.Item a.old.memory self.old }
        ensures reserves { let growth = amortised_growth T.SIZE self.old.cap (len + additional) in
            Reserves T.Item a.old a.new self.old growth self.new result }
        ensures enough { OnOk result (len + additional ≤ self.new.cap) }
    {
        self.reserve_by(a, len, additional, false)
    }

    /// Makes room for exactly `additional` values after the first `len`, if there is less.
    ///
    /// # Errors
    ///
    /// `CapacityOverflow` if that many don't fit, and otherwise as for the arena's `alloc_layout` or `grow`. Nothing
    /// changes.
    pub fn try_reserve_exact<C: ChunkSource>(
        &mut self,
        a: &mut Allocator<C>,
        len: u32,
        additional: u64,
    ) -> Grown<()>
        requires small { T.SIZE ≤ 2 ^ 24 }
        requires held { IsRawIn T.Item a.old.memory self.old }
        ensures reserves { let growth = exact_growth T.SIZE self.old.cap (len + additional) in
            Reserves T.Item a.old a.new self.old growth self.new result }
        ensures enough { OnOk result (len + additional ≤ self.new.cap) }
    {
        self.reserve_by(a, len, additional, true)
    }

    /// Makes room for exactly `additional` values after the first `len`, as `try_reserve_exact` does.
    ///
    /// # Errors
    ///
    /// `CapacityOverflow` if that many don't fit, and otherwise as for the arena's `alloc_layout` or `grow`. Nothing
    /// changes.
    pub fn reserve_exact<C: ChunkSource>(
        &mut self,
        a: &mut Allocator<C>,
        len: u32,
        additional: u64,
    ) -> Grown<()>
        requires small { T.SIZE ≤ 2 ^ 24 }
        requires held { IsRawIn T.Item a.old.memory self.old }
        ensures reserves { let growth = exact_growth T.SIZE self.old.cap (len + additional) in
            Reserves T.Item a.old a.new self.old growth self.new result }
        ensures enough { OnOk result (len + additional ≤ self.new.cap) }
    {
        self.reserve_by(a, len, additional, true)
    }

    /// Makes room for at least one value more than the capacity.
    ///
    /// # Errors
    ///
    /// As for `try_reserve`.
    pub fn grow_one<C: ChunkSource>(&mut self, a: &mut Allocator<C>) -> Grown<()>
        requires small { T.SIZE ≤ 2 ^ 24 }
        requires held { IsRawIn T.Item a.old.memory self.old }
        ensures reserves { let growth = amortised_growth T.SIZE self.old.cap (self.old.cap + 1) in
            Reserves T.Item a.old a.new self.old growth self.new result }
        ensures enough { OnOk result (self.old.cap + 1 ≤ self.new.cap) }
    {
        let cap = self.cap;
        self.reserve_by(a, cap, 1, false)
    }

    /// Shrinks the capacity to `amount`. With 0 the block is given back and all values are lost. For values of no bytes
    /// nothing changes.
    pub fn shrink_to_fit<C: ChunkSource>(&mut self, a: &mut Allocator<C>, amount: u32)
        requires small { T.SIZE ≤ 2 ^ 24 }
        requires held { IsRawIn T.Item a.old.memory self.old }
        requires less { amount ≤ self.old.cap }
        requires room { 0 < amount → self.old.len ≤ amount }
        ensures { ShrinksTo T.Item a.old a.new self.old amount self.new }
    {
        if T::SIZE == 0 || amount == self.cap {
            return;
        }
        if amount == 0 {
            // For the proof: the least alignment is 1.
            a.known();
            a.deallocate(self.block);
            *self = RawVec::new_in();
            return;
        }
        if let Ok(block) = a.shrink(self.block, layout_of::<T>(amount as u64)) {
            self.block = block;
            self.cap = amount;
        }
    }

    /// Gives the block back. The handle stays as it is.
    pub fn dealloc_buffer<C: ChunkSource>(&mut self, a: &mut Allocator<C>)
        requires held { IsRawIn T.Item a.old.memory self.old }
        ensures given { GivesBack a.old.memory a.new.memory self.old.block }
        ensures source { a.new.source ≡ a.old.source }
        ensures handle { self.new ≡ self.old }
    {
        a.deallocate(self.block);
    }
}
