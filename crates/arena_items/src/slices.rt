// Boxed slices: the handles of sequences of values in an arena, and their byte form.
ghost use Rattle.std.specs.Prelude.{◌≡◌, ℕ, ◌*◌, ◌^◌, ◌<◌, ◌≤◌, ◌↔◌, List, [], IsTrue, Some, slice_get, slice_set, length, take, drop, refl};
ghost use Rattle.std.specs.Int.{w64, from_le_bytes};
ghost use Rattle.arena_chunks.specs.Memory.{Memory};
ghost use Rattle.arena_chunks.specs.BlockCalls.{WritesBlock};
ghost use Rattle.arena_items.specs.ByteForms.{IsBlockValue, block_of, slice_bytes};
ghost use Rattle.arena_items.specs.laws.LayoutLaws.{plain_40_8};
ghost use Rattle.arena_items.specs.laws.NumberLaws.{bytes_back};
ghost use Rattle.arena_items.specs.laws.HandleLaws.{block_back};
ghost use Rattle.arena_items.specs.Values.{IsSliceIn, bytes_of, elements, slice_list};

mod walk;

use crate::elements::{item_at, put_item};
use crate::item::Item;
use arena_chunks::{Allocator, Block, ChunkSource};
use std::marker::PhantomData;
pub use walk::SliceIter;

/// The handle of a sequence of values in an arena. It is a name: two of them may name the same values.
#[derive(Clone, Copy)]
pub struct BoxSlice<T> {
    /// The block of the values' bytes.
    pub block: Block,
    /// How many values there are.
    pub length: u64,
    /// The type of the values, which takes no space in the handle.
    pub of: PhantomData<T>,
}

#[tactic(auto, using(crate::proofs::ElementLemmas::list_laws))]
impl<T: Item> BoxSlice<T> {
    /// Returns a slice of no values, which has no place in any arena.
    pub fn new_empty_boxed_slice() -> BoxSlice<T>
        ensures length { result.length ≡ 0 }
        ensures block { result.block ≡ record { generation = 0; addr = T.ALIGN; size = 0; align = T.ALIGN } }
        ensures held { (memory : Memory) → IsSliceIn T.Item memory result }
        ensures list { (memory : Memory) → slice_list T.Item memory result ≡ [] }
    {
        BoxSlice {
            block: Block::empty(T::ALIGN),
            length: 0,
            of: PhantomData,
        }
    }

    /// Returns how many values there are.
    #[inline]
    pub fn len(self) -> u64
        ensures { result ≡ self.length }
    {
        self.length
    }

    /// Returns the slice itself.
    pub fn into_arena_slice(self) -> BoxSlice<T>
        ensures { result ≡ self }
    {
        self
    }

    /// Returns the slice itself.
    pub fn into_arena_slice_mut(self) -> BoxSlice<T>
        ensures { result ≡ self }
    {
        self
    }

    /// Returns whether the arena holds the slice: its block is readable there, and has the size and alignment of its
    /// values.
    #[inline]
    pub fn is_held<C: ChunkSource>(&self, a: &Allocator<C>) -> bool
        ensures { IsTrue result ↔ IsSliceIn T.Item a.now.memory self.now }
    {
        let size = self.block.size;
        let Some(needed) = self.length.checked_mul(T::SIZE) else {
            return false;
        };
        a.is_held_place(self.block) && size == needed && self.block.align == T::ALIGN
    }

    /// Returns the bytes of the values, one after another.
    pub fn as_slice<'x, C: ChunkSource>(self, a: &'x Allocator<C>) -> &'x [u8]
        requires { IsSliceIn T.Item a.now.memory self }
        ensures bytes { result.now ≡ bytes_of a.now.memory self.block }
        ensures list { elements T.SIZE T.decoded self.length result.now ≡ slice_list T.Item a.now.memory self }
    {
        a.read(self.block)
    }

    /// Returns the value at an index.
    #[inline]
    pub fn get<C: ChunkSource>(self, a: &Allocator<C>, i: u64) -> T
        requires small { T.SIZE ≤ 2 ^ 24 }
        requires held { IsSliceIn T.Item a.now.memory self }
        requires index { i < self.length }
        ensures { slice_get (slice_list T.Item a.now.memory self) i ≡ Some result }
    {
        item_at(a, self.block, i)
    }

    /// Replaces the value at an index. Only its own bytes are written.
    #[inline]
    pub fn set<C: ChunkSource>(self, a: &mut Allocator<C>, i: u64, value: T)
        requires small { T.SIZE ≤ 2 ^ 24 }
        requires held { IsSliceIn T.Item a.old.memory self }
        requires index { i < self.length }
        ensures writes { WritesBlock a.old.memory a.new.memory self.block (i * T.SIZE) (T.encoded value) }
        ensures held { IsSliceIn T.Item a.new.memory self }
        ensures list { slice_list T.Item a.new.memory self
            ≡ slice_set (slice_list T.Item a.old.memory self) i value }
        ensures source { a.new.source ≡ a.old.source }
    {
        put_item(a, self.block, i, value);
    }
}

impl<T: Item> Item for BoxSlice<T> {
    ghost is_value = { λ s. IsBlockValue s.block × (s.length < 2 ^ 64) };

    ghost encoded = { λ s. slice_bytes s.block s.length };

    ghost decoded = { λ bytes. record {
      block = block_of (take 32 bytes);
      length = from_le_bytes w64 (drop 32 bytes);
      of = record {};
    } };

    ghost SIZE = { 40 };

    ghost ALIGN = { 8 };

    const SIZE: u64 = 40;

    const ALIGN: u64 = 8;

    ghost round_trip = { λ v h s. λ i. record {
      block = block_back v.block h.0 i;
      length = bytes_back 7 v.length h.1 i;
      of = v.of;
    } };

    ghost encoded_length = { λ v h s. refl };

    ghost layout = { plain_40_8 };

    fn known(&self) {
        self.block.known();
        let _length = self.length;
    }

    fn encode(self, out: &mut [u8]) {
        let (block, length) = out.split_at_mut(32);
        self.block.encode(block);
        self.length.encode(length);
    }

    fn decode(bytes: &[u8]) -> Self {
        let (block, length) = bytes.split_at(32);
        BoxSlice {
            block: Block::decode(block),
            length: u64::decode(length),
            of: PhantomData,
        }
    }
}
