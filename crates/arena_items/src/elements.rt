// Values in blocks: one that fills its block, and sequences of them.
ghost use Rattle.std.specs.Prelude.{◌≡◌, ℕ, ◌+◌, ◌*◌, ◌^◌, ◌<◌, ◌≤◌, ◌++◌, [], ◌∷◌, IsTrue, Some, length, replicate, slice_get, slice_set};
ghost use Rattle.std.specs.List.{All, flat_map};
ghost use Rattle.arena_chunks.specs.Memory.{is_readable};
ghost use Rattle.arena_chunks.specs.BlockCalls.{WritesBlock};
ghost use Rattle.arena_items.specs.Values.{IsHeld, bytes_of, elements};

use crate::item::Item;
use arena_chunks::{Allocator, Block, ChunkSource, Edit};

/// Writes the byte form of a value into a place.
#[derive(Clone, Copy)]
pub(crate) struct Encoded<T> {
    pub(crate) value: T,
}

impl<T: Item> Edit for Encoded<T> {
    ghost suits = { λ e old. (length old ≡ T.SIZE) × (T.SIZE ≤ 2 ^ 24) };

    ghost relates = { λ e old new. new ≡ T.encoded e.value };

    #[inline]
    fn edit(&self, place: &mut [u8]) {
        self.value.encode(place);
    }
}

/// Writes the byte forms of values into a place, one after another.
#[derive(Drop)]
pub(crate) struct EncodedAll<'a, T> {
    pub(crate) values: &'a [T],
}

impl<T: Item> Edit for EncodedAll<'_, T> {
    ghost suits = { λ e old. (length old ≡ length e.values.now * T.SIZE) × (T.SIZE ≤ 2 ^ 24) };

    ghost relates = { λ e old new. new ≡ flat_map T.encoded e.values.now };

    #[inline]
    fn edit(&self, place: &mut [u8]) {
        T::encode_all(self.values, place);
    }
}

/// Writes the byte form of a value into a place `times` times.
#[derive(Clone, Copy)]
pub(crate) struct EncodedTimes<T> {
    pub(crate) value: T,
    pub(crate) times: u64,
}

impl<T: Item> Edit for EncodedTimes<T> {
    ghost suits = { λ e old. (length old ≡ e.times * T.SIZE) × (T.SIZE ≤ 2 ^ 24) };

    ghost relates = { λ e old new. new ≡ flat_map T.encoded (replicate e.times e.value) };

    #[inline]
    fn edit(&self, place: &mut [u8]) {
        let size = T::SIZE as usize;
        for i in 0..self.times as usize {
            let at = i * size;
            self.value.encode(&mut place[at..at + size]);
        }
    }
}

// Does nothing at run time: for the proof, what a slice holds are values of its type.
fn known_all<T: Item>(values: &[T])
    ensures { All T.is_value values.now }
{
    for value in values {
        value.known();
    }
}

// Writes a value over a block of its layout.
#[tactic(auto, using(arena_chunks::proofs::Layers::layer_laws, crate::proofs::PlacingLemmas::held_laws))]
#[inline]
pub(crate) fn write_whole<T: Item, C: ChunkSource>(a: &mut Allocator<C>, block: Block, value: T)
    requires small { T.SIZE ≤ 2 ^ 24 }
    requires held { IsHeld T.SIZE T.ALIGN a.old.memory.state block }
    ensures writes { WritesBlock a.old.memory a.new.memory block 0 (T.encoded value) }
    ensures held { IsHeld T.SIZE T.ALIGN a.new.memory.state block }
    ensures value { T.decoded (bytes_of a.new.memory block) ≡ value }
    ensures source { a.new.source ≡ a.old.source }
{
    value.known();
    a.write_with(block, 0, T::SIZE, &Encoded { value });
}

/// Returns the value at an index of a block.
#[tactic(auto, using(arena_chunks::proofs::Layers::layer_laws, crate::proofs::ElementLemmas::list_laws))]
#[inline]
pub fn item_at<T: Item, C: ChunkSource>(a: &Allocator<C>, block: Block, i: u64) -> T
    requires small { T.SIZE ≤ 2 ^ 24 }
    requires readable { IsTrue (is_readable a.now.memory.state block) }
    requires range { i * T.SIZE + T.SIZE ≤ block.size }
    ensures { (n : ℕ) → i < n
        → slice_get (elements T.SIZE T.decoded n (bytes_of a.now.memory block)) i ≡ Some result }
{
    let at = (i * T::SIZE) as usize;
    T::decode(&a.read(block)[at..at + T::SIZE as usize])
}

/// Replaces the value at an index of a block. At the end of a list this appends the value.
#[tactic(auto, using(arena_chunks::proofs::Layers::layer_laws, crate::proofs::ElementLemmas::list_laws))]
#[inline]
pub fn put_item<T: Item, C: ChunkSource>(a: &mut Allocator<C>, block: Block, i: u64, value: T)
    requires small { T.SIZE ≤ 2 ^ 24 }
    requires readable { IsTrue (is_readable a.old.memory.state block) }
    requires range { i * T.SIZE + T.SIZE ≤ block.size }
    ensures writes { WritesBlock a.old.memory a.new.memory block (i * T.SIZE) (T.encoded value) }
    ensures set { (n : ℕ) → i < n → n * T.SIZE ≤ block.size
        → elements T.SIZE T.decoded n (bytes_of a.new.memory block)
        ≡ slice_set (elements T.SIZE T.decoded n (bytes_of a.old.memory block)) i value }
    ensures push { elements T.SIZE T.decoded (i + 1) (bytes_of a.new.memory block)
        ≡ elements T.SIZE T.decoded i (bytes_of a.old.memory block) ++ value ∷ [] }
    ensures source { a.new.source ≡ a.old.source }
{
    value.known();
    a.write_with(block, i * T::SIZE, T::SIZE, &Encoded { value });
}

/// Writes values after the first `i` of a block, in one pass.
#[tactic(auto, using(arena_chunks::proofs::Layers::layer_laws, crate::proofs::ElementLemmas::list_laws))]
#[inline(always)]
pub fn put_items<T: Item, C: ChunkSource>(a: &mut Allocator<C>, block: Block, i: u64, values: &[T])
    requires small { T.SIZE ≤ 2 ^ 24 }
    requires readable { IsTrue (is_readable a.old.memory.state block) }
    requires range { (i + length values.now) * T.SIZE ≤ block.size }
    ensures writes { WritesBlock a.old.memory a.new.memory block
        (i * T.SIZE) (flat_map T.encoded values.now) }
    ensures push { elements T.SIZE T.decoded (i + length values.now) (bytes_of a.new.memory block)
        ≡ elements T.SIZE T.decoded i (bytes_of a.old.memory block) ++ values.now }
    ensures source { a.new.source ≡ a.old.source }
{
    known_all(values);
    let size = values.len() as u64 * T::SIZE;
    a.write_with(block, i * T::SIZE, size, &EncodedAll { values });
}

/// Writes `times` copies of a value after the first `i` of a block, in one pass.
#[tactic(auto, using(arena_chunks::proofs::Layers::layer_laws, crate::proofs::ElementLemmas::list_laws))]
pub fn put_copies<T: Item, C: ChunkSource>(
    a: &mut Allocator<C>,
    block: Block,
    i: u64,
    times: u64,
    value: T,
)
    requires small { T.SIZE ≤ 2 ^ 24 }
    requires readable { IsTrue (is_readable a.old.memory.state block) }
    requires range { (i + times) * T.SIZE ≤ block.size }
    ensures writes { WritesBlock a.old.memory a.new.memory block
        (i * T.SIZE) (flat_map T.encoded (replicate times value)) }
    ensures push { elements T.SIZE T.decoded (i + times) (bytes_of a.new.memory block)
        ≡ elements T.SIZE T.decoded i (bytes_of a.old.memory block) ++ replicate times value }
    ensures source { a.new.source ≡ a.old.source }
{
    value.known();
    let size = times * T::SIZE;
    a.write_with(block, i * T::SIZE, size, &EncodedTimes { value, times });
}
