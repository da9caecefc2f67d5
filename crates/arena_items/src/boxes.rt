// Boxes: the handles of single values in an arena, and their byte form.
ghost use Rattle.std.specs.Prelude.{◌≡◌, ℕ, ◌^◌, ◌≤◌, ◌↔◌, List, IfOk, IsTrue, length, refl};
ghost use Rattle.arena_chunks.specs.BlockCalls.{PlacesBlock, WritesBlock};
ghost use Rattle.arena_items.specs.ByteForms.{IsBlockValue, block_bytes, block_of};
ghost use Rattle.arena_items.specs.laws.LayoutLaws.{plain_32_8};
ghost use Rattle.arena_items.specs.laws.HandleLaws.{block_back};
ghost use Rattle.arena_items.specs.Values.{IsBoxIn, box_value};
ghost use Rattle.arena_items.specs.Typed.{PlacesBox};

use crate::elements::write_whole;
use crate::item::Item;
use crate::placing::{ItemErr, place_one};
use arena_chunks::{Allocator, Block, ChunkSource};
use std::marker::PhantomData;

/// The handle of a value in an arena. It is a name: two of them may name the same value.
#[derive(Clone, Copy)]
pub struct Box<T> {
    /// The block of the value's bytes.
    pub block: Block,
    /// The type of the value, which takes no space in the handle.
    pub of: PhantomData<T>,
}

/// The Rust crate's name for it.
pub type ArenaBox<T> = Box<T>;

#[tactic(auto, using(arena_chunks::proofs::Layers::layer_laws, crate::proofs::PlacingLemmas::held_laws))]
impl<T: Item> Box<T> {
    /// Places a value.
    ///
    /// # Errors
    ///
    /// As for the arena's `alloc_layout`. Nothing changes.
    #[inline]
    pub fn new_in<C: ChunkSource>(value: T, a: &mut Allocator<C>) -> Result<Box<T>, ItemErr>
        requires { T.SIZE ≤ 2 ^ 24 }
        ensures { PlacesBox T.Item a.old a.new (λ v. v ≡ value) result }
    {
        let block = place_one::<T, C>(a)?;
        write_whole(a, block, value);
        Ok(Box {
            block,
            of: PhantomData,
        })
    }

    /// Returns whether the arena holds the box: its block is readable there, and has the type's size and alignment.
    #[inline]
    pub fn is_held<C: ChunkSource>(&self, a: &Allocator<C>) -> bool
        ensures { IsTrue result ↔ IsBoxIn T.Item a.now.memory self.now }
    {
        a.is_held_place(self.block) && self.block.size == T::SIZE && self.block.align == T::ALIGN
    }

    /// Returns the value.
    #[inline]
    pub fn get<C: ChunkSource>(self, a: &Allocator<C>) -> T
        requires small { T.SIZE ≤ 2 ^ 24 }
        requires held { IsBoxIn T.Item a.now.memory self }
        ensures { result ≡ box_value T.Item a.now.memory self }
    {
        T::decode(a.read(self.block))
    }

    /// Returns the value, as `get` does. It stays where it is.
    #[inline]
    pub fn unbox<C: ChunkSource>(self, a: &Allocator<C>) -> T
        requires small { T.SIZE ≤ 2 ^ 24 }
        requires held { IsBoxIn T.Item a.now.memory self }
        ensures { result ≡ box_value T.Item a.now.memory self }
    {
        self.get(a)
    }

    /// Replaces the value. Only its own block is written.
    #[inline]
    pub fn set<C: ChunkSource>(self, a: &mut Allocator<C>, value: T)
        requires small { T.SIZE ≤ 2 ^ 24 }
        requires held { IsBoxIn T.Item a.old.memory self }
        ensures writes { WritesBlock a.old.memory a.new.memory self.block 0 (T.encoded value) }
        ensures held { IsBoxIn T.Item a.new.memory self }
        ensures value { box_value T.Item a.new.memory self ≡ value }
        ensures source { a.new.source ≡ a.old.source }
    {
        write_whole(a, self.block, value);
    }
}

impl<T> Box<T> {
    /// Returns the block of a box.
    pub fn as_non_null(boxed: &Box<T>) -> Block
        ensures { result ≡ boxed.now.block }
    {
        boxed.block
    }

    /// Returns the block of a box.
    pub fn into_non_null(boxed: Box<T>) -> Block
        ensures { result ≡ boxed.block }
    {
        boxed.block
    }
}

impl<T: Item> Item for Box<T> {
    ghost is_value = { λ b. IsBlockValue b.block };

    ghost encoded = { λ b. block_bytes b.block };

    ghost decoded = { λ bytes. record { block = block_of bytes; of = record {} } };

    ghost SIZE = { 32 };

    ghost ALIGN = { 8 };

    const SIZE: u64 = 32;

    const ALIGN: u64 = 8;

    ghost round_trip = { λ v h s. λ i. record { block = block_back v.block h i; of = v.of } };

    ghost encoded_length = { λ v h s. refl };

    ghost layout = { plain_32_8 };

    fn known(&self) {
        self.block.known();
    }

    fn encode(self, out: &mut [u8]) {
        self.block.encode(out);
    }

    fn decode(bytes: &[u8]) -> Self {
        Box {
            block: Block::decode(bytes),
            of: PhantomData,
        }
    }
}
