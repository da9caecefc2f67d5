// Bit sets: their handles, and calls on one number.
ghost use Rattle.std.specs.Prelude.{◌≡◌, ◌*◌, ◌<◌, ◌↔◌, ◌&&◌, nat_lt, length, IsTrue};
ghost use Rattle.arena_bits.specs.Bits.{with_bit, without_bit};
ghost use Rattle.arena_bits.specs.Sets.{IsSetIn, words_of, set_of, BecomesSet};
ghost use Rattle.arena_bits.specs.Walks.{words_in};

use crate::edits::{Lower, Raise};
use crate::words::word_at;
use arena_chunks::{Allocator, ChunkSource};
use arena_items::BoxSlice;

/// A set of numbers in an arena, kept as bits of words, with a capacity in bits. It is a name: two of them may name the
/// same set.
#[derive(Clone, Copy)]
pub struct BitSet {
    /// The words, as many as the capacity needs. Each has the bits of 64 numbers, the lowest number in its lowest bit.
    pub words: BoxSlice<u64>,
    /// The number of bits that were asked for. The last word may have bits past it, which can be set too.
    pub capacity: u64,
}

#[tactic(auto, using(arena_chunks::proofs::Layers::layer_laws, crate::proofs::BitLemmas::bit_tested))]
impl BitSet {
    /// Returns how many bits the set was made for.
    #[inline]
    pub fn capacity(&self) -> u64
        ensures { result ≡ self.now.capacity }
    {
        self.capacity
    }

    /// Returns whether the handle is well formed and readable in this arena.
    pub fn is_held<C: ChunkSource>(&self, a: &Allocator<C>) -> bool
        ensures { IsTrue result ↔ IsSetIn a.now.memory self.now }
    {
        let block = self.words.block;
        self.words.length == self.capacity.div_ceil(64)
            && block.size == self.words.length * 8
            && block.align == 8
            && a.is_held_place(block)
    }

    /// Returns whether a number is below the capacity and in the set, for any number.
    #[inline]
    pub fn contains<C: ChunkSource>(&self, a: &Allocator<C>, bit: u64) -> bool
        requires held { IsSetIn a.now.memory self.now }
        ensures { result ≡ (nat_lt bit self.now.capacity && set_of a.now.memory self.now bit) }
    {
        bit < self.capacity && self.has_bit(a, bit)
    }

    /// Returns whether a number is in the set. Its bit must be in one of the words.
    #[inline]
    pub fn has_bit<C: ChunkSource>(&self, a: &Allocator<C>, bit: u64) -> bool
        requires held { IsSetIn a.now.memory self.now }
        requires within { bit < 64 * self.now.words.length }
        ensures { result ≡ set_of a.now.memory self.now bit }
    {
        let word = word_at(self.bytes(a), bit / 64);
        word >> (bit % 64) & 1 == 1
    }

    /// Adds a number to the set. Its bit must be in one of the words.
    #[inline]
    pub fn set_bit<C: ChunkSource>(&mut self, a: &mut Allocator<C>, bit: u64)
        requires held { IsSetIn a.old.memory self.old }
        requires within { bit < 64 * self.old.words.length }
        ensures becomes { BecomesSet a.old a.new self.old (with_bit (set_of a.old.memory self.old) bit) }
        ensures handle { self.new ≡ self.old }
    {
        let mask = 1 << (bit % 64);
        a.write_with(self.words.block, bit / 64 * 8, 8, &Raise { mask });
    }

    /// Removes a number from the set. Its bit must be in one of the words.
    #[inline]
    pub fn unset_bit<C: ChunkSource>(&mut self, a: &mut Allocator<C>, bit: u64)
        requires held { IsSetIn a.old.memory self.old }
        requires within { bit < 64 * self.old.words.length }
        ensures becomes { BecomesSet a.old a.new self.old (without_bit (set_of a.old.memory self.old) bit) }
        ensures handle { self.new ≡ self.old }
    {
        let mask = 1 << (bit % 64);
        a.write_with(self.words.block, bit / 64 * 8, 8, &Lower { mask });
    }
}

#[tactic(auto, using(crate::proofs::WholeLemmas::read_words))]
impl BitSet {
    // Returns the bytes of the words.
    #[inline]
    pub(crate) fn bytes<'a, C: ChunkSource>(&self, a: &'a Allocator<C>) -> &'a [u8]
        requires { IsSetIn a.now.memory self.now }
        ensures words { words_in result.now ≡ words_of a.now.memory self.now }
        ensures length { length result.now ≡ 8 * self.now.words.length }
    {
        a.read(self.words.block)
    }
}
