// Calls on whole bit sets.
ghost use Rattle.std.specs.Prelude.{◌≡◌, ◌*◌, ◌^◌, ◌<◌, ◌≤◌, min};
ghost use Rattle.arena_chunks.specs.BlockCalls.{PlacesBlock};
ghost use Rattle.arena_items.specs.Room.{RoomAnswer};
ghost use Rattle.arena_bits.specs.Bits.{nothing, joined, below, TellsEmpty};
ghost use Rattle.arena_bits.specs.Sets.{IsSetIn, AreOneOrApart, set_of, BecomesSet, JoinsFirst, PlacesSet};
ghost use Rattle.arena_chunks.specs.Frame.{AreBlocksApart};

use crate::edits::{JoinRow, Raise};
use crate::set::BitSet;
use crate::words::{are_zero, row_at, word_at};
use arena_chunks::{Allocator, Block, ChunkSource};
use arena_items::{BoxSlice, Grown, Zeros, take_room};
use arena_place::Layout;
use std::marker::PhantomData;

// Places a block for `count` words.
#[tactic(auto, using(crate::proofs::WholeLemmas::words_placed))]
fn place_words<C: ChunkSource>(a: &mut Allocator<C>, count: u64) -> Grown<Block>
    requires { count ≤ 2 ^ 58 }
    ensures { RoomAnswer (λ b. b) result (PlacesBlock a.old a.new (count * 8) 8) }
{
    take_room(a, Block::empty(8), 0, Layout::of(count * 8, 8))
}

// Joins the first words of a set with those of another, one by one.
#[tactic(auto, using(arena_chunks::proofs::Layers::layer_laws, crate::proofs::JoinLemmas::joining_none))]
fn join_words<C: ChunkSource>(a: &mut Allocator<C>, set: &BitSet, other: &BitSet, count: u64)
    requires own { count ≤ set.now.words.length }
    requires others { count ≤ other.now.words.length }
    requires held { IsSetIn a.old.memory set.now }
    requires other { IsSetIn a.old.memory other.now }
    requires apart { AreBlocksApart other.now.words.block set.now.words.block }
    ensures { JoinsFirst a.old a.new set.now other.now count }
{
    'words: for i in 0..count {
        let mask = word_at(other.bytes(a), i);
        a.write_with(set.words.block, i * 8, 8, &Raise { mask });
    }
}

// Joins the first words of a set with those of another by rows, each with one lookup of each block. The last row ends
// with the last word, so it may join some words once more, which changes nothing.
#[tactic(auto, using(arena_chunks::proofs::Layers::layer_laws, crate::proofs::JoinLemmas::joining_none))]
fn join_rows<const N: usize, C: ChunkSource>(
    a: &mut Allocator<C>,
    set: &BitSet,
    other: &BitSet,
    count: u64,
)
    requires some { 0 < N }
    requires row { N ≤ count }
    requires own { count ≤ set.now.words.length }
    requires others { count ≤ other.now.words.length }
    requires held { IsSetIn a.old.memory set.now }
    requires other { IsSetIn a.old.memory other.now }
    requires apart { AreBlocksApart other.now.words.block set.now.words.block }
    ensures { JoinsFirst a.old a.new set.now other.now count }
{
    let n = N as u64;
    let mut done = 0;
    'rows: while done < count {
        let at = done.min(count - n);
        let row = row_at::<N>(other.bytes(a), at);
        a.write_with(set.words.block, at * 8, n * 8, &JoinRow { row });
        done = at + n;
    }
}

#[tactic(auto, using(arena_chunks::proofs::Layers::layer_laws, crate::proofs::JoinLemmas::joined_itself))]
impl BitSet {
    /// Returns an empty set for `max_bit_count` bits, in one block of whole words.
    ///
    /// # Errors
    ///
    /// `AllocErr` and `OutOfMemory` as for the arena's `alloc_layout`, and never `CapacityOverflow`. Nothing changes.
    pub fn new_in<C: ChunkSource>(max_bit_count: u64, a: &mut Allocator<C>) -> Grown<BitSet>
        ensures { PlacesSet a.old a.new max_bit_count nothing result }
    {
        let length = max_bit_count.div_ceil(64);
        let block = place_words(a, length)?;
        a.write_with(block, 0, length * 8, &Zeros);
        let words = BoxSlice {
            block,
            length,
            of: PhantomData,
        };
        Ok(BitSet {
            words,
            capacity: max_bit_count,
        })
    }

    /// Returns whether no bit is set, not even one past the capacity.
    pub fn is_empty<C: ChunkSource>(&self, a: &Allocator<C>) -> bool
        requires held { IsSetIn a.now.memory self.now }
        ensures { TellsEmpty result (set_of a.now.memory self.now) }
    {
        are_zero(self.bytes(a))
    }

    /// Removes all numbers, in one pass.
    pub fn clear<C: ChunkSource>(&mut self, a: &mut Allocator<C>)
        requires held { IsSetIn a.old.memory self.old }
        ensures becomes { BecomesSet a.old a.new self.old nothing }
        ensures handle { self.new ≡ self.old }
    {
        let block = self.words.block;
        a.write_with(block, 0, block.size, &Zeros);
    }

    /// Adds the numbers of another set, as far as both have words. A set that is joined with itself stays as it is.
    pub fn union<C: ChunkSource>(&mut self, a: &mut Allocator<C>, other: &BitSet)
        requires held { IsSetIn a.old.memory self.old }
        requires other { IsSetIn a.old.memory other.now }
        requires apart { AreOneOrApart other.now.words.block self.old.words.block }
        ensures becomes { let limit = 64 * min self.old.words.length other.now.words.length in
            BecomesSet a.old a.new self.old
            (joined (set_of a.old.memory self.old) (below limit (set_of a.old.memory other.now))) }
        ensures handle { self.new ≡ self.old }
    {
        let block = self.words.block;
        if other.words.block == block {
            return;
        }
        let count = self.words.length.min(other.words.length);
        if count < 16 {
            join_words(a, self, other, count);
        } else if count < 32 {
            join_rows::<16, C>(a, self, other, count);
        } else {
            join_rows::<32, C>(a, self, other, count);
        }
    }
}
