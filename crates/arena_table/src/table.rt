// Tables: where their pairs are stored.
ghost use Rattle.std.specs.Prelude.{◌≡◌, ℕ, ◌+◌, ◌*◌, ◌^◌, ◌<◌, ◌≤◌, [], ◌∷◌, None, IfOk, OnErr, length};
ghost use Rattle.std.specs.Prelude.{replicate};
ghost use Rattle.arena_chunks.specs.Memory.{Memory};
ghost use Rattle.arena_chunks.specs.Frame.{Frame};
ghost use Rattle.arena_chunks.specs.BlockCalls.{PlacesBlock};
ghost use Rattle.arena_items.specs.Room.{RoomAnswer, SamePlaces, Took};
ghost use Rattle.hash_ring.specs.Policy.{slot_size, table_align};
ghost use Rattle.hash_ring.specs.Searches.{IsSpotFor};
ghost use Rattle.hash_ring.specs.Slots.{items};
ghost use Rattle.hash_ring.specs.Marks.{home_of, IsRing};
ghost use Rattle.arena_table.specs.Tables.{slots_of, slots_in, IsShape, IsTable, IsTableHandle};

use crate::pairs::pair_size;
use arena_chunks::{Allocator, Block, ChunkSource};
use arena_items::{Grown, Item, Zeros, grown};
use arena_place::Layout;
use hash_ring::{farther, home_mark, least, ring};
use std::marker::PhantomData;

/// The table of a map: a block with a mark and a pair for each slot. The number of slots is 0 or a power of two.
#[derive(Clone, Copy)]
pub struct Table<K, V> {
    /// The block: a mark for each slot, and after them the pairs.
    pub block: Block,
    /// The number of slots.
    pub slots: u64,
    /// The types of the pairs. It takes no space in the handle.
    pub of: PhantomData<(K, V)>,
}

// The alignment of a table.
#[inline]
pub(crate) fn table_align<K: Item, V: Item>() -> u64
    ensures { result ≡ table_align K.ALIGN V.ALIGN }
{
    K::ALIGN.max(V::ALIGN).max(8)
}

impl<K: Item, V: Item> Table<K, V> {
    /// Returns a table without slots, and with an empty block.
    pub fn none() -> Table<K, V>
        ensures held { (memory : Memory) → IsTableHandle K.Item V.Item memory result }
        ensures slots { result.slots ≡ 0 }
        ensures size { result.block.size ≡ 0 }
    {
        Table {
            block: Block::empty(table_align::<K, V>()),
            slots: 0,
            of: PhantomData,
        }
    }

    /// Places a table with all slots free. The number of slots is a power of two from 8 to 2^33.
    ///
    /// # Errors
    ///
    /// As for the arena's `alloc_layout`. The memory is unchanged.
    pub fn place<C: ChunkSource>(a: &mut Allocator<C>, slots: u64) -> Grown<Table<K, V>>
        requires keys_small { K.SIZE ≤ 2 ^ 24 }
        requires values_small { V.SIZE ≤ 2 ^ 24 }
        requires ring { IsRing slots }
        ensures asks { Took a.new (λ between. RoomAnswer (λ t. t.block) result
            (PlacesBlock a.old between (slots * slot_size K.SIZE V.SIZE) (table_align K.ALIGN V.ALIGN))) }
        ensures held { IfOk result (IsTableHandle K.Item V.Item a.new.memory) }
        ensures slots { IfOk result (λ t. t.slots ≡ slots) }
        ensures free { IfOk result (λ t. slots_in K.Item V.Item a.new.memory t ≡ replicate slots None) }
        ensures frame { IfOk result (λ t. Frame a.old.memory a.new.memory [] (t.block ∷ [])) }
        ensures err { OnErr result (a.new.memory ≡ a.old.memory) }
    {
        let size = slots * (pair_size::<K, V>() as u64 + 1);
        let layout = Layout::of(size, table_align::<K, V>());
        let block = grown(a.alloc_layout(layout))?;
        let table = Table {
            block,
            slots,
            of: PhantomData,
        };
        table.free_all(a);
        Ok(table)
    }

    /// Frees all slots.
    pub fn free_all<C: ChunkSource>(self, a: &mut Allocator<C>)
        requires held { IsTableHandle K.Item V.Item a.old.memory self }
        ensures held { IsTableHandle K.Item V.Item a.new.memory self }
        ensures free { slots_in K.Item V.Item a.new.memory self ≡ replicate self.slots None }
        ensures places { SamePlaces a.old a.new }
        ensures frame { Frame a.old.memory a.new.memory (self.block ∷ []) (self.block ∷ []) }
    {
        a.write_with(self.block, 0, self.slots, &Zeros);
    }

    // The slot and the mark for a pair with this hash, whose content no slot holds, as far as marks show.
    #[inline(always)]
    pub(crate) fn spot_for(self, bytes: &[u8], hash: u64) -> (u64, u8)
        requires shape { IsShape K.Item V.Item self.slots bytes.now }
        ensures { (h : K × V → ℕ) → IsTable K.Item V.Item h self.slots bytes.now
            → length (items (slots_of K.Item V.Item self.slots bytes.now)) < self.slots
            → IsSpotFor (λ p. home_of self.slots (h p)) self.slots
            (slots_of K.Item V.Item self.slots bytes.now) hash result.0 result.1 }
    {
        let mut at = ring(self.slots, hash);
        let mut mark = home_mark(hash);
        'slots: for _ in 0..self.slots {
            if bytes[at as usize] < least(mark) {
                return (at, mark);
            }
            at = ring(self.slots, at + 1);
            mark = farther(mark);
        }
        (at, mark)
    }
}
