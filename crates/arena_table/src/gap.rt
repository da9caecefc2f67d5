// Frees a slot and closes the gap: the pairs after it that are away from their homes move back by one.
ghost use Rattle.std.specs.Prelude.{◌≡◌, ◌+◌, ◌<◌, ◌≤◌, IsTrue, length};
ghost use Rattle.hash_ring.specs.Marks.{IsRing};
ghost use Rattle.arena_table.specs.Tables.{IsShape};
ghost use Rattle.arena_table.specs.Edits.{ClosesGap, CopiesSlot, IsNear};

use crate::pairs::{free_slot, key_at, set_slot, value_at};
use arena_chunks::Edit;
use arena_items::Item;
use hash_ring::{AWAY, FAR, ring};
use std::marker::PhantomData;

// Writes the pair of one slot into another, with this mark.
#[inline(always)]
fn pull<K: Item, V: Item>(bytes: &mut [u8], slots: u64, from: u64, to: u64, mark: u8)
    requires shape { IsShape K.Item V.Item slots bytes.old }
    requires source { from < slots }
    requires target { to < slots }
    ensures shape { IsShape K.Item V.Item slots bytes.new }
    ensures copies { CopiesSlot K.Item V.Item slots bytes.old bytes.new from to mark }
{
    let key = key_at::<K, V>(bytes, slots, from);
    let value = value_at::<K, V>(bytes, slots, from);
    set_slot(bytes, slots, to, mark, key, value);
}

// Closes the gap at a slot.
#[inline(always)]
fn close_gap<K: Item, V: Item>(bytes: &mut [u8], slots: u64, at: u64)
    requires shape { IsShape K.Item V.Item slots bytes.old }
    requires at { at < slots }
    requires near { IsNear slots bytes.old at }
    ensures { ClosesGap K.Item V.Item slots bytes.old bytes.new at }
{
    let mut gap = at;
    'slots: for _ in 0..slots {
        let next = ring(slots, gap + 1);
        let mark = bytes[next as usize];
        if mark < AWAY || mark >= FAR {
            free_slot::<K, V>(bytes, slots, gap);
            return;
        }
        pull::<K, V>(bytes, slots, next, gap, mark - 0x10);
        gap = next;
    }
}

/// Returns `true` only if the gap at a slot can be closed by marks alone: no pair that moves back has a far mark.
#[inline(always)]
pub(crate) fn is_near(bytes: &[u8], slots: u64, at: u64) -> bool
    requires ring { IsRing slots }
    requires long { slots ≤ length bytes.now }
    requires at { at < slots }
    ensures { IsTrue result → IsNear slots bytes.now at }
{
    let mut gap = at;
    'slots: for _ in 0..slots {
        gap = ring(slots, gap + 1);
        let mark = bytes[gap as usize];
        if mark < AWAY {
            return true;
        }
        if mark >= FAR {
            return false;
        }
    }
    true
}

/// Frees a slot of a table's bytes, and closes the gap. No pair that moves back may have a far mark.
#[derive(Clone, Copy)]
pub(crate) struct CloseGap<K, V> {
    pub(crate) slots: u64,
    pub(crate) at: u64,
    pub(crate) of: PhantomData<(K, V)>,
}

impl<K: Item, V: Item> Edit for CloseGap<K, V> {
    ghost suits = { λ e old. IsShape K.Item V.Item e.slots old × (e.at < e.slots)
        × IsNear e.slots old e.at };

    ghost relates = { λ e old new. ClosesGap K.Item V.Item e.slots old new e.at };

    #[inline(always)]
    fn edit(&self, place: &mut [u8]) {
        close_gap::<K, V>(place, self.slots, self.at);
    }
}

/// Writes the pair of a slot into another, with this mark.
#[derive(Clone, Copy)]
pub(crate) struct PullBack<K, V> {
    pub(crate) slots: u64,
    pub(crate) from: u64,
    pub(crate) to: u64,
    pub(crate) mark: u8,
    pub(crate) of: PhantomData<(K, V)>,
}

impl<K: Item, V: Item> Edit for PullBack<K, V> {
    ghost suits = { λ e old. IsShape K.Item V.Item e.slots old × (e.from < e.slots) × (e.to < e.slots) };

    ghost relates = { λ e old new. CopiesSlot K.Item V.Item e.slots old new e.from e.to e.mark };

    #[inline]
    fn edit(&self, place: &mut [u8]) {
        pull::<K, V>(place, self.slots, self.from, self.to, self.mark);
    }
}
