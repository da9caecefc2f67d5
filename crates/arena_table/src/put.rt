// Puts a pair into a slot; the pairs there and after it move on by one, up to a free slot.
ghost use Rattle.std.specs.Prelude.{◌≡◌, ◌+◌, ◌^◌, ◌<◌, ◌≤◌, length};
ghost use Rattle.arena_table.specs.Tables.{IsShape};
ghost use Rattle.arena_table.specs.Edits.{ChangesValue, PutsPair};

use crate::pairs::{key_at, pair_size, set_slot, value_at};
use arena_chunks::Edit;
use arena_items::Item;
use hash_ring::{farther, ring};
use std::marker::PhantomData;

// Puts a pair with its mark into a slot, and moves the pairs there and after it on by one, up to a free slot.
#[inline(always)]
fn put_at<K: Item, V: Item>(bytes: &mut [u8], slots: u64, at: u64, mark: u8, key: K, value: V)
    requires shape { IsShape K.Item V.Item slots bytes.old }
    requires at { at < slots }
    ensures { PutsPair K.Item V.Item slots bytes.old bytes.new at mark (key, value) }
{
    let mut i = at;
    let mut carried = mark;
    let mut key = key;
    let mut value = value;
    'slots: for _ in 0..slots {
        let old = bytes[i as usize];
        if old == 0 {
            set_slot(bytes, slots, i, carried, key, value);
            return;
        }
        let old_key = key_at::<K, V>(bytes, slots, i);
        let old_value = value_at::<K, V>(bytes, slots, i);
        set_slot(bytes, slots, i, carried, key, value);
        carried = farther(old);
        key = old_key;
        value = old_value;
        i = ring(slots, i + 1);
    }
}

/// Puts a pair into a slot of a table's bytes.
#[derive(Clone, Copy)]
pub(crate) struct PutPair<K, V> {
    pub(crate) slots: u64,
    pub(crate) at: u64,
    pub(crate) mark: u8,
    pub(crate) key: K,
    pub(crate) value: V,
}

impl<K: Item, V: Item> Edit for PutPair<K, V> {
    ghost suits = { λ e old. IsShape K.Item V.Item e.slots old × (e.at < e.slots) };

    ghost relates = { λ e old new. PutsPair K.Item V.Item e.slots old new e.at e.mark (e.key, e.value) };

    #[inline(always)]
    fn edit(&self, place: &mut [u8]) {
        put_at(place, self.slots, self.at, self.mark, self.key, self.value);
    }
}

// Replaces the value in a slot. The mark and the key stay.
#[tactic(auto, using(crate::proofs::SlotLemmas::slot_laws))]
#[inline]
fn change_value<K: Item, V: Item>(bytes: &mut [u8], slots: u64, at: u64, value: V)
    requires shape { IsShape K.Item V.Item slots bytes.old }
    requires at { at < slots }
    ensures { ChangesValue K.Item V.Item slots bytes.old bytes.new at value }
{
    value.known();
    let place = slots as usize + at as usize * pair_size::<K, V>() + K::SIZE as usize;
    value.encode(&mut bytes[place..place + V::SIZE as usize]);
}

/// Replaces the value in a slot of a table's bytes. The key stays.
#[derive(Clone, Copy)]
pub struct PutValue<K, V> {
    /// The number of slots of the table.
    pub slots: u64,
    /// The slot.
    pub at: u64,
    /// The new value.
    pub value: V,
    /// The type of the key, which stays.
    pub of: PhantomData<K>,
}

impl<K: Item, V: Item> Edit for PutValue<K, V> {
    ghost suits = { λ e old. IsShape K.Item V.Item e.slots old × (e.at < e.slots) };

    ghost relates = { λ e old new. ChangesValue K.Item V.Item e.slots old new e.at e.value };

    #[inline]
    fn edit(&self, place: &mut [u8]) {
        change_value::<K, V>(place, self.slots, self.at, self.value);
    }
}
