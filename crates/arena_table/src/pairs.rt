// Pairs in a table's bytes, after its marks: each is its key and then its value, packed.
ghost use Rattle.std.specs.Prelude.{◌≡◌, ℕ, ◌+◌, ◌^◌, ◌<◌, ◌≤◌, ◌++◌, Some, None, length, slice_get};
ghost use Rattle.arena_table.specs.Tables.{slots_of, IsShape};
ghost use Rattle.arena_table.specs.Edits.{SetsSlot};

use arena_items::Item;

// The size of a pair in bytes.
#[inline]
pub(crate) fn pair_size<K: Item, V: Item>() -> usize
    requires keys_small { K.SIZE ≤ 2 ^ 24 }
    requires values_small { V.SIZE ≤ 2 ^ 24 }
    ensures { result ≡ K.SIZE + V.SIZE }
{
    (K::SIZE + V::SIZE) as usize
}

/// Returns the key in a slot; unspecified if the slot is free.
#[tactic(auto, using(crate::proofs::SlotLemmas::slot_laws))]
#[inline]
pub fn key_at<K: Item, V: Item>(bytes: &[u8], slots: u64, i: u64) -> K
    requires shape { IsShape K.Item V.Item slots bytes.now }
    requires index { i < slots }
    ensures { (x : K × V) → slice_get (slots_of K.Item V.Item slots bytes.now) i ≡ Some (Some x)
        → result ≡ x.0 }
{
    let at = slots as usize + i as usize * pair_size::<K, V>();
    K::decode(&bytes[at..at + K::SIZE as usize])
}

/// Returns the value in a slot; unspecified if the slot is free.
#[tactic(auto, using(crate::proofs::SlotLemmas::slot_laws))]
#[inline]
pub fn value_at<K: Item, V: Item>(bytes: &[u8], slots: u64, i: u64) -> V
    requires shape { IsShape K.Item V.Item slots bytes.now }
    requires index { i < slots }
    ensures { (x : K × V) → slice_get (slots_of K.Item V.Item slots bytes.now) i ≡ Some (Some x)
        → result ≡ x.1 }
{
    let at = slots as usize + i as usize * pair_size::<K, V>() + K::SIZE as usize;
    V::decode(&bytes[at..at + V::SIZE as usize])
}

// Writes a pair into its bytes.
#[inline]
fn set_pair<K: Item, V: Item>(out: &mut [u8], key: K, value: V)
    requires keys_small { K.SIZE ≤ 2 ^ 24 }
    requires values_small { V.SIZE ≤ 2 ^ 24 }
    requires long { length out.old ≡ K.SIZE + V.SIZE }
    ensures bytes { out.new ≡ K.encoded key ++ V.encoded value }
    ensures key { K.is_value key }
    ensures value { V.is_value value }
{
    key.known();
    value.known();
    let (first, second) = out.split_at_mut(K::SIZE as usize);
    key.encode(first);
    value.encode(second);
}

#[tactic(auto, using(crate::proofs::SlotLemmas::slot_laws))]
// Puts a pair with its mark into a slot.
#[inline]
pub(crate) fn set_slot<K: Item, V: Item>(
    bytes: &mut [u8],
    slots: u64,
    i: u64,
    mark: u8,
    key: K,
    value: V,
)
    requires shape { IsShape K.Item V.Item slots bytes.old }
    requires index { i < slots }
    ensures shape { IsShape K.Item V.Item slots bytes.new }
    ensures sets { 0 < mark → SetsSlot K.Item V.Item slots bytes.old bytes.new i mark (Some (key, value)) }
{
    let size = pair_size::<K, V>();
    let at = i as usize * size;
    let (marks, pairs) = bytes.split_at_mut(slots as usize);
    marks[i as usize] = mark;
    set_pair(&mut pairs[at..at + size], key, value);
}

// Frees a slot.
#[inline]
pub(crate) fn free_slot<K: Item, V: Item>(bytes: &mut [u8], slots: u64, i: u64)
    requires shape { IsShape K.Item V.Item slots bytes.old }
    requires index { i < slots }
    ensures { SetsSlot K.Item V.Item slots bytes.old bytes.new i 0 None }
{
    bytes[i as usize] = 0;
}
