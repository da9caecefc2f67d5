// The place of a pair so far from its home that marks don't give the distance: keys on the way are hashed again.
ghost use Rattle.std.specs.Prelude.{◌≡◌, ℕ, ◌^◌, ◌<◌, ◌≤◌, Some, IsTrue, false, slice_get};
ghost use Rattle.hash_ring.specs.Searches.{IsPassed};
ghost use Rattle.hash_ring.specs.Slots.{IsAway, IsBehind, IsPlaceFor};
ghost use Rattle.hash_ring.specs.Marks.{home_of};
ghost use Rattle.arena_table.specs.Contents.{kind};
ghost use Rattle.arena_table.specs.Tables.{pair_hash, slots_in, HasFree, IsTableIn};

use crate::key::ArenaKey;
use crate::pairs::key_at;
use crate::table::Table;
use arena_chunks::{Allocator, ChunkSource};
use arena_items::Item;
use hash_ring::{FAR, KeyHasher, distance, ring};

// The hash of the key in a slot.
pub(crate) fn hash_at<K: ArenaKey, V: Item, S: KeyHasher, C: ChunkSource>(
    a: &Allocator<C>,
    table: Table<K, V>,
    hasher: &S,
    i: u64,
) -> u64
    requires keys_small { K.SIZE ≤ 2 ^ 24 }
    requires values_small { V.SIZE ≤ 2 ^ 24 }
    requires held { IsTableIn (kind K.Item K.key V.Item S.hash_of) a.now.memory hasher.now table }
    requires taken { (x : K × V) × (slice_get (slots_in K.Item V.Item a.now.memory table) i ≡ Some
        (Some x)) }
    ensures { (x : K × V) → slice_get (slots_in K.Item V.Item a.now.memory table) i ≡ Some (Some x)
        → result ≡ pair_hash (kind K.Item K.key V.Item S.hash_of) a.now.memory hasher.now x }
{
    let key = key_at::<K, V>(a.read(table.block), table.slots, i);
    let mut room = [0u8; 16];
    hasher.hash(key.content(a, &mut room))
}

// Returns whether the pair in a slot is at least `far` slots from its home. `far` is at least 14, a distance that marks
// don't give.
fn is_behind<K: ArenaKey, V: Item, S: KeyHasher, C: ChunkSource>(
    a: &Allocator<C>,
    table: Table<K, V>,
    hasher: &S,
    at: u64,
    far: u64,
) -> bool
    requires keys_small { K.SIZE ≤ 2 ^ 24 }
    requires values_small { V.SIZE ≤ 2 ^ 24 }
    requires held { IsTableIn (kind K.Item K.key V.Item S.hash_of) a.now.memory hasher.now table }
    requires index { at < table.slots }
    requires far { 14 ≤ far }
    ensures behind { IsTrue result → IsBehind (λ p. home_of table.slots (pair_hash
        (kind K.Item K.key V.Item S.hash_of) a.now.memory hasher.now p)) table.slots
        (slots_in K.Item V.Item a.now.memory table) at far }
    ensures nearer { result ≡ false → (y : K × V) (e : ℕ) → IsAway (λ p. home_of table.slots (pair_hash
        (kind K.Item K.key V.Item S.hash_of) a.now.memory hasher.now p)) table.slots
        (slots_in K.Item V.Item a.now.memory table) at y e → e < far }
{
    if a.read(table.block)[at as usize] < FAR {
        return false;
    }
    far <= distance(table.slots, hash_at(a, table, hasher, at), at)
}

// Returns the first slot, from the 14th after the home on, that is free or whose pair is nearer to its home than a pair
// with this hash would be there. The pairs before it are in the order of their homes, so the search looks twice as far
// each time, and goes back by halves: few keys are hashed, however many are on the way.
#[cold]
#[inline(never)]
pub(crate) fn far_spot<K: ArenaKey, V: Item, S: KeyHasher, C: ChunkSource>(
    a: &Allocator<C>,
    table: Table<K, V>,
    hasher: &S,
    hash: u64,
) -> u64
    requires keys_small { K.SIZE ≤ 2 ^ 24 }
    requires values_small { V.SIZE ≤ 2 ^ 24 }
    requires held { IsTableIn (kind K.Item K.key V.Item S.hash_of) a.now.memory hasher.now table }
    requires free { HasFree K.Item V.Item a.now.memory table }
    requires passed { IsPassed (λ p. home_of table.slots (pair_hash
        (kind K.Item K.key V.Item S.hash_of) a.now.memory hasher.now p)) table.slots
        (slots_in K.Item V.Item a.now.memory table) (home_of table.slots hash) 14 }
    ensures { (d : ℕ) × (14 ≤ d) × IsPlaceFor (λ p. home_of table.slots (pair_hash
        (kind K.Item K.key V.Item S.hash_of) a.now.memory hasher.now p)) table.slots
        (slots_in K.Item V.Item a.now.memory table) (home_of table.slots hash) result d }
{
    let mut low = 14;
    let mut high = table.slots;
    'slots: while low < high {
        let probe = low + (low - 14).min((high - low) / 2);
        let at = ring(table.slots, hash.wrapping_add(probe));
        if is_behind(a, table, hasher, at, probe) {
            low = probe + 1;
        } else {
            high = probe;
        }
    }
    ring(table.slots, hash.wrapping_add(low))
}
