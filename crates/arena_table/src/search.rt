// The search for a content.
ghost use Rattle.std.specs.Prelude.{◌≡◌, ℕ, List, ◌+◌, ◌^◌, ◌<◌, ◌≤◌, ◌==◌, ◌↔◌, IsTrue};
ghost use Rattle.arena_chunks.specs.Memory.{is_readable};
ghost use Rattle.arena_items.specs.Values.{bytes_of};
ghost use Rattle.hash_ring.specs.Searches.{Ends};
ghost use Rattle.hash_ring.specs.Slots.{Has};
ghost use Rattle.hash_ring.specs.Marks.{home_of};
ghost use Rattle.arena_table.specs.Tables.{slots_in, HasFree, IsTable, IsTableHandle};
ghost use Rattle.arena_table.specs.Contents.{content_in};

use crate::key::ArenaKey;
use crate::pairs::key_at;
use crate::table::Table;
use arena_chunks::{Allocator, ChunkSource};
use arena_items::Item;
use hash_ring::{Spot, farther, home_mark, least, ring, same};

// Whether a key has this content.
#[inline(always)]
fn holds<K: ArenaKey, C: ChunkSource>(a: &Allocator<C>, key: K, wanted: &[u8]) -> bool
    requires { IsTrue (is_readable a.now.memory.state (K.key.text key)) }
    ensures { IsTrue result ↔ (content_in K.key a.now.memory key ≡ wanted.now) }
{
    let mut room = [0u8; 16];
    same(key.content(a, &mut room), wanted)
}

/// Searches a table for a content, given the table's bytes. The table must have a free slot.
#[inline(always)]
pub fn find<K: ArenaKey, V: Item, C: ChunkSource>(
    a: &Allocator<C>,
    table: Table<K, V>,
    bytes: &[u8],
    hash: u64,
    wanted: &[u8],
) -> Spot
    requires keys_small { K.SIZE ≤ 2 ^ 24 }
    requires values_small { V.SIZE ≤ 2 ^ 24 }
    requires handle { IsTableHandle K.Item V.Item a.now.memory table }
    requires bytes { bytes.now ≡ bytes_of a.now.memory table.block }
    requires free { HasFree K.Item V.Item a.now.memory table }
    requires texts { (x : K × V) → Has (slots_in K.Item V.Item a.now.memory table) x
        → IsTrue (is_readable a.now.memory.state (K.key.text x.0)) }
    ensures { (h : List ℕ → ℕ) → IsTable K.Item V.Item (λ p. h
        (content_in K.key a.now.memory p.0)) table.slots (bytes_of a.now.memory table.block)
        → h wanted.now ≡ hash
        → Ends (λ p. home_of table.slots (h (content_in K.key a.now.memory p.0))) table.slots
        (slots_in K.Item V.Item a.now.memory table)
        (λ p. content_in K.key a.now.memory p.0) wanted.now hash result }
{
    let mut at = ring(table.slots, hash);
    let mut mark = home_mark(hash);
    'slots: for _ in 0..table.slots {
        let found = bytes[at as usize];
        if found == mark && holds(a, key_at::<K, V>(bytes, table.slots, at), wanted) {
            return Spot::Taken { at };
        }
        if found < least(mark) {
            return Spot::Open { at, mark };
        }
        at = ring(table.slots, at + 1);
        mark = farther(mark);
    }
    Spot::Open { at, mark }
}
