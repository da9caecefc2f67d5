// Laws of maps. Each is a function that does nothing: a call in a body makes its facts available there.
ghost use Rattle.std.specs.Prelude.{◌≡◌, ◌+◌, ◌-◌, ◌*◌, ◌^◌, ◌<◌, ◌≤◌, ◌↔◌, ℕ, List, Bool, Option, Some, Result};
ghost use Rattle.std.specs.List.{Contains};
ghost use Rattle.arena_chunks.specs.Memory.{Memory};
ghost use Rattle.arena_chunks.specs.Frame.{Frame, AreAllApart};
ghost use Rattle.arena_chunks.specs.Source.{View};
ghost use Rattle.arena_store.specs.declared.block.Block.{Block};
ghost use Rattle.arena_items.specs.Costs.{Costs, farthest};
ghost use Rattle.arena_items.specs.declared.room.AllocError.{AllocError};
ghost use Rattle.hash_ring.specs.Finite.{Finite, has};
ghost use Rattle.hash_ring.specs.Policy.{credit, slot_size, table_align, IsSlotsFor};
ghost use Rattle.arena_table.specs.Contents.{kind, content_in};
ghost use Rattle.arena_hash.specs.Accounts.{used, credit_of, unit_of};
ghost use Rattle.arena_hash.specs.Changes.{Becomes, Puts, is_new, is_value};
ghost use Rattle.arena_hash.specs.Maps.{IsMapIn, StaysMap, footprint, map_in, texts_in};
ghost use Rattle.arena_hash.specs.declared.map.HashMap.{HashMap};

use arena_items::Item;
use arena_table::ArenaKey;
use hash_ring::KeyHasher;

/// A map's block has at least the bytes of its pairs. A new map's table for n pairs, with the padding before it, takes
/// at most n units, and with n pairs in it the map has at most half as much credit.
pub fn bytes_law<K: ArenaKey, V: Item, S: KeyHasher>()
    ensures pairs { (memory : Memory) (m : HashMap K V S) → IsMapIn (kind K.Item K.key V.Item S.hash_of) memory m
        → (K.SIZE + V.SIZE) * m.len ≤ m.table.block.size }
    ensures table { (pairs slots : ℕ) → 0 < pairs → IsSlotsFor pairs slots
        → slots * slot_size K.SIZE V.SIZE + (table_align K.ALIGN V.ALIGN - 1)
        ≤ unit_of (kind K.Item K.key V.Item S.hash_of) * pairs }
    ensures full { (pairs slots : ℕ) → IsSlotsFor pairs slots
        → 2 * credit (unit_of (kind K.Item K.key V.Item S.hash_of)) slots pairs
        ≤ unit_of (kind K.Item K.key V.Item S.hash_of) * pairs }
{}

/// The frame law of maps. It says one thing more than `arena_items::laws::frame_law`: searches end where they did. If a
/// map's footprint is apart from the blocks that a call changes, then after the call the map is held, has the same
/// footprint and the same meaning, its footprint is apart from the call's new blocks, and searches end where they did.
/// For a set, use the law of its map, whose values are `()`.
pub fn map_frame_law<K: ArenaKey, V: Item, S: KeyHasher>()
    ensures { (old new : Memory) (before after : List Block) (m : HashMap K V S) → Frame old new before after
        → IsMapIn (kind K.Item K.key V.Item S.hash_of) old m
        → AreAllApart (footprint (kind K.Item K.key V.Item S.hash_of) old m) before
        → StaysMap (kind K.Item K.key V.Item S.hash_of) old new after m }
{}

/// Two maps with the same contents have the same length, whatever their arenas, tables and hashers.
pub fn lengths_law<K: ArenaKey, V: Item, S: KeyHasher>()
    ensures { (a c : Memory) (m w : HashMap K V S)
        → IsMapIn (kind K.Item K.key V.Item S.hash_of) a m → IsMapIn (kind K.Item K.key V.Item S.hash_of) c w
        → ((q : List ℕ) → has (map_in (kind K.Item K.key V.Item S.hash_of) a m) q
        ≡ has (map_in (kind K.Item K.key V.Item S.hash_of) c w) q)
        → m.len ≡ w.len }
{}

/// Facts about a map's keys: each key is stored under its content, and the map's texts are those of its keys.
pub fn texts_law<K: ArenaKey, V: Item, S: KeyHasher>()
    ensures contents { (memory : Memory) (m : HashMap K V S) (q : List ℕ) (p : K × V)
        → map_in (kind K.Item K.key V.Item S.hash_of) memory m q ≡ Some p
        → content_in K.key memory p.0 ≡ q }
    ensures texts { (memory : Memory) (m : HashMap K V S) (b : Block)
        → IsMapIn (kind K.Item K.key V.Item S.hash_of) memory m
        → Contains (texts_in (kind K.Item K.key V.Item S.hash_of) memory m) b
        ↔ ((q : List ℕ) × (p : K × V) × (map_in (kind K.Item K.key V.Item S.hash_of) memory m q ≡ Some p)
        × (K.key.text p.0 ≡ b)) }
{}

/// What a program's calls on one map or set take together: each insert raises the sum of the bytes that the arena uses
/// and the map's credit by at most two units, whatever it returns, and calls that take no memory don't raise it. So n
/// inserts take at most 2 * n units more than the credit that the map had.
pub fn costs_law<K: ArenaKey, V: Item, S: KeyHasher>()
    ensures inserts { (old new : View) (m w : HashMap K V S) (key : K) (value : V)
        (result : Result (Option V) AllocError)
        → Puts (kind K.Item K.key V.Item S.hash_of) old new m key value is_value w result
        → used new + credit_of (kind K.Item K.key V.Item S.hash_of) w
        ≤ used old + (credit_of (kind K.Item K.key V.Item S.hash_of) m
        + 2 * unit_of (kind K.Item K.key V.Item S.hash_of)) }
    ensures set_inserts { (old new : View) (m w : HashMap K V S) (item : K) (value : V)
        (result : Result Bool AllocError)
        → Puts (kind K.Item K.key V.Item S.hash_of) old new m item value is_new w result
        → used new + credit_of (kind K.Item K.key V.Item S.hash_of) w
        ≤ used old + (credit_of (kind K.Item K.key V.Item S.hash_of) m
        + 2 * unit_of (kind K.Item K.key V.Item S.hash_of)) }
    ensures others { (old new : View) (m w : HashMap K V S) (is : Finite K V)
        → Becomes (kind K.Item K.key V.Item S.hash_of) old new m is w
        → used new + credit_of (kind K.Item K.key V.Item S.hash_of) w
        ≤ used old + credit_of (kind K.Item K.key V.Item S.hash_of) m }
{}

/// What an insert costs over an arena of least alignment 1, in the form that `arena_items::laws::costs_law` adds up:
/// two units, less the rise of the map's credit, or plus its fall, whatever is returned. A refusal over a growing arena
/// is starved; over any other it means that the arena has fewer bytes. So n inserts cost at most 2 * n units plus the
/// credit before.
pub fn insert_law<K: ArenaKey, V: Item, S: KeyHasher>()
    ensures map { (old new : View) (m w : HashMap K V S) (key : K) (value : V)
        (result : Result (Option V) AllocError)
        → old.memory.state.min_align ≡ 1 → K.SIZE ≤ 2 ^ 24 → V.SIZE ≤ 2 ^ 24
        → IsMapIn (kind K.Item K.key V.Item S.hash_of) old.memory m
        → Puts (kind K.Item K.key V.Item S.hash_of) old new m key value is_value w result
        → Costs farthest (2 * unit_of (kind K.Item K.key V.Item S.hash_of))
        (credit_of (kind K.Item K.key V.Item S.hash_of) m)
        (credit_of (kind K.Item K.key V.Item S.hash_of) w) old new result }
    ensures set { (old new : View) (m w : HashMap K V S) (item : K) (value : V) (result : Result Bool AllocError)
        → old.memory.state.min_align ≡ 1 → K.SIZE ≤ 2 ^ 24 → V.SIZE ≤ 2 ^ 24
        → IsMapIn (kind K.Item K.key V.Item S.hash_of) old.memory m
        → Puts (kind K.Item K.key V.Item S.hash_of) old new m item value is_new w result
        → Costs farthest (2 * unit_of (kind K.Item K.key V.Item S.hash_of))
        (credit_of (kind K.Item K.key V.Item S.hash_of) m)
        (credit_of (kind K.Item K.key V.Item S.hash_of) w) old new result }
{}
