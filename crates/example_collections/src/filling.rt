// Many pairs that are inserted into a map, and their cost.
ghost use Rattle.std.specs.Prelude.{◌≡◌, ◌-◌, ◌*◌, ◌^◌, [], ◌∷◌, OnOk, length};
ghost use Rattle.arena_chunks.specs.Frame.{Frame};
ghost use Rattle.arena_hash.specs.Accounts.{credit_of};
ghost use Rattle.arena_hash.specs.Contents.{kind};
ghost use Rattle.arena_hash.specs.Finite.{with_all};
ghost use Rattle.arena_hash.specs.Maps.{IsMapIn, map_in};
ghost use Rattle.arena_items.specs.Costs.{Costs, farthest};

use arena_chunks::{Allocator, ChunkSource};
use arena_hash::{ArenaKey, FxHasher, HashMap, KeyHasher, insert_law};
use arena_items::laws::costs_law;
use arena_items::{Grown, Item};

/// Inserts pairs in order. In an arena of least alignment 1 they cost at most the credit that the map had and 320
/// bytes each, which is two units for a pair of 12 bytes.
///
/// # Errors
///
/// Those of `insert`. The pairs before the failure stay inserted.
pub fn put_all<C: ChunkSource>(
    map: &mut HashMap<u64, u32>,
    a: &mut Allocator<C>,
    pairs: &[(u64, u32)],
) -> Grown<()>
    requires { IsMapIn (kind ⟦<u64 as Item>⟧ ⟦<u64 as ArenaKey>⟧.key ⟦<u32 as Item>⟧
        ⟦<FxHasher as KeyHasher>⟧.hash_of) a.old.memory map.old }
    ensures held { IsMapIn (kind ⟦<u64 as Item>⟧ ⟦<u64 as ArenaKey>⟧.key ⟦<u32 as Item>⟧
        ⟦<FxHasher as KeyHasher>⟧.hash_of) a.new.memory map.new }
    ensures map_is { let k = kind ⟦<u64 as Item>⟧ ⟦<u64 as ArenaKey>⟧.key ⟦<u32 as Item>⟧
        ⟦<FxHasher as KeyHasher>⟧.hash_of in
        OnOk result (map_in k a.new.memory map.new
        ≡ with_all ⟦<u64 as Item>⟧.encoded (map_in k a.old.memory map.old) pairs.now) }
    ensures frame { Frame a.old.memory a.new.memory (map.old.table.block ∷ []) (map.new.table.block ∷ []) }
    ensures costs { let k = kind ⟦<u64 as Item>⟧ ⟦<u64 as ArenaKey>⟧.key ⟦<u32 as Item>⟧
        ⟦<FxHasher as KeyHasher>⟧.hash_of in
        a.old.memory.state.min_align ≡ 1 → Costs (farthest - 2 ^ 61) (320 * length pairs.now)
        (credit_of k map.old) (credit_of k map.new) a.old a.new result }
{
    insert_law::<u64, u32, FxHasher>();
    costs_law::<(), Option<u32>>();
    'pairs: for i in 0..pairs.len() {
        let (key, value) = pairs[i];
        map.insert(a, key, value)?;
    }
    Ok(())
}
