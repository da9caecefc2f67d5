// Copies of maps whose keys and values name no block, with hashers that all hash alike: a table's bytes, copied
// elsewhere, are the table of a copy.
ghost use Rattle.std.specs.Prelude.{◌*◌, ◌<◌, IsTrue};
ghost use Rattle.arena_hash.specs.Contents.{kind, IsFixed};
ghost use Rattle.arena_clone.specs.Copies.{Copies};
ghost use Rattle.arena_clone.specs.MapKind.{map_of};
ghost use Rattle.arena_kinds.specs.declared.ids.CloneInSemanticIds.{CloneInSemanticIds};

use crate::blocks::place_copy;
use crate::clone_in::CloneIn;
use crate::keys::CloneKey;
use crate::origin::Origin;
use arena_chunks::{Allocator, ChunkSource};
use arena_hash::{HashMap, KeyHasher, Table};
use arena_items::{Grown, Item};
use arena_kinds::CloneInSemanticIds;

// Returns whether the bytes of a map's table are the table of a copy: keys and values name no block, a new hasher
// hashes each content alike, and more than a quarter of the slots are taken, so that a new table for as many pairs has
// as many slots. One or two pairs are inserted one by one: a new table for them has 8 slots, of which they take at most
// a quarter.
#[inline]
pub(crate) fn is_copied_whole<K: CloneKey, V: CloneIn + Item, S: KeyHasher>(
    map: &HashMap<K, V, S>,
    ids: CloneInSemanticIds,
) -> bool
    ensures keys { IsTrue result → IsTrue (K.kind.is_flat ids) }
    ensures values { IsTrue result → IsTrue (V.kind.is_flat ids) }
    ensures fixed { IsTrue result → IsFixed S.hash_of }
    ensures full { IsTrue result → map.now.table.slots < 4 * map.now.len }
{
    K::is_flat(ids) && V::is_flat(ids) && S::is_fixed() && map.table.slots < 4 * map.len as u64
}

// Copies a map with the bytes of its table.
pub(crate) fn copy_table<
    K: CloneKey,
    V: CloneIn + Item,
    S: KeyHasher,
    O: Origin<D>,
    D: ChunkSource,
>(map: &HashMap<K, V, S>, from: &O, to: &mut Allocator<D>) -> Grown<HashMap<K, V, S>>
    requires held { (map_of (kind K.Item K.key V.Item S.hash_of) S.is_default K.kind V.kind).is_held
        (O.there from.now to.old.memory) map.now }
    requires fixed { IsFixed S.hash_of }
    requires full { map.now.table.slots < 4 * map.now.len }
    ensures { (ids : CloneInSemanticIds) → IsTrue (K.kind.is_flat ids) → IsTrue (V.kind.is_flat ids)
        → Copies (map_of (kind K.Item K.key V.Item S.hash_of) S.is_default K.kind V.kind) ids
        (O.there from.now to.old.memory) to.old to.new map.now result }
{
    // For the proof: the arena's state is valid, and the table has a layout.
    from.arena(to).known();
    let table = map.table.block;
    let block = place_copy(from, table, to, table.size, table.align)?;
    Ok(HashMap {
        table: Table { block, ..map.table },
        len: map.len,
        hasher: S::default(),
    })
}
