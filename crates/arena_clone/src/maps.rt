// Copies of maps.
ghost use Rattle.std.specs.Prelude.{◌≤◌, [], ◌∷◌};
ghost use Rattle.arena_hash.specs.Accounts.{spare_of};
ghost use Rattle.arena_hash.specs.Contents.{kind};
ghost use Rattle.arena_hash.specs.Maps.{pairs_in};
ghost use Rattle.arena_clone.specs.Copies.{Copies};
ghost use Rattle.arena_clone.specs.MapCopies.{HoldsCopies, PutsCopies};
ghost use Rattle.arena_clone.specs.MapKind.{map_of, pair_of};
ghost use Rattle.arena_clone.specs.laws.MapLaws.{map_lawful};
ghost use Rattle.arena_clone.specs.Origins.{AreBeside};

use crate::clone_in::CloneIn;
use crate::keys::CloneKey;
use crate::origin::Origin;
use crate::tables::{copy_table, is_copied_whole};
use arena_chunks::{Allocator, ChunkSource};
use arena_hash::{HashMap, KeyHasher};
use arena_items::{Grown, Item};
use arena_kinds::CloneInSemanticIds;

// Copies a pair: first its key, and then its value.
fn clone_pair<K: CloneIn + Item, V: CloneIn + Item, O: Origin<D>, D: ChunkSource>(
    pair: &(K, V),
    ids: CloneInSemanticIds,
    from: &O,
    to: &mut Allocator<D>,
) -> Grown<(K, V)>
    requires small { (pair_of K.kind V.kind).is_small }
    requires held { (pair_of K.kind V.kind).is_held (O.there from.now to.old.memory) pair.now }
    ensures { Copies (pair_of K.kind V.kind) ids (O.there from.now to.old.memory) to.old to.new pair.now result }
{
    let key = pair.0.copy_of(ids, from, to)?;
    let value = pair.1.copy_of(ids, from, to)?;
    Ok((key, value))
}

// Puts copies of a map's pairs into an empty map that has room for them.
fn put_pairs<K: CloneKey, V: CloneIn + Item, S: KeyHasher, O: Origin<D>, D: ChunkSource>(
    map: &HashMap<K, V, S>,
    empty: HashMap<K, V, S>,
    ids: CloneInSemanticIds,
    from: &O,
    to: &mut Allocator<D>,
) -> Grown<HashMap<K, V, S>>
    requires small { (map_of (kind K.Item K.key V.Item S.hash_of) S.is_default K.kind V.kind).is_small }
    requires held { (map_of (kind K.Item K.key V.Item S.hash_of) S.is_default K.kind V.kind).is_held
        (O.there from.now to.old.memory) map.now }
    requires empty { HoldsCopies (kind K.Item K.key V.Item S.hash_of)
        (O.there from.now to.old.memory) to.old.memory empty [] [] empty }
    requires room { map.now.len ≤ spare_of empty }
    requires beside { AreBeside O.is_beside ((map_of (kind K.Item K.key V.Item S.hash_of) S.is_default K.kind V.kind).deep
        (O.there from.now to.old.memory) map.now) (empty.table.block ∷ []) }
    ensures { PutsCopies (kind K.Item K.key V.Item S.hash_of) K.kind V.kind ids
        (O.there from.now to.old.memory) to.old to.new empty
        (pairs_in (kind K.Item K.key V.Item S.hash_of) (O.there from.now to.old.memory) map.now) result }
{
    let mut copy = empty;
    for slot in 0..map.table.slots {
        let Some(pair) = map.pair_at(from.arena(to), slot) else {
            continue;
        };
        let (key, value) = clone_pair::<K, V, O, D>(&pair, ids, from, to)?;
        copy.insert(to, key, value)?;
    }
    Ok(copy)
}

impl<K: CloneKey, V: CloneIn + Item, S: KeyHasher> CloneIn for HashMap<K, V, S> {
    ghost kind = { map_of (kind K.Item K.key V.Item S.hash_of) S.is_default K.kind V.kind };

    ghost lawful = { map_lawful (kind
        (record {
          is_value = K.is_value;
          encoded = K.encoded;
          decoded = K.decoded;
          SIZE = K.SIZE;
          ALIGN = K.ALIGN;
        })
        K.key
        (record {
          is_value = V.is_value;
          encoded = V.encoded;
          decoded = V.decoded;
          SIZE = V.SIZE;
          ALIGN = V.ALIGN;
        })
        S.hash_of) K.kind V.kind K.keeps K.lawful V.lawful S.is_default };

    fn is_flat(_ids: CloneInSemanticIds) -> bool {
        false
    }

    fn copy_of<O: Origin<D>, D: ChunkSource>(
        &self,
        ids: CloneInSemanticIds,
        from: &O,
        to: &mut Allocator<D>,
    ) -> Grown<Self> {
        if is_copied_whole(self, ids) {
            return copy_table(self, from, to);
        }
        let empty = HashMap::with_capacity_in(self.len as u64, to)?;
        let copy = put_pairs::<K, V, S, O, D>(self, empty, ids, from, to)?;
        Ok(copy)
    }
}
