// A list that changes next to its copy, and a map that changes next to others.
ghost use Rattle.std.specs.Prelude.{◌≡◌, ◌+◌, ◌*◌, ◌^◌, ◌≤◌, ◌++◌, IsTrue, IfOk, OnOk, OnErr, List, [], ◌∷◌};
ghost use Rattle.arena_chunks.specs.Frame.{AreAllApart, AreBlocksApart, ArePairwiseApart, Frame};
ghost use Rattle.arena_chunks.specs.Memory.{is_readable};
ghost use Rattle.arena_store.specs.declared.block.Block.{Block};
ghost use Rattle.arena_hash.specs.Accounts.{credit_of, unit_of, used};
ghost use Rattle.arena_hash.specs.Changes.{Puts, is_value};
ghost use Rattle.arena_hash.specs.Contents.{kind};
ghost use Rattle.arena_hash.specs.Maps.{IsMapIn, StaysMap, footprint};
ghost use Rattle.arena_hash.specs.declared.map.HashMap.{HashMap};
ghost use Rattle.arena_vec.specs.Vecs.{vec_list};
ghost use Rattle.arena_clone.specs.Kinds.{vec_of};
ghost use Rattle.arena_clone.specs.Copies.{IsMade};
ghost use Rattle.example_collections.specs.CopyAndPush.{CopiesThenPushes};

use arena_chunks::{Allocator, ChunkSource};
use arena_clone::laws::copy_law;
use arena_clone::{CloneIn, CloneInSemanticIds, Grown};
use arena_hash::{ArenaKey, HashMap, KeyHasher, costs_law, map_frame_law};
use arena_items::Item;
use arena_items::laws::frame_law;
use arena_vec::Vec;

/// Copies a list, and then appends a value to the list. Returns the copy, which doesn't have the value and shares no
/// memory with the list.
///
/// # Errors
///
/// The first error of `clone_within` and `push`. The list is unchanged.
pub fn copy_and_push<T: CloneIn + Item, C: ChunkSource>(
    a: &mut Allocator<C>,
    list: &mut Vec<T>,
    value: T,
) -> Grown<Vec<T>>
    requires small { (vec_of T.Item T.kind).is_small }
    requires held { (vec_of T.Item T.kind).is_held a.old.memory list.old }
    ensures calls { CopiesThenPushes T.Item T.kind a.old a.new list.old value list.new result }
    ensures copy { IfOk result (λ copy. (blocks : List Block)
        × IsMade (vec_of T.Item T.kind) ((vec_of T.Item T.kind).whole a.old.memory list.old)
        a.new.memory blocks copy
        × ArePairwiseApart (list.new.raw.block ∷ blocks)
        × Frame a.old.memory a.new.memory (list.old.raw.block ∷ []) (list.new.raw.block ∷ blocks)) }
    ensures list { OnOk result (vec_list T.Item a.new.memory list.new
        ≡ vec_list T.Item a.old.memory list.old ++ value ∷ []) }
    ensures refused { OnErr result ((list.new ≡ list.old)
        × (vec_list T.Item a.new.memory list.new ≡ vec_list T.Item a.old.memory list.old)) }
{
    copy_law::<Vec<T>>();
    frame_law::<Vec<T>>();
    let copy = list.clone_within(CloneInSemanticIds::With, a)?;
    list.push(a, value)?;
    Ok(copy)
}

/// Inserts a pair into a map. All other maps whose blocks are disjoint from the table keep their pairs, with any
/// hasher. The sum of the bytes in use and the map's credit rises by at most two units.
///
/// # Errors
///
/// Those of `insert`. Nothing changes.
pub fn put_beside<K: ArenaKey, V: Item, S: KeyHasher, C: ChunkSource>(
    map: &mut HashMap<K, V, S>,
    a: &mut Allocator<C>,
    key: K,
    value: V,
) -> Grown<Option<V>>
    requires keys_small { K.SIZE ≤ 2 ^ 24 }
    requires values_small { V.SIZE ≤ 2 ^ 24 }
    requires held { IsMapIn (kind K.Item K.key V.Item S.hash_of) a.old.memory map.old }
    requires text { IsTrue (is_readable a.old.memory.state (K.key.text key)) }
    requires apart { AreBlocksApart (K.key.text key) map.old.table.block }
    ensures puts { Puts (kind K.Item K.key V.Item S.hash_of) a.old a.new map.old key value is_value map.new result }
    ensures others { let k = kind K.Item K.key V.Item S.hash_of in (other : HashMap K V S)
        → IsMapIn k a.old.memory other → AreAllApart (footprint k a.old.memory other) (map.old.table.block ∷ [])
        → StaysMap k a.old.memory a.new.memory (map.new.table.block ∷ []) other }
    ensures costs { let k = kind K.Item K.key V.Item S.hash_of in
        used a.new + credit_of k map.new ≤ used a.old + (credit_of k map.old + 2 * unit_of k) }
{
    map_frame_law::<K, V, S>();
    costs_law::<K, V, S>();
    map.insert(a, key, value)
}
