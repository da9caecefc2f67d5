// Maps of an iterator's pairs.
ghost use Rattle.std.specs.Prelude.{◌^◌, ◌≤◌, List, [], ◌∷◌, IfOk, IfErr, OnErr, Some, IsTrue};
ghost use Rattle.std.specs.Iterator.{IsFinite, Yields};
ghost use Rattle.arena_chunks.specs.Memory.{is_readable};
ghost use Rattle.arena_chunks.specs.Frame.{Frame};
ghost use Rattle.arena_table.specs.Contents.{kind};
ghost use Rattle.arena_hash.specs.Maps.{IsMapIn};
ghost use Rattle.arena_hash.specs.Collecting.{CollectsAll, CollectsSome};

use crate::map::HashMap;
use arena_chunks::{Allocator, ChunkSource};
use arena_items::{Grown, Item};
use arena_table::ArenaKey;
use hash_ring::KeyHasher;

impl<K: ArenaKey, V: Item, S: KeyHasher> HashMap<K, V, S> {
    /// Collects an iterator's pairs into a map, inserting them one by one. The size hint isn't used. A later pair
    /// replaces the value of an earlier one with the same key.
    ///
    /// # Errors
    ///
    /// As for `insert`. What was placed stays in the arena.
    pub fn from_iter_in<C: ChunkSource, I: Iterator<Item = (K, V)>>(
        iter: I,
        a: &mut Allocator<C>,
    ) -> Grown<HashMap<K, V, S>>
    where
        I: Drop,
        requires keys_small { K.SIZE ≤ 2 ^ 24 }
        requires values_small { V.SIZE ≤ 2 ^ 24 }
        requires can { I.can_next iter }
        requires ends { IsFinite (I.remaining iter) }
        requires texts { (pairs : List (K × V)) (now rest : I) (last : K × V)
            → Yields I.next_gives iter pairs now → I.next_gives now (Some last) rest
            → IsTrue (is_readable a.old.memory.state (K.key.text last.0)) }
        ensures held { IfOk result (IsMapIn (kind K.Item K.key V.Item S.hash_of) a.new.memory) }
        ensures frame { IfOk result (λ m. Frame a.old.memory a.new.memory [] (m.table.block ∷ [])) }
        ensures beside { OnErr result (Frame a.old.memory a.new.memory [] []) }
        ensures hasher { IfOk result (λ m. S.is_default m.hasher) }
        ensures collects { IfOk result
            (CollectsAll (kind K.Item K.key V.Item S.hash_of) I.next_gives iter a.old a.new) }
        ensures refused { IfErr result
            (CollectsSome (kind K.Item K.key V.Item S.hash_of) I.next_gives iter a.old a.new) }
    {
        let mut iter = iter;
        let mut map = HashMap::new_in();
        while let Some(pair) = iter.next() {
            map.insert(a, pair.0, pair.1)?;
        }
        Ok(map)
    }
}
