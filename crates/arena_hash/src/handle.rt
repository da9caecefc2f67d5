// What the handles of maps and sets mean.
ghost use Rattle.hash_ring.specs.Finite.{Finite};
ghost use Rattle.arena_table.specs.Contents.{kind};
ghost use Rattle.arena_hash.specs.Maps.{IsMapIn, map_in, footprint};
ghost use Rattle.arena_hash.specs.Sets.{set_kind};
ghost use Rattle.arena_hash.specs.laws.AgreeLaws.{footprint-agree, meaning-agree, held-agree};

use crate::map::HashMap;
use crate::set::HashSet;
use arena_items::{InArena, Item};
use arena_table::ArenaKey;
use hash_ring::KeyHasher;

impl<K: ArenaKey, V: Item, S: KeyHasher> InArena for HashMap<K, V, S> {
    ghost Meaning = { Finite K V };

    ghost footprint = { footprint (kind K.Item K.key V.Item S.hash_of) };

    ghost is_held = { IsMapIn (kind K.Item K.key V.Item S.hash_of) };

    ghost means = { map_in (kind K.Item K.key V.Item S.hash_of) };

    ghost readable = { λ a m held. (held.handle.place.readable, held.texts) };

    ghost same_footprint = { λ a c m agree.
        footprint-agree (kind ⟦<K as Item>⟧ K.key ⟦<V as Item>⟧ S.hash_of) a c m agree };

    ghost same_meaning = { λ a c m agree.
        meaning-agree (kind ⟦<K as Item>⟧ K.key ⟦<V as Item>⟧ S.hash_of) a c m agree };

    ghost held_again = { λ a c m held agree readable.
        held-agree (kind ⟦<K as Item>⟧ K.key ⟦<V as Item>⟧ S.hash_of) a c m agree held readable };
}

impl<T: ArenaKey, S: KeyHasher> InArena for HashSet<T, S> {
    ghost Meaning = { Finite T (Unit {0}) };

    ghost footprint = { λ a s. footprint (set_kind T.Item T.key S.hash_of) a s.map };

    ghost is_held = { λ a s. IsMapIn (set_kind T.Item T.key S.hash_of) a s.map };

    ghost means = { λ a s. map_in (set_kind T.Item T.key S.hash_of) a s.map };

    ghost readable = { λ a s held. (held.handle.place.readable, held.texts) };

    ghost same_footprint = { λ a c s agree.
        footprint-agree (set_kind ⟦<T as Item>⟧ T.key S.hash_of) a c s.map agree };

    ghost same_meaning = { λ a c s agree.
        meaning-agree (set_kind ⟦<T as Item>⟧ T.key S.hash_of) a c s.map agree };

    ghost held_again = { λ a c s held agree readable.
        held-agree (set_kind ⟦<T as Item>⟧ T.key S.hash_of) a c s.map agree held readable };
}
