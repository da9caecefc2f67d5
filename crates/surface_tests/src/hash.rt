// Public items of hashers, keys, maps and sets.
use crate::kinds::{is_copy, is_walk};
use arena_chunks::{Allocator, ChunkSource, Str};
use arena_hash::{
    ArenaHashMap, ArenaHashSet, ArenaKey, FxHasher, HashMap, HashSet, IntoKeys, IntoValues, Iter,
    KeyHasher, Look, SetIter,
};
use arena_items::{Grown, Item};

// A hasher that implements only the required method.
#[derive(Default, Drop)]
struct Same;

impl KeyHasher for Same {
    ghost hash_of = { λ h content. 0 };

    fn hash(&self, content: &[u8]) -> u64 {
        let _ = content;
        0
    }
}

fn keys<K: ArenaKey, C: ChunkSource>(key: &K, a: &Allocator<C>, room: &mut [u8; 16]) {
    return;
    let _: &[u8] = key.content(a, room);
}

fn are_keys<A: ArenaKey, B: ArenaKey, C: ArenaKey, D: ArenaKey, E: ArenaKey>() {}

fn all_keys() {
    are_keys::<u8, u16, u32, u64, u128>();
    are_keys::<i8, i16, i32, i64, i128>();
    are_keys::<usize, isize, char, bool, Str>();
}

fn aliased<K, V, S>(
    map: HashMap<K, V>,
    set: HashSet<K>,
    maps: ArenaHashMap<K, V, S>,
    sets: ArenaHashSet<K, S>,
) -> (HashMap<K, V, S>, HashSet<K, S>) {
    let _: HashMap<K, V, FxHasher> = map;
    let _: HashSet<K, FxHasher> = set;
    (maps, sets)
}

fn made<K: ArenaKey, V: Item, S: KeyHasher + Drop, C: ChunkSource>(
    a: &mut Allocator<C>,
    hasher: S,
    map: HashMap<K, (), S>,
) {
    return;
    let _: u64 = hasher.hash(&[1u8]);
    let _: bool = S::is_fixed();
    let _: S = S::default();
    let _: HashMap<K, V, S> = HashMap::new_in();
    let _: HashMap<K, V, S> = HashMap::with_hasher_in(hasher);
    let _: Grown<HashMap<K, V, S>> = HashMap::with_capacity_in(8u64, a);
    let _: Grown<HashMap<K, V, S>> = HashMap::with_capacity_and_hasher_in(8u64, hasher, a);
    let _: HashSet<K, S> = HashSet::new_in();
    let _: HashSet<K, S> = HashSet::with_hasher_in(hasher);
    let _: Grown<HashSet<K, S>> = HashSet::with_capacity_in(8u64, a);
    let _: Grown<HashSet<K, S>> = HashSet::with_capacity_and_hasher_in(8u64, hasher, a);
    let _: HashSet<K, S> = HashSet::from(map);
}

fn collected<
    K: ArenaKey,
    V: Item,
    S: KeyHasher + Drop,
    C: ChunkSource,
    I: Iterator<Item = (K, V)> + Drop,
    J: Iterator<Item = K> + Drop,
>(a: &mut Allocator<C>, pairs: I, items: J) {
    return;
    let _: Grown<HashMap<K, V, S>> = HashMap::from_iter_in(pairs, a);
    let _: Grown<HashSet<K, S>> = HashSet::from_iter_in(items, a);
}

fn changed<K: ArenaKey, V: Item, S: KeyHasher, C: ChunkSource>(
    map: &mut HashMap<K, V, S>,
    set: &mut HashSet<K, S>,
    a: &mut Allocator<C>,
    key: K,
    value: V,
) {
    return;
    let look: Look = map.search(a, &[1u8]).1;
    let _: Grown<Option<V>> = map.insert_at(a, look, key, value);
    let _: Grown<Option<V>> = map.insert(a, key, value);
    let _: Option<V> = map.remove(a, key);
    let _: () = map.clear(a);
    let _: Grown<bool> = set.insert(a, key);
    let _: bool = set.remove(a, key);
}

fn looks<K: ArenaKey, V: Item, S: KeyHasher, C: ChunkSource>(
    map: &HashMap<K, V, S>,
    set: &HashSet<K, S>,
    a: &Allocator<C>,
    key: K,
    content: &[u8],
) {
    return;
    let _: u32 = map.len();
    let _: bool = map.is_empty();
    let _: Option<V> = map.get(a, key);
    let _: Option<V> = map.get_by(a, content);
    let _: (Option<V>, Look) = map.search(a, content);
    let _: Option<(K, V)> = map.pair_at(a, 8u64);
    let _: bool = map.contains_key(a, key);
    let _: bool = set.contains(a, key);
    let _: u32 = set.len();
    let _: bool = set.is_empty();
    let _: bool = set.eq(a, set);
    is_walk::<K, SetIter<'_, K, C>>(&set.iter(a));
}

fn equal<K: ArenaKey, V: Item + PartialEq, S: KeyHasher, C: ChunkSource>(
    map: &HashMap<K, V, S>,
    a: &Allocator<C>,
) {
    return;
    let _: bool = map.eq(a, map);
}

fn walks<K: ArenaKey, V: Item, S: KeyHasher + Copy + Drop, C: ChunkSource>(
    map: HashMap<K, V, S>,
    a: &Allocator<C>,
) {
    return;
    is_walk::<(K, V), Iter<'_, K, V, C>>(&map.iter(a));
    is_walk::<K, IntoKeys<'_, K, V, C>>(&map.into_keys(a));
    is_walk::<V, IntoValues<'_, K, V, C>>(&map.into_values(a));
}

fn copied<K: Copy, V: Copy, S: Copy>() {
    is_copy::<HashMap<K, V, S>>();
}
