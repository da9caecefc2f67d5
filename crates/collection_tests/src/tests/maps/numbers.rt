// Tests of maps of numbers: the pairs of an iterator, many pairs, and maps that have to grow, or are made with a
// capacity, where the arena is full or gets no chunk. A hasher whose hash is always 0 changes no result.
use super::Zero;
use super::kept::{Kept, Numbers};
use crate::tests::{Memory, NO_CHUNK, NO_PLACE, ample, fixed, limited, same, same_at};
use arena_hash::{FxHasher, HashMap, KeyHasher};
use arena_items::AllocError;
use std::alloc::Global;
use std::process::Abort;

// A later pair replaces the value of an earlier one.
fn collects<S: KeyHasher + Copy>(rt: &impl Abort, alloc: Global, pairs: &[(u32, u32)]) {
    let mut map: Numbers<S> = Kept::new(ample(alloc));
    assert!(rt; map.collect(pairs.iter().copied()).is_ok());
    same(rt, map.get(1), Some(3));
    same(rt, map.len(), 1);
    assert!(rt; map.contains(1) && !map.contains(2));
    let mut keys = map.keys();
    same(rt, (keys.next(), keys.next()), (Some(1), None));
    let mut values = map.values();
    same(rt, (values.next(), values.next()), (Some(3), None));
}

#[test]
fn pairs_of_an_iterator(rt: HostRuntime) {
    collects::<FxHasher>(&rt, rt.alloc(), &[(1, 2), (1, 3)]);
    collects::<Zero>(&rt, rt.alloc(), &[(1, 2), (1, 3)]);
}

// The steps between keys: close keys, or keys spread over the whole range. Both steps are odd, so no two keys are
// equal.
const CLOSE: u32 = 1;

const WIDE: u32 = 2_654_435_761;

// Inserts n pairs, and removes those with even numbers. Then the map has those with odd numbers and no others.
fn halved<S: KeyHasher + Copy>(rt: &impl Abort, alloc: Global, n: u32, step: u32) {
    let mut map: Numbers<S> = Kept::new(ample(alloc));
    for i in 0..n {
        assert!(rt; map.insert(i.wrapping_mul(step), i) == Ok(None));
    }
    same(rt, map.len(), n);
    for i in (0..n).step_by(2) {
        assert!(rt; map.remove(i.wrapping_mul(step)) == Some(i));
    }
    for i in 0..n {
        let wanted = if i % 2 == 0 { None } else { Some(i) };
        assert!(rt; map.get(i.wrapping_mul(step)) == wanted);
    }
    same(rt, map.len(), n / 2);
}

// No clause bounds the time that a million pairs take.
#[test]
fn many_pairs(rt: HostRuntime) {
    halved::<FxHasher>(&rt, rt.alloc(), 1000, CLOSE);
    halved::<Zero>(&rt, rt.alloc(), 1000, CLOSE);
    halved::<FxHasher>(&rt, rt.alloc(), 1_000_000, WIDE);
}

// Checks that a pair is refused after `pairs` pairs of an iterator, and that no further one is taken from it.
fn stops(rt: &impl Abort, a: Memory, pairs: u32, why: AllocError) {
    let mut map: Numbers<FxHasher> = Kept::new(a);
    let mut keys = (0..100u32).zip(0..100u32);
    same_at(rt, pairs, map.collect(&mut keys), Err(why));
    let next = pairs.wrapping_add(1);
    same_at(rt, pairs, keys.next(), Some((next, next)));
}

// The bytes of the arena, and the number of pairs for which it has room. A table of 16 slots has 16 * 9 bytes and
// room for 8 pairs, and the next one has twice as many. The earlier tables stay in the arena.
#[test]
fn full_at_each_growth(rt: HostRuntime) {
    for (bytes, pairs) in [(128, 0), (144, 8), (144 + 288, 16)] {
        stops(&rt, fixed(&rt, rt.alloc(), bytes), pairs, NO_PLACE);
    }
    stops(&rt, limited(rt.alloc(), 0), 0, NO_CHUNK);
}

// A capacity, and the error if there is no room for it in 288 bytes: of an empty map, and of one with a given hasher.
#[test]
fn capacities(rt: HostRuntime) {
    for (capacity, failed) in [
        (0, None),
        (3, None),
        (17, Some(NO_PLACE)),
        (1 << 32, Some(AllocError::CapacityOverflow)),
    ] {
        let mut a = fixed(&rt, rt.alloc(), 288);
        let made = <HashMap<u32, u32>>::with_capacity_in(capacity, &mut a);
        same_at(&rt, capacity, made.err(), failed);
        let hasher = FxHasher::default();
        let made = <HashMap<u32, u32>>::with_capacity_and_hasher_in(capacity, hasher, &mut a);
        same_at(&rt, capacity, made.err(), failed);
    }
}
