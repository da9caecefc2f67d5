// Loops over maps.
ghost use Rattle.std.specs.Prelude.{IfOk};
ghost use Rattle.arena_hash.specs.Contents.{kind};
ghost use Rattle.arena_hash.specs.Maps.{IsMapIn};

use super::{Bench, Clock, Failed, Heap, Timed, count, new_allocator};
use arena_hash::{ArenaKey, FxHasher, HashMap, KeyHasher};
use arena_items::Item;

// The number of pairs of a small map.
const FEW: u32 = 8;

pub(super) fn time(bench: &Bench) -> Result<(), Failed> {
    bench.time_batches("map_small", 10_000_000, small)?;
    bench.time("map_get", 1_000_000, map_get)?;
    bench.time("map_remove", 1_000_000, map_remove)?;
    bench.time("map_insert", 1_000_000, map_insert)?;
    bench.time("map_iter", 1_000_000, map_iter)?;
    bench.time("map_walked", 1_000_000, map_walked)
}

// The numbers below 2^32 in a scattered order.
#[inline]
pub(super) fn key(i: u32) -> u32 {
    i.wrapping_mul(2_654_435_761)
}

// Returns a map of n keys to their numbers.
pub(super) fn filled(a: &mut Heap, n: u32) -> Result<HashMap<u32, u32>, Failed>
    ensures { IfOk result (IsMapIn (kind ⟦<u32 as Item>⟧ ⟦<u32 as ArenaKey>⟧.key ⟦<u32 as Item>⟧
        ⟦<FxHasher as KeyHasher>⟧.hash_of) a.new.memory) }
{
    let mut map = HashMap::new_in();
    for i in 0..n {
        map.insert(a, key(i), i)?;
    }
    Ok(map)
}

// Keys that are inserted into a map that grows.
fn map_insert(rt: &HostRuntime, a: &mut Heap, calls: u64) -> Result<Timed, Failed> {
    let n = count(calls)?;
    let clock = Clock::start(rt);
    let map = filled(a, n)?;
    clock.stop(rt, map.len() as u64)
}

// Keys that are looked up, of which half are in the map.
fn map_get(rt: &HostRuntime, a: &mut Heap, calls: u64) -> Result<Timed, Failed> {
    let n = count(calls)?;
    let map = filled(a, n)?;
    let clock = Clock::start(rt);
    let mut number: u64 = 0;
    for i in 0..n {
        if let Some(value) = map.get(a, key(i.wrapping_mul(2))) {
            number = number.wrapping_add(value as u64);
        }
    }
    clock.stop(rt, number)
}

// Keys that are removed.
fn map_remove(rt: &HostRuntime, a: &mut Heap, calls: u64) -> Result<Timed, Failed> {
    let n = count(calls)?;
    let mut map = filled(a, n)?;
    let clock = Clock::start(rt);
    let mut number: u64 = 0;
    for i in 0..n {
        if let Some(value) = map.remove(a, key(i)) {
            number = number.wrapping_add(value as u64);
        }
    }
    clock.stop(rt, number)
}

// Inserts keys into new maps of eight, and adds up the maps' lengths.
fn small(a: &mut Heap, keys: u64) -> Result<u64, Failed> {
    let mut number: u64 = 0;
    for i in 0..count(keys / FEW as u64)? {
        let mut map: HashMap<u32, u32> = HashMap::new_in();
        for k in 0..FEW {
            map.insert(a, key(i.wrapping_add(k)), k)?;
        }
        number = number.wrapping_add(map.len() as u64);
    }
    Ok(number)
}

// The pairs of a map, which are added up.
fn map_iter(rt: &HostRuntime, a: &mut Heap, calls: u64) -> Result<Timed, Failed> {
    let n = count(calls)?;
    let map = filled(a, n)?;
    let clock = Clock::start(rt);
    let mut number: u64 = 0;
    for (key, value) in map.iter(a) {
        number = number.wrapping_add(key as u64 + value as u64);
    }
    clock.stop(rt, number)
}

// The pairs of a map, which are inserted into another one in the order of an iterator.
fn map_walked(rt: &HostRuntime, a: &mut Heap, calls: u64) -> Result<Timed, Failed> {
    let n = count(calls)?;
    let map = filled(a, n)?;
    let mut b = new_allocator(rt);
    let mut other: HashMap<u32, u32> = HashMap::new_in();
    let clock = Clock::start(rt);
    for (key, value) in map.iter(a) {
        other.insert(&mut b, key, value)?;
    }
    clock.stop(rt, other.len() as u64)
}
