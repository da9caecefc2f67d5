// Tests of sets of numbers: each call that makes one, an item that is inserted twice, and arenas that get full.
use super::Zero;
use crate::tests::{NO_PLACE, ample, fixed, same, same_at};
use arena_hash::{HashMap, HashSet};

#[test]
fn new_sets(rt: HostRuntime) {
    let mut a = ample(rt.alloc());
    let mut set = <HashSet<u32>>::with_capacity_in(3, &mut a).expect(&rt, "a set");
    same(&rt, set.insert(&mut a, 4), Ok(true));
    same(&rt, set.insert(&mut a, 4), Ok(false));
    same(&rt, <HashSet<u32>>::new_in().len(), 0);
    same(&rt, <HashSet<u32>>::from(HashMap::new_in()).len(), 0);
    let made = <HashSet<u32, Zero>>::with_capacity_and_hasher_in(3, Zero {}, &mut a);
    same(&rt, made.expect(&rt, "a set").len(), 0);
    let made = <HashSet<u32>>::from_iter_in([1, 2, 3].iter().copied(), &mut a);
    same(&rt, made.expect(&rt, "a set").len(), 3);
}

// The bytes of the arena, and the number of items for which it has room. A table of 16 slots has 16 * 5 bytes and room
// for 8 items, and the next one has twice as many. The refused item is the last that is taken.
#[test]
fn sets_that_are_full_at_each_growth(rt: HostRuntime) {
    for (bytes, items) in [(64, 0u32), (80, 8), (80 + 160, 16)] {
        let mut a = fixed(&rt, rt.alloc(), bytes);
        let mut keys = 0..100u32;
        let made = <HashSet<u32>>::from_iter_in(&mut keys, &mut a);
        same_at(&rt, items, made.err(), Some(NO_PLACE));
        same_at(&rt, items, keys.next(), Some(items.wrapping_add(1)));
    }
}
