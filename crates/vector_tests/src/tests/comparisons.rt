// Tests of comparisons, hashes and debug texts of vectors, by the Rust crate's tests.
use super::vectors::{known, vec_of};
use super::{Memory, ample, same};
use arena_items::Item;
use arena_vec::Vec;
use std::alloc::Global;
use std::cmp::Ordering;
use std::fmt::Debug;
use std::hash::{DefaultHasher, Hash, Hasher};
use std::process::Abort;

// Returns the hash of a vector by std's hasher, which is that of a slice with the same values.
fn hash_of(rt: &impl Abort, a: &Memory, vec: Vec<u8>) -> u64 {
    known(rt, a, vec);
    let mut state = DefaultHasher::new();
    vec.hash(a, &mut state);
    state.finish()
}

// A list, and how the values 1 to 3 compare with it.
const ORDERS: &[(&[u8], Ordering)] = &[
    (&[1, 2, 3], Ordering::Equal),
    (&[1, 2, 4], Ordering::Less),
    (&[1, 2], Ordering::Greater),
];

#[test]
fn equality_and_order(rt: HostRuntime) {
    let mut a = ample(rt.alloc());
    let one = vec_of(&rt, &mut a, &[1u8, 2, 3]);
    for &(list, order) in ORDERS {
        let other = vec_of(&rt, &mut a, list);
        known(&rt, &a, one);
        same(&rt, one.eq(&a, &other), order.is_eq());
        same(&rt, one.eq_slice(&a, list), order.is_eq());
        same(&rt, one.cmp(&a, &other), order);
        same(&rt, one.partial_cmp(&a, &other), Some(order));
        let is_same = hash_of(&rt, &a, one) == hash_of(&rt, &a, other);
        same(&rt, is_same, order.is_eq());
        let mut state = DefaultHasher::new();
        list.hash(&mut state);
        same(&rt, hash_of(&rt, &a, other), state.finish());
    }
}

// Checks the debug text of a vector with these values.
fn says<T: Item + Debug>(rt: &impl Abort, alloc: Global, list: &[T], wanted: &str) {
    let mut a = ample(alloc);
    let vec = vec_of(rt, &mut a, list);
    let text = vec.debug(alloc, &a).expect(rt, "memory");
    same(rt, text.as_str(), wanted);
}

#[test]
fn texts(rt: HostRuntime) {
    says(&rt, rt.alloc(), &[1u32, 2], "Vec([1, 2])");
    says(&rt, rt.alloc(), &[1u32, 2, 3], "Vec([1, 2, 3])");
    says(&rt, rt.alloc(), &['x'], "Vec(['x'])");
}
