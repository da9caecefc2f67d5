// Tests of iterators over vectors, ranges that are drained, and values that a predicate picks: worked examples, and
// those of the Rust crate.
use super::vectors::{is_list, vec_of};
use super::{ample, same};
use arena_vec::Vec;
use std::alloc::Global;
use std::process::Abort;

#[test]
fn from_both_ends(rt: HostRuntime) {
    let mut a = ample(rt.alloc());
    let vec = vec_of(&rt, &mut a, b"abc");
    let mut walk = vec.into_iter(&a);
    same(&rt, walk.len(), 3);
    let first = walk.next();
    let last = walk.next_back();
    same(&rt, (first, last), (Some(b'a'), Some(b'c')));
    same::<&[u8]>(&rt, walk.as_slice(), b"b");
}

// However much of a range was taken, it is removed as a whole.
#[test]
fn ranges(rt: HostRuntime) {
    let mut a = ample(rt.alloc());
    let mut vec = Vec::from_iter_in([1u32, 2, 3, 4, 5].into_iter(), &mut a).expect(&rt, "room");
    assert!(rt; 3 <= vec.len());
    let mut gone = vec.drain(&mut a, 1, 3);
    same(&rt, gone.next(), Some(2));
    gone.finish();
    is_list(&rt, &a, vec, &[1, 4, 5]);
    assert!(rt; 3 <= vec.len());
    let mut gone = vec.drain(&mut a, 1, 3);
    same(&rt, (gone.next(), gone.next_back()), (Some(4), Some(5)));
    gone.finish();
    is_list(&rt, &a, vec, &[1]);
}

#[test]
fn values_that_go(rt: HostRuntime) {
    let mut a = ample(rt.alloc());
    let mut vec = vec_of(&rt, &mut a, &[1u32, 2, 3, 4, 5]);
    let mut gone = vec.drain_filter(&mut a, |x| *x % 2 == 0);
    let first = gone.next();
    let second = gone.next();
    same(&rt, (first, second), (Some(2), Some(4)));
    gone.finish();
    is_list(&rt, &a, vec, &[1, 3, 5]);
}

#[test]
fn values_that_stay(rt: HostRuntime) {
    let mut a = ample(rt.alloc());
    let mut vec = vec_of(&rt, &mut a, &[1u32, 2, 3, 4]);
    vec.retain(&mut a, |x| *x % 2 == 0);
    is_list(&rt, &a, vec, &[2, 4]);
    let mut vec = vec_of(&rt, &mut a, &[1u32, 2, 3, 4]);
    vec.retain_mut(&mut a, |x| {
        let stays = *x <= 3;
        if stays {
            *x = x.wrapping_add(1);
        }
        stays
    });
    is_list(&rt, &a, vec, &[2, 3, 4]);
}

// The list, and what is left if equal neighbours are removed.
const ALIKE: &[(&[u32], &[u32])] = &[
    (&[1, 1, 2, 1], &[1, 2, 1]),
    (&[1, 2, 2, 3, 2], &[1, 2, 3, 2]),
];

// Those with equal tens are removed, and then each that is less than the last one kept, to which it is added.
fn by_tens_and_sums(rt: &impl Abort, alloc: Global) {
    let mut a = ample(alloc);
    let mut vec = vec_of(rt, &mut a, &[10u32, 20, 21, 30, 20]);
    vec.dedup_by_key(&mut a, |x| *x / 10);
    is_list(rt, &a, vec, &[10, 20, 30, 20]);
    vec.dedup_by(&mut a, |x, last| {
        let goes = *x < *last;
        if goes {
            *last = last.wrapping_add(*x);
        }
        goes
    });
    is_list(rt, &a, vec, &[10, 20, 50]);
}

#[test]
fn alike(rt: HostRuntime) {
    for (list, left) in ALIKE {
        let mut a = ample(rt.alloc());
        let mut vec = vec_of(&rt, &mut a, list);
        vec.dedup(&mut a);
        is_list(&rt, &a, vec, left);
    }
    by_tens_and_sums(&rt, rt.alloc());
}
