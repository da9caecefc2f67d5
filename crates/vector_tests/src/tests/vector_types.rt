// Tests of vectors of values of no bytes, and of the bytes of values with padding.
use super::vectors::Answer::{self, Done, Index, Value};
use super::vectors::Call::*;
use super::vectors::{Row, known, runs, vec_of};
use super::{ample, same};
use arena_vec::AllocError::CapacityOverflow;
use arena_vec::{Grown, Vec};

#[test]
fn of_plain_kinds(rt: HostRuntime) {
    runs(&rt, &mut ample(rt.alloc()), &mut Vec::new_in(), UNITS);
}

#[test]
fn bytes_of_values(rt: HostRuntime) {
    let mut a = ample(rt.alloc());
    let vec = vec_of(&rt, &mut a, &[(1u8, 2u32), (3, 4)]);
    let bytes = b"\x01\0\0\0\x02\0\0\0\x03\0\0\0\x04\0\0\0";
    same::<&[u8]>(&rt, vec.as_slice(&a), bytes);
}

const ALL: u32 = u32::MAX;

const DONE: Answer<()> = Done(Ok(()));

const UNITS: &[Row<()>] = &[
    (Push(()), DONE, &[()], ALL),
    (Resize(9, ()), DONE, &[(); 9], ALL),
    (PushMut(()), Index(Ok(9)), &[(); 10], ALL),
    (PushFastMut(()), Index(Ok(10)), &[(); 11], ALL),
    (Reserve((1 << 32) - 12), DONE, &[(); 11], ALL),
    (
        Reserve((1 << 32) - 11),
        Done(Err(CapacityOverflow)),
        &[(); 11],
        ALL,
    ),
    (ShrinkToFit, DONE, &[(); 11], ALL),
    (Remove(0), Value(Some(())), &[(); 10], ALL),
];

const AT_THE_END: &[Grown<u32>] = &[Ok(ALL - 1), Err(CapacityOverflow), Err(CapacityOverflow)];

// No block is placed, and the capacity is used up.
#[test]
fn as_many_units_as_there_are(rt: HostRuntime) {
    let mut a = ample(rt.alloc());
    let mut vec = Vec::with_capacity_in(10, &mut a).expect(&rt, "units");
    vec.resize(&mut a, 5, ()).expect(&rt, "units");
    same(&rt, (vec.len(), vec.capacity()), (5, ALL));
    assert!(rt; vec.len() <= 5 && ALL <= vec.capacity());
    vec.raw.increase_len(ALL - 6);
    for wanted in AT_THE_END {
        known(&rt, &a, vec);
        same(&rt, vec.push_mut(&mut a, ()), *wanted);
        same(&rt, (vec.len(), a.used_bytes()), (ALL, 0));
    }
    let refused = <Vec<()>>::with_capacity_in(1 << 32, &mut a);
    same(&rt, refused.err(), Some(CapacityOverflow));
    same(&rt, a.used_bytes(), 0);
}
