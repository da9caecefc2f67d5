// Tests of a vector's storage through its own calls: capacities by hand from the rule of growth, and at its limits.
use super::vectors::known;
use super::{Memory, ample, same, same_at};
use arena_vec::AllocError::{self, CapacityOverflow};
use arena_vec::{RawVec, Vec};
use std::process::Abort;

// A call that makes room: the number of values that are kept, and the number of further ones.
#[derive(Drop)]
enum Room {
    Reserve(u32, u64),
    TryReserve(u32, u64),
    ReserveExact(u32, u64),
    TryReserveExact(u32, u64),
    GrowOne,
}

// Makes the calls of the rows in order on empty storage, and checks the capacity after each.
fn runs(rt: &impl Abort, a: &mut Memory, rows: &[(Room, u32)]) {
    let mut raw = <RawVec<u32>>::new_in();
    for (room, cap) in rows {
        known(rt, a, Vec { raw });
        let grown = match room {
            Room::Reserve(len, more) => raw.reserve(a, *len, *more),
            Room::TryReserve(len, more) => raw.try_reserve(a, *len, *more),
            Room::ReserveExact(len, more) => raw.reserve_exact(a, *len, *more),
            Room::TryReserveExact(len, more) => raw.try_reserve_exact(a, *len, *more),
            Room::GrowOne => raw.grow_one(a),
        };
        same_at(rt, *cap, grown, Ok(()));
        same_at(rt, *cap, (raw.len_u32(), raw.capacity_u32()), (0, *cap));
        same_at(rt, *cap, raw.ptr().size, *cap as u64 * 4);
    }
}

// Calls on new storage, and the capacity after each.
const CAPACITIES: &[&[(Room, u32)]] = &[
    &[(Room::Reserve(0, 9), 9)],
    &[(Room::Reserve(0, 7), 7), (Room::Reserve(7, 90), 97)],
    &[(Room::Reserve(0, 12), 12), (Room::Reserve(12, 3), 24)],
    &[(Room::TryReserve(0, 3), 3)],
    &[(Room::ReserveExact(0, 3), 3)],
    &[(Room::TryReserveExact(0, 3), 3)],
    &[
        (Room::GrowOne, 1),
        (Room::GrowOne, 2),
        (Room::GrowOne, 4),
        (Room::TryReserve(3, 2), 8),
        (Room::TryReserve(0, 20), 20),
        (Room::TryReserveExact(20, 1), 21),
        (Room::ReserveExact(5, 17), 22),
    ],
];

const REFUSED: AllocError = AllocError::AllocErr { refused: 1 };

#[test]
fn capacities(rt: HostRuntime) {
    for rows in CAPACITIES {
        runs(&rt, &mut ample(rt.alloc()), rows);
    }
}

#[test]
fn limits(rt: HostRuntime) {
    for (cap, why) in [(1 << 30, CapacityOverflow), ((1 << 30) - 1, REFUSED)] {
        let refused = <RawVec<u32>>::with_capacity_in(cap, &mut ample(rt.alloc()));
        same_at(&rt, cap, refused.err(), Some(why));
    }
    let mut a = ample(rt.alloc());
    let made = <RawVec<u32>>::with_capacity_in(3, &mut a).expect(&rt, "room");
    same(&rt, (made.len_usize(), made.capacity_usize()), (0, 3));
    let mut raw = <RawVec<u32>>::new_in();
    let refused = raw.try_reserve(&mut a, 0, 1 << 30);
    same(&rt, refused, Err(CapacityOverflow));
    same(&rt, (raw.capacity_u32(), a.used_bytes()), (0, 12));
}
