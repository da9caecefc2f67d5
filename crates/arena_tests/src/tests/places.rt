// Tests of where blocks are placed: in both halves of the address space, at its ends, for each least alignment, and at
// the largest sizes.
use super::layouts::MAX;
use super::{must, same, same_at};
use arena_place::{CHUNK_ALIGN, Layout, place};
use std::process::Abort;

// The lowest address with the top bit set.
const TOP: u64 = 1 << 63;

// A name, the start, the cursor, the size and the alignment of a block, and its expected place.
type Case = (&'static str, u64, u64, (u64, u64), Option<u64>);

const BY_1: &[Case] = &[
    // At alignment 1.
    ("enough room", 0x1000, 0x2000, (32, 1), Some(0x1fe0)),
    ("an exact fit", 0x1000, 0x1020, (32, 1), Some(0x1000)),
    ("not enough room", 0x1000, 0x1010, (32, 1), None),
    ("no room", 0x1000, 0x1000, (1, 1), None),
    ("one byte", 0x1000, 0x1001, (1, 1), Some(0x1000)),
    ("one byte short", 0x1000, 0x101f, (32, 1), None),
    ("one to spare", 0x1000, 0x1021, (32, 1), Some(0x1001)),
    ("no bytes", 0x1000, 0x1000, (0, 1), Some(0x1000)),
    ("past the cursor", 0x100, 0x200, (0x1000, 1), None),
    // At a greater alignment than the least.
    ("enough room", 0x1000, 0x1037, (16, 8), Some(0x1020)),
    ("not enough room", 0x1000, 0x1017, (32, 8), None),
    ("below the start", 0x1010, 0x1013, (4, 16), None),
    ("below the first unit", 0x10, 0x13, (4, 16), None),
    ("32 bytes", 0x1000, 0x1100, (32, 8), Some(0x10e0)),
    ("aligned already", 0x1000, 0x1040, (16, 8), Some(0x1030)),
    ("no bytes", 0x1000, 0x1037, (0, 8), Some(0x1030)),
    ("at the start", 0x1000, 0x1003, (0, 16), Some(0x1000)),
    // The largest sizes.
    ("the largest", 0x1000, 0x2000, (MAX, 1), None),
    ("the largest at 8", 0x1000, 0x2000, (MAX - 7, 8), None),
    ("the most padding", 0xf0, 0xf0, (MAX - 255, 256), None),
];

const BY_8: &[Case] = &[
    ("3 bytes are 8", 0x1000, 0x1100, (3, 1), Some(0x10f8)),
    ("32 bytes at 8", 0x1000, 0x1100, (32, 8), Some(0x10e0)),
    ("not enough room", 0x1000, 0x1010, (32, 8), None),
    // The largest sizes.
    ("the largest", 0x1000, 0x2000, (MAX, 1), None),
    ("a multiple of 8", 0x1000, 0x2000, (MAX - 7, 1), None),
    ("rounded to one", 0x1000, 0x2000, (MAX - 8, 1), None),
];

const BY_16: &[Case] = &[
    ("48 bytes", 0x1000, 0x1100, (48, 16), Some(0x10d0)),
    ("5 bytes are 16", 0x1000, 0x1100, (5, 1), Some(0x10f0)),
    ("32 bytes", 0x1000, 0x1100, (32, 16), Some(0x10e0)),
    // The largest sizes.
    ("the largest", 0x1000, 0x2000, (MAX, 1), None),
    ("2^63 with padding", 0x1000, 0x1000, (MAX - 14, 1), None),
];

const LOW: &[Case] = &[
    // Never at address 0.
    ("by its size", 16, 0x1000, (0x1000, 1), None),
    ("by its alignment", 16, 0x30, (4, 64), None),
    // At the first addresses.
    ("enough room", 0x10, 0x110, (32, 1), Some(0xf0)),
    ("not enough room", 0x10, 0x20, (32, 1), None),
];

// Over the middle of the address space.
const MIDDLE: &[Case] = &[
    ("enough room", 0xf00, 0x1100, (16, 1), Some(0x10f0)),
    ("not enough room", 0xff0, 0x1010, (64, 1), None),
    ("from the middle", 0x1000, 0x1010, (0x20, 1), None),
];

// At the last addresses.
const HIGH: &[Case] = &[
    ("enough room", 0xef0, 0xff0, (16, 1), Some(0xfe0)),
    ("not enough room", 0xfd0, 0xff0, (64, 1), None),
];

// A least alignment, the offsets that are added to all addresses of its cases, and the cases.
type Table = (u64, &'static [u64], &'static [Case]);

const TABLES: &[Table] = &[
    (1, &[0, TOP], BY_1),
    (8, &[0, TOP], BY_8),
    (16, &[0, TOP], BY_16),
    (1, &[0], LOW),
    (16, &[0], &[("by the least", 16, 16, (1, 1), None)]),
    (1, &[TOP - 0x1000], MIDDLE),
    (1, &[u64::MAX - 0xfff], HIGH),
];

// Returns where the block of a case is placed, with the start and the cursor raised by `at`. The test fails if these
// can't be those of a chunk.
fn place_of(rt: &impl Abort, at: u64, min_align: u64, case: Case) -> Option<u64> {
    let (name, low, high, (size, align), _) = case;
    must(rt, name, low <= high);
    must(rt, name, high <= u64::MAX - at);
    must(rt, name, high - low <= MAX);
    let start = at + low;
    let cursor = at + high;
    must(rt, name, 0 < start);
    must(rt, name, start % CHUNK_ALIGN == 0);
    assert!(rt; matches!(min_align, 1 | 2 | 4 | 8 | 16));
    let layout = Layout::new(size, align).expect(rt, "a layout");
    place(start, cursor, layout, min_align)
}

// The place, raised by `at`.
fn higher(at: u64, place: Option<u64>) -> Option<u64> {
    at.checked_add(place?)
}

#[test]
fn where_they_are_placed(rt: HostRuntime) {
    for &(min_align, offsets, cases) in TABLES {
        for &at in offsets {
            for &case in cases {
                let addr = place_of(&rt, at, min_align, case);
                same_at(&rt, (min_align, case.0, at), addr, higher(at, case.4));
            }
        }
    }
}

// A least alignment, a first block, and the places of blocks like it, each at the cursor after the one before.
const IN_TURN: &[(u64, Case, &[Option<u64>])] = &[
    (
        1,
        ("three blocks", 0x1000, 0x1100, (32, 1), None),
        &[Some(0x10e0), Some(0x10c0), Some(0x10a0)],
    ),
    (
        8,
        ("two blocks", TOP + 0x1000, TOP + 0x1100, (32, 8), None),
        &[Some(TOP + 0x10e0), Some(TOP + 0x10c0)],
    ),
    (
        1,
        ("until it is full", 0x1000, 0x1040, (16, 1), None),
        &[Some(0x1030), Some(0x1020), Some(0x1010), Some(0x1000), None],
    ),
    (
        8,
        ("at twice the least", 0x1000, 0x2008, (8, 16), None),
        &[Some(0x2000), Some(0x1ff0)],
    ),
];

#[test]
fn one_after_another(rt: HostRuntime) {
    for &(min_align, first, places) in IN_TURN {
        let mut case = first;
        for &wanted in places {
            let addr = place_of(&rt, 0, min_align, case);
            same(&rt, addr, wanted);
            case.2 = addr.unwrap_or(case.2);
        }
    }
}
