// Worked examples of layouts, and of the sizes and bases of chunks, as tables.
use super::{same, same_at};
use arena_place::{Layout, chunk_data_size, next_base, round_up_to};

// The largest size of a layout.
pub(super) const MAX: u64 = (1 << 63) - 1;

// A size and an alignment, and whether they are a valid layout.
const LAYOUTS: &[(u64, u64, bool)] = &[
    (0, 1 << 63, true),
    (1, 1 << 63, false),
    (MAX, 1, true),
    (MAX + 1, 1, false),
    (24, 8, true),
    (1, 0, false),
    (1, 3, false),
];

#[test]
fn layouts(rt: HostRuntime) {
    for &(size, align, is_one) in LAYOUTS {
        let layout = Layout::new(size, align);
        same_at(&rt, (size, align), layout.is_some(), is_one);
    }
    // The number of elements, their size and their alignment, and whether the array has a layout.
    for (n, size, align, is_one) in [(3, 8, 4, true), (1 << 32, 1 << 32, 1, false)] {
        let array = Layout::array(n, size, align);
        same_at(&rt, (n, size), array.is_some(), is_one);
    }
}

// A capacity, a size at alignment 1, and the data size of a chunk for both.
const SIZES: &[(u64, u64, Option<u64>)] = &[
    (10, 10, Some(64)),
    (4095, 1, Some(8128)),
    (16321, 1, Some(20416)),
    (u64::MAX, 1, None),
];

// A data end, and the base of the next chunk, at alignment 16.
const BASES: &[(Option<u64>, Option<u64>)] = &[
    (None, Some(4096)),
    (Some(20416), Some(20464)),
    (Some(u64::MAX - 40), None),
];

#[test]
#[tactic(auto, unfolding(arena_rules::specs::Rounding::is_power_among))]
fn sizes_and_bases_of_chunks(rt: HostRuntime) {
    for &(n, size, wanted) in SIZES {
        let layout = Layout::new(size, 1).expect(&rt, "a layout");
        same_at(&rt, n, chunk_data_size(n, layout), wanted);
    }
    for &(end, wanted) in BASES {
        same(&rt, next_base(end, 16), wanted);
    }
    same(&rt, next_base(Some(20416), 64), Some(20480));
    same(&rt, round_up_to(u64::MAX, 2), None);
}
