// The calls on numbers. Expected numbers are worked out by hand from the rules.
use crate::{
    Chunk, Counts, Cursor, arena_cursor_back, arena_cursor_chunk, arena_cursor_count,
    arena_cursor_enter, arena_cursor_find, arena_cursor_give_back, arena_cursor_grow,
    arena_cursor_next_chunk, arena_cursor_place, arena_cursor_reset, arena_cursor_shrink,
};

fn fresh() -> Cursor {
    Cursor {
        start: 1000,
        cursor: 1100,
        end: 1100,
        min_align: 1,
    }
}

// The size, the alignment, the code, the address, and the cursor afterwards.
const PLACES: &[(u64, u64, u32, u64, u64)] = &[
    (10, 1, 0, 1090, 1090),
    // 1085, rounded down to a multiple of 8.
    (5, 8, 0, 1080, 1080),
    (0, 16, 0, 1072, 1072),
    (73, 1, 1, 1072, 1072),
    // 1056, rounded down to a multiple of 64.
    (16, 64, 0, 1024, 1024),
    (25, 1, 1, 1024, 1024),
    (1, 3, 2, 1024, 1024),
    (u64::MAX, 1, 2, 1024, 1024),
    (24, 1, 0, 1000, 1000),
    (0, 1, 0, 1000, 1000),
    (1, 1, 1, 1000, 1000),
];

#[test]
fn blocks_are_placed_downwards(rt: HostRuntime) {
    let mut at = fresh();
    let mut addr = 0;
    for row in PLACES {
        let (size, align, code, wanted, cursor) = *row;
        let got = arena_cursor_place(&mut at, size, align, &mut addr);
        assert!(rt;
            got == code && addr == wanted && at.cursor == cursor,
            "{size} {align}"
        );
    }
}

#[test]
fn a_block_is_resized_and_given_back(rt: HostRuntime) {
    let (mut at, mut addr) = (fresh(), 0);
    assert_eq!(rt; arena_cursor_place(&mut at, 20, 4, &mut addr), 0);
    // 10 more bytes: from 1080 down to 1070, rounded to 1068.
    assert_eq!(rt; arena_cursor_grow(&mut at, &mut addr, 20, 4, 30, 4), 0);
    assert_eq!(rt; (addr, at.cursor), (1068, 1068));
    // 20 of 30 bytes are given back, which is at least half.
    assert_eq!(rt; arena_cursor_shrink(&mut at, &mut addr, 30, 4, 10, 4), 0);
    assert_eq!(rt; (addr, at.cursor), (1088, 1088));
    // 4 of 10 are less than half.
    assert_eq!(rt; arena_cursor_shrink(&mut at, &mut addr, 10, 4, 6, 4), 0);
    assert_eq!(rt; (addr, at.cursor), (1088, 1088));
    assert_eq!(rt; arena_cursor_grow(&mut at, &mut addr, 6, 4, 200, 4), 1);
    assert_eq!(rt; arena_cursor_give_back(&mut at, 1088, 6), 0);
    assert_eq!(rt; at.cursor, 1094);
    assert_eq!(rt; arena_cursor_back(&mut at, 1100), 0);
    assert_eq!(rt; at.cursor, 1100);
}

// Whatever the numbers, the code is that of the first test that fails.
#[test]
fn wrong_numbers_have_a_code(rt: HostRuntime) {
    let mut at = Cursor {
        start: 0,
        ..fresh()
    };
    let mut addr = 1100;
    assert_eq!(rt; arena_cursor_place(&mut at, 1, 1, &mut addr), 3);
    assert_eq!(rt; arena_cursor_give_back(&mut at, 1100, 0), 3);
    assert_eq!(rt; arena_cursor_back(&mut at, 1100), 3);
    at = fresh();
    assert_eq!(rt; arena_cursor_grow(&mut at, &mut addr, 0, 3, 1, 1), 2);
    assert_eq!(rt; arena_cursor_grow(&mut at, &mut addr, 1, 1, 2, 1), 4);
    assert_eq!(rt; arena_cursor_grow(&mut at, &mut addr, 0, 1, 0, 1), 0);
    assert_eq!(rt; arena_cursor_shrink(&mut at, &mut addr, 0, 1, 1, 1), 4);
    assert_eq!(rt; arena_cursor_give_back(&mut at, 1099, 1), 4);
    assert_eq!(rt; arena_cursor_back(&mut at, 1101), 4);
    assert_eq!(rt; arena_cursor_back(&mut at, 1099), 4);
    assert_eq!(rt; (addr, at.cursor), (1100, 1100));
}

// The size of the newest chunk, the size and the alignment of the block, the refusals, the code, the data size and the
// alignment of the chunk.
const CHUNKS: &[(u64, u64, u64, u32, u32, u64, u64)] = &[
    // The least size, 64 below 16384.
    (0, 1, 1, 0, 0, 16320, 16),
    (0, 1, 1, 1, 1, 16320, 16),
    // Twice the newest, and the half of that.
    (16320, 1, 1, 0, 0, 32704, 16),
    (16320, 1, 1, 1, 0, 16320, 16),
    (16320, 1, 1, 2, 1, 16320, 16),
    // A block of 5 pages, at a greater alignment.
    (0, 20480, 64, 0, 0, 24512, 64),
    // Twice the newest is below the block.
    (16320, 40000, 8, 0, 0, 40896, 16),
    (16320, 40000, 8, 1, 1, 40896, 16),
    (0, 1, 3, 0, 2, 40896, 16),
    (1 << 63, 1, 1, 0, 4, 40896, 16),
    // Rounded up to 16 it exceeds 2^63 - 64, the largest data size.
    (0, (1 << 63) - 63, 1, 0, 1, 40896, 16),
];

#[test]
fn chunks_are_asked_for_in_the_arenas_sizes(rt: HostRuntime) {
    let mut chunk = Chunk {
        size: 0,
        bytes: 0,
        align: 0,
    };
    for row in CHUNKS {
        let (newest, size, align, refused, code, wanted, unit) = *row;
        let got = arena_cursor_next_chunk(newest, size, align, refused, &mut chunk);
        assert!(rt;
            got == code
                && chunk.size == wanted
                && chunk.bytes == wanted + 48
                && chunk.align == unit,
            "{newest} {size} {align} {refused}"
        );
    }
    assert_eq!(rt; arena_cursor_chunk(100, 100, 1, &mut chunk), 0);
    assert_eq!(rt; (chunk.size, chunk.bytes), (192, 240));
    assert_eq!(rt; arena_cursor_chunk(0, 0, 1, &mut chunk), 4);
    assert_eq!(rt; arena_cursor_chunk(1 << 63, 1, 1, &mut chunk), 1);
}

#[test]
fn a_chunk_is_entered_and_emptied(rt: HostRuntime) {
    let (mut at, mut addr) = (fresh(), 0);
    let mut counts = Counts {
        used: 0,
        size: 0,
        free: 0,
    };
    assert_eq!(rt; arena_cursor_enter(&mut at, 4096, 192, 1), 0);
    assert_eq!(rt; (at.start, at.cursor, at.end), (4096, 4288, 4288));
    assert_eq!(rt; arena_cursor_place(&mut at, 100, 4, &mut addr), 0);
    assert_eq!(rt; arena_cursor_count(&at, &mut counts), 0);
    assert_eq!(rt;
        (addr, counts.used, counts.size, counts.free),
        (4188, 100, 192, 92)
    );
    assert_eq!(rt; arena_cursor_reset(&mut at), 0);
    assert_eq!(rt; at.cursor, 4288);
    assert_eq!(rt; arena_cursor_enter(&mut at, 0, 192, 1), 4);
    assert_eq!(rt; arena_cursor_enter(&mut at, 4096, u64::MAX - 4095, 1), 4);
    assert_eq!(rt; (at.start, at.end), (4096, 4288));
}

// The start, the size, the alignment, the least alignment, and the address found below 1100.
const FOUND: &[(u64, u64, u64, u64, u64)] = &[
    // 1090, rounded down to a multiple of 16, the greater alignment.
    (1000, 10, 8, 16, 1088),
    (1000, 10, 16, 8, 1088),
    (1000, 101, 1, 1, 0),
    (1000, 1, 3, 1, 0),
    (1000, 1, 1, 32, 0),
    (0, 1, 1, 1, 0),
];

#[test]
fn a_place_is_found_by_numbers(rt: HostRuntime) {
    for row in FOUND {
        let (start, size, align, least, wanted) = *row;
        assert!(rt;
            arena_cursor_find(start, 1100, size, align, least) == wanted,
            "{start} {size} {align} {least}"
        );
    }
}

#[test]
fn blocks_are_padded_to_the_least_alignment(rt: HostRuntime) {
    let (mut at, mut addr) = (fresh(), 0);
    at.min_align = 8;
    // 1100 is no multiple of 8.
    assert_eq!(rt; arena_cursor_place(&mut at, 10, 2, &mut addr), 3);
    assert_eq!(rt; arena_cursor_enter(&mut at, 1000, 104, 8), 0);
    assert_eq!(rt; arena_cursor_place(&mut at, 10, 2, &mut addr), 0);
    assert_eq!(rt; addr, 1088);
    // 17 bytes take 24, which is 14 more: from 1088 down to 1074, rounded to 1072.
    assert_eq!(rt; arena_cursor_grow(&mut at, &mut addr, 10, 2, 17, 2), 0);
    assert_eq!(rt; addr, 1072);
    // 12 of 17 bytes are given back in multiples of 8: 8 are less than half.
    assert_eq!(rt; arena_cursor_shrink(&mut at, &mut addr, 17, 2, 5, 2), 0);
    assert_eq!(rt; addr, 1072);
    assert_eq!(rt; arena_cursor_give_back(&mut at, 1072, 17), 0);
    assert_eq!(rt; at.cursor, 1096);
    assert_eq!(rt; arena_cursor_back(&mut at, 1100), 4);
    assert_eq!(rt; arena_cursor_enter(&mut at, 1000, 100, 8), 4);
}

#[test]
fn blocks_of_no_place_in_the_chunk_have_a_code(rt: HostRuntime) {
    let (mut at, mut addr) = (fresh(), 2004);
    assert_eq!(rt; arena_cursor_grow(&mut at, &mut addr, 8, 4, 16, 4), 6);
    assert_eq!(rt; arena_cursor_shrink(&mut at, &mut addr, 16, 4, 8, 4), 7);
    assert_eq!(rt; arena_cursor_shrink(&mut at, &mut addr, 16, 4, 8, 8), 6);
    assert_eq!(rt; arena_cursor_give_back(&mut at, 2004, 8), 7);
    // It ends at the start, or one byte past it.
    assert_eq!(rt; arena_cursor_give_back(&mut at, 990, 10), 7);
    assert_eq!(rt; arena_cursor_give_back(&mut at, 990, 11), 4);
    assert_eq!(rt; arena_cursor_give_back(&mut at, 1050, 0), 7);
    // One more byte at a multiple of 2^63 has no layout.
    addr = 1100;
    assert_eq!(rt; arena_cursor_grow(&mut at, &mut addr, 0, 1 << 63, 1, 1), 5);
    assert_eq!(rt; (addr, at.cursor), (1100, 1100));
}
