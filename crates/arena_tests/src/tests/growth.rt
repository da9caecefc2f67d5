// Tests of where blocks are placed, how an arena gets its chunks, what it does after a refusal, and what a reset keeps.
use super::steps::{Answer, Step};
use super::{layout, must, same_at};
use arena_chunks::{Arena, ArenaErr, MemoryChunks};
use std::process::Abort;

pub(super) const CHUNKS: &[Step] = &[
    Step::Case("asked for at the alignment of the block", &[]),
    Step::Alloc(8, 8192, Ok(16384)),
    Step::Used(8128),
    Step::Requests(&[(16320, 8192)]),
    Step::Case("halves down to the least size", &[3, 4, 5]),
    Step::Alloc(64, 1, Ok(20352)),
    Step::Alloc(16320, 1, Ok(36848)),
    Step::Alloc(16384, 1, Ok(20464)),
    Step::Alloc(1, 1, Err(3)),
    Step::Alloc(1, 1, Ok(118687)),
    Step::Requests(&[
        (16320, 16),
        (32704, 16),
        (65472, 16),
        (32704, 16),
        (20416, 16),
        (65472, 16),
    ]),
    Step::Case("nothing is asked for where no chunk is that large", &[]),
    Step::Alloc((1 << 63) - 1, 1, Err(0)),
    Step::Alloc(0, 1 << 63, Err(0)),
    Step::Alloc((1 << 63) - 16, 16, Err(0)),
    Step::Requests(&[]),
    // The bytes that are left in the newest chunk, after each of three.
    Step::Case("three chunks, and the bytes in those before", &[]),
    Step::Alloc(1, 1, Ok(20415)),
    Step::Write(0, &[0xaa]),
    Step::Allocated(16320),
    Step::Capacity(16319),
    Step::Alloc(8192, 1, Ok(12223)),
    Step::Capacity(8127),
    Step::Alloc(12288, 1, Ok(40880)),
    Step::Allocated(16320 + 32704),
    Step::Capacity(20416),
    Step::Alloc(1, 1, Ok(40879)),
    Step::Write(3, &[0xbb]),
    Step::Read(0, &[0xaa]),
    Step::Capacity(20415),
    Step::Alloc(20480, 1, Ok(98208)),
    Step::Allocated(16320 + 32704 + 65472),
    Step::Capacity(44992),
    Step::Read(0, &[0xaa]),
    Step::Read(3, &[0xbb]),
];

// The size of a first chunk is a number of whole pages less 64 bytes.
pub(super) const FIRST_CHUNKS: &[Step] = &[
    Step::Case("9 pages less 64 bytes", &[]),
    Step::Alloc(9 * 4096 - 64, 1, Ok(4096)),
    Step::Allocated(36800),
    Step::Capacity(0),
    Step::Case("8 pages less 63 bytes", &[]),
    Step::Alloc(8 * 4096 - 64 + 1, 1, Ok(8191)),
    Step::Allocated(36800),
    Step::Capacity(4095),
];

pub(super) const RESETS: &[Step] = &[
    Step::Case("of a large chunk, which stays with its size", &[]),
    Step::Alloc(16384, 1, Ok(8128)),
    Step::Reset,
    Step::Allocated(20416),
    Step::Capacity(20416),
    Step::Alloc(1, 1, Ok(24511)),
    Step::Write(1, &[0xcd]),
    Step::Read(1, &[0xcd]),
    Step::Alloc(20415, 1, Ok(4096)),
    Step::Allocated(20416),
    Step::Capacity(0),
    Step::Case("of one chunk, and of three, the older of which go", &[]),
    Step::Allocated(0),
    Step::Used(0),
    Step::Walk(&[]),
    Step::Alloc(1, 1, Ok(20415)),
    Step::Allocated(16320),
    Step::Used(1),
    Step::Walk(&[(20415, 1, Some(0))]),
    Step::Reset,
    Step::Allocated(16320),
    Step::Used(0),
    Step::Walk(&[(20416, 0, None)]),
    Step::Alloc(64, 1, Ok(20352)),
    Step::Alloc(64, 1, Ok(20288)),
    Step::Write(2, &[1]),
    Step::Allocated(16320),
    Step::Used(128),
    Step::Walk(&[(20288, 128, Some(1))]),
    Step::Alloc(16320, 1, Ok(36848)),
    Step::Write(3, &[2]),
    Step::Allocated(16320 + 32704),
    Step::Used(128 + 16320),
    Step::Walk(&[(36848, 16320, Some(2)), (20288, 128, Some(1))]),
    Step::Alloc(32640, 1, Ok(86048)),
    Step::Write(4, &[3]),
    Step::Walk(&[
        (86048, 32640, Some(3)),
        (36848, 16320, Some(2)),
        (20288, 128, Some(1)),
    ]),
    Step::Allocated(16320 + 32704 + 65472),
    Step::Used(128 + 16320 + 32640),
    Step::Reset,
    Step::Walk(&[(118688, 0, None)]),
    Step::Allocated(65472),
    Step::Used(0),
    Step::Case("of no chunk", &[]),
    Step::Reset,
    Step::Allocated(0),
    Step::Alloc(1, 1, Ok(20415)),
    Step::HeldAt(0, 20415, 1, false),
    Step::HeldAt(1, 20415, 1, true),
];

// A size, and the address of its block or the number of refused requests.
type Row = (u64, Answer);

const IN_A_BUDGET: &[Row] = &[(16320, Ok(4096)), (1, Ok(53167)), (32704, Err(2))];

const AFTER_A_RESET: &[Row] = &[(32704, Ok(20464)), (1, Err(3))];

fn places(rt: &impl Abort, arena: &mut Arena<1>, chunks: &mut MemoryChunks, rows: &[Row]) {
    for &(size, wanted) in rows {
        match (arena.alloc_layout(chunks, layout(rt, size, 1)), wanted) {
            (Ok(block), Ok(addr)) => same_at(rt, size, block.addr, addr),
            (Err(e), Err(refused)) => same_at(rt, size, e, ArenaErr::AllocErr { refused }),
            _ => must(rt, size, false),
        }
    }
}

#[test]
fn a_budget_bounds_the_growth_and_is_not_refilled_by_a_reset(rt: HostRuntime) {
    let mut arena = Arena::new(rt.alloc());
    let mut chunks = MemoryChunks::new(rt.alloc(), 16320 + 32704);
    places(&rt, &mut arena, &mut chunks, IN_A_BUDGET);
    arena.reset();
    places(&rt, &mut arena, &mut chunks, AFTER_A_RESET);
}
