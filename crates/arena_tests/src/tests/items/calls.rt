// Tests of calls that place values, as tables of calls with their expected results.
ghost use Rattle.std.specs.Iterator.{at_most};

use self::Call::*;
use self::Wanted::{Placed, Refused, TooFew};
use crate::tests::{ample, reads, refusing, same_at};
use arena_chunks::{Allocator, Block, ChunkSource, MemoryChunks};
use arena_items::{ArenaItems, ItemErr};
use std::process::Abort;

// A call that places values: a single one, and each that fills a slice, is the `u32` 3, copied ones are the `u32` 1 to
// 3. Those of a closure or an iterator are `u64`.
#[derive(Drop)]
enum Call {
    Alloc,
    TryAlloc,
    AllocWith,
    TryAllocWith,
    SliceCopy,
    SliceClone,
    // The number of values.
    FillCopy(u64),
    FillClone(u64),
    FillDefault(u64),
    FillWith(u64),
    // The length that the iterator reports, and the number of values that it yields.
    FillIter(usize, u64),
}

const VALUES: &[u32] = &[1, 2, 3];

// An iterator of numbers from 1. The length that it reports may differ from the number that it yields. It records
// how many are taken.
#[derive(Drop)]
struct Numbers<'a> {
    tells: usize,
    gives: u64,
    given: u64,
    taken: &'a mut u64,
}

impl Iterator for Numbers<'_> {
    type Item = u64;

    ghost remaining = { λ s. at_most s.tells };

    fn next(&mut self) -> Option<u64> {
        if self.tells == 0 || self.given >= self.gives {
            return None;
        }
        self.tells -= 1;
        self.given += 1;
        *self.taken = self.given;
        Some(self.given)
    }
}

impl ExactSizeIterator for Numbers<'_> {
    fn len(&self) -> usize {
        self.tells
    }
}

// Makes the call and returns the block. Its iterator records in `taken` how many values are taken from it.
fn place<C: ChunkSource>(
    a: &mut Allocator<C>,
    call: &Call,
    taken: &mut u64,
) -> Result<Block, ItemErr> {
    Ok(match *call {
        Alloc => a.alloc(3u32)?.block,
        TryAlloc => a.try_alloc(3u32)?.block,
        AllocWith => a.alloc_with(|| 3u32)?.block,
        TryAllocWith => a.try_alloc_with(|| 3u32)?.block,
        SliceCopy => a.alloc_slice_copy(VALUES)?.block,
        SliceClone => a.alloc_slice_clone(VALUES)?.block,
        FillCopy(len) => a.alloc_slice_fill_copy(len, 3u32)?.block,
        FillClone(len) => a.alloc_slice_fill_clone(len, &3u32)?.block,
        FillDefault(len) => a.alloc_slice_fill_default::<u32>(len)?.block,
        FillWith(len) => a.alloc_slice_fill_with(len, |i| i.wrapping_mul(2))?.block,
        FillIter(tells, gives) => {
            let numbers = Numbers {
                tells,
                gives,
                given: 0,
                taken,
            };
            a.alloc_slice_fill_iter(numbers)?.block
        }
    })
}

// The expected result of a call.
enum Wanted {
    // The address and the bytes of the block.
    Placed(u64, &'static [u8]),
    // The number of refused requests. No value was taken, and nothing changes.
    Refused(u32),
    // The number of values that were taken. The number of bytes in use is as before.
    TooFew(u64),
}

// A name, the call, and its expected result.
type Row = (&'static str, Call, Wanted);

// Makes the call of a row and checks its result.
fn answers<C: ChunkSource>(rt: &impl Abort, a: &mut Allocator<C>, row: &Row, wanted: &Wanted) {
    let name = row.0;
    let used = a.used_bytes();
    let mut taken = 0;
    let answer = place(a, &row.1, &mut taken);
    match *wanted {
        Placed(addr, bytes) => {
            let block = answer.expect(rt, name);
            same_at(rt, name, block.addr, addr);
            reads(rt, name, a, block, bytes);
        }
        Refused(refused) => {
            same_at(rt, name, answer, Err(ItemErr::AllocErr { refused }));
            same_at(rt, name, (taken, a.used_bytes()), (0, used));
        }
        TooFew(n) => {
            same_at(rt, name, answer, Err(ItemErr::TooFew { taken: n }));
            same_at(rt, name, (taken, a.used_bytes()), (n, used));
        }
    }
}

const THREE: &[u8] = &[3, 0, 0, 0];

const ONE_TO_THREE: &[u8] = &[1, 0, 0, 0, 2, 0, 0, 0, 3, 0, 0, 0];

const THREES: &[u8] = &[3, 0, 0, 0, 3, 0, 0, 0, 3, 0, 0, 0];

const DOUBLES: &[u8] = b"\0\0\0\0\0\0\0\0\x02\0\0\0\0\0\0\0\x04\0\0\0\0\0\0\0";

const NUMBERS: &[u8] = b"\x01\0\0\0\0\0\0\0\x02\0\0\0\0\0\0\0\x03\0\0\0\0\0\0\0";

// Each call is made on a new allocator.
const ROWS: &[Row] = &[
    ("alloc", Alloc, Placed(20412, THREE)),
    ("try_alloc", TryAlloc, Placed(20412, THREE)),
    ("alloc_with", AllocWith, Placed(20412, THREE)),
    ("try_alloc_with", TryAllocWith, Placed(20412, THREE)),
    ("copy", SliceCopy, Placed(20404, ONE_TO_THREE)),
    ("clone", SliceClone, Placed(20404, ONE_TO_THREE)),
    ("fill_copy", FillCopy(3), Placed(20404, THREES)),
    ("fill_clone", FillClone(3), Placed(20404, THREES)),
    ("fill_default", FillDefault(3), Placed(20404, &[0; 12])),
    ("fill_with", FillWith(3), Placed(20392, DOUBLES)),
    ("fill_iter", FillIter(3, 3), Placed(20392, NUMBERS)),
    ("one too few", FillIter(3, 2), TooFew(2)),
];

// The values have no valid layout, or exceed the largest chunk.
const TOO_MANY: &[Row] = &[
    ("fill_copy", FillCopy(1 << 61), Refused(0)),
    ("fill_with", FillWith(u64::MAX), Refused(0)),
    ("fill_iter", FillIter(1 << 61, 5), Refused(0)),
    (
        "the most with a layout",
        FillIter((1 << 60) - 1, 5),
        Refused(0),
    ),
];

// Calls in sequence, in an arena of 16 bytes that doesn't grow.
const SIXTEEN: &[Row] = &[
    ("three of 4", SliceCopy, Placed(4100, ONE_TO_THREE)),
    ("one of 8", FillWith(1), Refused(0)),
    ("one of 4", AllocWith, Placed(4096, THREE)),
    ("none", FillWith(0), Placed(4096, &[])),
];

// Each call is made on a new allocator, whose first request is refused, and again. The calls with too many values make
// no request.
#[test]
fn refused_and_then_placed(rt: HostRuntime) {
    for row in ROWS {
        let chunks = refusing(rt.alloc(), &[1]).expect(&rt, "memory");
        let mut a = Allocator::new(rt.alloc(), chunks);
        answers(&rt, &mut a, row, &Refused(1));
        answers(&rt, &mut a, row, &row.2);
    }
    for row in TOO_MANY {
        answers(&rt, &mut ample(rt.alloc()), row, &row.2);
    }
}

#[test]
fn a_fixed_arena(rt: HostRuntime) {
    let region = vec![in rt.alloc(); 0; 64].expect(&rt, "memory");
    let chunks = MemoryChunks::new(rt.alloc(), 1 << 20);
    let made = Allocator::from_raw_parts(rt.alloc(), region, chunks);
    let mut a = made.ok().expect(&rt, "an allocator");
    for row in SIXTEEN {
        answers(&rt, &mut a, row, &row.2);
    }
    for row in ROWS {
        answers(&rt, &mut a, row, &Refused(0));
    }
}
