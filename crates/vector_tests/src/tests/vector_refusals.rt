// Tests of calls that are refused: in a fixed arena that gets full, and by a source of chunks.
use super::vectors::Answer::{self, Done, Index};
use super::vectors::Call::{self, *};
use super::vectors::{DONE, Row, make, runs};
use super::{Memory, same, same_at};
use arena_chunks::{Allocator, MemoryChunks, RefusingChunks};
use arena_vec::{AllocError, Grown, Vec};
use std::alloc::Global;
use std::process::Abort;

// There is no place, and no chunk was requested.
pub(super) const NO_PLACE: AllocError = AllocError::AllocErr { refused: 0 };

pub(super) const NONE_REFUSED: Grown<()> = Err(NO_PLACE);

// An allocator over `bytes` bytes that requests no chunk.
pub(super) fn fixed(rt: &impl Abort, alloc: Global, bytes: usize) -> Memory {
    assert!(rt; bytes <= 1024 && bytes % 16 == 0);
    let region = vec![in alloc; 0u8; bytes + 48].expect(rt, "memory");
    let chunks = MemoryChunks::new(alloc, 1 << 20);
    let made = Allocator::from_raw_parts(alloc, region, chunks);
    made.ok().expect(rt, "an allocator")
}

const NO: Answer<u32> = Done(NONE_REFUSED);

const ON_A_LIST: &[Row<u32>] = &[
    (New(&[1, 2]), DONE, &[1, 2], 2),
    (Extend(&[3, 4, 5]), NO, &[1, 2], 2),
    (ExtendSlices(&[&[3], &[4, 5]]), NO, &[1, 2], 2),
    (Resize(5, 9), NO, &[1, 2], 2),
    (Reserve(3), NO, &[1, 2], 2),
    (ReserveExact(3), NO, &[1, 2], 2),
    (Insert(0, 9), DONE, &[9, 1, 2], 4),
    (Push(3), DONE, &[9, 1, 2, 3], 4),
    (Push(4), NO, &[9, 1, 2, 3], 4),
    (PushMut(4), Index(Err(NO_PLACE)), &[9, 1, 2, 3], 4),
    (Insert(2, 4), NO, &[9, 1, 2, 3], 4),
];

// There is no room even for the first value.
const NO_BYTES: &[Row<u32>] = &[(Push(1), NO, &[], 0), (Reserve(1), NO, &[], 0)];

#[test]
fn calls_in_a_full_arena(rt: HostRuntime) {
    for (bytes, rows) in [(16, ON_A_LIST), (0, NO_BYTES)] {
        let mut a = fixed(&rt, rt.alloc(), bytes);
        runs(&rt, &mut a, &mut Vec::new_in(), rows);
    }
}

const REFUSED: Grown<()> = Err(AllocError::AllocErr { refused: 1 });

// A call, its expected result, and the length after it.
const REPEATED: &[(Call<'static, u8>, Answer<u8>, u32)] = &[
    (Resize(16320, 7), Done(REFUSED), 0),
    (Resize(16320, 7), Done(Ok(())), 16320),
    (Push(8), Done(REFUSED), 16320),
    (Push(8), Done(Ok(())), 16321),
];

const REQUESTS: &[(u64, u64)] = &[(16320, 16), (16320, 16), (32704, 16), (32704, 16)];

// A refused request leaves the vector unchanged, and can be repeated.
#[test]
fn refused_requests(rt: HostRuntime) {
    let refuse = [1, 3].to_vec(rt.alloc()).expect(&rt, "memory");
    let mut a = Allocator::new(rt.alloc(), RefusingChunks::new(rt.alloc(), refuse));
    let mut vec = <Vec<u8>>::new_in();
    for (call, wanted, len) in REPEATED {
        let answer = make(&rt, &mut a, &mut vec, call);
        same_at(&rt, *len, answer == *wanted, true);
        same_at(&rt, *len, vec.len(), *len);
    }
    let (_, chunks) = a.into_parts();
    same(&rt, chunks.requests(), Some(REQUESTS));
}
