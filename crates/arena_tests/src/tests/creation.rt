// Tests of how arenas are created.
ghost use Rattle.std.specs.Prelude.{IsTrue};
ghost use Rattle.arena_rules.specs.State.{is_min_align};

use super::stage::Stage;
use super::steps::Step;
use super::{must, refusing, same, same_at};
use arena_chunks::{Arena, ArenaErr, MemoryChunks};
use std::alloc::Global;
use std::process::Abort;

// The numbers of the requests that are refused, a capacity, the size of the first chunk of an arena of least alignment 1
// or the number of refused requests, and all requests. The size of a first chunk isn't halved, and capacities that no
// chunk can have fail without a request.
const CAPACITIES: &[(&[u64], u64, Result<u64, u32>, &[(u64, u64)])] = &[
    (&[], 10, Ok(64), &[(64, 16)]),
    (&[], 0, Ok(0), &[]),
    (&[], 64, Ok(64), &[(64, 16)]),
    (&[], 65, Ok(192), &[(192, 16)]),
    (&[], 4032, Ok(4032), &[(4032, 16)]),
    (&[], 4033, Ok(8128), &[(8128, 16)]),
    (&[], 1 << 63, Err(0), &[]),
    (&[], (1 << 63) - 63, Err(0), &[]),
    (&[1], 10, Err(1), &[(64, 16)]),
    (&[1], (1 << 63) - 64, Err(1), &[((1 << 63) - 64, 16)]),
];

#[test]
fn arenas_of_a_capacity(rt: HostRuntime) {
    for &(refuse, capacity, wanted, requests) in CAPACITIES {
        let mut chunks = refusing(rt.alloc(), refuse).expect(&rt, "memory");
        match (
            Arena::with_capacity(rt.alloc(), &mut chunks, capacity),
            wanted,
        ) {
            (Ok(arena), Ok(size)) => {
                same_at(&rt, capacity, arena.allocated_bytes(), size);
                must(&rt, capacity, arena.is_growing());
            }
            (Err(e), Err(refused)) => same_at(&rt, capacity, e, ArenaErr::AllocErr { refused }),
            _ => must(&rt, capacity, false),
        }
        same_at(&rt, capacity, chunks.requests(), Some(requests));
    }
}

// An arena with capacity 10 has 64 bytes, and its next chunk follows the rule for growth.
const OF_10_BYTES: &[Step] = &[
    Step::Allocated(64),
    Step::Alloc(64, 16, Ok(4096)),
    Step::Alloc(16, 16, Ok(20512)),
];

fn takes<const M: usize>(
    rt: &impl Abort,
    alloc: Global,
    name: &'static str,
    arena: Result<Arena<M>, ArenaErr>,
    steps: &[Step],
) {
    let arena = arena.expect(rt, name);
    same_at(rt, name, arena.min_align(), M as u64);
    let mut stage = Stage::of(rt, alloc, name, arena, &[]);
    for step in steps {
        stage.take(rt, step);
    }
}

#[test]
fn other_constructors_of_a_capacity(rt: HostRuntime) {
    let alloc = rt.alloc();
    let chunks = &mut MemoryChunks::new(alloc, 1 << 20);
    let arena = Arena::try_with_capacity(alloc, chunks, 10);
    takes::<1>(&rt, alloc, "try of 1", arena, OF_10_BYTES);
    let arena = Arena::with_min_align_and_capacity(alloc, chunks, 10);
    takes::<16>(&rt, alloc, "of 16", arena, OF_10_BYTES);
    let arena = Arena::try_with_min_align_and_capacity(alloc, chunks, 10);
    takes::<8>(&rt, alloc, "try of 8", arena, OF_10_BYTES);
}

// The size of a region, and steps on an arena of least alignment 1 over it.
const REGIONS: &[(usize, &[Step])] = &[
    (
        48,
        &[
            Step::Allocated(0),
            Step::Alloc(0, 32, Ok(4096)),
            Step::Alloc(0, 8192, Err(0)),
            Step::Alloc(1, 1, Err(0)),
            Step::Requests(&[]),
        ],
    ),
    (
        112,
        &[
            Step::Alloc(64, 1, Ok(4096)),
            Step::Alloc(1, 1, Err(0)),
            Step::Alloc(0, 1, Ok(4096)),
            // An arena that doesn't grow accepts no mark without a chunk.
            Step::AcceptsAt(0, 0, 16, false),
        ],
    ),
];

// Steps on an arena of least alignment 16 over a region of 4144 bytes.
const BY_16: &[Step] = &[
    Step::Alloc(4097, 1, Err(0)),
    Step::Alloc((1 << 63) - 1, 1, Err(0)),
    Step::Alloc(4096, 1, Ok(4096)),
    Step::Alloc(1, 1, Err(0)),
    Step::Reset,
    Step::Alloc(1, 1, Ok(8176)),
    Step::Requests(&[]),
];

// Takes the steps on an arena over a region that is filled with 7.
fn region<const M: usize>(rt: &impl Abort, alloc: Global, size: usize, steps: &[Step])
    requires { IsTrue (is_min_align M) }
{
    must(rt, size, size % 16 == 0);
    must(rt, size, size >= 48);
    let bytes = vec![in alloc; 7; size].expect(rt, "memory");
    let arena = Arena::<M>::from_raw_parts(alloc, bytes).expect(rt, "an arena");
    must(rt, size, !arena.is_growing());
    takes(rt, alloc, "a region", Ok(arena), steps);
}

#[test]
fn regions(rt: HostRuntime) {
    for (size, steps) in REGIONS {
        region::<1>(&rt, rt.alloc(), *size, steps);
    }
    region::<16>(&rt, rt.alloc(), 4096 + 48, BY_16);
}

// The bytes above a cursor that is set are in use.
#[test]
fn a_cursor_that_is_set(rt: HostRuntime) {
    let bytes = vec![in rt.alloc(); 7; 64].expect(&rt, "memory");
    let made = Arena::<1>::from_raw_parts(rt.alloc(), bytes);
    let mut arena = made.expect(&rt, "an arena");
    arena.set_cursor(4100);
    same(&rt, (arena.used_bytes(), arena.chunk_capacity()), (12, 4));
}
