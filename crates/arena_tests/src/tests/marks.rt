// Tests of which marks an arena accepts, and of the search for the chunk of an address.
ghost use Rattle.std.specs.Prelude.{◌+◌, ◌≤◌, length};
ghost use Rattle.arena_bases.specs.Bases.{IsBlankOf};

use super::steps::Step;
use super::{layout, must, same, same_at};
use arena_bases::Steps;
use arena_chunks::{Arena, MemoryChunks};
use std::marker::Brand;
use std::process::Abort;
use std::sync::ledger::{Blank, Ledger};

pub(super) const MARKS: &[Step] = &[
    Step::Case("accepted marks, and others", &[]),
    Step::AcceptsAt(0, 0, 16, true),
    Step::AcceptsAt(0, 1, 16, false),
    Step::Alloc(16320, 1, Ok(4096)),
    Step::Alloc(1, 1, Ok(53167)),
    Step::AcceptsAt(1, 1, 4096, false),
    Step::AcceptsAt(0, 3, 53167, false),
    Step::AcceptsAt(0, 1, 4095, false),
    Step::AcceptsAt(0, 1, 4096, true),
    Step::AcceptsAt(0, 1, 20416, true),
    Step::AcceptsAt(0, 1, 20417, false),
    Step::AcceptsAt(0, 2, 20463, false),
    Step::AcceptsAt(0, 2, 20464, true),
    Step::AcceptsAt(0, 0, 17, false),
    Step::AcceptsAt(u64::MAX, u64::MAX, u64::MAX, false),
];

// The number of the chunk that contains an address, of at most three chunks: the search takes at most two steps.
fn find_in_three<L: Ledger>(arena: &Arena<1>, addr: u64, steps: &mut Steps<L>) -> Option<u64>
    requires { length arena.now.state.chunks ≤ 3 }
    ensures { steps.new ≤ steps.old + 2 }
{
    arena.find_chunk(addr, steps)
}

// The same with a new counter of steps `L`. The test fails if there are more chunks.
fn number_of<L: Ledger>(rt: &impl Abort, arena: &Arena<1>, addr: u64, blank: Blank) -> Option<u64>
    requires { IsBlankOf L.name L.parts blank }
{
    must(rt, addr, arena.checkpoint().chunks <= 3);
    let mut steps = Steps::<L>::new(blank);
    find_in_three(arena, addr, &mut steps)
}

fn number(rt: &impl Abort, arena: &Arena<1>, addr: u64) -> Option<u64> {
    number_of::<Brand>(rt, arena, addr, Blank::new(1))
}

// An address, and the number of the chunk that contains it: four worked examples, then the ends of chunks.
const SEARCHES: &[(u64, Option<u64>)] = &[
    (20352, Some(0)),
    (36848, Some(1)),
    (86048, Some(2)),
    (20430, None),
    (4095, None),
    (4096, Some(0)),
    (20416, Some(0)),
    (20417, None),
    (118689, None),
];

// In three chunks each search takes at most two steps, by the contract of `find_in_three`.
#[test]
fn chunks_that_are_found(rt: HostRuntime) {
    let mut arena = Arena::new(rt.alloc());
    let mut chunks = MemoryChunks::new(rt.alloc(), 1 << 20);
    same(&rt, number(&rt, &arena, 16), None);
    for (size, addr) in [(64, 20352), (64, 20288), (16320, 36848), (32640, 86048)] {
        let block = arena.alloc_layout(&mut chunks, layout(&rt, size, 1));
        same(&rt, block.expect(&rt, "a block").addr, addr);
    }
    for &(addr, wanted) in SEARCHES {
        same_at(&rt, addr, number(&rt, &arena, addr), wanted);
    }
}
