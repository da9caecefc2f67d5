// Tables of calls on an arena, each with its expected result.
ghost use Rattle.std.specs.Prelude.{IsTrue};
ghost use Rattle.arena_rules.specs.State.{is_min_align};

use super::stage::Stage;
use arena_chunks::Arena;
use std::alloc::Global;
use std::process::Abort;

// The address of the returned block, or the number of refused requests.
pub(super) type Answer = Result<u64, u32>;

// One call. Blocks are named by their numbers: the first block that is returned in a case is 0.
pub(super) enum Step {
    // Begins a case with this name, on a new arena. Its source refuses the requests with these numbers.
    Case(&'static str, &'static [u64]),
    // A size and an alignment.
    Alloc(u64, u64, Answer),
    // A block, and its new size and alignment.
    Grow(usize, u64, u64, Answer),
    GrowZeroed(usize, u64, u64, Answer),
    Shrink(usize, u64, u64, Answer),
    // A block and its new size.
    Realloc(usize, u64, Answer),
    Dealloc(usize),
    Reset,
    // A block, and the bytes that are written to its first ones.
    Write(usize, &'static [u8]),
    // A block, and all its bytes.
    Read(usize, &'static [u8]),
    // A generation, an address, a size, and whether such a block is held.
    HeldAt(u64, u64, u64, bool),
    // Whether a mark with this generation, number of chunks and cursor is accepted.
    AcceptsAt(u64, u64, u64, bool),
    // The bytes in use in all chunks, the bytes of all chunks, the unused bytes of the newest one, and its cursor.
    Used(u64),
    Allocated(u64),
    Capacity(u64),
    Cursor(u64),
    // The number of blocks that were placed, and the number that were grown or shrunk.
    Statistics(u64, u64),
    // The used part of each chunk, newest first: its address, its size, and its first byte.
    Walk(&'static [(u64, usize, Option<u8>)]),
    // All requests so far: sizes and alignments.
    Requests(&'static [(u64, u64)]),
}

// Takes the steps. Before the first case there is an arena too.
pub(super) fn all_hold<const M: usize>(rt: &impl Abort, alloc: Global, steps: &[Step])
    requires { IsTrue (is_min_align M) }
{
    let mut stage = Stage::<M>::of(rt, alloc, "no case", Arena::with_min_align(alloc), &[]);
    for step in steps {
        match *step {
            Step::Case(name, refuse) => {
                stage = Stage::of(rt, alloc, name, Arena::with_min_align(alloc), refuse);
            }
            _ => stage.take(rt, step),
        }
    }
}
