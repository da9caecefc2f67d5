// Room for collections that grow.
ghost use Rattle.std.specs.Prelude.{◌≡◌, ◌<◌, ◌≤◌, OnErr, IsTrue};
ghost use Rattle.arena_chunks.specs.Memory.{is_readable};
ghost use Rattle.arena_chunks.specs.Answers.{answer_of};
ghost use Rattle.arena_items.specs.Room.{RoomAnswer, TakesRoom, growth_answer};

use crate::placing::ItemErr;
use arena_chunks::{Allocator, ArenaErr, Block, BlockAlloc, ChunkSource};
use arena_place::Layout;
use std::error::Error;
use std::fmt;

/// Why a collection didn't grow.
#[derive(Clone, Copy, PartialEq, Eq, Debug)]
pub enum AllocError {
    /// No place was found for the block. `refused` requests for a chunk were refused.
    AllocErr { refused: u32 },
    /// More is required than the greatest capacity.
    CapacityOverflow,
    /// Out of memory for the table of chunks. The source wasn't asked.
    OutOfMemory,
}

/// The result of a call that may grow a collection.
pub type Grown<X> = Result<X, AllocError>;

impl fmt::Display for AllocError {
    ghost use Rattle.std.specs.Prelude.{Some};
    ghost use Rattle.arena_items.specs.Messages.{room_text};

    ghost output = { λ e. Some (room_text e) };

    fn fmt<W: fmt::Write>(&self, f: &mut fmt::Formatter<W>) -> fmt::Result {
        match self {
            AllocError::AllocErr { .. } => f.write_str("memory allocation failed"),
            AllocError::CapacityOverflow => f.write_str("capacity overflow"),
            AllocError::OutOfMemory => f.write_str("out of memory"),
        }
    }
}

impl Error for AllocError {}

/// Lets a function that places a value and grows a collection have one error. An iterator that ended early becomes a
/// refusal with no request.
impl From<ItemErr> for AllocError {
    ghost use Rattle.arena_items.specs.Room.{growth_error};

    ghost from_gives = { λ e result. result ≡ growth_error e };

    fn from(e: ItemErr) -> AllocError {
        match e {
            ItemErr::AllocErr { refused } => AllocError::AllocErr { refused },
            ItemErr::OutOfMemory => AllocError::OutOfMemory,
            ItemErr::TooFew { .. } => AllocError::AllocErr { refused: 0 },
        }
    }
}

/// Converts the arena's result to that of a call that may grow a collection.
///
/// # Errors
///
/// The arena's own, never `CapacityOverflow`.
#[inline(always)]
pub fn grown<X>(answer: Result<X, ArenaErr>) -> Grown<X>
    ensures { result ≡ growth_answer answer }
{
    match answer {
        Ok(x) => Ok(x),
        Err(ArenaErr::AllocErr { refused }) => Err(AllocError::AllocErr { refused }),
        Err(ArenaErr::OutOfMemory) => Err(AllocError::OutOfMemory),
    }
}

/// What a call that makes room does to the capacity.
#[derive(Clone, Copy)]
pub enum Growth {
    /// There is room already.
    Stays,
    /// The capacity becomes `cap`.
    GrowsTo { cap: u64 },
    /// More is required than the greatest capacity.
    Overflows,
}

// Places a block of this layout if the capacity was 0, and grows the old block otherwise.
#[inline(always)]
fn place_or_grow<C: ChunkSource>(
    a: &mut Allocator<C>,
    block: Block,
    cap: u64,
    layout: Layout,
) -> Result<Block, ArenaErr>
    requires readable { 0 < cap → IsTrue (is_readable a.old.memory.state block) }
    requires more { 0 < cap → block.size ≤ layout.size }
    ensures { TakesRoom a.old a.new block cap layout.size layout.align (answer_of result) }
{
    if cap == 0 {
        a.alloc_layout(layout)
    } else {
        a.grow(block, layout)
    }
}

/// Takes a block of this layout for a collection: placed if the capacity was 0, and otherwise the old block grown.
///
/// # Errors
///
/// As for the arena's `alloc_layout` or `grow`. Nothing changes.
#[inline(always)]
pub fn take_room<C: ChunkSource>(
    a: &mut Allocator<C>,
    block: Block,
    cap: u64,
    layout: Layout,
) -> Grown<Block>
    requires readable { 0 < cap → IsTrue (is_readable a.old.memory.state block) }
    requires more { 0 < cap → block.size ≤ layout.size }
    ensures takes { RoomAnswer (λ b. b) result
        (TakesRoom a.old a.new block cap layout.size layout.align) }
    ensures err { OnErr result (a.new.memory ≡ a.old.memory) }
{
    grown(place_or_grow(a, block, cap, layout))
}
