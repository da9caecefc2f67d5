// Blocks for values.
ghost use Rattle.std.specs.Prelude.{◌≡◌, ◌^◌, ◌≤◌};
ghost use Rattle.arena_chunks.specs.Answers.{answer_of};
ghost use Rattle.arena_chunks.specs.BlockCalls.{PlacesBlock};
ghost use Rattle.arena_items.specs.Placing.{Answers, PlacesArray};

use crate::item::Item;
use arena_chunks::{Allocator, ArenaErr, Block, ChunkSource};
use arena_place::Layout;
use std::error::Error;
use std::fmt;

/// Why a value was not placed.
#[derive(Clone, Copy, PartialEq, Eq, Debug)]
pub enum ItemErr {
    /// No place was found. `refused` requests for a chunk were refused.
    AllocErr { refused: u32 },
    /// Out of memory for the table of chunks. The source wasn't asked.
    OutOfMemory,
    /// The iterator ended early, after `taken` values.
    TooFew { taken: u64 },
}

impl fmt::Display for ItemErr {
    ghost use Rattle.std.specs.Prelude.{Some};
    ghost use Rattle.arena_items.specs.Messages.{error_text};

    ghost output = { λ e. Some (error_text e) };

    fn fmt<W: fmt::Write>(&self, f: &mut fmt::Formatter<W>) -> fmt::Result {
        match self {
            ItemErr::AllocErr { .. } => f.write_str("memory allocation failed"),
            ItemErr::OutOfMemory => f.write_str("out of memory"),
            ItemErr::TooFew { .. } => f.write_str("the iterator ended early"),
        }
    }
}

impl Error for ItemErr {}

// The layout of one value.
#[tactic(auto, using(crate::proofs::PlacingLemmas::item_is_layout))]
#[inline]
pub(crate) fn layout_of<T: Item>() -> Layout
    requires { T.SIZE ≤ 2 ^ 24 }
    ensures size { result.size ≡ T.SIZE }
    ensures align { result.align ≡ T.ALIGN }
{
    Layout::of(T::SIZE, T::ALIGN)
}

// Converts the arena's result to that of calls that place values.
#[inline(always)]
fn told(placed: Result<Block, ArenaErr>) -> Result<Block, ItemErr>
    ensures { Answers (λ b. b) result (λ answer. answer_of placed ≡ answer) }
{
    match placed {
        Ok(block) => Ok(block),
        Err(ArenaErr::AllocErr { refused }) => Err(ItemErr::AllocErr { refused }),
        Err(ArenaErr::OutOfMemory) => Err(ItemErr::OutOfMemory),
    }
}

// Places a block for one value.
#[tactic(auto, using(crate::proofs::PlacingLemmas::answers_as))]
#[inline]
pub(crate) fn place_one<T: Item, C: ChunkSource>(a: &mut Allocator<C>) -> Result<Block, ItemErr>
    requires { T.SIZE ≤ 2 ^ 24 }
    ensures { Answers (λ b. b) result (PlacesBlock a.old a.new T.SIZE T.ALIGN) }
{
    told(a.alloc_layout(layout_of::<T>()))
}

// Places a block for n values.
#[tactic(auto, using(crate::proofs::PlacingLemmas::answers_as))]
#[inline]
pub(crate) fn place_array<T: Item, C: ChunkSource>(
    a: &mut Allocator<C>,
    n: u64,
) -> Result<Block, ItemErr>
    ensures { Answers (λ b. b) result (PlacesArray a.old a.new T.SIZE T.ALIGN n) }
{
    let Some(layout) = Layout::array(n, T::SIZE, T::ALIGN) else {
        return Err(ItemErr::AllocErr { refused: 0 });
    };
    told(a.alloc_layout(layout))
}
