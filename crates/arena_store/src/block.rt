// Blocks, and why a call places none.
ghost use Rattle.std.specs.Prelude.{◌≡◌};

use std::error::Error;
use std::fmt;

/// A block of an arena: the generation that it was placed in, its first address, its size and its alignment. It doesn't
/// say whether the block is still held.
#[derive(Clone, Copy, PartialEq, Eq, Debug)]
pub struct Block {
    pub generation: u64,
    pub addr: u64,
    pub size: u64,
    pub align: u64,
}

impl Block {
    /// Returns a block of no bytes, of generation 0, whose address is its alignment.
    pub fn empty(align: u64) -> Block
        ensures { result ≡ record { generation = 0; addr = align; size = 0; align = align } }
    {
        Block {
            generation: 0,
            addr: align,
            size: 0,
            align,
        }
    }
}

/// Why a call placed no block.
#[derive(Clone, Copy, PartialEq, Eq, Debug)]
pub enum ArenaErr {
    /// There is no place for the block: all requests for a chunk were refused, `refused` of them.
    AllocErr { refused: u32 },
    /// There is no memory for the table of chunks. The source wasn't asked.
    OutOfMemory,
}

impl fmt::Display for ArenaErr {
    ghost use Rattle.std.specs.Prelude.{Some};
    ghost use Rattle.arena_store.specs.Messages.{error_text};

    ghost output = { λ e. Some (error_text e) };

    fn fmt<W: fmt::Write>(&self, f: &mut fmt::Formatter<W>) -> fmt::Result {
        match self {
            ArenaErr::AllocErr { .. } => f.write_str("memory allocation failed"),
            ArenaErr::OutOfMemory => f.write_str("out of memory"),
        }
    }
}

impl Error for ArenaErr {}
