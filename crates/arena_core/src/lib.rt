//! A bump arena over chunks that a source grants: its calls on blocks, its bytes, and going back to a marked state.
//!
//! Addresses are plain numbers: a chunk is a region of bytes at a virtual address, a block is a value that names a
//! place, and calls take the arena. The rules are the definitions of the crate `arena_rules`.
#![tactic(auto)]

mod access;
mod alloc;
mod arena;
mod create;
mod find;
mod iter;
mod realloc;
mod resize;
mod rewind;

pub use arena::Arena;
pub use create::RawErr;
pub use iter::{Chunk, ChunkIter, ChunkRawIter, Chunks};
pub use rewind::Checkpoint;
