//! Chunks with their bytes, as an arena stores them, and the sources that grant them.
//!
//! A chunk is a region of bytes at a virtual address. `table` has the older chunks, and hides how it stores them.
#![tactic(auto)]

mod below;
mod block;
pub mod chunk;
pub mod edit;
mod refusing;
pub mod search;
mod shift;
mod source;
pub mod table;

pub use block::{ArenaErr, Block};
pub use edit::Edit;
pub use refusing::RefusingChunks;
pub use source::{ChunkSource, MemoryChunks};
