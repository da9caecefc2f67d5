//! What the records of calls on blocks mean for a layer above, as facts. A layer that stores a value in an arena needs
//! only these, and opens neither chunks nor cursors. Each is a function that does nothing: a call in a body makes its
//! facts known there.
mod asking;
mod blocks;
mod calls;
mod framing;
mod marking;
mod used;

pub use asking::{asks, full, starved};
pub use blocks::{all_apart, apart, bytes, readable};
pub use calls::{given_back, placed, resized, written};
pub use framing::frames;
pub use marking::marks;
pub use used::{doubling, used_by_giving_back, used_by_placing, used_by_resizing};
