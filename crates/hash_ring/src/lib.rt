//! A hash table as a ring of slots, without an arena: which slot has a content, or where it would go, by marks of one
//! byte, and the hashes of contents. The table is a list here; the crate above, `arena_table`, stores it as bytes.
#![tactic(auto)]

mod hasher;
mod marks;
mod policy;
mod scan;
mod words;

pub use hasher::{FxHasher, KeyHasher};
pub use marks::{AWAY, FAR, Spot, distance, farther, home_mark, least, mark_of, ring};
pub use policy::{limit_of, next_slots, slots_for};
pub use scan::{Scan, start, step};
pub use words::same;
