//! Growable vectors in an arena: lists of values with a byte form.
#![tactic(auto)]

mod bulk;
mod compare;
mod debug;
mod dedup;
mod drain;
mod drain_filter;
mod extend;
mod handle;
mod hashing;
mod held;
mod into_iter;
pub mod laws;
mod retain;
mod room;
mod splice;
mod vec;

pub use arena_items::{AllocError, Grown};
pub use drain::Drain;
pub use drain_filter::DrainFilter;
pub use into_iter::IntoIter;
pub use raw_vec::RawVec;
pub use splice::Splice;
pub use vec::{ArenaVec, Vec};
