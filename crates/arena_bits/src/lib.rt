//! Sets of numbers in an arena, kept as bits of words.
#![tactic(auto)]

mod edits;
mod handle;
pub mod laws;
mod ones;
mod printed;
mod set;
mod whole;
mod words;

pub use ones::Ones;
pub use set::BitSet;
