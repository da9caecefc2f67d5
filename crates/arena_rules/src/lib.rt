//! The rules by which a bump arena places blocks.
//!
//! The definitions are in `specs/`: contracts in the crates above cite them. The code here is the plain types that they
//! use, and the laws that show what the definitions mean. `CALLING.md` says which to cite.
#![tactic(auto)]

pub mod laws;
mod place;

pub use place::{OutOfMemory, Place};
