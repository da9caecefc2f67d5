//! The machine that serves calls by name, and the texts of calls and replies.
//!
//! The definitions are in `specs/`: contracts in the crates above cite them. The code here is the plain types that they
//! use, and the laws that show what the definitions mean. `CALLING.md` says which to cite.
#![tactic(auto)]

mod calls;
pub mod laws;

pub use calls::{Call, Reply};
pub use laws::{one_reading, one_text, run_texts, some_reading};
