//! The rules of scripts: plain objects under names, and the machine that serves commands on them.
//!
//! The definitions are in `specs/`; contracts in the crates above cite them. The code here is the plain types that the
//! definitions use, and the laws that show what they mean. `CALLING.md` says which to cite.
#![tactic(auto)]

mod commands;
pub mod laws;
mod names;
mod numbers;
mod outcome;
mod script;

pub use commands::{Command, Ended, ScriptReply};
pub use names::Names;
pub use numbers::Numbers;
pub use outcome::{Outcome, Replies};
pub use script::Script;
