//! Runs of calls by name over an arena: the machine of `call_rules`, served by an `Arena`.
//!
//! A run gives each reply as soon as its call is served, and ends early only if memory runs out.
#![tactic(auto)]

mod marks;
mod names;
mod replies;
mod run;
mod serve;

pub use call_rules::{Call, Reply};
pub use replies::Replies;
pub use run::{Ran, Run, Stopped, run_calls, run_calls_into};
