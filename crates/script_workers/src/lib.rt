//! Scripts on workers: each of many scripts is run by a `Job`, on an arena that a worker borrows from a pool.
//!
//! The entry point is `run_scripts`; `CALLING.md` says what it promises and how to use that.
#![tactic(auto)]

pub mod laws;
mod run;
mod scripts;

pub use arena_workers::{Gate, NoGate, Starved};
pub use run::{ScriptsErr, Served, run_scripts};
pub use scripts::Scripts;
