//! Workers: threads that share out pieces of work and do each on an arena that they borrow from a pool.
//!
//! What the work is doesn't matter here: it is a `Work`, by one trait. Others call `run_all`; `CALLING.md` says what it
//! promises and how to use that.
#![tactic(auto)]

mod gate;
mod lent;
mod order;
mod served;
mod shift;
mod work;
mod workers;

pub use gate::{Gate, NoGate};
pub use served::{Served, Starved};
pub use work::Work;
pub use workers::run_all;
