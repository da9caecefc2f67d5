//! The engine of scripts: the objects of a script live in an arena, one block each.
//!
//! The entry point is `run_script`; `CALLING.md` says what it promises and how to use that. Each kind of object has a
//! module of its own, where one record says what each command does (`specs/Acts.antt`). What that leaves of all names,
//! and what it sums up to, is proved once (`serve.rt`, `run.rt`).
#![tactic(auto)]

mod act;
mod bits;
mod dispatch;
mod in_order;
mod job;
mod kinds;
pub mod laws;
mod lists;
mod maps;
mod run;
mod serve;
mod texts;
mod thing;
mod values;
mod whole;

pub use job::{Engine, Job};
pub use run::run_script;
pub use script_rules::{Command, Ended, Numbers, Outcome, Script, ScriptReply};
pub use thing::Thing;
