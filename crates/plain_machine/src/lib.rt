//! The placement machine as a plain program: numbers and lists, with no arena. The contract of each call is the
//! definition itself, so a test can compare what the definitions say with what an arena does.
#![tactic(auto)]

mod bytes;
mod chunk;
mod machine;
mod marks;
mod names;
mod resize;
mod run;
mod search;
mod state;
mod unasked;

pub use machine::PlainMachine;
