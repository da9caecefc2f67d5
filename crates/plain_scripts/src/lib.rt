//! The machine of scripts as a plain program: numbers, lists and maps, with no arena. The contract of each command is
//! the definition itself, so a test can compare what the definitions say with what an arena does.
#![tactic(auto)]

mod bits;
mod copies;
mod effect;
mod lists;
mod machine;
mod maps;
mod names;
mod object;
mod printed;
mod run;
mod texts;
mod whole;

pub use machine::{Answered, PlainScripts};
pub use run::PlainRun;
