//! The program `arena_run` without its streams: what it prints and returns for its words and its input.
#![tactic(auto)]

mod arguments;
mod budget;
pub mod laws;
mod lint;
mod parsing;
mod pools;
mod printout;
mod program;
mod rendered;
mod rendering;
mod run;
mod tasks;
mod whole;

pub use budget::{BudgetedMaker, program_maker};
pub use parsing::parse_on_workers;
pub use program::run_program;
pub use tasks::{Lender, Task};
pub use whole::arena_main;
