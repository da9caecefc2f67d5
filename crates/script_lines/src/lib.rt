//! Reads the lines of scripts, and prints the outcomes of scripts.
//!
//! `script_rules` defines which bytes are scripts, and what the text of outcomes is.
#![tactic(auto)]

mod commands;
mod cutting;
pub mod laws;
mod outcomes;
mod parse;
mod replies;

pub use commands::read_command;
pub use cutting::{cut_place, join_parts};
pub use line_parts::LinesErr;
pub use outcomes::{put_outcome, put_outcomes};
pub use parse::parse_scripts;
