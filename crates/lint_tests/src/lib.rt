//! Tests of the checker and the trees of programs, of the linter over pools, and of its input and output: where an
//! input is split into sources, and the lines of their reports. `uses` has proved callers.
#![tactic(auto)]

#[cfg(test)]
mod tests;
mod two;
mod uses;

pub use two::lint_two;
pub use uses::{is_program, put_two, set_out, set_out_beside, set_out_copy, set_out_folded};
