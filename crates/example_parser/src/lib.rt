//! The least that a parser over the arena proves: handles are held, indices are in range, nothing else is written. What
//! the tree means isn't stated: a parser that returns an empty tree for each text would meet its contract.
#![tactic(auto)]

mod calls;
mod nodes;
mod parsing;

pub use calls::{Calls, Term, operand, parse_calls};
pub use nodes::{Node, Tree};
pub use parsing::{ParseErr, parse};
