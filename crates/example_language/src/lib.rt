//! A small language whose syntax trees are in the arena: numbers, names, sums and products, written with the operands
//! first, as in `x 2 + y *`.
//!
//! It is the subject of the tutorial: a node type of its own, a parser with interned names, values without checks of
//! indices, and a copy that outlives the arena of its source. `specs/Meaning.antt` says what a text means.
#![tactic(auto)]

mod copying;
pub mod laws;
mod nodes;
mod parsing;
mod values;

pub use arena::copy_nodes;
pub use copying::keep;
pub use nodes::{Node, NodeList, Tree};
pub use parsing::{ParseErr, parse};
pub use values::value;
