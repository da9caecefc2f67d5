//! Syntax trees of a caller's own node type: nodes that name each other by index, and an interner of names beside them,
//! as one value in an arena.
#![tactic(auto)]

mod ast;
mod by_parts;
mod copies;
pub mod laws;
mod linked;
mod lists;
mod scoped;
mod values;

pub use arena_items::Beside;
pub use ast::Ast;
pub use by_parts::{ByParts, Parts};
pub use copies::copy_nodes;
pub use linked::Linked;
pub use lists::{IndexList, Listed, list_operands, new_listed};
pub use scoped::{Scoped, bind, bound, new_scoped};
