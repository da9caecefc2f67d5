//! Syntax trees in an arena.
#![tactic(auto)]

mod begin;
mod clone;
mod exprs;
mod fold;
mod laws;
mod look;
mod print;
mod program;
mod signs;
mod stop;
mod tree;

pub use laws::tree_law;
pub use tree::{Tree, TreeErr};
pub use tree_nodes::{Kind, Node, kids};
