//! Nodes of syntax trees in an arena: their byte form, and calls that place names, nodes and lists of nodes.
#![tactic(auto)]

mod block;
mod build;
mod clone_list;
mod dummy;
mod name;
mod node;
mod walk;

pub use build::{let_node, named, number, push_node, with_kids, with_more, wrap};
pub use clone_list::{fill, roomy};
pub use name::{clone_text, name_node, place_name};
pub use node::{Kind, Node};
pub use walk::kids;
