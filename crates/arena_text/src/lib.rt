//! Texts that are built in an arena.
#![tactic(auto)]

mod growth;
pub mod laws;
mod pieces;
mod push;
mod room;
mod text;
mod values;

pub use text::{ArenaStringBuilder, StringBuilder};
