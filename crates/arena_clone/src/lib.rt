//! Copies of values at every depth, conversions into an arena, dummies and exchange.
#![tactic(auto)]

mod blocks;
mod boxes;
mod builders;
mod clone_in;
mod convert;
mod keys;
pub mod laws;
mod maps;
mod options;
mod origin;
mod plain;
mod rows;
mod semantic_id;
mod sets;
mod slices;
mod tables;
mod texts;
mod vectors;

pub use arena_items::{AllocError, Grown};
pub use arena_kinds::{CloneInSemanticIds, Dummy, ReplaceWith, TakeIn};
pub use clone_in::CloneIn;
pub use convert::{FromIn, IntoIn};
pub use keys::CloneKey;
pub use origin::Origin;
pub use plain::Plain;
pub use semantic_id::SemanticId;
