//! Texts with numbers, and scopes of names, in an arena.
#![tactic(auto)]

mod calls;
mod laws;
mod listing;
mod names;
mod scopes;
mod symbols;
mod values;

pub use calls::{Call, Reply};
pub use laws::{numbers_law, scopes_law};
pub use names::Names;
pub use scopes::{Entry, MOST_PAIRS, MOST_SCOPES, Scopes};
pub use symbols::{MOST_TEXTS, Symbols};
