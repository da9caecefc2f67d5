//! Dummies, exchange, and what values are at every depth.
#![tactic(auto)]

mod boxes;
mod dummy;
mod ids;
mod replace_with;
mod take_in;

pub use boxes::place_box;
pub use dummy::Dummy;
pub use ids::CloneInSemanticIds;
pub use replace_with::ReplaceWith;
pub use take_in::TakeIn;
