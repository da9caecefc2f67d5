//! A map from names, which are numbers, to values.
#![tactic(auto)]

mod names;

pub use names::Names;
