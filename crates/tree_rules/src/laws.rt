// What the definitions mean, in words and as facts. Each law is a function that does nothing: called in a body, it
// provides its facts there.
mod readings;
mod trees;

pub use readings::{machine, one_program, one_reading, one_report, some_reading};
pub use trees::{folding, texts, tree_weight, well_formed};
