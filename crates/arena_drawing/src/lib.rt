//! Pictures of an arena after calls, as SVG.
#![tactic(auto)]

mod picture;
mod program;
mod shapes;
mod text;

pub use picture::{draw_lines, picture_of};
pub use program::run_picture;
