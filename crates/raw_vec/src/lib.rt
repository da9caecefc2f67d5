//! The storage of vectors in an arena: a block with a length and a capacity, the rule by which it grows, and values in its bytes.
#![tactic(auto)]

mod growth;
mod held;
mod lent;
mod raw;
mod room;
mod rows;

pub use growth::has_room;
pub use lent::{put_in, value_in};
pub use raw::{RawVec, reserved};
pub use room::roomy;
pub use rows::{count_all, put_all};
