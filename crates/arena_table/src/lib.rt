//! The table of a map in an arena: a block with a mark of one byte and a pair for each slot of a ring, ordered by
//! distance.
#![tactic(auto)]

mod carry;
mod changes;
mod far;
mod gap;
mod key;
mod pairs;
mod put;
mod search;
mod table;

pub use key::ArenaKey;
pub use pairs::{key_at, value_at};
pub use put::PutValue;
pub use search::find;
pub use table::Table;
