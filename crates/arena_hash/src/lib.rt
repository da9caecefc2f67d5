//! Maps and sets in an arena: finite maps by the content of their keys.
#![tactic(auto)]

mod collect;
mod compare;
mod growth;
mod handle;
mod laws;
mod map;
mod set;
mod walk;
mod whole;

pub use arena_table::{ArenaKey, Table};
pub use hash_ring::{FxHasher, KeyHasher};
pub use laws::{bytes_law, costs_law, insert_law, lengths_law, map_frame_law, texts_law};
pub use map::{ArenaHashMap, HashMap, Look};
pub use set::{ArenaHashSet, HashSet, SetIter};
pub use walk::{IntoKeys, IntoValues, Iter};
