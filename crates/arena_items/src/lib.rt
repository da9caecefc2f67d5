//! Values in an arena: types with a byte form, the handles of values, and what becomes of a value while an arena is
//! used.
#![tactic(auto)]

mod address;
mod beside;
mod boxes;
mod elements;
mod get_allocator;
mod handles;
mod item;
pub mod laws;
mod numbers;
mod options;
mod pairs;
mod placing;
mod room;
mod rows;
mod sizes;
mod slices;
mod typed;
mod values;
mod zeros;

pub use address::{Address, GetAddress};
pub use beside::Beside;
pub use boxes::{ArenaBox, Box};
pub use elements::{item_at, put_copies, put_item, put_items};
pub use get_allocator::{GetAllocator, allocator_of};
pub use item::Item;
pub use placing::ItemErr;
pub use room::{AllocError, Grown, Growth, grown, take_room};
pub use rows::{copy_items, move_items};
pub use slices::{BoxSlice, SliceIter};
pub use typed::ArenaItems;
pub use values::InArena;
pub use zeros::Zeros;
