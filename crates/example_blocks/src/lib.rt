//! Small callers of blocks and values in an arena: examples of what a layer above can prove about its blocks, boxes,
//! slices and texts, and how. The proofs use the contracts and laws of the crates below alone, never their bodies or
//! private definitions.
#![tactic(auto)]

mod asking;
mod beside;
mod block_list;
mod buffer;
mod checked;
mod closures;
mod counts;
mod ending;
mod generic;
mod growing;
mod held;
mod in_place;
mod linked;
mod metres;
mod objects;
mod pairs;
mod rules;
mod together;
mod tries;

pub use asking::place_then_grow;
pub use beside::{place_another, place_pair, read_either};
pub use block_list::add_block;
pub use buffer::{Buffer, BufferErr};
pub use checked::get_checked;
pub use closures::{fill_with_size, place_copy};
pub use counts::{give_back, shrink_in_place};
pub use ending::put_last;
pub use generic::{grow_beside, place_and_grow};
pub use growing::begin_row;
pub use held::{end_of, extend};
pub use in_place::{Reverse, reverse_block};
pub use linked::{Chain, set_last_beside};
pub use metres::Metres;
pub use objects::{Object, set_beside_both};
pub use pairs::{place_two, write_beside};
pub use rules::{first_reply, place_array};
pub use together::{size_of_both, write_two};
pub use tries::{try_beside, would_lie};
