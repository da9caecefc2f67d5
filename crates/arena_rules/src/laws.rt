// What the definitions mean, in words and as facts.
mod asking;
mod back;
mod chunks;
mod moves;
mod numbers;
mod resizes;
mod used;

pub use asking::{asked_together, starved_together};
pub use back::{kept_marks, sent_back};
pub use chunks::{doubling, doubling_moves};
pub use moves::{
    all_given_back, first_states, given_back, moved_block, new_block, refusals, valid_moves,
};
pub use numbers::{powers, rounding, tried_sizes};
pub use resizes::{moved_down, moved_up, used_by_grow, used_by_shrink};
pub use used::{
    bytes_within, taken_bytes, unused_at_first, used_addresses, used_by_alloc, used_by_dealloc,
};
