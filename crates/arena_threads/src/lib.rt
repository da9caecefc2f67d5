//! What `arena` leaves to crates with threads: pools that lend allocators, claims and shared arenas, and workers. A crate that
//! uses it names `arena_threads` in `crates.txt`, next to `arena`, and its repository needs handles for threads and waiting.
#![tactic(auto)]

pub mod laws;

pub use arena_pool as pools;
pub use arena_pool::{
    AllocatorGuard, AllocatorPool, Book, Claims, FixedSizeAllocatorPool, Owner,
    StandardAllocatorPool,
};
pub use arena_workers as workers;
pub use arena_workers::{Work, run_all};
