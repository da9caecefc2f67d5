// The laws of the crates below, by what they are about.
pub use arena_pool::laws as pools;
