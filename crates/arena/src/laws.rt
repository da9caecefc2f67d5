// The laws of the crates below, by what they are about.
pub use arena_ast::laws as trees;
pub use arena_bits::laws as bits;
pub use arena_chunks::laws as blocks;
pub use arena_clone::laws as copies;
pub use arena_items::laws as items;
pub use arena_text::laws as texts;
pub use arena_vec::laws as vectors;
