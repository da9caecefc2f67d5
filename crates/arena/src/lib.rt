//! The arena and all that lives in it, under one name: a crate that uses it names `arena` in `crates.txt`, and none of the crates below.
//! None of them uses threads; pools and workers are in `arena_threads`.
//!
//! The main types, traits and functions are here; `blocks`, `items`, `maps` and so on are the crates that they come from, whole.
#![tactic(auto)]

pub mod laws;

pub use arena_ast as trees;
pub use arena_ast::{
    Ast, ByParts, Linked, Listed, Parts, Scoped, bind, bound, copy_nodes, list_operands,
    new_listed, new_scoped,
};
pub use arena_bits as bits;
pub use arena_bits::BitSet;
pub use arena_chunks as blocks;
pub use arena_chunks::{
    Alloc, Allocator, Arena, ArenaErr, Block, BlockAlloc, Checkpoint, ChunkSource, MemoryChunks,
    OutOfMemory, Str,
};
pub use arena_clone as copies;
pub use arena_clone::{
    CloneIn, CloneInSemanticIds, Dummy, FromIn, IntoIn, Origin, Plain, ReplaceWith, SemanticId,
    TakeIn,
};
pub use arena_hash as maps;
pub use arena_hash::{ArenaKey, FxHasher, HashMap, HashSet, KeyHasher};
pub use arena_items as items;
pub use arena_items::{
    AllocError, ArenaItems, Beside, Box, BoxSlice, Grown, InArena, Item, ItemErr,
};
pub use arena_place as places;
pub use arena_place::Layout;
pub use arena_symbols as symbols;
pub use arena_symbols::{Scopes, Symbols};
pub use arena_text as texts;
pub use arena_text::StringBuilder;
pub use arena_vec as vectors;
pub use arena_vec::Vec;
