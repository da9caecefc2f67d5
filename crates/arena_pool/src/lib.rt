//! Arenas for threads: pools that lend them, claims on words, and arenas with two owners.
#![tactic(auto)]

mod book;
mod claims;
mod fixed_size;
mod guard;
mod kind;
pub mod laws;
mod lender;
mod lending;
mod maker;
mod name;
mod owners;
mod packing;
mod pool;
mod shared;
mod standard;
mod stock;

pub use arena_chunks::OutOfMemory;
pub use book::{Book, Counts, PoolErr};
pub use claims::rule::ClaimView;
pub use claims::{ClaimErr, ClaimSeat, Claims};
pub use fixed_size::FixedSizeAllocatorPool;
pub use guard::{AllocatorGuard, FixedSizeAllocatorMetadata};
pub use kind::PoolKind;
pub use lending::Loan;
pub use maker::{ChunkMaker, MemoryMaker};
pub use name::{MOST_LENT, PoolName};
pub use owners::rule::OwnerView;
pub use owners::{GaveUp, Owner, OwnerSeat, ShareErr, share};
pub use pool::AllocatorPool;
pub use standard::StandardAllocatorPool;
