//! Layouts, and where a bump arena places blocks and chunks. Every call is pure and allocates nothing.
#![tactic(auto)]

ghost use Rattle.std.specs.Prelude.{◌≡◌};

mod layout;
mod placing;
mod rounding;

pub use layout::{Layout, layout_from_size_align};
pub use placing::{chunk_data_size, next_base, place};
pub use rounding::{is_aligned_to, round_down_to, round_up_to, round_up_to_unchecked};

/// Bases and data sizes of chunks are multiples of this.
pub const CHUNK_ALIGN: u64 = 16;

/// At least this many addresses are between the data end of a chunk and the base of the next chunk.
pub const CHUNK_FOOTER_SIZE: u64 = 48;

/// The data size of a chunk plus this is a power of two or whole pages, except for an arena over a region.
pub const OVERHEAD: u64 = 64;

/// The first chunk begins at this address rounded up to its alignment, and larger chunks are whole pages of this size,
/// less the overhead.
pub const TYPICAL_PAGE_SIZE: u64 = 4096;

/// The least size that an allocation tries for a chunk, with its overhead.
pub const FIRST_ALLOCATION_GOAL: u64 = 16384;

/// The least data size that an allocation tries for a chunk.
pub const DEFAULT_CHUNK_SIZE_WITHOUT_FOOTER: u64 = FIRST_ALLOCATION_GOAL - OVERHEAD;

/// The least size in bytes of a region that an arena is made over: its last 48 bytes are left out of the chunk.
pub const RAW_MIN_SIZE: u64 = CHUNK_FOOTER_SIZE;

/// The size of a region that an arena is made over is a multiple of this.
pub const RAW_MIN_ALIGN: u64 = CHUNK_ALIGN;

/// The values of the constants.
pub fn constants()
    ensures chunk_align { CHUNK_ALIGN ≡ 16 }
    ensures chunk_footer_size { CHUNK_FOOTER_SIZE ≡ 48 }
    ensures overhead { OVERHEAD ≡ 64 }
    ensures typical_page_size { TYPICAL_PAGE_SIZE ≡ 4096 }
    ensures first_allocation_goal { FIRST_ALLOCATION_GOAL ≡ 16384 }
    ensures default_chunk_size { DEFAULT_CHUNK_SIZE_WITHOUT_FOOTER ≡ 16320 }
    ensures raw_min_size { RAW_MIN_SIZE ≡ 48 }
    ensures raw_min_align { RAW_MIN_ALIGN ≡ 16 }
{}
