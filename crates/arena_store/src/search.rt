// The search for a chunk that the source grants.
ghost use Rattle.std.specs.Prelude.{◌≡◌, ℕ, ◌+◌, ◌-◌, ◌*◌, ◌/◌, ◌^◌, ◌<◌, ◌≤◌, IsTrue, IfSome, MatchOption, Some, None, length, take, replicate, max, slice_get};
ghost use Rattle.std.specs.Option.{option_map, option_map_or};
ghost use Rattle.arena_rules.specs.Rounding.{is_layout};
ghost use Rattle.arena_rules.specs.Search.{possible, entries, asked_above, requests};
ghost use Rattle.arena_store.specs.Source.{IsAsked};

use crate::ChunkSource;
use arena_place::{
    CHUNK_ALIGN, CHUNK_FOOTER_SIZE, DEFAULT_CHUNK_SIZE_WITHOUT_FOOTER, Layout, chunk_data_size,
    next_base,
};
use arena_region::Region;

/// Returns the data size for a tried size, or `None` if such a chunk doesn't end below the last address.
pub fn possible_size(base: u64, tried: u64, layout: Layout) -> Option<u64>
    ensures value { option_map (λ size. (base, size)) result ≡ possible base layout.size layout.align tried }
    ensures fits { IfSome result (λ size. IsTrue (is_layout (size + 48) (max layout.align 16))) }
{
    match chunk_data_size(tried, layout) {
        Some(size)
            if size <= u64::MAX - CHUNK_FOOTER_SIZE
                && base <= u64::MAX - CHUNK_FOOTER_SIZE - size => Some(size),
        _ => None,
    }
}

/// The result of asking the source for one possible chunk after another.
#[derive(Drop)]
pub struct Granted {
    /// The base of the chunk, if one was granted.
    pub base: u64,
    /// The chunk that was granted, or `None` if all requests were refused.
    pub chunk: Option<Region>,
    /// How many requests were refused.
    pub refused: u32,
}

// Asks for one possible chunk after another, from the first tried size on, until one is granted.
fn ask<C: ChunkSource>(chunks: &mut C, base: u64, first: u64, least: u64, layout: Layout) -> Granted
    requires { 0 < least }
    ensures granted { let all = entries base layout.size layout.align first least in
        MatchOption result.chunk (result.refused ≡ length all)
        (λ chunk. slice_get all result.refused ≡ Some (result.base, length chunk.items)) }
    ensures zeros { IfSome result.chunk (λ chunk. chunk.items ≡ replicate (length chunk.items) 0) }
    ensures asked { IsAsked (C.source chunks.old) (C.source chunks.new) result.refused
        (requests layout.align (take (result.refused + 1)
        (entries base layout.size layout.align first least))) }
{
    let align = layout.align.max(CHUNK_ALIGN);
    let mut refused = 0;
    let mut tried = first;
    while tried >= least {
        if let Some(size) = possible_size(base, tried, layout) {
            if let Some(chunk) = chunks.request_region(size, align) {
                return Granted {
                    base,
                    chunk: Some(chunk),
                    refused,
                };
            }
            refused += 1;
        }
        tried /= 2;
    }
    Granted {
        base,
        chunk: None,
        refused,
    }
}

/// Asks for one possible chunk after another above the newest one, until one is granted. The newest chunk has this data
/// end and size; without a chunk `end` is `None`.
pub fn ask_above<C: ChunkSource>(
    chunks: &mut C,
    end: Option<u64>,
    newest_size: u64,
    layout: Layout,
) -> Granted
    requires { newest_size < 2 ^ 63 }
    ensures granted { let floor = option_map_or (λ e. e + 48) end 4096 in
        let all = asked_above floor newest_size layout.size layout.align in
        MatchOption result.chunk (result.refused ≡ length all)
        (λ chunk. slice_get all result.refused ≡ Some (result.base, length chunk.items)) }
    ensures zeros { IfSome result.chunk (λ chunk. chunk.items ≡ replicate (length chunk.items) 0) }
    ensures asked { let floor = option_map_or (λ e. e + 48) end 4096 in
        let all = asked_above floor newest_size layout.size layout.align in
        IsAsked (C.source chunks.old) (C.source chunks.new) result.refused
        (requests layout.align (take (result.refused + 1) all)) }
{
    let least = layout.size.max(DEFAULT_CHUNK_SIZE_WITHOUT_FOOTER);
    match next_base(end, layout.align.max(CHUNK_ALIGN)) {
        Some(base) => ask(chunks, base, least.max(2 * newest_size), least, layout),
        None => Granted {
            base: 0,
            chunk: None,
            refused: 0,
        },
    }
}
