// The chunks that a growing arena asks for.
ghost use Rattle.std.specs.Prelude.{◌≡◌, ◌^◌, ◌<◌, IfSome, slice_get};
ghost use Rattle.std.specs.Option.{option_map};
ghost use Rattle.arena_rules.specs.Search.{entries, possible, size_for};
ghost use Rattle.arena_cursor.specs.Growing.{size_after, IsRequest};

use arena_place::{
    CHUNK_ALIGN, CHUNK_FOOTER_SIZE, DEFAULT_CHUNK_SIZE_WITHOUT_FOOTER, Layout, chunk_data_size,
};

/// A chunk to ask for.
#[repr(C)]
#[derive(Clone, Copy)]
pub struct Chunk {
    /// How many of its bytes are for blocks.
    pub size: u64,
    /// How many bytes to ask for: 48 more, which follow those of the blocks and are the caller's.
    pub bytes: u64,
    /// The alignment to ask for.
    pub align: u64,
}

// Returns the request for a tried size, or `None` if no layout is that large.
#[tactic(auto, using(crate::proofs::GrowingLemmas::request_laws))]
pub(crate) fn request_for(tried: u64, layout: Layout) -> Option<Chunk>
    requires { 0 < tried }
    ensures entry { option_map (λ c. (0, c.size)) result ≡ possible 0 layout.size layout.align tried }
    ensures size { option_map (λ c. c.size) result ≡ size_for tried layout.size layout.align }
    ensures request { IfSome result (λ c. IsRequest layout.size layout.align c) }
{
    match chunk_data_size(tried, layout) {
        Some(size) => Some(Chunk {
            size,
            bytes: size + CHUNK_FOOTER_SIZE,
            align: layout.align.max(CHUNK_ALIGN),
        }),
        None => None,
    }
}

// Returns the request after this many refusals, from the first tried size on.
#[tactic(auto, using(crate::proofs::GrowingLemmas::entry_laws))]
fn request_from(first: u64, least: u64, layout: Layout, refused: u32) -> Option<Chunk>
    requires { 0 < least }
    ensures entry { option_map (λ c. (0, c.size)) result
        ≡ slice_get (entries 0 layout.size layout.align first least) refused }
    ensures request { IfSome result (λ c. IsRequest layout.size layout.align c) }
{
    let mut left = refused;
    let mut tried = first;
    while tried >= least {
        if let Some(chunk) = request_for(tried, layout) {
            if left == 0 {
                return Some(chunk);
            }
            left -= 1;
        }
        tried /= 2;
    }
    None
}

// Returns the request after this many refusals, for a block that has no place in a newest chunk of this size.
#[tactic(auto, using(crate::proofs::GrowingLemmas::size_after_is))]
pub(crate) fn request_after(newest: u64, layout: Layout, refused: u32) -> Option<Chunk>
    requires { newest < 2 ^ 63 }
    ensures size { option_map (λ c. c.size) result ≡ size_after newest layout.size layout.align refused }
    ensures request { IfSome result (λ c. IsRequest layout.size layout.align c) }
{
    let least = layout.size.max(DEFAULT_CHUNK_SIZE_WITHOUT_FOOTER);
    request_from(least.max(2 * newest), least, layout, refused)
}
