// The chunks that an arena asks for.
ghost use Rattle.std.specs.Prelude.{◌≡◌, ◌<◌, IfOk, slice_get};
ghost use Rattle.arena_rules.specs.Search.{possible, entries};

use arena_place::{CHUNK_FOOTER_SIZE, Layout, chunk_data_size};
use arena_rules::OutOfMemory;
use std::alloc::Global;

// The base and data size for a tried size, where such a chunk ends below the last address.
#[tactic(auto, unfolding(arena_rules::specs::Search::possible))]
fn possible(base: u64, layout: Layout, tried: u64) -> Option<(u64, u64)>
    ensures { result ≡ possible base layout.size layout.align tried }
{
    match chunk_data_size(tried, layout) {
        Some(bytes)
            if bytes <= u64::MAX - CHUNK_FOOTER_SIZE
                && base <= u64::MAX - CHUNK_FOOTER_SIZE - bytes => Some((base, bytes)),
        _ => None,
    }
}

// The possible chunks of this base for the first size and each half of it, down to the least.
pub(crate) fn entries(
    alloc: Global,
    base: u64,
    layout: Layout,
    first: u64,
    least: u64,
) -> Result<Vec<(u64, u64)>, OutOfMemory>
    requires { 0 < least }
    ensures { IfOk result (λ all. all.items ≡ entries base layout.size layout.align first least) }
{
    let mut all = Vec::new(alloc);
    let mut tried = first;
    while tried >= least {
        if let Some(entry) = possible(base, layout, tried) {
            all.push(entry)?;
        }
        tried /= 2;
    }
    Ok(all)
}

// The entry that is asked for after this many refusals.
pub(crate) fn entry_at(asked: &[(u64, u64)], refused: u32) -> Option<(u64, u64)>
    ensures { result ≡ slice_get asked.now refused }
{
    asked.get(refused as usize).copied()
}
