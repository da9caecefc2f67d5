// The place of a block, and the size and base of a chunk.
ghost use Rattle.std.specs.Prelude.{◌≡◌, ◌≢◌, ◌+◌, ◌-◌, ◌%◌, ◌^◌, ◌<◌, ◌≤◌, ◌↔◌, IsTrue, IfSome, max};
ghost use Rattle.std.specs.Option.{SomeIff, option_map_or};
ghost use Rattle.arena_rules.specs.Rounding.{is_power};
ghost use Rattle.arena_rules.specs.State.{is_min_align};
ghost use Rattle.arena_rules.specs.Search.{place_below, rounded_size, size_for, next_base};

use crate::layout::Layout;
use crate::rounding::{round_down_to, round_up_to, round_up_to_unchecked};
use crate::{CHUNK_ALIGN, CHUNK_FOOTER_SIZE, OVERHEAD, TYPICAL_PAGE_SIZE};

// Returns the greater of the block's alignment and the least one. The branch saves a comparison that the compiler
// keeps, as it doesn't know that no alignment is below 1.
#[inline(always)]
fn align_with(layout: Layout, min_align: u64) -> u64
    ensures { result ≡ max layout.align min_align }
{
    if min_align == 1 {
        layout.align
    } else {
        layout.align.max(min_align)
    }
}

/// Returns where a block is placed below the cursor, or `None` if that is below the start.
#[inline(always)]
pub fn place(start: u64, cursor: u64, layout: Layout, min_align: u64) -> Option<u64>
    requires start { 0 < start }
    requires min_align { IsTrue (is_min_align min_align) }
    ensures { result ≡ place_below start cursor layout.size layout.align min_align }
{
    let top = cursor.checked_sub(layout.size)?;
    let p = round_down_to(top, align_with(layout, min_align));
    if start <= p { Some(p) } else { None }
}

const LARGEST_WANTED: u64 = (1 << 63) - OVERHEAD;

fn rounded(wanted: u64) -> Option<u64>
    ensures value { result ≡ rounded_size wanted }
    ensures small { IfSome result (λ size. size < 2 ^ 63 + 8192) }
{
    if wanted < TYPICAL_PAGE_SIZE {
        return Some((wanted + OVERHEAD).next_power_of_two() - OVERHEAD);
    }
    if wanted <= LARGEST_WANTED {
        return Some(round_up_to_unchecked(wanted + OVERHEAD, TYPICAL_PAGE_SIZE) - OVERHEAD);
    }
    None
}

/// Returns the data size of a chunk for a tried size and a block, or `None` if no layout is that large.
pub fn chunk_data_size(n: u64, layout: Layout) -> Option<u64>
    ensures { result ≡ size_for n layout.size layout.align }
{
    let align = layout.align.max(CHUNK_ALIGN);
    let wanted = n.max(round_up_to_unchecked(layout.size, align));
    match rounded(wanted) {
        Some(size) if Layout::is_valid(size + CHUNK_FOOTER_SIZE, align) => Some(size),
        _ => None,
    }
}

/// Returns the base of the chunk after one with this data end, or of the first chunk for `None`. The result is `None`
/// if the base exceeds the last address.
pub fn next_base(end: Option<u64>, align: u64) -> Option<u64>
    requires power { IsTrue (is_power align) }
    requires chunk { 16 ≤ align }
    ensures { let base = next_base (option_map_or (λ e. e + 48) end 4096) align in SomeIff result
        (base < 2 ^ 64) base }
{
    let floor = match end {
        None => TYPICAL_PAGE_SIZE,
        Some(end) => end.checked_add(CHUNK_FOOTER_SIZE)?,
    };
    round_up_to(floor, align)
}
