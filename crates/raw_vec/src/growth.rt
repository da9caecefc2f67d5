// The growth rule.
#![tactic(auto, unfolding(crate::specs::Growth::fits, crate::specs::Growth::amortised, crate::specs::Growth::growth_to))]

ghost use Rattle.std.specs.Prelude.{◌≡◌, ◌+◌, ◌^◌, ◌≤◌};
ghost use Rattle.raw_vec.specs.Growth.{fits, growth_by, IsMore, Suffices};

use arena_items::Growth;

const LIMIT: u64 = u32::MAX as u64;

/// Returns whether a vector may have `n` values of this size.
#[inline(always)]
pub fn has_room(size: u64, n: u64) -> bool
    requires small { size ≤ 2 ^ 24 }
    ensures { result ≡ fits size n }
{
    n <= LIMIT && n * size <= LIMIT
}

// Plans the growth for `additional` values after the first `len`: to what is required if `exact`, and otherwise to the
// amortised capacity.
#[inline(always)]
pub(crate) fn plan(size: u64, cap: u32, len: u32, additional: u64, exact: bool) -> Growth
    requires small { size ≤ 2 ^ 24 }
    ensures value { result ≡ growth_by exact size cap (len + additional) }
    ensures more { IsMore size cap result }
    ensures suffices { Suffices size cap (len + additional) result }
{
    let Some(required) = additional.checked_add(len as u64) else {
        return Growth::Overflows;
    };
    if required <= cap as u64 {
        return Growth::Stays;
    }
    if !has_room(size, required) {
        return Growth::Overflows;
    }
    let doubled = (2 * cap as u64).max(required);
    if !exact && has_room(size, doubled) {
        return Growth::GrowsTo { cap: doubled };
    }
    Growth::GrowsTo { cap: required }
}
