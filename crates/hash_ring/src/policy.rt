// The number of slots of a table.
ghost use Rattle.std.specs.Prelude.{◌≡◌, ◌^◌, ◌<◌, ◌≤◌};
ghost use Rattle.hash_ring.specs.Policy.{limit, next_slots, IsSlotsFor};

// The number of slots of a map's first table, if the map was created without one.
const FIRST: u64 = 16;

/// Returns the maximum number of pairs in a table of `slots` slots.
#[inline]
pub fn limit_of(slots: u64) -> u64
    ensures { result ≡ limit slots }
{
    (slots / 2).min(u32::MAX as u64)
}

/// Returns the number of slots of a table for `pairs` pairs: a power of two.
pub fn slots_for(pairs: u64) -> u64
    requires { pairs < 2 ^ 32 }
    ensures { IsSlotsFor pairs result }
{
    (2 * pairs).max(8).next_power_of_two()
}

/// Returns the number of slots of the table that replaces one of `slots` slots.
pub fn next_slots(slots: u64) -> u64
    requires { slots ≤ 2 ^ 33 }
    ensures { result ≡ next_slots slots }
{
    if slots == 0 { FIRST } else { 2 * slots }
}
