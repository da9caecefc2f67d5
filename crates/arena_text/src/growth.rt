// The growth rule.
#![tactic(auto, unfolding(crate::specs::Growth::growth_to, crate::specs::Growth::amortised))]

ghost use Rattle.std.specs.Prelude.{◌≡◌, ◌+◌, ◌≤◌};
ghost use Rattle.arena_text.specs.Growth.{amortised_growth, new_growth, IsMore, Suffices};

use arena_items::Growth;

// The most bytes that a text may have.
const LIMIT: u64 = (1 << 63) - 1;

// A text that grows does so by at least this much, up to the limit.
const LEAST: u64 = 8;

// Plans the growth for `additional` bytes after the first `len`.
pub(crate) fn plan(cap: u64, len: u64, additional: u64) -> Growth
    requires within { len ≤ cap }
    ensures value { result ≡ amortised_growth cap len additional }
    ensures more { IsMore cap result }
    ensures suffices { Suffices cap (len + additional) result }
{
    let Some(required) = len.checked_add(additional) else {
        return Growth::Overflows;
    };
    if required <= cap {
        return Growth::Stays;
    }
    if required > LIMIT {
        return Growth::Overflows;
    }
    let more = cap + additional.max(cap.max(LEAST));
    Growth::GrowsTo {
        cap: if more <= LIMIT { more } else { required },
    }
}

// Plans the growth of a new text, to exactly `room` bytes.
pub(crate) fn plan_new(room: u64) -> Growth
    ensures value { result ≡ new_growth room }
    ensures more { IsMore 0 result }
{
    if room == 0 {
        return Growth::Stays;
    }
    if room > LIMIT {
        return Growth::Overflows;
    }
    Growth::GrowsTo { cap: room }
}
