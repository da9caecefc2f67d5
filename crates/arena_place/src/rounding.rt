// Rounding to a multiple of a power of two.
ghost use Rattle.std.specs.Prelude.{◌≡◌, ◌+◌, ◌-◌, ◌%◌, ◌^◌, ◌<◌, ◌≤◌, ◌↔◌, IsTrue};
ghost use Rattle.std.specs.Option.{SomeIff};
ghost use Rattle.arena_rules.specs.Rounding.{up, down, is_power};

/// Returns the greatest multiple of the divisor at or below `n`.
#[inline(always)]
pub const fn round_down_to(n: u64, divisor: u64) -> u64
    requires { IsTrue (is_power divisor) }
    ensures { result ≡ down n divisor }
{
    n & !(divisor - 1)
}

/// Returns the least multiple of the divisor at or above `n`. The sum `n + divisor - 1` must fit in 64 bits.
#[inline(always)]
pub const fn round_up_to_unchecked(n: u64, divisor: u64) -> u64
    requires power { IsTrue (is_power divisor) }
    requires fits { n + (divisor - 1) < 2 ^ 64 }
    ensures { result ≡ up n divisor }
{
    round_down_to(n + (divisor - 1), divisor)
}

/// Returns the least multiple of the divisor at or above `n`, or `None` if `n + divisor - 1` overflows.
pub const fn round_up_to(n: u64, divisor: u64) -> Option<u64>
    requires { IsTrue (is_power divisor) }
    ensures { SomeIff result (n + (divisor - 1) < 2 ^ 64) (up n divisor) }
{
    match n.checked_add(divisor - 1) {
        Some(sum) => Some(round_down_to(sum, divisor)),
        None => None,
    }
}

/// Returns whether `n` is a multiple of the alignment.
#[inline(always)]
pub const fn is_aligned_to(n: u64, align: u64) -> bool
    requires { IsTrue (is_power align) }
    ensures { IsTrue result ↔ (n % align ≡ 0) }
{
    n & (align - 1) == 0
}
