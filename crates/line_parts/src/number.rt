// Reads numbers from the front of a line.
ghost use Rattle.std.specs.Prelude.{◌<◌, ◌≤◌, ◌^◌, ◌-◌, ◌++◌, ◌∷◌};
ghost use Rattle.line_parts.specs.Numbers.{number};
ghost use Rattle.line_parts.specs.Reads.{Reads, IsNumber};

// The number that the digits of `n`, and then those at the front, spell.
fn digits(bytes: &[u8], n: u64, max: u64) -> Option<(u64, &[u8])>
    requires { (0 < n) × (n ≤ max) }
    ensures { Reads (λ m. m ≤ max) number (number n ++ bytes.now) result }
{
    let mut number = n;
    for (i, b) in bytes.iter().enumerate() {
        if !b.is_ascii_digit() {
            return Some((number, &bytes[i..]));
        }
        let next = number.checked_mul(10)?.checked_add(u64::from(*b - b'0'))?;
        if next > max {
            return None;
        }
        number = next;
    }
    Some((number, &bytes[bytes.len()..]))
}

// The number at the front.
fn number(bytes: &[u8], max: u64) -> Option<(u64, &[u8])>
    requires { 9 ≤ max }
    ensures { Reads (λ n. n ≤ max) number bytes.now result }
{
    let (first, rest) = bytes.split_first()?;
    if *first == b'0' {
        return Some((0, rest));
    }
    if !first.is_ascii_digit() {
        return None;
    }
    digits(rest, u64::from(*first - b'0'), max)
}

/// Returns the number that the bytes are, or `None` if they are no number of at most `max`, which must be at least 9.
pub fn whole_number(bytes: &[u8], max: u64) -> Option<u64>
    requires { 9 ≤ max }
    ensures { IsNumber max bytes.now result }
{
    let (n, rest) = number(bytes, max)?;
    if !rest.is_empty() {
        return None;
    }
    Some(n)
}

/// Reads a space and a number of at most `max`, which must be at least 9. Returns the number and the rest.
pub fn field(bytes: &[u8], max: u64) -> Option<(u64, &[u8])>
    requires { 9 ≤ max }
    ensures { Reads (λ n. n ≤ max) (λ n. 32 ∷ number n) bytes.now result }
{
    let (first, rest) = bytes.split_first()?;
    if *first != b' ' {
        return None;
    }
    number(rest, max)
}

/// Reads a space and a name. Returns the name and the rest.
pub fn name_field(bytes: &[u8]) -> Option<(u32, &[u8])>
    ensures { Reads (λ n. n ≤ 2 ^ 32 - 1) (λ n. 32 ∷ number n) bytes.now result }
{
    let (name, rest) = field(bytes, u64::from(u32::MAX))?;
    Some((name as u32, rest))
}

/// Reads a space and a byte's number. Returns the byte and the rest.
pub fn byte_field(bytes: &[u8]) -> Option<(u8, &[u8])>
    ensures { Reads (λ b. b ≤ 2 ^ 8 - 1) (λ b. 32 ∷ number b) bytes.now result }
{
    let (byte, rest) = field(bytes, u64::from(u8::MAX))?;
    Some((byte as u8, rest))
}
