// Contents by words. Short contents are compared word by word, since the call that compares slices takes longer.
ghost use Rattle.std.specs.Prelude.{◌≡◌, ◌≤◌, ◌↔◌, IsTrue, length};
ghost use Rattle.std.specs.Int.{w32, w64, from_le_bytes};

// Copies bytes into an array. Its length is known at compile time, so the bytes are loaded at once.
#[tactic(auto, using(std::proofs::Common::take_all))]
#[inline]
fn array<const N: usize>(bytes: &[u8]) -> [u8; N]
    requires { length bytes.now ≡ N }
    ensures { result ≡ bytes.now }
{
    let mut copy = [0; N];
    copy.copy_from_slice(&bytes[..N]);
    copy
}

// Four bytes as a number, the lowest byte first.
#[inline]
pub(crate) fn short_word(bytes: &[u8]) -> u32
    requires { length bytes.now ≡ 4 }
    ensures { result ≡ from_le_bytes w32 bytes.now }
{
    u32::from_le_bytes(array(bytes))
}

// Eight bytes as a number, the lowest byte first.
#[inline]
pub(crate) fn long_word(bytes: &[u8]) -> u64
    requires { length bytes.now ≡ 8 }
    ensures { result ≡ from_le_bytes w64 bytes.now }
{
    u64::from_le_bytes(array(bytes))
}

// Compares four to eight bytes, as two words of four, which may overlap.
#[inline(always)]
fn same_halves(one: &[u8], other: &[u8]) -> bool
    requires equal { length one.now ≡ length other.now }
    requires least { 4 ≤ length one.now }
    requires most { length one.now ≤ 8 }
    ensures { IsTrue result ↔ (one.now ≡ other.now) }
{
    let last = one.len() - 4;
    short_word(&one[..4]) == short_word(&other[..4])
        && short_word(&one[last..]) == short_word(&other[last..])
}

// Compares eight to sixteen bytes, as two words of eight, which may overlap.
#[inline(always)]
fn same_words(one: &[u8], other: &[u8]) -> bool
    requires equal { length one.now ≡ length other.now }
    requires least { 8 ≤ length one.now }
    requires most { length one.now ≤ 16 }
    ensures { IsTrue result ↔ (one.now ≡ other.now) }
{
    let last = one.len() - 8;
    long_word(&one[..8]) == long_word(&other[..8])
        && long_word(&one[last..]) == long_word(&other[last..])
}

/// Returns whether two contents are equal.
#[tactic(auto, using(crate::proofs::WordLemmas::word_laws))]
#[inline(always)]
pub fn same(one: &[u8], other: &[u8]) -> bool
    ensures { IsTrue result ↔ (one.now ≡ other.now) }
{
    let n = one.len();
    if n != other.len() {
        return false;
    }
    if n > 16 {
        return one == other;
    }
    if n > 8 {
        return same_words(one, other);
    }
    match n {
        4 => short_word(one) == short_word(other),
        8 => long_word(one) == long_word(other),
        5..=7 => same_halves(one, other),
        _ => one == other,
    }
}
