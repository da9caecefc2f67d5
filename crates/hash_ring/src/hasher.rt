// Hashes of contents.
ghost use Rattle.std.specs.Prelude.{◌≡◌, ℕ, ◌+◌, ◌<◌, ◌≤◌, List, IsTrue, take, drop, length};
ghost use Rattle.hash_ring.specs.Hashes.{IsFixed};
ghost use Rattle.hash_ring.specs.Fx.{spread, crossed, mixed, number_of, short_of, medium_of, joined, long_of};
ghost use Rattle.hash_ring.specs.Fx.{fx_of};

use crate::words::{long_word, short_word};

/// Hashes contents. A hash depends on the hasher and the content alone; nothing else is promised of it. A map is
/// correct under every hasher, and fast where few keys have the same hash.
pub trait KeyHasher: Default + Drop {
    // The hash of a content.
    ghost hash_of: { Self → List ℕ → ℕ };

    /// Returns the hash of a content.
    fn hash(&self, content: &[u8]) -> u64
        ensures { result ≡ hash_of self.now content.now };

    /// Returns `true` only if all hashers of the type give the same hash for each content, so that any of them can
    /// replace another. A type that keeps the default promises nothing: its hashers may have seeds.
    fn is_fixed() -> bool
        ensures { IsTrue result → IsFixed hash_of }
    {
        false
    }
}

/// A fixed hasher, by words of eight bytes. Its hashes may change from version to version. It has no secret: anyone who
/// chooses the keys can choose many with the same hash, and then each look-up of such a key takes time linear in their
/// number. Where that matters, use a hasher with a seed.
#[derive(Clone, Copy, Default, PartialEq, Eq, Debug)]
pub struct FxHasher {}

const FACTOR: u64 = 0xf135_7aea_2e62_a9c5;

const SPAN: u128 = 0x1_0000_0000_0000_0000;

const HALF: u64 = 0x1_0000_0000;

// The two halves of a product, combined by xor.
#[inline]
fn crossed(one: u64, other: u64) -> u64
    ensures { result ≡ crossed one other }
{
    let product = one as u128 * other as u128;
    (product % SPAN) as u64 ^ (product / SPAN) as u64
}

// The two halves of a word's product with the factor, combined by xor.
#[inline]
fn mixed(word: u64) -> u64
    ensures { result ≡ mixed word }
{
    crossed(word, FACTOR)
}

// A few bytes as a number, the first byte the highest.
#[inline]
fn number_of(bytes: &[u8]) -> u64
    ensures { result ≡ number_of bytes.now }
{
    bytes.iter().fold(0, |number: u64, byte| {
        number.wrapping_mul(256).wrapping_add(*byte as u64)
    })
}

// A length, spread over the bits of a word.
#[inline]
fn spread(n: usize) -> u64
    ensures { result ≡ spread n }
{
    (n as u64).wrapping_mul(FACTOR)
}

// Mixes the eight bytes at an index into a hash. The factor is added to the word, so that a hash of 0 doesn't stay 0
// over words of 0.
#[inline]
fn joined(hash: u64, content: &[u8], at: usize) -> u64
    requires { at + 8 ≤ length content.now }
    ensures { result ≡ joined hash (take 8 (drop at content.now)) }
{
    let word = long_word(&content[at..at + 8]);
    mixed(hash ^ word.wrapping_add(FACTOR))
}

// A content of fewer than eight bytes as one number: two words of four bytes, which may overlap, or all bytes.
#[inline(always)]
fn short_of(content: &[u8]) -> u64
    requires { length content.now < 8 }
    ensures { result ≡ short_of content.now }
{
    let n = content.len();
    if n < 4 {
        return number_of(content);
    }
    let low = short_word(&content[..4]) as u64;
    let high = short_word(&content[n - 4..]) as u64;
    low + HALF * high
}

// The hash of a content of nine to sixteen bytes, by one product of two words, which may overlap.
#[inline(always)]
fn medium_of(content: &[u8]) -> u64
    requires least { 8 < length content.now }
    requires most { length content.now ≤ 16 }
    ensures { result ≡ medium_of content.now }
{
    let n = content.len();
    let first = long_word(&content[..8]);
    let last = long_word(&content[n - 8..]);
    crossed(first ^ spread(n), last.wrapping_add(FACTOR))
}

// The hash of a content of more than eight bytes, word by word. The last eight bytes are a word of their own, which may
// overlap the one before it.
#[inline]
fn long_of(content: &[u8]) -> u64
    requires { 8 < length content.now }
    ensures { result ≡ long_of content.now }
{
    let n = content.len();
    let words = (n - 1) / 8;
    let mut hash = joined(spread(n), content, 0);
    for i in 1..words {
        hash = joined(hash, content, 8 * i);
    }
    joined(hash, content, n - 8)
}

impl KeyHasher for FxHasher {
    ghost hash_of = { λ h content. fx_of content };

    fn is_fixed() -> bool {
        true
    }

    #[tactic(auto, using(std::proofs::lemmas::Bool::Decides::nat_tests), unfolding(crate::specs::Fx::fx_of))]
    #[inline]
    fn hash(&self, content: &[u8]) -> u64 {
        let n = content.len();
        if n > 16 {
            return long_of(content);
        }
        if n > 8 {
            return medium_of(content);
        }
        match n {
            4 => {
                let number = short_word(content) as u64;
                number.wrapping_mul(FACTOR).rotate_left(26)
            }
            8 => mixed(long_word(content)),
            _ => mixed(spread(n) ^ short_of(content).wrapping_add(FACTOR)),
        }
    }
}
