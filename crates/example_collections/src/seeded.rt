// A hasher with a seed, for keys that others choose.
ghost use Rattle.std.specs.Prelude.{◌≡◌, ◌*◌, ◌+◌, ◌%◌};
ghost use Rattle.example_collections.specs.Seeded.{prime, at_seed, seeded};

use arena_hash::KeyHasher;

/// Hashes a content as the value of a polynomial at the seed. Two different contents of at most n bytes have the same
/// hash for at most n of the 2^61 - 1 seeds. So draw a new seed below 2^61 - 1 for each run, and keep it secret from
/// those who choose the keys.
#[derive(Clone, Copy, Default)]
pub struct SeededHasher {
    /// The point at which the polynomials are evaluated.
    pub seed: u64,
}

const PRIME: u128 = 0x1fff_ffff_ffff_ffff;

const SPREAD: u64 = 0x9e37_79b9_7f4a_7c15;

// The value of the polynomial with one more byte.
#[inline]
fn with_byte(value: u64, seed: u64, byte: u8) -> u64
    ensures { result ≡ (value * seed + byte) % prime }
{
    ((value as u128 * seed as u128 + byte as u128) % PRIME) as u64
}

// The polynomial of a content, whose first coefficient is 1 and whose others are its bytes, at a seed.
fn at_seed(seed: u64, content: &[u8]) -> u64
    ensures { result ≡ at_seed seed content.now }
{
    content
        .iter()
        .fold(1u64, |value, byte| with_byte(value, seed, *byte))
}

impl KeyHasher for SeededHasher {
    ghost hash_of = { λ h content. seeded h.seed content };

    fn hash(&self, content: &[u8]) -> u64 {
        at_seed(self.seed, content)
            .wrapping_mul(SPREAD)
            .rotate_left(26)
    }
}
