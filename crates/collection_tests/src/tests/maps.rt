// Tests of maps and sets: each call that makes one, many pairs, and full arenas. Most maps are in an arena of their own
// (`kept`, `texts`), so calls on them have no preconditions. The values are worked out by hand.
mod kept;
mod numbers;
mod sets;
mod texts;

use arena_hash::KeyHasher;

// A hasher whose hash is always 0.
#[derive(Clone, Copy, Default)]
struct Zero {}

impl KeyHasher for Zero {
    ghost hash_of = { λ h content. 0 };

    fn hash(&self, _content: &[u8]) -> u64 {
        0
    }
}
