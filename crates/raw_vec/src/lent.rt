// Values in borrowed bytes.
ghost use Rattle.std.specs.Prelude.{◌≡◌, ℕ, ◌+◌, ◌*◌, ◌^◌, ◌<◌, ◌≤◌, Some, length, slice_get, slice_set};
ghost use Rattle.arena_items.specs.Values.{elements};

use arena_items::Item;

/// Returns the value at an index.
#[tactic(auto, using(crate::proofs::ByteLemmas::list_laws))]
#[inline]
pub fn value_in<T: Item>(bytes: &[u8], i: usize) -> T
    requires small { T.SIZE ≤ 2 ^ 24 }
    requires range { i * T.SIZE + T.SIZE ≤ length bytes.now }
    ensures { (n : ℕ) → i < n → slice_get (elements T.SIZE T.decoded n bytes.now) i ≡ Some result }
{
    let size = T::SIZE as usize;
    let at = i * size;
    T::decode(&bytes[at..at + size])
}

/// Replaces the value at an index.
#[tactic(auto, using(crate::proofs::ByteLemmas::list_laws))]
#[inline]
pub fn put_in<T: Item>(bytes: &mut [u8], i: usize, value: T)
    requires small { T.SIZE ≤ 2 ^ 24 }
    requires range { i * T.SIZE + T.SIZE ≤ length bytes.old }
    ensures { (n : ℕ) → i < n → n * T.SIZE ≤ length bytes.old
        → elements T.SIZE T.decoded n bytes.new ≡ slice_set (elements T.SIZE T.decoded n bytes.old) i value }
{
    value.known();
    let size = T::SIZE as usize;
    let at = i * size;
    value.encode(&mut bytes[at..at + size]);
}
