// Vectors that are compared and hashed.
ghost use Rattle.std.specs.Prelude.{◌≡◌, ◌^◌, ◌≤◌, ◌⊎◌, IsTrue, IsFalse, fold};
ghost use Rattle.std.specs.Cmp.Lexicographic.{pointwise, slice_cmp};
ghost use Rattle.std.specs.Hash as fed;
ghost use Rattle.std.specs.Ordering.{is_gt, nat_cmp};
ghost use Rattle.arena_vec.specs.Vecs.{IsVecIn, vec_list};

use arena_chunks::{Allocator, ChunkSource};
use arena_items::Item;
use arena_vec::Vec;
use arena_vec::laws::{hash_law, order_law};
use std::hash::{Hash, Hasher};

/// Returns the lesser of two vectors, or the first if they are equal. The result is greater than neither.
pub fn earlier<T: Item + Ord, C: ChunkSource>(
    a: &Allocator<C>,
    one: Vec<T>,
    other: Vec<T>,
) -> Vec<T>
    requires small { T.SIZE ≤ 2 ^ 24 }
    requires one { IsVecIn T.Item a.now.memory one }
    requires other { IsVecIn T.Item a.now.memory other }
    ensures either { (result ≡ one) ⊎ (result ≡ other) }
    ensures equal { IsTrue (pointwise T.eq (vec_list T.Item a.now.memory one)
        (vec_list T.Item a.now.memory other)) → result ≡ one }
    ensures one { IsFalse (is_gt (slice_cmp T.cmp (vec_list T.Item a.now.memory result)
        (vec_list T.Item a.now.memory one))) }
    ensures other { IsFalse (is_gt (slice_cmp T.cmp (vec_list T.Item a.now.memory result)
        (vec_list T.Item a.now.memory other))) }
{
    order_law::<T>();
    if one.cmp(a, &other).is_gt() {
        other
    } else {
        one
    }
}

/// Feeds equal vectors to two hashers in the same state. They are in the same state after that too.
pub fn feed_alike<T: Item + Hash, C: ChunkSource, H: Hasher>(
    a: &Allocator<C>,
    one: Vec<T>,
    other: Vec<T>,
    first: &mut H,
    second: &mut H,
)
    requires small { T.SIZE ≤ 2 ^ 24 }
    requires one { IsVecIn T.Item a.now.memory one }
    requires other { IsVecIn T.Item a.now.memory other }
    requires equal { IsTrue (pointwise T.eq (vec_list T.Item a.now.memory one)
        (vec_list T.Item a.now.memory other)) }
    requires state { first.old ≡ second.old }
    ensures fed { first.new ≡ fold H.write first.old
        (fed.slice T.hash_input (vec_list T.Item a.now.memory one)) }
    ensures alike { first.new ≡ second.new }
{
    hash_law::<T>();
    one.hash(a, first);
    other.hash(a, second);
}
