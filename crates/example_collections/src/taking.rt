// Values that are filtered, removed and replaced.
ghost use Rattle.std.specs.Prelude.{◌≡◌, ℕ, ◌-◌, ◌^◌, ◌≤◌, [], ◌∷◌, length, take, drop, filter, OnOk, OnErr};
ghost use Rattle.std.specs.List.{replace_range, range_with_len};
ghost use Rattle.std.specs.Iterator.{IsFinite};
ghost use Rattle.std.specs.Ordering.{is_le};
ghost use Rattle.arena_chunks.specs.Frame.{Frame};
ghost use Rattle.arena_vec.specs.Vecs.{IsVecIn, vec_list};
ghost use Rattle.arena_vec.specs.Changes.{Becomes};
ghost use Rattle.arena_vec.specs.Splicing.{Replaces};

use arena_chunks::{Allocator, ChunkSource};
use arena_items::Item;
use arena_vec::{Grown, Vec};
use std::ops::Range;

/// Keeps the values that are at least `least`, in their order.
pub fn keep_from<T: Item + Ord, C: ChunkSource>(a: &mut Allocator<C>, vec: &mut Vec<T>, least: T)
    requires small { T.SIZE ≤ 2 ^ 24 }
    requires held { IsVecIn T.Item a.old.memory vec.old }
    ensures { let list = filter (λ x. is_le (T.cmp least x)) (vec_list T.Item a.old.memory vec.old) in
        Becomes T.Item a.old a.new vec.old list vec.new }
{
    vec.retain(a, |x| least.cmp(x).is_le());
}

/// Removes the first values and writes them to `out`, which has space for at most as many as there are.
pub fn take_front<T: Item, C: ChunkSource>(a: &mut Allocator<C>, vec: &mut Vec<T>, out: &mut [T])
    requires small { T.SIZE ≤ 2 ^ 24 }
    requires held { IsVecIn T.Item a.old.memory vec.old }
    requires enough { length out.old ≤ vec.old.raw.len }
    ensures taken { out.new ≡ take (length out.old) (vec_list T.Item a.old.memory vec.old) }
    ensures rest { let list = drop (length out.old) (vec_list T.Item a.old.memory vec.old) in
        Becomes T.Item a.old a.new vec.old list vec.new }
{
    // For the proof: the length fits in 32 bits.
    let _len = vec.len();
    let mut gone = vec.drain(a, 0, out.len() as u32);
    for place in out.iter_mut() {
        if let Some(value) = gone.next() {
            *place = value;
        }
    }
    gone.finish();
}

/// Replaces a range of a vector by numbers.
///
/// # Errors
///
/// Those of `try_reserve`. The range is replaced by some of the numbers then, the first ones.
pub fn put_numbers<C: ChunkSource>(
    a: &mut Allocator<C>,
    vec: &mut Vec<u32>,
    start: u32,
    end: u32,
    numbers: Range<u32>,
) -> Grown<()>
    requires held { IsVecIn ⟦<u32 as Item>⟧ a.old.memory vec.old }
    requires order { start ≤ end }
    requires within { end ≤ vec.old.raw.len }
    ensures held { IsVecIn ⟦<u32 as Item>⟧ a.new.memory vec.new }
    ensures ok { let all = range_with_len numbers.start (numbers.end - numbers.start) in
        OnOk result (vec_list ⟦<u32 as Item>⟧ a.new.memory vec.new
        ≡ replace_range (vec_list ⟦<u32 as Item>⟧ a.old.memory vec.old) start end all) }
    ensures err { let all = range_with_len numbers.start (numbers.end - numbers.start) in
        OnErr result ((n : ℕ) × (vec_list ⟦<u32 as Item>⟧ a.new.memory vec.new
        ≡ replace_range (vec_list ⟦<u32 as Item>⟧ a.old.memory vec.old) start end (take n all))) }
    ensures frame { Frame a.old.memory a.new.memory (vec.old.raw.block ∷ []) (vec.new.raw.block ∷ []) }
{
    vec.splice(a, start, end, numbers).finish()
}

/// Takes one value from each end of a range, and replaces the range by an iterator's items.
pub fn exchange<T: Item, C: ChunkSource, I: Iterator<Item = T> + Drop>(
    vec: &mut Vec<T>,
    a: &mut Allocator<C>,
    start: u32,
    end: u32,
    with: I,
) -> Grown<()>
    requires small { T.SIZE ≤ 2 ^ 24 }
    requires held { IsVecIn T.Item a.old.memory vec.old }
    requires order { start ≤ end }
    requires within { end ≤ vec.old.raw.len }
    requires can { I.can_next with }
    requires ends { IsFinite (I.remaining with) }
    ensures { Replaces T.Item I.next_gives with a.old.memory a.new.memory vec.old start end vec.new result }
{
    let mut gone = vec.splice(a, start, end, with);
    let _first = gone.next();
    let _last = gone.next_back();
    gone.finish()
}
