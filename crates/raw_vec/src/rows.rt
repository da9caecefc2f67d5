// Values of slices.
ghost use Rattle.std.specs.Prelude.{◌≡◌, ◌+◌, ◌-◌, ◌*◌, ◌^◌, ◌<◌, ◌≤◌, [], ◌∷◌, ◌++◌, IsTrue, length, min};
ghost use Rattle.std.specs.List.{flat_map};
ghost use Rattle.arena_chunks.specs.Memory.{is_readable};
ghost use Rattle.arena_chunks.specs.Frame.{Frame};
ghost use Rattle.arena_items.specs.Values.{bytes_of, elements};
ghost use Rattle.arena_items.specs.Room.{SamePlaces};

use arena_chunks::{Allocator, Block, ChunkSource};
use arena_items::{Item, put_items};

/// Returns how many values the slices have together, up to 2^64 - 1.
pub fn count_all<T>(slices: &[&[T]]) -> u64
    ensures { result ≡ min (length (flat_map (λ s. s.now) slices.now)) (2 ^ 64 - 1) }
{
    let mut n = 0u64;
    for values in slices {
        n = n.saturating_add(values.len() as u64);
    }
    n
}

/// Writes the values of slices after the first `at` of a block, one slice after another.
#[tactic(auto, using(crate::proofs::ByteLemmas::block_laws))]
pub fn put_all<T: Item, C: ChunkSource>(
    a: &mut Allocator<C>,
    block: Block,
    at: u64,
    slices: &[&[T]],
)
    requires small { T.SIZE ≤ 2 ^ 24 }
    requires readable { IsTrue (is_readable a.old.memory.state block) }
    requires few { at + length (flat_map (λ s. s.now) slices.now) < 2 ^ 32 }
    requires range { (at + length (flat_map (λ s. s.now) slices.now)) * T.SIZE ≤ block.size }
    ensures push { let more = flat_map (λ s. s.now) slices.now in
        elements T.SIZE T.decoded (at + length more) (bytes_of a.new.memory block)
        ≡ elements T.SIZE T.decoded at (bytes_of a.old.memory block) ++ more }
    ensures places { SamePlaces a.old a.new }
    ensures frame { Frame a.old.memory a.new.memory (block ∷ []) (block ∷ []) }
{
    let mut end = at;
    for values in slices {
        put_items(a, block, end, values);
        end += values.len() as u64;
    }
}
