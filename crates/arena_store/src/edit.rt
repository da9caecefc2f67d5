// Changes of bytes in place.
ghost use Rattle.std.specs.Prelude.{◌≡◌, ℕ, ◌+◌, ◌-◌, ◌≤◌, List, length, take, drop, replicate};
ghost use Rattle.arena_rules.specs.Lists.{splice};
ghost use Rattle.arena_store.specs.Stored.{HasPart, part_of, with_part};

use crate::chunk::StoredChunk;
use crate::shift::shift;

/// A change of bytes in place that keeps their number. An implementation may encode straight into the place, or change
/// it in a loop.
pub trait Edit {
    // Whether the change may be applied to these bytes.
    ghost suits: { Self → List ℕ → Type 0 };

    // Whether the first bytes may become the second. A function is the case of `λ s old new. new ≡ f s old`.
    ghost relates: { Self → List ℕ → List ℕ → Type 0 };

    /// Changes the bytes.
    fn edit(&self, place: &mut [u8])
        requires { suits self.now place.old }
        ensures { relates self.now place.old place.new };
}

/// Moves bytes of a chunk to another place in its used part. The two ranges may overlap.
#[inline(always)]
pub fn shift_in(chunk: &mut StoredChunk, from: u64, to: u64, size: u64)
    requires source { HasPart chunk.old from size }
    requires target { HasPart chunk.old to size }
    ensures { chunk.new ≡ with_part chunk.old to (part_of chunk.old from size) }
{
    let used = (chunk.cursor - chunk.base) as usize;
    let place = chunk.bytes.part_mut(used, chunk.bytes.len() - used);
    let start = (from - chunk.cursor) as usize;
    let target = (to - chunk.cursor) as usize;
    shift(place, start, target, size as usize);
}

/// Replaces all bytes of the place by these.
#[derive(Drop)]
pub struct Put<'a> {
    pub bytes: &'a [u8],
}

impl Edit for Put<'_> {
    ghost suits = { λ s old. length old ≡ length s.bytes.now };

    ghost relates = { λ s old new. new ≡ s.bytes.now };

    fn edit(&self, place: &mut [u8]) {
        place.copy_from_slice(self.bytes);
    }
}

/// Sets all bytes of the place to a value.
#[derive(Drop)]
pub struct Fill {
    pub value: u8,
}

impl Edit for Fill {
    ghost suits = { λ s old. Unit {0} };

    ghost relates = { λ s old new. new ≡ replicate (length old) s.value };

    fn edit(&self, place: &mut [u8]) {
        place.fill(self.value);
    }
}

/// Moves bytes within the place. The two ranges may overlap.
#[derive(Drop)]
pub struct Shift {
    pub from: u64,
    pub to: u64,
    pub size: u64,
}

impl Edit for Shift {
    ghost suits = { λ s old. (s.from + s.size ≤ length old) × (s.to + s.size ≤ length old) };

    ghost relates = { λ s old new. new ≡ splice old s.to (take s.size (drop s.from old)) };

    fn edit(&self, place: &mut [u8]) {
        shift(
            place,
            self.from as usize,
            self.to as usize,
            self.size as usize,
        );
    }
}
