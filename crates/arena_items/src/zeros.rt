// Clearing bytes in place.
ghost use Rattle.std.specs.Prelude.{◌≡◌, length, replicate};

use arena_chunks::Edit;

/// Sets all bytes of a place to 0, however many there are.
#[derive(Clone, Copy)]
pub struct Zeros;

impl Edit for Zeros {
    ghost suits = { λ e old. Unit {0} };

    ghost relates = { λ e old new. new ≡ replicate (length old) 0 };

    #[inline]
    fn edit(&self, place: &mut [u8]) {
        place.fill(0);
    }
}
