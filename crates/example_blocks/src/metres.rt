// A type of the caller's own that can be placed in an arena.
ghost use Rattle.std.specs.Prelude.{◌≡◌, ◌^◌, ◌<◌, ◌≤◌, List, ℕ, length, refl};
ghost use Rattle.std.specs.Int.{w32, to_le_bytes, from_le_bytes};
ghost use Rattle.arena_items.specs.laws.LayoutLaws.{plain_4};
ghost use Rattle.arena_items.specs.laws.NumberLaws.{bytes_back};

use arena_items::Item;

/// A length in whole metres.
#[derive(Clone, Copy)]
pub struct Metres {
    pub count: u32,
}

impl Item for Metres {
    ghost is_value = { λ m. m.count < 2 ^ 32 };

    ghost encoded = { λ m. to_le_bytes w32 m.count };

    ghost decoded = { λ bytes. record { count = from_le_bytes w32 bytes } };

    ghost SIZE = { 4 };

    ghost ALIGN = { 4 };

    const SIZE: u64 = 4;

    const ALIGN: u64 = 4;

    ghost round_trip = { λ v h s. λ i. record { count = bytes_back 3 v.count h i } };

    ghost encoded_length = { λ v h s. refl };

    ghost layout = { plain_4 };

    fn known(&self) {
        let _count = self.count;
    }

    fn encode(self, out: &mut [u8]) {
        self.count.encode(out);
    }

    fn decode(bytes: &[u8]) -> Self {
        Metres {
            count: u32::decode(bytes),
        }
    }
}
