// bool, char and ().
ghost use Rattle.std.specs.Prelude.{true, false, [], refl};
ghost use Rattle.std.specs.Int.{w32, to_le_bytes, from_le_bytes};
ghost use Rattle.std.specs.Char.{IsScalar};
ghost use Rattle.arena_items.specs.laws.LayoutLaws.{plain_0, plain_1, plain_4};
ghost use Rattle.arena_items.specs.NumberForms.{bool_bytes, bool_of, scalar_or_0};
ghost use Rattle.arena_items.specs.laws.NumberLaws.{char_back};

use crate::item::Item;

impl Item for bool {
    ghost is_value = { λ _. Unit {0} };

    ghost encoded = { bool_bytes };

    ghost decoded = { bool_of };

    ghost SIZE = { 1 };

    ghost ALIGN = { 1 };

    const SIZE: u64 = 1;

    const ALIGN: u64 = 1;

    ghost round_trip = { elim [ true ↦ λ _ _. refl | false ↦ λ _ _. refl ] };

    ghost encoded_length = { elim [ true ↦ λ _ _. refl | false ↦ λ _ _. refl ] };

    ghost layout = { plain_1 };

    fn known(&self) {}

    fn encode(self, out: &mut [u8]) {
        out[0] = self as u8;
    }

    fn decode(bytes: &[u8]) -> Self {
        bytes[0] != 0
    }
}

impl Item for char {
    ghost is_value = { IsScalar };

    ghost encoded = { to_le_bytes w32 };

    ghost decoded = { λ bs. scalar_or_0 (from_le_bytes w32 bs) };

    ghost SIZE = { 4 };

    ghost ALIGN = { 4 };

    const SIZE: u64 = 4;

    const ALIGN: u64 = 4;

    ghost round_trip = { λ v h _. char_back v h };

    ghost encoded_length = { λ _ _ _. refl };

    ghost layout = { plain_4 };

    fn known(&self) {
        let _value = *self;
    }

    fn encode(self, out: &mut [u8]) {
        (self as u32).encode(out);
    }

    fn decode(bytes: &[u8]) -> Self {
        char::from_u32(u32::decode(bytes)).unwrap_or('\0')
    }
}

impl Item for () {
    ghost is_value = { λ _. Unit {0} };

    ghost encoded = { λ _. [] };

    ghost decoded = { λ _. tt };

    ghost SIZE = { 0 };

    ghost ALIGN = { 1 };

    const SIZE: u64 = 0;

    const ALIGN: u64 = 1;

    ghost round_trip = { λ _ _ _. refl };

    ghost encoded_length = { λ _ _ _. refl };

    ghost layout = { plain_0 };

    fn known(&self) {}

    fn encode(self, _out: &mut [u8]) {}

    fn decode(_bytes: &[u8]) -> Self {}
}
