// Unsigned numbers: their bytes, the lowest first.
ghost use Rattle.std.specs.Prelude.{◌^◌, ◌<◌, [], ◌∷◌, slice_index, refl};
ghost use Rattle.std.specs.Int.{w16, w32, w64, w128, to_le_bytes, from_le_bytes};
ghost use Rattle.arena_items.specs.laws.LayoutLaws.{plain_1, plain_2, plain_4, plain_8, plain_16};
ghost use Rattle.arena_items.specs.laws.NumberLaws.{bytes_back};

use crate::item::Item;
use crate::numbers::bytes::array;

// LLVM doesn't merge the byte stores of 128 bits into one, but does so for each half.
const HALF: u128 = 0x1_0000_0000_0000_0000;

impl Item for u8 {
    ghost is_value = { λ x. x < 2 ^ 8 };

    ghost encoded = { λ x. x ∷ [] };

    ghost decoded = { λ bs. slice_index bs 0 };

    ghost SIZE = { 1 };

    ghost ALIGN = { 1 };

    const SIZE: u64 = 1;

    const ALIGN: u64 = 1;

    ghost round_trip = { λ _ _ _. refl };

    ghost encoded_length = { λ _ _ _. refl };

    ghost layout = { plain_1 };

    fn known(&self) {
        let _value = *self;
    }

    fn encode(self, out: &mut [u8]) {
        out[0] = self;
    }

    #[tactic(auto, using(crate::proofs::PlacingLemmas::flat_map_bytes))]
    fn encode_all(values: &[Self], out: &mut [u8]) {
        out.copy_from_slice(values);
    }

    fn decode(bytes: &[u8]) -> Self {
        bytes[0]
    }
}

impl Item for u16 {
    ghost is_value = { λ x. x < 2 ^ 16 };

    ghost encoded = { to_le_bytes w16 };

    ghost decoded = { from_le_bytes w16 };

    ghost SIZE = { 2 };

    ghost ALIGN = { 2 };

    const SIZE: u64 = 2;

    const ALIGN: u64 = 2;

    ghost round_trip = { λ v h _. bytes_back 1 v h };

    ghost encoded_length = { λ _ _ _. refl };

    ghost layout = { plain_2 };

    fn known(&self) {
        let _value = *self;
    }

    fn encode(self, out: &mut [u8]) {
        out.copy_from_slice(&self.to_le_bytes());
    }

    fn decode(bytes: &[u8]) -> Self {
        u16::from_le_bytes(array(bytes))
    }
}

impl Item for u32 {
    ghost is_value = { λ x. x < 2 ^ 32 };

    ghost encoded = { to_le_bytes w32 };

    ghost decoded = { from_le_bytes w32 };

    ghost SIZE = { 4 };

    ghost ALIGN = { 4 };

    const SIZE: u64 = 4;

    const ALIGN: u64 = 4;

    ghost round_trip = { λ v h _. bytes_back 3 v h };

    ghost encoded_length = { λ _ _ _. refl };

    ghost layout = { plain_4 };

    fn known(&self) {
        let _value = *self;
    }

    fn encode(self, out: &mut [u8]) {
        out.copy_from_slice(&self.to_le_bytes());
    }

    fn decode(bytes: &[u8]) -> Self {
        u32::from_le_bytes(array(bytes))
    }
}

impl Item for u64 {
    ghost is_value = { λ x. x < 2 ^ 64 };

    ghost encoded = { to_le_bytes w64 };

    ghost decoded = { from_le_bytes w64 };

    ghost SIZE = { 8 };

    ghost ALIGN = { 8 };

    const SIZE: u64 = 8;

    const ALIGN: u64 = 8;

    ghost round_trip = { λ v h _. bytes_back 7 v h };

    ghost encoded_length = { λ _ _ _. refl };

    ghost layout = { plain_8 };

    fn known(&self) {
        let _value = *self;
    }

    fn encode(self, out: &mut [u8]) {
        out.copy_from_slice(&self.to_le_bytes());
    }

    fn decode(bytes: &[u8]) -> Self {
        u64::from_le_bytes(array(bytes))
    }
}

impl Item for u128 {
    ghost is_value = { λ x. x < 2 ^ 128 };

    ghost encoded = { to_le_bytes w128 };

    ghost decoded = { from_le_bytes w128 };

    ghost SIZE = { 16 };

    ghost ALIGN = { 16 };

    const SIZE: u64 = 16;

    const ALIGN: u64 = 16;

    ghost round_trip = { λ v h _. bytes_back 15 v h };

    ghost encoded_length = { λ _ _ _. refl };

    ghost layout = { plain_16 };

    fn known(&self) {
        let _value = *self;
    }

    #[tactic(auto, using(crate::specs::laws::NumberLaws::halves))]
    fn encode(self, out: &mut [u8]) {
        let (low, high) = out.split_at_mut(8);
        ((self % HALF) as u64).encode(low);
        ((self / HALF) as u64).encode(high);
    }

    fn decode(bytes: &[u8]) -> Self {
        u128::from_le_bytes(array(bytes))
    }
}

impl Item for usize {
    ghost is_value = { λ x. x < 2 ^ 64 };

    ghost encoded = { to_le_bytes w64 };

    ghost decoded = { from_le_bytes w64 };

    ghost SIZE = { 8 };

    ghost ALIGN = { 8 };

    const SIZE: u64 = 8;

    const ALIGN: u64 = 8;

    ghost round_trip = { λ v h _. bytes_back 7 v h };

    ghost encoded_length = { λ _ _ _. refl };

    ghost layout = { plain_8 };

    fn known(&self) {
        let _value = *self;
    }

    fn encode(self, out: &mut [u8]) {
        out.copy_from_slice(&self.to_le_bytes());
    }

    fn decode(bytes: &[u8]) -> Self {
        usize::from_le_bytes(array(bytes))
    }
}
