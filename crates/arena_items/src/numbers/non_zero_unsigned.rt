// Unsigned numbers that are not 0: the bytes of the number. The bytes of 0 decode to 1.
ghost use Rattle.std.specs.Prelude.{◌^◌, ◌<◌, [], ◌∷◌, slice_index, refl};
ghost use Rattle.std.specs.Int.{w16, w32, w64, w128, to_le_bytes, from_le_bytes};
ghost use Rattle.arena_items.specs.laws.LayoutLaws.{plain_1, plain_2, plain_4, plain_8, plain_16};
ghost use Rattle.arena_items.specs.NonZeroForms.{non_zero_u8, non_zero_u16, non_zero_u32, non_zero_u64, non_zero_u128, non_zero_usize};
ghost use Rattle.arena_items.specs.laws.NonZeroLaws.{above_0_back, max_back, same_u8, same_u16, same_u32, same_u64, same_u128, same_usize};

use crate::item::Item;
use std::num::{NonZeroU8, NonZeroU16, NonZeroU32, NonZeroU64, NonZeroU128, NonZeroUsize};

impl Item for NonZeroU8 {
    ghost is_value = { λ x. x.value < 2 ^ 8 };

    ghost encoded = { λ x. x.value ∷ [] };

    ghost decoded = { λ bs. non_zero_u8 (slice_index bs 0) };

    ghost SIZE = { 1 };

    ghost ALIGN = { 1 };

    const SIZE: u64 = 1;

    const ALIGN: u64 = 1;

    ghost round_trip = { λ v _ _. same_u8 _ v (max_back v.value v.ok) };

    ghost encoded_length = { λ _ _ _. refl };

    ghost layout = { plain_1 };

    fn known(&self) {
        let _value = self.get();
    }

    fn encode(self, out: &mut [u8]) {
        self.get().encode(out);
    }

    #[tactic(auto, using(crate::specs::laws::NonZeroLaws::same_u8))]
    fn decode(bytes: &[u8]) -> Self {
        NonZeroU8::new(u8::decode(bytes)).unwrap_or(NonZeroU8::MIN)
    }
}

impl Item for NonZeroU16 {
    ghost is_value = { λ x. x.value < 2 ^ 16 };

    ghost encoded = { λ x. to_le_bytes w16 x.value };

    ghost decoded = { λ bs. non_zero_u16 (from_le_bytes w16 bs) };

    ghost SIZE = { 2 };

    ghost ALIGN = { 2 };

    const SIZE: u64 = 2;

    const ALIGN: u64 = 2;

    ghost round_trip = { λ v h _. same_u16 _ v (above_0_back 1 v.value v.ok h) };

    ghost encoded_length = { λ _ _ _. refl };

    ghost layout = { plain_2 };

    fn known(&self) {
        let _value = self.get();
    }

    fn encode(self, out: &mut [u8]) {
        self.get().encode(out);
    }

    #[tactic(auto, using(crate::specs::laws::NonZeroLaws::same_u16))]
    fn decode(bytes: &[u8]) -> Self {
        NonZeroU16::new(u16::decode(bytes)).unwrap_or(NonZeroU16::MIN)
    }
}

impl Item for NonZeroU32 {
    ghost is_value = { λ x. x.value < 2 ^ 32 };

    ghost encoded = { λ x. to_le_bytes w32 x.value };

    ghost decoded = { λ bs. non_zero_u32 (from_le_bytes w32 bs) };

    ghost SIZE = { 4 };

    ghost ALIGN = { 4 };

    const SIZE: u64 = 4;

    const ALIGN: u64 = 4;

    ghost round_trip = { λ v h _. same_u32 _ v (above_0_back 3 v.value v.ok h) };

    ghost encoded_length = { λ _ _ _. refl };

    ghost layout = { plain_4 };

    fn known(&self) {
        let _value = self.get();
    }

    fn encode(self, out: &mut [u8]) {
        self.get().encode(out);
    }

    #[tactic(auto, using(crate::specs::laws::NonZeroLaws::same_u32))]
    fn decode(bytes: &[u8]) -> Self {
        NonZeroU32::new(u32::decode(bytes)).unwrap_or(NonZeroU32::MIN)
    }
}

impl Item for NonZeroU64 {
    ghost is_value = { λ x. x.value < 2 ^ 64 };

    ghost encoded = { λ x. to_le_bytes w64 x.value };

    ghost decoded = { λ bs. non_zero_u64 (from_le_bytes w64 bs) };

    ghost SIZE = { 8 };

    ghost ALIGN = { 8 };

    const SIZE: u64 = 8;

    const ALIGN: u64 = 8;

    ghost round_trip = { λ v h _. same_u64 _ v (above_0_back 7 v.value v.ok h) };

    ghost encoded_length = { λ _ _ _. refl };

    ghost layout = { plain_8 };

    fn known(&self) {
        let _value = self.get();
    }

    fn encode(self, out: &mut [u8]) {
        self.get().encode(out);
    }

    #[tactic(auto, using(crate::specs::laws::NonZeroLaws::same_u64))]
    fn decode(bytes: &[u8]) -> Self {
        NonZeroU64::new(u64::decode(bytes)).unwrap_or(NonZeroU64::MIN)
    }
}

impl Item for NonZeroU128 {
    ghost is_value = { λ x. x.value < 2 ^ 128 };

    ghost encoded = { λ x. to_le_bytes w128 x.value };

    ghost decoded = { λ bs. non_zero_u128 (from_le_bytes w128 bs) };

    ghost SIZE = { 16 };

    ghost ALIGN = { 16 };

    const SIZE: u64 = 16;

    const ALIGN: u64 = 16;

    ghost round_trip = { λ v h _. same_u128 _ v (above_0_back 15 v.value v.ok h) };

    ghost encoded_length = { λ _ _ _. refl };

    ghost layout = { plain_16 };

    fn known(&self) {
        let _value = self.get();
    }

    fn encode(self, out: &mut [u8]) {
        self.get().encode(out);
    }

    #[tactic(auto, using(crate::specs::laws::NonZeroLaws::same_u128))]
    fn decode(bytes: &[u8]) -> Self {
        NonZeroU128::new(u128::decode(bytes)).unwrap_or(NonZeroU128::MIN)
    }
}

impl Item for NonZeroUsize {
    ghost is_value = { λ x. x.value < 2 ^ 64 };

    ghost encoded = { λ x. to_le_bytes w64 x.value };

    ghost decoded = { λ bs. non_zero_usize (from_le_bytes w64 bs) };

    ghost SIZE = { 8 };

    ghost ALIGN = { 8 };

    const SIZE: u64 = 8;

    const ALIGN: u64 = 8;

    ghost round_trip = { λ v h _. same_usize _ v (above_0_back 7 v.value v.ok h) };

    ghost encoded_length = { λ _ _ _. refl };

    ghost layout = { plain_8 };

    fn known(&self) {
        let _value = self.get();
    }

    fn encode(self, out: &mut [u8]) {
        self.get().encode(out);
    }

    #[tactic(auto, using(crate::specs::laws::NonZeroLaws::same_usize))]
    fn decode(bytes: &[u8]) -> Self {
        NonZeroUsize::new(usize::decode(bytes)).unwrap_or(NonZeroUsize::MIN)
    }
}
