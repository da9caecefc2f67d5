// Signed numbers that are not 0: the bytes of the number. The bytes of 0 decode to the type's minimum.
ghost use Rattle.std.specs.Prelude.{FitsSigned, refl};
ghost use Rattle.std.specs.Int.{w8, w16, w32, w64, w128};
ghost use Rattle.arena_items.specs.laws.LayoutLaws.{plain_1, plain_2, plain_4, plain_8, plain_16};
ghost use Rattle.arena_items.specs.NumberForms.{signed_bytes, signed_of};
ghost use Rattle.arena_items.specs.NonZeroForms.{non_zero_i8, non_zero_i16, non_zero_i32, non_zero_i64, non_zero_i128, non_zero_isize};
ghost use Rattle.arena_items.specs.laws.NonZeroLaws.{not_0_back, same_i8, same_i16, same_i32, same_i64, same_i128, same_isize};

use crate::item::Item;
use std::num::{NonZeroI8, NonZeroI16, NonZeroI32, NonZeroI64, NonZeroI128, NonZeroIsize};

impl Item for NonZeroI8 {
    ghost is_value = { λ x. FitsSigned w8 x.value };

    ghost encoded = { λ x. signed_bytes w8 x.value };

    ghost decoded = { λ bs. non_zero_i8 (signed_of w8 bs) };

    ghost SIZE = { 1 };

    ghost ALIGN = { 1 };

    const SIZE: u64 = 1;

    const ALIGN: u64 = 1;

    ghost round_trip = { λ v h _. same_i8 _ v (not_0_back w8 _ v.value v.ok h) };

    ghost encoded_length = { λ _ _ _. refl };

    ghost layout = { plain_1 };

    fn known(&self) {
        let _value = self.get();
    }

    fn encode(self, out: &mut [u8]) {
        self.get().encode(out);
    }

    #[tactic(auto, using(crate::specs::laws::NonZeroLaws::same_i8))]
    fn decode(bytes: &[u8]) -> Self {
        NonZeroI8::new(i8::decode(bytes)).unwrap_or(NonZeroI8::MIN)
    }
}

impl Item for NonZeroI16 {
    ghost is_value = { λ x. FitsSigned w16 x.value };

    ghost encoded = { λ x. signed_bytes w16 x.value };

    ghost decoded = { λ bs. non_zero_i16 (signed_of w16 bs) };

    ghost SIZE = { 2 };

    ghost ALIGN = { 2 };

    const SIZE: u64 = 2;

    const ALIGN: u64 = 2;

    ghost round_trip = { λ v h _. same_i16 _ v (not_0_back w16 _ v.value v.ok h) };

    ghost encoded_length = { λ _ _ _. refl };

    ghost layout = { plain_2 };

    fn known(&self) {
        let _value = self.get();
    }

    fn encode(self, out: &mut [u8]) {
        self.get().encode(out);
    }

    #[tactic(auto, using(crate::specs::laws::NonZeroLaws::same_i16))]
    fn decode(bytes: &[u8]) -> Self {
        NonZeroI16::new(i16::decode(bytes)).unwrap_or(NonZeroI16::MIN)
    }
}

impl Item for NonZeroI32 {
    ghost is_value = { λ x. FitsSigned w32 x.value };

    ghost encoded = { λ x. signed_bytes w32 x.value };

    ghost decoded = { λ bs. non_zero_i32 (signed_of w32 bs) };

    ghost SIZE = { 4 };

    ghost ALIGN = { 4 };

    const SIZE: u64 = 4;

    const ALIGN: u64 = 4;

    ghost round_trip = { λ v h _. same_i32 _ v (not_0_back w32 _ v.value v.ok h) };

    ghost encoded_length = { λ _ _ _. refl };

    ghost layout = { plain_4 };

    fn known(&self) {
        let _value = self.get();
    }

    fn encode(self, out: &mut [u8]) {
        self.get().encode(out);
    }

    #[tactic(auto, using(crate::specs::laws::NonZeroLaws::same_i32))]
    fn decode(bytes: &[u8]) -> Self {
        NonZeroI32::new(i32::decode(bytes)).unwrap_or(NonZeroI32::MIN)
    }
}

impl Item for NonZeroI64 {
    ghost is_value = { λ x. FitsSigned w64 x.value };

    ghost encoded = { λ x. signed_bytes w64 x.value };

    ghost decoded = { λ bs. non_zero_i64 (signed_of w64 bs) };

    ghost SIZE = { 8 };

    ghost ALIGN = { 8 };

    const SIZE: u64 = 8;

    const ALIGN: u64 = 8;

    ghost round_trip = { λ v h _. same_i64 _ v (not_0_back w64 _ v.value v.ok h) };

    ghost encoded_length = { λ _ _ _. refl };

    ghost layout = { plain_8 };

    fn known(&self) {
        let _value = self.get();
    }

    fn encode(self, out: &mut [u8]) {
        self.get().encode(out);
    }

    #[tactic(auto, using(crate::specs::laws::NonZeroLaws::same_i64))]
    fn decode(bytes: &[u8]) -> Self {
        NonZeroI64::new(i64::decode(bytes)).unwrap_or(NonZeroI64::MIN)
    }
}

impl Item for NonZeroI128 {
    ghost is_value = { λ x. FitsSigned w128 x.value };

    ghost encoded = { λ x. signed_bytes w128 x.value };

    ghost decoded = { λ bs. non_zero_i128 (signed_of w128 bs) };

    ghost SIZE = { 16 };

    ghost ALIGN = { 16 };

    const SIZE: u64 = 16;

    const ALIGN: u64 = 16;

    ghost round_trip = { λ v h _. same_i128 _ v (not_0_back w128 _ v.value v.ok h) };

    ghost encoded_length = { λ _ _ _. refl };

    ghost layout = { plain_16 };

    fn known(&self) {
        let _value = self.get();
    }

    fn encode(self, out: &mut [u8]) {
        self.get().encode(out);
    }

    #[tactic(auto, using(crate::specs::laws::NonZeroLaws::same_i128))]
    fn decode(bytes: &[u8]) -> Self {
        NonZeroI128::new(i128::decode(bytes)).unwrap_or(NonZeroI128::MIN)
    }
}

impl Item for NonZeroIsize {
    ghost is_value = { λ x. FitsSigned w64 x.value };

    ghost encoded = { λ x. signed_bytes w64 x.value };

    ghost decoded = { λ bs. non_zero_isize (signed_of w64 bs) };

    ghost SIZE = { 8 };

    ghost ALIGN = { 8 };

    const SIZE: u64 = 8;

    const ALIGN: u64 = 8;

    ghost round_trip = { λ v h _. same_isize _ v (not_0_back w64 _ v.value v.ok h) };

    ghost encoded_length = { λ _ _ _. refl };

    ghost layout = { plain_8 };

    fn known(&self) {
        let _value = self.get();
    }

    fn encode(self, out: &mut [u8]) {
        self.get().encode(out);
    }

    #[tactic(auto, using(crate::specs::laws::NonZeroLaws::same_isize))]
    fn decode(bytes: &[u8]) -> Self {
        NonZeroIsize::new(isize::decode(bytes)).unwrap_or(NonZeroIsize::MIN)
    }
}
