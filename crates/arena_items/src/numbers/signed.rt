// Signed numbers: the bytes of their two's complement, the lowest first.
ghost use Rattle.std.specs.Prelude.{FitsSigned, refl};
ghost use Rattle.std.specs.Int.{w8, w16, w32, w64, w128};
ghost use Rattle.arena_items.specs.laws.LayoutLaws.{plain_1, plain_2, plain_4, plain_8, plain_16};
ghost use Rattle.arena_items.specs.NumberForms.{signed_bytes, signed_of};
ghost use Rattle.arena_items.specs.laws.NumberLaws.{signed_back};

use crate::item::Item;
use crate::numbers::bytes::array;

impl Item for i8 {
    ghost is_value = { FitsSigned w8 };

    ghost encoded = { signed_bytes w8 };

    ghost decoded = { signed_of w8 };

    ghost SIZE = { 1 };

    ghost ALIGN = { 1 };

    const SIZE: u64 = 1;

    const ALIGN: u64 = 1;

    ghost round_trip = { λ v h _. signed_back w8 v h };

    ghost encoded_length = { λ _ _ _. refl };

    ghost layout = { plain_1 };

    fn known(&self) {
        let _value = *self;
    }

    fn encode(self, out: &mut [u8]) {
        out.copy_from_slice(&self.to_le_bytes());
    }

    fn decode(bytes: &[u8]) -> Self {
        i8::from_le_bytes(array(bytes))
    }
}

impl Item for i16 {
    ghost is_value = { FitsSigned w16 };

    ghost encoded = { signed_bytes w16 };

    ghost decoded = { signed_of w16 };

    ghost SIZE = { 2 };

    ghost ALIGN = { 2 };

    const SIZE: u64 = 2;

    const ALIGN: u64 = 2;

    ghost round_trip = { λ v h _. signed_back w16 v h };

    ghost encoded_length = { λ _ _ _. refl };

    ghost layout = { plain_2 };

    fn known(&self) {
        let _value = *self;
    }

    fn encode(self, out: &mut [u8]) {
        out.copy_from_slice(&self.to_le_bytes());
    }

    fn decode(bytes: &[u8]) -> Self {
        i16::from_le_bytes(array(bytes))
    }
}

impl Item for i32 {
    ghost is_value = { FitsSigned w32 };

    ghost encoded = { signed_bytes w32 };

    ghost decoded = { signed_of w32 };

    ghost SIZE = { 4 };

    ghost ALIGN = { 4 };

    const SIZE: u64 = 4;

    const ALIGN: u64 = 4;

    ghost round_trip = { λ v h _. signed_back w32 v h };

    ghost encoded_length = { λ _ _ _. refl };

    ghost layout = { plain_4 };

    fn known(&self) {
        let _value = *self;
    }

    fn encode(self, out: &mut [u8]) {
        out.copy_from_slice(&self.to_le_bytes());
    }

    fn decode(bytes: &[u8]) -> Self {
        i32::from_le_bytes(array(bytes))
    }
}

impl Item for i64 {
    ghost is_value = { FitsSigned w64 };

    ghost encoded = { signed_bytes w64 };

    ghost decoded = { signed_of w64 };

    ghost SIZE = { 8 };

    ghost ALIGN = { 8 };

    const SIZE: u64 = 8;

    const ALIGN: u64 = 8;

    ghost round_trip = { λ v h _. signed_back w64 v h };

    ghost encoded_length = { λ _ _ _. refl };

    ghost layout = { plain_8 };

    fn known(&self) {
        let _value = *self;
    }

    fn encode(self, out: &mut [u8]) {
        out.copy_from_slice(&self.to_le_bytes());
    }

    fn decode(bytes: &[u8]) -> Self {
        i64::from_le_bytes(array(bytes))
    }
}

impl Item for i128 {
    ghost is_value = { FitsSigned w128 };

    ghost encoded = { signed_bytes w128 };

    ghost decoded = { signed_of w128 };

    ghost SIZE = { 16 };

    ghost ALIGN = { 16 };

    const SIZE: u64 = 16;

    const ALIGN: u64 = 16;

    ghost round_trip = { λ v h _. signed_back w128 v h };

    ghost encoded_length = { λ _ _ _. refl };

    ghost layout = { plain_16 };

    fn known(&self) {
        let _value = *self;
    }

    fn encode(self, out: &mut [u8]) {
        self.cast_unsigned().encode(out);
    }

    fn decode(bytes: &[u8]) -> Self {
        i128::from_le_bytes(array(bytes))
    }
}

impl Item for isize {
    ghost is_value = { FitsSigned w64 };

    ghost encoded = { signed_bytes w64 };

    ghost decoded = { signed_of w64 };

    ghost SIZE = { 8 };

    ghost ALIGN = { 8 };

    const SIZE: u64 = 8;

    const ALIGN: u64 = 8;

    ghost round_trip = { λ v h _. signed_back w64 v h };

    ghost encoded_length = { λ _ _ _. refl };

    ghost layout = { plain_8 };

    fn known(&self) {
        let _value = *self;
    }

    fn encode(self, out: &mut [u8]) {
        out.copy_from_slice(&self.to_le_bytes());
    }

    fn decode(bytes: &[u8]) -> Self {
        isize::from_le_bytes(array(bytes))
    }
}
