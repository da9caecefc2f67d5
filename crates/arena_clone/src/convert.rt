// Conversions into values of an arena.
ghost use Rattle.std.specs.Prelude.{◌≡◌, ◌^◌, ◌≤◌, Result, Ok, length, string_bytes};
ghost use Rattle.arena_chunks.specs.Source.{View};
ghost use Rattle.arena_vec.specs.Storage.{Makes};
ghost use Rattle.arena_items.specs.declared.room.AllocError.{AllocError as Refusal};
ghost use Rattle.arena_clone.specs.Placing.{Boxes, MayBox, PlacesText};

use crate::blocks::place;
use arena_chunks::{Allocator, ChunkSource, Str};
use arena_items::{Box, Grown, Item};
use arena_kinds::place_box;
use arena_vec::Vec;

/// A type that is made from another in an arena.
pub trait FromIn<T>: Sized {
    // What is required of the types.
    ghost is_small: { Type 0 };

    ghost converts: { View → View → T → Result Self Refusal → Type 0 };

    /// Makes a value of this type from one of another.
    ///
    /// # Errors
    ///
    /// As for the arena's `alloc_layout`, and `CapacityOverflow` for an array of more than 4,294,967,295 values or
    /// bytes. Nothing changes.
    fn from_in<C: ChunkSource>(value: T, a: &mut Allocator<C>) -> Grown<Self>
        requires { is_small }
        ensures { converts a.old a.new value result };
}

/// A value from which one of another type is made in an arena. Each `FromIn` implements it.
pub trait IntoIn<T>: Sized {
    // What is required of the types.
    ghost is_small: { Type 0 };

    ghost converts: { View → View → Self → Result T Refusal → Type 0 };

    /// Makes the value of the other type.
    ///
    /// # Errors
    ///
    /// As for `from_in`.
    fn into_in<C: ChunkSource>(self, a: &mut Allocator<C>) -> Grown<T>
        requires { is_small }
        ensures { converts a.old a.new self result };
}

impl<T, U: FromIn<T>> IntoIn<U> for T {
    ghost is_small = { U.is_small };

    ghost converts = { U.converts };

    fn into_in<C: ChunkSource>(self, a: &mut Allocator<C>) -> Grown<U> {
        U::from_in(self, a)
    }
}

impl<T> FromIn<T> for T {
    ghost is_small = { Unit {0} };

    ghost converts = { λ old new value result. (result ≡ Ok value) × (new ≡ old) };

    fn from_in<C: ChunkSource>(value: T, _a: &mut Allocator<C>) -> Grown<Self> {
        Ok(value)
    }
}

impl FromIn<String> for Str {
    ghost is_small = { Unit {0} };

    ghost converts = { λ old new value result. PlacesText old new (string_bytes value) result };

    fn from_in<C: ChunkSource>(value: String, a: &mut Allocator<C>) -> Grown<Self> {
        let bytes = value.as_bytes();
        let block = place(a, bytes.len() as u64, 1)?;
        a.write(block, 0, bytes);
        Ok(Str { block })
    }
}

impl<T: Item> FromIn<T> for Box<T> {
    ghost is_small = { T.SIZE ≤ 2 ^ 24 };

    ghost converts = { Boxes T.Item };

    fn from_in<C: ChunkSource>(value: T, a: &mut Allocator<C>) -> Grown<Self> {
        place_box(a, value)
    }
}

impl<T: Item> FromIn<Option<T>> for Option<Box<T>> {
    ghost is_small = { T.SIZE ≤ 2 ^ 24 };

    ghost converts = { MayBox T.Item };

    fn from_in<C: ChunkSource>(value: Option<T>, a: &mut Allocator<C>) -> Grown<Self> {
        match value {
            Some(value) => {
                let boxed = place_box(a, value)?;
                Ok(Some(boxed))
            }
            None => Ok(None),
        }
    }
}

impl<T: Item, const N: usize> FromIn<[T; N]> for Vec<T> {
    ghost is_small = { T.SIZE ≤ 2 ^ 24 };

    ghost converts = { λ old new values result. Makes T.Item (λ v. v.raw) old new (length values) values result };

    fn from_in<C: ChunkSource>(value: [T; N], a: &mut Allocator<C>) -> Grown<Self> {
        Vec::from_array_in(value, a)
    }
}
