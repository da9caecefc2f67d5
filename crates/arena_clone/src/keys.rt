// Keys of maps that can be copied.
ghost use Rattle.arena_clone.specs.laws.KeyLaws.{text_keeps, whole_keeps};
ghost use Rattle.arena_clone.specs.MapKind.{KeepsContent};

use crate::clone_in::CloneIn;
use arena_chunks::Str;
use arena_hash::ArenaKey;
use arena_items::Item;

/// A key of a map that can be copied: a copy has the same content.
pub trait CloneKey: CloneIn + ArenaKey {
    ghost keeps: { KeepsContent Self.ArenaKey.key Self.CloneIn.kind };
}

impl CloneKey for Str {
    ghost keeps = { text_keeps };
}

impl CloneKey for u8 {
    ghost keeps = { whole_keeps ⟦<u8 as Item>⟧ };
}

impl CloneKey for u16 {
    ghost keeps = { whole_keeps ⟦<u16 as Item>⟧ };
}

impl CloneKey for u32 {
    ghost keeps = { whole_keeps ⟦<u32 as Item>⟧ };
}

impl CloneKey for u64 {
    ghost keeps = { whole_keeps ⟦<u64 as Item>⟧ };
}

impl CloneKey for u128 {
    ghost keeps = { whole_keeps ⟦<u128 as Item>⟧ };
}

impl CloneKey for usize {
    ghost keeps = { whole_keeps ⟦<usize as Item>⟧ };
}

impl CloneKey for i8 {
    ghost keeps = { whole_keeps ⟦<i8 as Item>⟧ };
}

impl CloneKey for i16 {
    ghost keeps = { whole_keeps ⟦<i16 as Item>⟧ };
}

impl CloneKey for i32 {
    ghost keeps = { whole_keeps ⟦<i32 as Item>⟧ };
}

impl CloneKey for i64 {
    ghost keeps = { whole_keeps ⟦<i64 as Item>⟧ };
}

impl CloneKey for i128 {
    ghost keeps = { whole_keeps ⟦<i128 as Item>⟧ };
}

impl CloneKey for isize {
    ghost keeps = { whole_keeps ⟦<isize as Item>⟧ };
}

impl CloneKey for bool {
    ghost keeps = { whole_keeps ⟦<bool as Item>⟧ };
}

impl CloneKey for char {
    ghost keeps = { whole_keeps ⟦<char as Item>⟧ };
}
