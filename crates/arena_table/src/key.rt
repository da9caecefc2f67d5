// Keys, and their contents.
ghost use Rattle.std.specs.Prelude.{◌≡◌, ◌≤◌, IsTrue};
ghost use Rattle.arena_chunks.specs.Memory.{is_readable};
ghost use Rattle.arena_table.specs.Contents.{Key, whole_key, text_key, content_in};

use arena_chunks::{Allocator, ChunkSource, Str};
use arena_items::Item;

/// A key of a map. Two keys are the same if their contents are equal.
pub trait ArenaKey: Item {
    // The block of a key's text, and the key's content, given the bytes of that block.
    ghost key: { Key Self };

    /// Returns the content: the bytes of the key's text, or bytes that it writes to the front of `room`.
    fn content<'x, C: ChunkSource>(
        &'x self,
        a: &'x Allocator<C>,
        room: &'x mut [u8; 16],
    ) -> &'x [u8]
        requires { IsTrue (is_readable a.now.memory.state (key.text self.now)) }
        ensures { result.now ≡ content_in key a.now.memory self.now };
}

// The byte form of a value of at most sixteen bytes.
#[inline]
fn encoded_in<T: Item>(value: T, room: &mut [u8; 16]) -> &[u8]
    requires { T.SIZE ≤ 16 }
    ensures { result.now ≡ T.encoded value }
{
    let part = &mut room[..T::SIZE as usize];
    value.encode(part);
    part
}

impl ArenaKey for Str {
    ghost key = { text_key (λ s. s.block) };

    #[inline]
    fn content<'x, C: ChunkSource>(
        &'x self,
        a: &'x Allocator<C>,
        _room: &'x mut [u8; 16],
    ) -> &'x [u8] {
        a.read(self.block)
    }
}

impl ArenaKey for u8 {
    ghost key = { whole_key ⟦<u8 as Item>⟧ };

    #[inline]
    fn content<'x, C: ChunkSource>(
        &'x self,
        _a: &'x Allocator<C>,
        room: &'x mut [u8; 16],
    ) -> &'x [u8] {
        encoded_in(*self, room)
    }
}

impl ArenaKey for u16 {
    ghost key = { whole_key ⟦<u16 as Item>⟧ };

    #[inline]
    fn content<'x, C: ChunkSource>(
        &'x self,
        _a: &'x Allocator<C>,
        room: &'x mut [u8; 16],
    ) -> &'x [u8] {
        encoded_in(*self, room)
    }
}

impl ArenaKey for u32 {
    ghost key = { whole_key ⟦<u32 as Item>⟧ };

    #[inline]
    fn content<'x, C: ChunkSource>(
        &'x self,
        _a: &'x Allocator<C>,
        room: &'x mut [u8; 16],
    ) -> &'x [u8] {
        encoded_in(*self, room)
    }
}

impl ArenaKey for u64 {
    ghost key = { whole_key ⟦<u64 as Item>⟧ };

    #[inline]
    fn content<'x, C: ChunkSource>(
        &'x self,
        _a: &'x Allocator<C>,
        room: &'x mut [u8; 16],
    ) -> &'x [u8] {
        encoded_in(*self, room)
    }
}

impl ArenaKey for u128 {
    ghost key = { whole_key ⟦<u128 as Item>⟧ };

    #[inline]
    fn content<'x, C: ChunkSource>(
        &'x self,
        _a: &'x Allocator<C>,
        room: &'x mut [u8; 16],
    ) -> &'x [u8] {
        encoded_in(*self, room)
    }
}

impl ArenaKey for usize {
    ghost key = { whole_key ⟦<usize as Item>⟧ };

    #[inline]
    fn content<'x, C: ChunkSource>(
        &'x self,
        _a: &'x Allocator<C>,
        room: &'x mut [u8; 16],
    ) -> &'x [u8] {
        encoded_in(*self, room)
    }
}

impl ArenaKey for i8 {
    ghost key = { whole_key ⟦<i8 as Item>⟧ };

    #[inline]
    fn content<'x, C: ChunkSource>(
        &'x self,
        _a: &'x Allocator<C>,
        room: &'x mut [u8; 16],
    ) -> &'x [u8] {
        encoded_in(*self, room)
    }
}

impl ArenaKey for i16 {
    ghost key = { whole_key ⟦<i16 as Item>⟧ };

    #[inline]
    fn content<'x, C: ChunkSource>(
        &'x self,
        _a: &'x Allocator<C>,
        room: &'x mut [u8; 16],
    ) -> &'x [u8] {
        encoded_in(*self, room)
    }
}

impl ArenaKey for i32 {
    ghost key = { whole_key ⟦<i32 as Item>⟧ };

    #[inline]
    fn content<'x, C: ChunkSource>(
        &'x self,
        _a: &'x Allocator<C>,
        room: &'x mut [u8; 16],
    ) -> &'x [u8] {
        encoded_in(*self, room)
    }
}

impl ArenaKey for i64 {
    ghost key = { whole_key ⟦<i64 as Item>⟧ };

    #[inline]
    fn content<'x, C: ChunkSource>(
        &'x self,
        _a: &'x Allocator<C>,
        room: &'x mut [u8; 16],
    ) -> &'x [u8] {
        encoded_in(*self, room)
    }
}

impl ArenaKey for i128 {
    ghost key = { whole_key ⟦<i128 as Item>⟧ };

    #[inline]
    fn content<'x, C: ChunkSource>(
        &'x self,
        _a: &'x Allocator<C>,
        room: &'x mut [u8; 16],
    ) -> &'x [u8] {
        encoded_in(*self, room)
    }
}

impl ArenaKey for isize {
    ghost key = { whole_key ⟦<isize as Item>⟧ };

    #[inline]
    fn content<'x, C: ChunkSource>(
        &'x self,
        _a: &'x Allocator<C>,
        room: &'x mut [u8; 16],
    ) -> &'x [u8] {
        encoded_in(*self, room)
    }
}

impl ArenaKey for bool {
    ghost key = { whole_key ⟦<bool as Item>⟧ };

    #[inline]
    fn content<'x, C: ChunkSource>(
        &'x self,
        _a: &'x Allocator<C>,
        room: &'x mut [u8; 16],
    ) -> &'x [u8] {
        encoded_in(*self, room)
    }
}

impl ArenaKey for char {
    ghost key = { whole_key ⟦<char as Item>⟧ };

    #[inline]
    fn content<'x, C: ChunkSource>(
        &'x self,
        _a: &'x Allocator<C>,
        room: &'x mut [u8; 16],
    ) -> &'x [u8] {
        encoded_in(*self, room)
    }
}
