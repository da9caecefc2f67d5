// Walks over the used parts of an arena's chunks.
ghost use Rattle.std.specs.Prelude.{◌≡◌, ◌^◌, ◌<◌, ◌≤◌, ⊤, [], length, map, take, IfSome, Some};
ghost use Rattle.std.specs.Borrow.{sem};
ghost use Rattle.std.specs.List.{All};
ghost use Rattle.std.specs.Iterator.{YieldsFirst, YieldsFirstRef, UpTo, at_most, item_count};
ghost use Rattle.std.specs.Iterator.SizeHint.{IsWithinCount};
ghost use Rattle.arena_store.specs.Stored.{IsOrdered, all_chunks, chunks_left, stored_chunk};

use crate::arena::Arena;
use arena_store::chunk::{NOWHERE, StoredChunk};
use arena_store::table::{Table, Used};
use std::iter::FusedIterator;
use std::marker::Model;

// The chunks that remain of a walk, newest first.
#[derive(Drop)]
struct ChunksLeft<'a> {
    newest: Option<&'a StoredChunk>,
    older: &'a Table,
    // How many of the older ones remain.
    left: usize,
    ghost within: { left ≤ length older.now.items },
    ghost bound: { left < 2 ^ 63 },
    ghost ordered: { All IsOrdered (chunks_left newest older.now.items) },
}

impl<'a> ChunksLeft<'a> {
    ghost use Rattle.arena_core.specs.Walks.{all_left, YieldsUsed};

    fn of(newest: &'a StoredChunk, older: &'a Table) -> ChunksLeft<'a>
        requires ordered { All IsOrdered (all_chunks newest.now older.now.items) }
        requires none { newest.now.base ≡ 16 → older.now.items ≡ [] }
        ensures { all_left result ≡ all_chunks newest.now older.now.items }
    {
        let left = older.len();
        if newest.base == NOWHERE {
            return ChunksLeft {
                newest: None,
                older,
                left,
            };
        }
        ChunksLeft {
            newest: Some(newest),
            older,
            left,
        }
    }

    fn next(&mut self) -> Option<Used<'a>>
        ensures { YieldsUsed self.old result self.new }
    {
        if let Some(newest) = self.newest.take() {
            let from = (newest.cursor - newest.base) as usize;
            let len = newest.bytes.len() - from;
            return Some(Used {
                base: newest.base,
                start: newest.cursor,
                bytes: newest.bytes.part(from, len),
            });
        }
        if self.left == 0 {
            return None;
        }
        self.left -= 1;
        Some(self.older.used_part(self.left))
    }

    fn len(&self) -> usize
        ensures { result ≡ length (all_left self.now) }
    {
        match self.newest {
            Some(_) => self.left + 1,
            None => self.left,
        }
    }
}

/// An iterator over the bytes of the chunks' used parts, newest first. Contracts see what remains as `parts_left`.
// It has no model: with one, the arena's final value wouldn't be known.
#[derive(Drop)]
pub struct ChunkIter<'a, const MIN_ALIGN: usize> {
    left: ChunksLeft<'a>,
}

impl<'a, const MIN_ALIGN: usize> Iterator for ChunkIter<'a, MIN_ALIGN> {
    ghost use Rattle.arena_core.specs.Walks.{parts_left};

    type Item = &'a [u8];

    ghost next_gives = { YieldsFirstRef parts_left };

    ghost remaining = { item_count parts_left };

    fn next(&mut self) -> Option<&'a [u8]> {
        let used = self.left.next()?;
        Some(used.bytes)
    }

    fn size_hint(&self) -> (usize, Option<usize>)
        ensures lower { IsWithinCount result.0 (at_most (length (parts_left self.now))) }
        ensures upper { IfSome result.1 (UpTo (at_most (length (parts_left self.now)))) }
        ensures exact { result ≡ (length (parts_left self.now), Some (length (parts_left self.now))) }
    {
        let len = self.len();
        (len, Some(len))
    }
}

impl<'a, const MIN_ALIGN: usize> ExactSizeIterator for ChunkIter<'a, MIN_ALIGN> {
    fn len(&self) -> usize {
        self.left.len()
    }
}

impl<'a, const MIN_ALIGN: usize> FusedIterator for ChunkIter<'a, MIN_ALIGN> {}

/// An iterator over the chunks' used parts, as cursor and length, newest first. Contracts see the list of what remains.
#[derive(Drop)]
pub struct ChunkRawIter<'a, const MIN_ALIGN: usize> {
    left: ChunksLeft<'a>,
}

impl<'a, const MIN_ALIGN: usize> Model for ChunkRawIter<'a, MIN_ALIGN> {
    ghost use Rattle.std.specs.Prelude.{ℕ, List, map};

    ghost Value = { List (ℕ × ℕ) };

    ghost use Rattle.arena_core.specs.Walks.{all_left, used_range};

    ghost view = { λ it. map used_range (all_left it.left) };
}

impl<'a, const MIN_ALIGN: usize> Iterator for ChunkRawIter<'a, MIN_ALIGN> {
    type Item = (u64, u64);

    ghost next_gives = { YieldsFirst (λ rest. rest) };

    ghost remaining = { item_count (λ rest. rest) };

    fn next(&mut self) -> Option<(u64, u64)> {
        let used = self.left.next()?;
        Some((used.start, used.bytes.len() as u64))
    }

    fn size_hint(&self) -> (usize, Option<usize>)
        ensures lower { IsWithinCount result.0 (at_most (length self.now)) }
        ensures upper { IfSome result.1 (UpTo (at_most (length self.now))) }
        ensures exact { result ≡ (length self.now, Some (length self.now)) }
    {
        let len = self.len();
        (len, Some(len))
    }
}

impl<'a, const MIN_ALIGN: usize> ExactSizeIterator for ChunkRawIter<'a, MIN_ALIGN> {
    fn len(&self) -> usize {
        self.left.len()
    }
}

impl<'a, const MIN_ALIGN: usize> FusedIterator for ChunkRawIter<'a, MIN_ALIGN> {}

/// A chunk: its base, its size in bytes, and its cursor, from which on bytes are used.
#[derive(Clone, Copy, PartialEq, Eq, Debug)]
pub struct Chunk {
    pub base: u64,
    pub size: u64,
    pub cursor: u64,
}

/// An iterator over an arena's chunks, newest first. Contracts see the list of what remains.
#[derive(Drop)]
pub struct Chunks<'a, const MIN_ALIGN: usize> {
    left: ChunksLeft<'a>,
}

impl<'a, const MIN_ALIGN: usize> Model for Chunks<'a, MIN_ALIGN> {
    ghost use Rattle.std.specs.Prelude.{List, map};
    ghost use Rattle.arena_core.specs.declared.iter.Chunk.{Chunk};
    ghost use Rattle.arena_store.specs.Stored.{stored_chunk};
    ghost use Rattle.arena_core.specs.Walks.{all_left, told_chunk};

    ghost Value = { List Chunk };

    ghost view = { λ it. map (λ c. told_chunk (stored_chunk c)) (all_left it.left) };
}

impl<'a, const MIN_ALIGN: usize> Iterator for Chunks<'a, MIN_ALIGN> {
    type Item = Chunk;

    ghost next_gives = { YieldsFirst (λ rest. rest) };

    ghost remaining = { item_count (λ rest. rest) };

    fn next(&mut self) -> Option<Chunk> {
        let used = self.left.next()?;
        Some(Chunk {
            base: used.base,
            size: used.start - used.base + used.bytes.len() as u64,
            cursor: used.start,
        })
    }
}

impl<const MIN_ALIGN: usize> Arena<MIN_ALIGN> {
    ghost use denote.Follow.{follows_so};
    ghost use mathlib.Core.Option.{none};
    ghost use Rattle.arena_store.specs.Memory.{used_parts, used_ranges};
    ghost use Rattle.arena_core.specs.Walks.{used_part, used_range, all_left, parts_left, told_chunk};
    ghost use Rattle.arena_core.specs.contracts.arena.Arena.{the_row};

    /// Returns an iterator over the bytes of the chunks' used parts, newest first, each once. The arena doesn't change.
    pub fn iter_allocated_chunks(&mut self) -> ChunkIter<'_, MIN_ALIGN>
        ensures* after { sem 𝓛 (follows_so (the_row MIN_ALIGN.row)
            (the_row MIN_ALIGN.row) self.entry.ghost_name none (λ _ _. ⊤) (λ last. last ≡ self.old)) }
        ensures parts { parts_left result ≡ used_parts self.old }
    {
        ChunkIter { left: self.walk() }
    }

    /// Returns an iterator over the addresses and lengths of the chunks' used parts, newest first, each once.
    pub fn iter_allocated_chunks_raw(&self) -> ChunkRawIter<'_, MIN_ALIGN>
        ensures { result ≡ used_ranges self.now.state }
    {
        ChunkRawIter { left: self.walk() }
    }

    /// Returns an iterator over the chunks, newest first, each once.
    pub fn iter_chunks(&self) -> Chunks<'_, MIN_ALIGN>
        ensures { result ≡ map told_chunk self.now.state.chunks }
    {
        Chunks { left: self.walk() }
    }

    // Returns a walk over all chunks.
    fn walk(&self) -> ChunksLeft<'_>
        ensures parts { map used_part (all_left result) ≡ used_parts self.now }
        ensures ranges { map used_range (all_left result) ≡ used_ranges self.now.state }
        ensures chunks { map (λ c. told_chunk (stored_chunk c)) (all_left result) ≡ map told_chunk self.now.state.chunks }
    {
        ChunksLeft::of(&self.newest, &self.older)
    }
}
