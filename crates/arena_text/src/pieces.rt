// What is added to a text. Each piece is written straight into its place, with no buffer.
ghost use Rattle.std.specs.Prelude.{◌≡◌, ◌+◌, ◌%◌, ◌≤◌, ℕ, List, [], ◌∷◌, length, replicate, encode_utf8, IsTrue};
ghost use Rattle.arena_chunks.specs.Memory.{is_readable};
ghost use Rattle.arena_chunks.specs.BlockCalls.{WritesBlock};

use arena_chunks::{Allocator, Block, ChunkSource, Edit};

/// Bytes that can write themselves into a place.
pub(crate) trait Piece {
    // The bytes.
    ghost bytes: { Self → List ℕ };

    /// Returns how many bytes there are.
    fn len(&self) -> u64
        ensures { result ≡ length (bytes self.now) };

    /// Writes them into a place of that length.
    fn put_in(&self, place: &mut [u8])
        requires { length place.old ≡ length (bytes self.now) }
        ensures { place.new ≡ bytes self.now };
}

// A piece as a change of a place.
#[derive(Drop)]
struct Put<'a, P> {
    piece: &'a P,
}

impl<P: Piece> Edit for Put<'_, P> {
    ghost suits = { λ e old. length old ≡ length (P.bytes e.piece.now) };

    ghost relates = { λ e old new. new ≡ P.bytes e.piece.now };

    #[inline]
    fn edit(&self, place: &mut [u8]) {
        self.piece.put_in(place);
    }
}

// Writes a piece over the bytes of a block, from an index on.
#[tactic(auto, using(crate::proofs::TextLemmas::edits))]
#[inline]
pub(crate) fn write_piece<P: Piece, C: ChunkSource>(
    a: &mut Allocator<C>,
    block: Block,
    at: u64,
    piece: &P,
)
    requires readable { IsTrue (is_readable a.old.memory.state block) }
    requires range { at + length (P.bytes piece.now) ≤ block.size }
    ensures writes { WritesBlock a.old.memory a.new.memory block at (P.bytes piece.now) }
    ensures source { a.new.source ≡ a.old.source }
{
    a.write_with(block, at, piece.len(), &Put { piece });
}

/// One byte.
#[derive(Drop)]
pub(crate) struct Byte(pub(crate) u8);

impl Piece for Byte {
    ghost bytes = { λ p. p.0 ∷ [] };

    #[inline]
    fn len(&self) -> u64 {
        1
    }

    #[inline]
    fn put_in(&self, place: &mut [u8]) {
        place[0] = self.0;
    }
}

/// A byte, `n` times.
#[derive(Drop)]
pub(crate) struct Times {
    pub(crate) byte: u8,
    pub(crate) n: u64,
}

impl Piece for Times {
    ghost bytes = { λ p. replicate p.n p.byte };

    #[inline]
    fn len(&self) -> u64 {
        self.n
    }

    #[inline]
    fn put_in(&self, place: &mut [u8]) {
        place.fill(self.byte);
    }
}

/// The bytes of a slice.
#[derive(Drop)]
pub(crate) struct Slice<'a>(pub(crate) &'a [u8]);

impl Piece for Slice<'_> {
    ghost bytes = { λ p. p.0.now };

    #[inline]
    fn len(&self) -> u64 {
        self.0.len() as u64
    }

    #[inline]
    fn put_in(&self, place: &mut [u8]) {
        place.copy_from_slice(self.0);
    }
}

/// A character as UTF-8.
#[derive(Drop)]
pub(crate) struct Utf8(pub(crate) char);

#[tactic(auto, using(crate::proofs::CharLemmas::chars))]
impl Piece for Utf8 {
    ghost bytes = { λ p. encode_utf8 p.0 };

    #[inline]
    fn len(&self) -> u64 {
        self.0.len_utf8() as u64
    }

    fn put_in(&self, place: &mut [u8]) {
        let code = self.0 as u32;
        match self.0.len_utf8() {
            1 => place[0] = code as u8,
            2 => {
                place[0] = (0xC0 + code / 0x40) as u8;
                place[1] = next(code);
            }
            3 => {
                place[0] = (0xE0 + code / 0x1000) as u8;
                place[1] = next(code / 0x40);
                place[2] = next(code);
            }
            _ => {
                place[0] = (0xF0 + code / 0x4_0000) as u8;
                place[1] = next(code / 0x1000);
                place[2] = next(code / 0x40);
                place[3] = next(code);
            }
        }
    }
}

// Returns a byte that continues a character: its mark, and six bits.
fn next(code: u32) -> u8
    ensures { result ≡ 128 + code % 64 }
{
    (0x80 + code % 0x40) as u8
}
