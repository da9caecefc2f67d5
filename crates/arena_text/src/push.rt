// Adding to a text.
ghost use Rattle.std.specs.Prelude.{◌≡◌, ◌+◌, ◌<◌, ◌≤◌, ◌++◌, [], ◌∷◌, length, replicate, encode_utf8, OnOk};
ghost use Rattle.arena_text.specs.Growth.{amortised_growth};
ghost use Rattle.arena_text.specs.Builders.{IsBuilderIn, builder_bytes};
ghost use Rattle.arena_text.specs.Changes.{Grows};

use crate::pieces::{Byte, Piece, Slice, Times, Utf8, write_piece};
use crate::room::roomy;
use crate::text::StringBuilder;
use arena_chunks::{Allocator, ChunkSource};
use arena_items::Grown;

#[tactic(auto, using(crate::proofs::TextLemmas::text_laws))]
impl StringBuilder {
    /// Makes room for `additional` more bytes. If there is less, the capacity grows by the greatest of `additional`,
    /// the capacity and 8, or to what is required if that would exceed 2^63 - 1.
    ///
    /// # Errors
    ///
    /// `CapacityOverflow` if what is required exceeds 2^63 - 1, and otherwise as for the arena's `alloc_layout` or
    /// `grow`. Nothing changes.
    pub fn reserve<C: ChunkSource>(&mut self, a: &mut Allocator<C>, additional: u64) -> Grown<()>
        requires { IsBuilderIn a.old.memory self.old }
        ensures grows { let growth = amortised_growth self.old.cap self.old.len additional in
            Grows a.old a.new self.old growth (builder_bytes a.old.memory self.old) self.new result }
        ensures enough { OnOk result (self.old.len + additional ≤ self.new.cap) }
        ensures len { self.new.len ≡ self.old.len }
    {
        *self = roomy(a, *self, additional)?;
        Ok(())
    }

    // Appends a piece.
    #[inline]
    fn put<P: Piece, C: ChunkSource>(&mut self, a: &mut Allocator<C>, piece: &P) -> Grown<()>
        requires { IsBuilderIn a.old.memory self.old }
        ensures { let bytes = P.bytes piece.now in
            let growth = amortised_growth self.old.cap self.old.len (length bytes) in
            let list = builder_bytes a.old.memory self.old ++ bytes in
            Grows a.old a.new self.old growth list self.new result }
    {
        let n = piece.len();
        *self = roomy(a, *self, n)?;
        write_piece(a, self.block, self.len, piece);
        self.len += n;
        Ok(())
    }

    /// Appends bytes, which needn't be UTF-8, in one copy.
    ///
    /// # Errors
    ///
    /// As for `reserve`.
    #[inline]
    pub fn push_bytes_unchecked<C: ChunkSource>(
        &mut self,
        a: &mut Allocator<C>,
        bytes: &[u8],
    ) -> Grown<()>
        requires { IsBuilderIn a.old.memory self.old }
        ensures { let growth = amortised_growth self.old.cap self.old.len (length bytes.now) in
            let list = builder_bytes a.old.memory self.old ++ bytes.now in
            Grows a.old a.new self.old growth list self.new result }
    {
        self.put(a, &Slice(bytes))
    }

    /// Appends a text, in one copy.
    ///
    /// # Errors
    ///
    /// As for `reserve`.
    #[inline]
    pub fn push_str<C: ChunkSource>(&mut self, a: &mut Allocator<C>, s: &str) -> Grown<()>
        requires { IsBuilderIn a.old.memory self.old }
        ensures { let growth = amortised_growth self.old.cap self.old.len (length s.now) in
            let list = builder_bytes a.old.memory self.old ++ s.now in
            Grows a.old a.new self.old growth list self.new result }
    {
        self.push_bytes_unchecked(a, s.as_bytes())
    }

    /// Appends a byte, which needn't be ASCII.
    ///
    /// # Errors
    ///
    /// As for `reserve`.
    #[inline]
    pub fn push_byte_unchecked<C: ChunkSource>(
        &mut self,
        a: &mut Allocator<C>,
        byte: u8,
    ) -> Grown<()>
        requires { IsBuilderIn a.old.memory self.old }
        ensures { let growth = amortised_growth self.old.cap self.old.len 1 in
            let list = builder_bytes a.old.memory self.old ++ byte ∷ [] in
            Grows a.old a.new self.old growth list self.new result }
    {
        self.put(a, &Byte(byte))
    }

    /// Appends an ASCII byte.
    ///
    /// # Errors
    ///
    /// As for `reserve`.
    #[inline]
    pub fn push_ascii_byte<C: ChunkSource>(&mut self, a: &mut Allocator<C>, byte: u8) -> Grown<()>
        requires held { IsBuilderIn a.old.memory self.old }
        requires ascii { byte < 128 }
        ensures { let growth = amortised_growth self.old.cap self.old.len 1 in
            let list = builder_bytes a.old.memory self.old ++ byte ∷ [] in
            Grows a.old a.new self.old growth list self.new result }
    {
        self.push_byte_unchecked(a, byte)
    }

    /// Puts a byte, which needn't be ASCII, at the start. The others move up by one, in one move of memory.
    ///
    /// # Errors
    ///
    /// As for `reserve`.
    pub fn push_byte_start_unchecked<C: ChunkSource>(
        &mut self,
        a: &mut Allocator<C>,
        byte: u8,
    ) -> Grown<()>
        requires { IsBuilderIn a.old.memory self.old }
        ensures { let growth = amortised_growth self.old.cap self.old.len 1 in
            let list = byte ∷ builder_bytes a.old.memory self.old in
            Grows a.old a.new self.old growth list self.new result }
    {
        *self = roomy(a, *self, 1)?;
        a.move_within(self.block, 0, 1, self.len);
        write_piece(a, self.block, 0, &Byte(byte));
        self.len += 1;
        Ok(())
    }

    /// Puts an ASCII byte at the start. The others move up by one, in one move of memory.
    ///
    /// # Errors
    ///
    /// As for `reserve`.
    pub fn push_ascii_byte_start<C: ChunkSource>(
        &mut self,
        a: &mut Allocator<C>,
        byte: u8,
    ) -> Grown<()>
        requires held { IsBuilderIn a.old.memory self.old }
        requires ascii { byte < 128 }
        ensures { let growth = amortised_growth self.old.cap self.old.len 1 in
            let list = byte ∷ builder_bytes a.old.memory self.old in
            Grows a.old a.new self.old growth list self.new result }
    {
        self.push_byte_start_unchecked(a, byte)
    }

    /// Appends an ASCII byte `n` times, in one fill.
    ///
    /// # Errors
    ///
    /// As for `reserve`.
    pub fn push_ascii_byte_repeat<C: ChunkSource>(
        &mut self,
        a: &mut Allocator<C>,
        byte: u8,
        n: u64,
    ) -> Grown<()>
        requires held { IsBuilderIn a.old.memory self.old }
        requires ascii { byte < 128 }
        ensures { let growth = amortised_growth self.old.cap self.old.len n in
            let list = builder_bytes a.old.memory self.old ++ replicate n byte in
            Grows a.old a.new self.old growth list self.new result }
    {
        self.put(a, &Times { byte, n })
    }

    /// Appends a character, as UTF-8.
    ///
    /// # Errors
    ///
    /// As for `reserve`.
    #[inline]
    pub fn push<C: ChunkSource>(&mut self, a: &mut Allocator<C>, c: char) -> Grown<()>
        requires { IsBuilderIn a.old.memory self.old }
        ensures { let utf8 = encode_utf8 c in
            let growth = amortised_growth self.old.cap self.old.len (length utf8) in
            let list = builder_bytes a.old.memory self.old ++ utf8 in
            Grows a.old a.new self.old growth list self.new result }
    {
        let code = c as u32;
        if code < 0x80 {
            self.put(a, &Byte(code as u8))
        } else {
            self.put(a, &Utf8(c))
        }
    }
}
