// The printed forms of a bit set.
ghost use Rattle.std.specs.Prelude.{◌≡◌, ◌/◌, ◌%◌, ◌<◌, ◌≤◌, ◌++◌, length, OnOk, IfOk};
ghost use Rattle.arena_bits.specs.Bits.{bits_of};
ghost use Rattle.arena_bits.specs.Sets.{IsSetIn, set_of};
ghost use Rattle.arena_bits.specs.Printed.{bits_in, digits, lower, highest, printed, debugged};
ghost use Rattle.arena_bits.specs.Walks.{words_in};

use crate::set::BitSet;
use arena_chunks::{Allocator, ChunkSource, OutOfMemory};
use short_bytes::Bytes;
use std::alloc::Global;

// Appends the binary digits of a byte, the highest first.
fn push_digits(text: &mut Bytes, byte: u8) -> Result<(), OutOfMemory>
    ensures { OnOk result (text.new ≡ text.old ++ digits (bits_in byte) 0 8) }
{
    for place in (0..8u32).rev() {
        text.push(b'0' + (byte >> place & 1))?;
    }
    Ok(())
}

// Appends `_` and the digits of each byte below `top`, the last byte first.
fn push_lower(text: &mut Bytes, bytes: &[u8], top: usize) -> Result<(), OutOfMemory>
    requires words { length bytes.now % 8 ≡ 0 }
    requires within { top ≤ length bytes.now }
    ensures { OnOk result (text.new ≡ text.old ++ lower (bits_of (words_in bytes.now)) top) }
{
    for i in (0..top).rev() {
        text.push(b'_')?;
        push_digits(text, bytes[i])?;
    }
    Ok(())
}

// Returns the index of the highest byte that isn't zero, or 0 if all are zero.
fn highest(bytes: &[u8]) -> usize
    requires { length bytes.now % 8 ≡ 0 }
    ensures value { result ≡ highest (bits_of (words_in bytes.now)) (length bytes.now) }
    ensures within { 0 < length bytes.now → result < length bytes.now }
{
    for i in (0..bytes.len()).rev() {
        if bytes[i] != 0 {
            return i;
        }
    }
    0
}

// Appends the text of the words of some bytes.
#[tactic(auto, unfolding(crate::specs::Printed::printed))]
fn push_words(text: &mut Bytes, bytes: &[u8]) -> Result<(), OutOfMemory>
    requires { length bytes.now % 8 ≡ 0 }
    ensures { OnOk result (text.new
        ≡ text.old ++ printed (length bytes.now / 8) (bits_of (words_in bytes.now))) }
{
    if bytes.is_empty() {
        return Ok(());
    }
    let top = highest(bytes);
    push_digits(text, bytes[top])?;
    push_lower(text, bytes, top)?;
    Ok(())
}

// Appends bytes.
fn push_all(text: &mut Bytes, bytes: &[u8]) -> Result<(), OutOfMemory>
    ensures { OnOk result (text.new ≡ text.old ++ bytes.now) }
{
    for byte in bytes {
        text.push(*byte)?;
    }
    Ok(())
}

impl BitSet {
    /// Returns the bits as text: eight binary digits for each byte, from the highest byte that isn't zero down to the
    /// lowest, with `_` between. It is `00000000` if no bit is set, and empty if there are no words.
    ///
    /// # Errors
    ///
    /// There is no memory for the text.
    pub fn display<C: ChunkSource>(
        &self,
        alloc: Global,
        a: &Allocator<C>,
    ) -> Result<Bytes, OutOfMemory>
        requires held { IsSetIn a.now.memory self.now }
        ensures { IfOk result (λ text. text
            ≡ printed self.now.words.length (set_of a.now.memory self.now)) }
    {
        let mut text = Bytes::new(alloc);
        self.push_text(&mut text, a)?;
        Ok(text)
    }

    /// Returns the text of `display` in quotes, inside `BitSet(` and `)`.
    ///
    /// # Errors
    ///
    /// There is no memory for the text.
    pub fn debug<C: ChunkSource>(
        &self,
        alloc: Global,
        a: &Allocator<C>,
    ) -> Result<Bytes, OutOfMemory>
        requires held { IsSetIn a.now.memory self.now }
        ensures { IfOk result (λ text. text
            ≡ debugged self.now.words.length (set_of a.now.memory self.now)) }
    {
        let mut text = Bytes::new(alloc);
        push_all(&mut text, b"BitSet(\"")?;
        self.push_text(&mut text, a)?;
        push_all(&mut text, b"\")")?;
        Ok(text)
    }

    // Appends the bits as text.
    fn push_text<C: ChunkSource>(
        &self,
        text: &mut Bytes,
        a: &Allocator<C>,
    ) -> Result<(), OutOfMemory>
        requires held { IsSetIn a.now.memory self.now }
        ensures { OnOk result (text.new
            ≡ text.old ++ printed self.now.words.length (set_of a.now.memory self.now)) }
    {
        push_words(text, self.bytes(a))?;
        Ok(())
    }
}
