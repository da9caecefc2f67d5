// A list of bytes.
ghost use Rattle.std.specs.Prelude.{◌≡◌, ◌<◌, ◌≤◌, [], ◌∷◌, ◌++◌, length, IsOk, IfOk, OnOk, OnErr};

use crate::short::{SHORT, Short};
use arena_rules::OutOfMemory;
use std::alloc::{AllocError, Global};
use std::marker::Model;

// Bytes stored inline, or in memory of their own.
#[derive(Drop, Debug)]
enum Held {
    Short(Short),
    Long(Box<Vec<u8>>),
}

/// A list of bytes. Up to 14 are stored inline, without an allocation.
#[derive(Drop, Debug)]
pub struct Bytes {
    alloc: Global,
    held: Held,
}

impl Model for Bytes {
    ghost use Rattle.std.specs.Prelude.{ℕ, List};
    ghost use Rattle.short_bytes.specs.Held.{bytes_of, IsHeld};

    ghost Value = { List ℕ };

    ghost view = { λ b. bytes_of b.held };

    ghost invariant = { λ b. IsHeld b.held };
}

impl PartialEq for Bytes {
    ghost use Rattle.std.specs.Prelude.{nat_eq};
    ghost use Rattle.std.specs.Cmp.{partial_equiv_from_equiv};
    ghost use Rattle.std.specs.Cmp.Lexicographic.{nat_list_eq_equiv, pointwise};

    ghost eq = { pointwise nat_eq };

    ghost laws = { partial_equiv_from_equiv nat_list_eq_equiv };

    fn eq(&self, other: &Bytes) -> bool {
        self.as_slice() == other.as_slice()
    }
}

impl Eq for Bytes {
    ghost use Rattle.std.specs.Cmp.Lexicographic.{nat_list_eq_equiv};

    ghost laws = { nat_list_eq_equiv };
}

// Copies these bytes and adds one more, in memory of their own with room for 28.
fn longer(alloc: Global, bytes: &[u8], b: u8) -> Result<Vec<u8>, AllocError>
    ensures { IfOk result (λ all. all.items ≡ bytes.now ++ b ∷ []) }
{
    let mut all = Vec::with_capacity(alloc, 2 * SHORT)?;
    all.extend_from_slice(bytes)?;
    all.push(b)?;
    Ok(all)
}

impl Bytes {
    // Bytes stored inline.
    fn short(alloc: Global, bytes: Short) -> Bytes
        ensures { result ≡ bytes }
    {
        Bytes {
            alloc,
            held: Held::Short(bytes),
        }
    }

    /// Returns an empty list. Doesn't allocate.
    pub fn new(alloc: Global) -> Bytes
        ensures { result ≡ [] }
    {
        Bytes::short(alloc, Short::new())
    }

    /// Returns a list of one byte. Doesn't allocate.
    pub fn one(alloc: Global, b: u8) -> Bytes
        ensures { result ≡ b ∷ [] }
    {
        Bytes::short(alloc, Short::one(b))
    }

    /// Takes over the bytes of a vector. If there are more than 14, they aren't copied.
    ///
    /// # Errors
    ///
    /// `OutOfMemory` if there are more than 14 bytes and memory runs out.
    pub fn from_vec(alloc: Global, items: Vec<u8>) -> Result<Bytes, OutOfMemory>
        ensures value { IfOk result (λ bytes. bytes ≡ items.items) }
        ensures short { length items.items ≤ 14 → IsOk result }
    {
        if items.len() <= SHORT {
            return Ok(Bytes::short(alloc, Short::of(items.as_slice())));
        }
        let items = Box::new(alloc, items)?;
        Ok(Bytes {
            alloc,
            held: Held::Long(items),
        })
    }

    /// Copies these bytes.
    ///
    /// # Errors
    ///
    /// `OutOfMemory` if there are more than 14 bytes and memory runs out.
    pub fn of(alloc: Global, src: &[u8]) -> Result<Bytes, OutOfMemory>
        ensures value { IfOk result (λ bytes. bytes ≡ src.now) }
        ensures short { length src.now ≤ 14 → IsOk result }
    {
        if src.len() <= SHORT {
            return Ok(Bytes::short(alloc, Short::of(src)));
        }
        Bytes::from_vec(alloc, Vec::from_slice(alloc, src)?)
    }

    /// Adds a byte at the end.
    ///
    /// # Errors
    ///
    /// `OutOfMemory` if there are at least 14 bytes and memory runs out. The bytes are unchanged.
    pub fn push(&mut self, b: u8) -> Result<(), OutOfMemory>
        ensures ok { OnOk result (self.new ≡ self.old ++ b ∷ []) }
        ensures err { OnErr result (self.new ≡ self.old) }
        ensures short { length self.old < 14 → IsOk result }
    {
        match &mut self.held {
            Held::Short(bytes) if bytes.len() < SHORT => {
                bytes.push(b);
                Ok(())
            }
            Held::Short(bytes) => {
                let all = longer(self.alloc, bytes.as_slice(), b)?;
                *self = Bytes::from_vec(self.alloc, all)?;
                Ok(())
            }
            Held::Long(items) => Ok(items.push(b)?),
        }
    }

    /// Returns the bytes as a slice.
    pub fn as_slice(&self) -> &[u8]
        ensures { result.now ≡ self.now }
    {
        match &self.held {
            Held::Short(bytes) => bytes.as_slice(),
            Held::Long(items) => items.as_slice(),
        }
    }

    /// Returns the number of bytes.
    pub fn len(&self) -> u64
        ensures { result ≡ length self.now }
    {
        self.as_slice().len() as u64
    }
}
