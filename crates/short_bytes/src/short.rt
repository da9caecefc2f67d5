// Up to 14 bytes, stored inline.
ghost use Rattle.std.specs.Prelude.{◌≡◌, ◌<◌, ◌≤◌, [], ◌∷◌, ◌++◌, length};

use std::marker::Model;

// The capacity.
pub(crate) const SHORT: usize = 14;

// A list of bytes with a fixed capacity.
#[derive(Drop, Debug)]
pub(crate) struct Short {
    len: u8,
    bytes: [u8; SHORT],
}

impl Model for Short {
    ghost use Rattle.std.specs.Prelude.{ℕ, List, take, length, ◌≤◌, ◌≡◌};

    ghost Value = { List ℕ };

    ghost view = { λ s. take s.len s.bytes };

    ghost invariant = { λ s. (s.len ≤ 14) × (length s.bytes ≡ 14) };
}

impl Short {
    // Returns an empty list.
    pub(crate) fn new() -> Short
        ensures { result ≡ [] }
    {
        Short {
            len: 0,
            bytes: [0; SHORT],
        }
    }

    // Returns a list of one byte.
    pub(crate) fn one(b: u8) -> Short
        ensures { result ≡ b ∷ [] }
    {
        let mut bytes = [0; SHORT];
        bytes[0] = b;
        Short { len: 1, bytes }
    }

    // Copies these bytes.
    pub(crate) fn of(src: &[u8]) -> Short
        requires { length src.now ≤ 14 }
        ensures { result ≡ src.now }
    {
        let mut bytes = [0; SHORT];
        bytes[..src.len()].copy_from_slice(src);
        Short {
            len: src.len() as u8,
            bytes,
        }
    }

    // Returns the number of bytes.
    pub(crate) fn len(&self) -> usize
        ensures { result ≡ length self.now }
    {
        self.len as usize
    }

    // Adds a byte at the end; there must be room.
    pub(crate) fn push(&mut self, b: u8)
        requires { length self.old < 14 }
        ensures { self.new ≡ self.old ++ b ∷ [] }
    {
        self.bytes[self.len as usize] = b;
        self.len += 1;
    }

    // Returns the bytes as a slice.
    pub(crate) fn as_slice(&self) -> &[u8]
        ensures { result.now ≡ self.now }
    {
        &self.bytes[..self.len as usize]
    }
}
