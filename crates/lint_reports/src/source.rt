// One source of an input.
ghost use Rattle.std.specs.Prelude.{◌≡◌};

use std::marker::Model;

/// One source of an input: a part of its bytes, which contracts see as their list.
#[derive(Drop, Debug)]
pub struct Source<'a> {
    bytes: &'a [u8],
}

impl<'a> Model for Source<'a> {
    ghost use Rattle.std.specs.Prelude.{ℕ, List};

    ghost Value = { List ℕ };

    ghost view = { λ s. s.bytes.now };
}

impl<'a> Source<'a> {
    /// Returns the source of these bytes.
    pub fn new(bytes: &'a [u8]) -> Source<'a>
        ensures { result ≡ bytes.now }
    {
        Source { bytes }
    }

    /// Returns the bytes as a slice.
    pub fn as_slice(&self) -> &'a [u8]
        ensures { result.now ≡ self.now }
    {
        self.bytes
    }
}
