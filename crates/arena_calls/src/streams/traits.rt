// Inputs and outputs.
ghost use Rattle.std.specs.Prelude.{◌≡◌, ℕ, ◌<◌, ◌≤◌, List, length, take, Option, IfOk, OnOk, OnErr};
ghost use Rattle.std.specs.Io.KnownBytes.{Keeps, IsAtEnd};
ghost use Rattle.arena_rules.specs.Causes.{counted};
ghost use Rattle.arena_calls.specs.Streams.{Takes, Writes};

/// A read or a write failed.
#[derive(Drop, Debug, Clone, Copy, PartialEq, Eq)]
pub struct Failed;

/// An input of bytes.
pub trait Input {
    // The bytes that are left, if it reports them.
    ghost left: { Self → Option (List ℕ) };

    // How often it has failed. The count saturates at 2 ^ 64 - 1.
    ghost faults: { Self → ℕ };

    /// Reads the next bytes into the front of the buffer, and returns their number.
    ///
    /// # Errors
    ///
    /// The read failed. No byte was taken.
    fn read(&mut self, buffer: &mut [u8]) -> Result<usize, Failed>
        ensures within { IfOk result (λ n. n ≤ length buffer.old) }
        ensures bytes { IfOk result (λ n. Takes (left self.old) (left self.new) (take n buffer.new)) }
        // No byte for a buffer that isn't empty is the end.
        ensures end { IfOk result (λ n. n ≡ 0 → 0 < length buffer.old → IsAtEnd (left self.new)) }
        ensures same { OnErr result (Keeps (left self.old) (left self.new)) }
        ensures no_fault { OnOk result (faults self.new ≡ faults self.old) }
        ensures one_fault { OnErr result (faults self.new ≡ counted (faults self.old) 1) };
}

/// An output of bytes.
pub trait Output {
    // The bytes that it has taken, if it reports them.
    ghost written: { Self → Option (List ℕ) };

    // How often it has failed. The count saturates at 2 ^ 64 - 1.
    ghost faults: { Self → ℕ };

    /// Writes bytes from the front of the piece, at least one unless it is empty, and returns their number.
    ///
    /// # Errors
    ///
    /// The write failed. No byte was taken.
    fn write(&mut self, piece: &[u8]) -> Result<usize, Failed>
        ensures some { IfOk result (λ n. 0 < length piece.now → 0 < n) }
        ensures within { IfOk result (λ n. n ≤ length piece.now) }
        ensures bytes { IfOk result (λ n. Writes (written self.old) (written self.new) (take n piece.now)) }
        ensures same { OnErr result (Keeps (written self.old) (written self.new)) }
        ensures no_fault { OnOk result (faults self.new ≡ faults self.old) }
        ensures one_fault { OnErr result (faults self.new ≡ counted (faults self.old) 1) };
}
