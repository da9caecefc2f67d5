// The report on one source.
use crate::findings::Findings;

/// The report on one source.
#[derive(Drop, Debug)]
pub enum FileReport {
    /// It is a program, with these findings.
    Checked(Findings),
    /// Its first refused token, which begins at this byte, can't come there; or it ends too early, and this is its
    /// length.
    Syntax { at: u64 },
    /// With the token at this byte more than 64 parentheses, braces and signs would be open at once.
    TooDeep { at: u64 },
    /// The number at this byte exceeds 64 bits.
    NumberTooBig { at: u64 },
    /// An arena that doesn't grow had no place for a block.
    Full,
    /// An arena that grows refused a block.
    Refused,
    /// Out of memory.
    OutOfMemory,
}
