// What a call reports besides its bytes.

/// What a call reports besides its status and its bytes.
#[repr(C)]
#[derive(Clone, Copy)]
pub struct Report {
    /// How many bytes the text has, also where it has no room.
    pub length: u64,
    /// The number, from 1, of the line that is refused, or 0.
    pub line: u64,
    /// How many requests for chunks weren't granted: with code 0, those that the limits refuse.
    pub refused: u64,
}
