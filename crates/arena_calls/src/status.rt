// How the program ends.
ghost use Rattle.std.specs.Prelude.{◌≡◌};
ghost use Rattle.arena_calls.specs.Ends.{code_of};

/// How the program ends.
#[derive(Drop, Debug)]
pub enum Status {
    /// All replies were written, or the summary of them.
    Done,
    /// The words are no command.
    Usage,
    /// The first line that is refused, by its number from 1.
    BadLine(u64),
    OutOfMemory,
    ReadFault,
    WriteFault,
    /// The input has more bytes than the limit.
    InputTooLong,
}

impl Status {
    /// Returns the program's exit status.
    pub fn code(&self) -> u8
        ensures { result ≡ code_of self.now }
    {
        match self {
            Status::Done => 0,
            Status::Usage => 1,
            Status::BadLine(_) => 2,
            Status::OutOfMemory => 3,
            Status::ReadFault => 4,
            Status::WriteFault => 5,
            Status::InputTooLong => 6,
        }
    }
}
