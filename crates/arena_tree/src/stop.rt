// Why a part of a text has no tree.
use arena_items::AllocError;

/// Why a part of a text has no tree.
#[derive(Clone, Copy)]
pub(crate) enum Stop {
    AllocErr { refused: u32 },
    OutOfMemory,
    /// The text is refused.
    Text,
}

/// The most that may be open at once: parentheses, braces and signs.
pub(crate) const MOST_OPEN: usize = 64;

/// The result of reading a part of a text.
pub(crate) type Parsed<X> = Result<X, Stop>;

impl From<AllocError> for Stop {
    ghost use Rattle.std.specs.Prelude.{◌≡◌};
    ghost use Rattle.arena_tree.specs.Stops.{stop_of};

    ghost from_gives = { λ e result. result ≡ stop_of e };

    fn from(e: AllocError) -> Stop {
        match e {
            AllocError::AllocErr { refused } => Stop::AllocErr { refused },
            // A list of nodes never has more of them than there are numbers.
            AllocError::OutOfMemory | AllocError::CapacityOverflow => Stop::OutOfMemory,
        }
    }
}
