// What words ask for.
ghost use Rattle.std.specs.Prelude.{◌≡◌, ◌∷◌, [], IsTrue, ◌↔◌};
ghost use Rattle.arena_calls.specs.Arguments.{IsAskedFor};

use line_parts::whole_number;
use short_bytes::Bytes;

// The most calls of a run from a number.
const MOST_CALLS: u64 = 1_000_000;

/// What the program is asked to do.
#[derive(Clone, Copy)]
pub enum Command {
    /// To run the lines of the input.
    Calls,
    /// To run `count` calls from a number.
    Gen { start: u64, count: usize },
}

/// Returns whether there is one word, and it is this one.
pub fn is_one_word(words: &[Bytes], word: &[u8]) -> bool
    ensures { IsTrue result ↔ (words.now ≡ word.now ∷ []) }
{
    match words {
        [only] => only.as_slice() == word,
        _ => false,
    }
}

fn is_word(word: &Bytes, text: &[u8]) -> bool
    ensures { IsTrue result ↔ (word.now ≡ text.now) }
{
    word.as_slice() == text
}

/// Returns what the words ask for, or `None` where they are no command.
pub fn asked_for(words: &[Bytes]) -> Option<Command>
    ensures { IsAskedFor words.now result }
{
    if is_one_word(words, b"calls") {
        return Some(Command::Calls);
    }
    match words {
        [first, start, count] => {
            if !is_word(first, b"gen") {
                return None;
            }
            let from = whole_number(start.as_slice(), u64::MAX)?;
            let calls = whole_number(count.as_slice(), MOST_CALLS)?;
            Some(Command::Gen {
                start: from,
                count: calls as usize,
            })
        }
        _ => None,
    }
}
