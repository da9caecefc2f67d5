// What the program's words ask of scripts and of sources.
ghost use Rattle.std.specs.Prelude.{ℕ, List, ◌∷◌, ◌≡◌, ◌≢◌, ◌≤◌, MatchOption};
ghost use Rattle.arena_program.specs.Words.{ReadsWord, NamesLender, AsksTask, AsksLinters};

use line_parts::whole_number;
use short_bytes::Bytes;

/// Which pool lends the arenas that scripts run on.
#[derive(Clone, Copy, Debug)]
pub enum Lender {
    /// Its arenas grow, and it keeps each that comes back.
    Standard,
    /// Its arenas grow, and it keeps those of at most `limit` bytes.
    Keeping { limit: u64 },
    /// A number of arenas, each of `bytes` bytes.
    Fixed { bytes: u64, arenas: u32 },
}

/// Over which pool scripts are to be run, and on how many workers.
#[derive(Clone, Copy, Debug)]
pub struct Task {
    pub workers: u32,
    pub lender: Lender,
}

// The words after this one.
fn behind_word<'a>(words: &'a [Bytes], word: &[u8]) -> Option<&'a [Bytes]>
    ensures { MatchOption result
        ((rest : List (List ℕ)) → words.now ≢ word.now ∷ rest)
        (λ rest. words.now ≡ word.now ∷ rest.now) }
{
    let (first, rest) = words.split_first()?;
    if first.as_slice() == word {
        Some(rest)
    } else {
        None
    }
}

// The number of the first word, and the words after it.
fn word_number(words: &[Bytes], least: u64, most: u64) -> Option<(u64, &[Bytes])>
    requires { 9 ≤ most }
    ensures { ReadsWord least most words.now result }
{
    let (first, rest) = words.split_first()?;
    let n = whole_number(first.as_slice(), most)?;
    if n < least {
        return None;
    }
    Some((n, rest))
}

// The pool that these words name, all of them.
fn lender_of(words: &[Bytes]) -> Option<Lender>
    ensures { NamesLender words.now result }
{
    if words.is_empty() {
        return Some(Lender::Standard);
    }
    if let Some(rest) = behind_word(words, b"keep") {
        let (limit, rest) = word_number(rest, 0, u64::MAX)?;
        if !rest.is_empty() {
            return None;
        }
        return Some(Lender::Keeping { limit });
    }
    let rest = behind_word(words, b"fixed")?;
    let (bytes, rest) = word_number(rest, 48, 16_777_216)?;
    let (arenas, rest) = word_number(rest, 1, 64)?;
    if bytes % 16 != 0 {
        return None;
    }
    if !rest.is_empty() {
        return None;
    }
    Some(Lender::Fixed {
        bytes,
        arenas: arenas as u32,
    })
}

/// Returns how scripts are to be run, if the words ask for scripts.
pub fn task_of(words: &[Bytes]) -> Option<Task>
    ensures { AsksTask words.now result }
{
    let rest = behind_word(words, b"scripts")?;
    let (workers, rest) = word_number(rest, 1, 64)?;
    let lender = lender_of(rest)?;
    Some(Task {
        workers: workers as u32,
        lender,
    })
}

/// Returns on how many workers sources are to be linted, if the words ask for that.
pub fn linters_of(words: &[Bytes]) -> Option<u32>
    ensures { AsksLinters words.now result }
{
    let rest = behind_word(words, b"lint")?;
    let (workers, rest) = word_number(rest, 1, 64)?;
    if !rest.is_empty() {
        return None;
    }
    Some(workers as u32)
}
