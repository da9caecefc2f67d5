// Reading the words of a bit set.
ghost use Rattle.std.specs.Prelude.{◌≡◌, ◌/◌, ◌+◌, ◌<◌, ◌≤◌, length, slice_index};
ghost use Rattle.arena_bits.specs.Bits.{bits_of, TellsEmpty};
ghost use Rattle.arena_bits.specs.Edits.{IsRow};
ghost use Rattle.arena_bits.specs.Walks.{words_in};

use arena_items::Item;

// Returns the word at an index, from the words' bytes.
#[tactic(auto, using(crate::proofs::WordLemmas::word_read))]
#[inline]
pub(crate) fn word_at(bytes: &[u8], i: u64) -> u64
    requires { i < length bytes.now / 8 }
    ensures { result ≡ slice_index (words_in bytes.now) i }
{
    let at = (i * 8) as usize;
    u64::decode(&bytes[at..at + 8])
}

// Returns `N` words from an index on.
#[inline]
pub(crate) fn row_at<const N: usize>(bytes: &[u8], i: u64) -> [u64; N]
    requires { i + N ≤ length bytes.now / 8 }
    ensures { IsRow N result (words_in bytes.now) i }
{
    let mut row = [0; N];
    'words: for k in 0..N {
        row[k] = word_at(bytes, i + k as u64);
    }
    row
}

// Returns the first word, or 0 if there is none.
#[tactic(auto, using(crate::proofs::WholeLemmas::no_words))]
pub(crate) fn first_word(bytes: &[u8]) -> u64
    ensures { result ≡ slice_index (words_in bytes.now) 0 }
{
    if bytes.len() < 8 {
        return 0;
    }
    word_at(bytes, 0)
}

// Returns whether all words of some bytes are 0.
pub(crate) fn are_zero(bytes: &[u8]) -> bool
    ensures { TellsEmpty result (bits_of (words_in bytes.now)) }
{
    'words: for i in 0..bytes.len() as u64 / 8 {
        if word_at(bytes, i) != 0 {
            return false;
        }
    }
    true
}
