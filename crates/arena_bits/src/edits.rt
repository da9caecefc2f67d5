// Changes of a set's bytes in place, with one lookup of its block.
ghost use Rattle.std.specs.Prelude.{◌≡◌, ◌*◌, length, bit_and, bit_or};
ghost use Rattle.std.specs.Int.{w64, bit_not};
ghost use Rattle.arena_bits.specs.Edits.{ChangesWord, JoinsRow};

use arena_chunks::Edit;
use arena_items::Item;

/// Sets the bits of a mask in a word.
#[derive(Clone, Copy)]
pub(crate) struct Raise {
    pub(crate) mask: u64,
}

#[tactic(auto, using(crate::proofs::WordLemmas::raised_words))]
impl Edit for Raise {
    ghost suits = { λ e old. length old ≡ 8 };

    ghost relates = { λ e old new. ChangesWord (λ word. bit_or word e.mask) old new };

    #[inline]
    fn edit(&self, place: &mut [u8]) {
        let word = u64::decode(place);
        (word | self.mask).encode(place);
    }
}

/// Clears the bits of a mask in a word.
#[derive(Clone, Copy)]
pub(crate) struct Lower {
    pub(crate) mask: u64,
}

#[tactic(auto, using(std::proofs::lemmas::Nat::and_le_l, crate::proofs::WordLemmas::changes_word))]
impl Edit for Lower {
    ghost suits = { λ e old. length old ≡ 8 };

    ghost relates = { λ e old new. ChangesWord (λ word. bit_and word (bit_not w64 e.mask)) old new };

    #[inline]
    fn edit(&self, place: &mut [u8]) {
        let word = u64::decode(place);
        (word & !self.mask).encode(place);
    }
}

/// Sets the bits of a row of words in as many others.
#[derive(Clone, Copy)]
pub(crate) struct JoinRow<const N: usize> {
    pub(crate) row: [u64; N],
}

impl<const N: usize> Edit for JoinRow<N> {
    ghost suits = { λ e old. length old ≡ N * 8 };

    ghost relates = { λ e old new. JoinsRow N e.row old new };

    #[inline]
    fn edit(&self, place: &mut [u8]) {
        'words: for i in 0..N {
            let word = Raise { mask: self.row[i] };
            word.edit(&mut place[i * 8..i * 8 + 8]);
        }
    }
}
