// Words that threads claim, each of them once.
ghost use Rattle.std.specs.Prelude.{◌≡◌, ◌<◌, IfOk, IsTrue, MatchBool, true, false};
ghost use Rattle.arena_pool.specs.Claiming.{new_view, with_claimed, with_taken, with_free, joined, Knows, IsOnce};

pub mod rule;

use atomic_table::{Seat, Table};
use rule::{Anew, Both, ClaimRule, ClaimView, Load, Swap};
use std::alloc::{AllocError, Global};
use std::marker::Model;

/// Why there are no claims.
#[derive(Debug, Drop, PartialEq, Eq, thiserror::Error)]
pub enum ClaimErr {
    /// Out of memory for the words.
    #[error("out of memory")]
    OutOfMemory,
}

impl From<AllocError> for ClaimErr {
    fn from(_: AllocError) -> ClaimErr {
        ClaimErr::OutOfMemory
    }
}

/// Words that are 0 or 1, which threads share by reference. A thread claims a word by a swap to 1, and has it if the
/// swap found 0. No call waits. Contracts see which words these are, and how many.
#[derive(Drop)]
pub struct Claims {
    table: Table<(), ClaimView, u64, ClaimRule, Global>,
}

impl Model for Claims {
    ghost use Rattle.std.specs.Prelude.{◌≡◌, ◌<◌};
    ghost use Rattle.atomic_table.specs.Seated.{TableId, table_id_coded};

    ghost Value = { TableId };

    ghost coded = { table_id_coded };

    ghost view = { λ c. c.table.shared.table_id };

    ghost invariant = { λ c. (0 < c.table.shared.table_id.words)
        × (c.table.shared.key ≡ c.table.shared.table_id.words) };
}

/// A thread's seat at a `Claims` table. It has no bytes. Contracts see which claims, and what the seat knows.
#[derive(Drop)]
pub struct ClaimSeat {
    seat: Seat<(), ClaimView>,
}

impl Model for ClaimSeat {
    ghost use Rattle.std.specs.Prelude.{◌≡◌, []};
    ghost use Rattle.arena_pool.specs.Claiming.{Sitting};

    ghost Value = { Sitting };

    ghost view = { λ s. record { table = s.seat.table_id; view = s.seat.me.0 } };

    ghost invariant = { λ s. s.seat.me.1 ≡ [] };
}

impl Claims {
    /// Creates `words` words, all of them 0, and a seat that knows nothing.
    ///
    /// # Errors
    ///
    /// Out of memory.
    pub fn new(alloc: Global, words: u32) -> Result<(Claims, ClaimSeat), ClaimErr>
        requires { 0 < words }
        ensures words { IfOk result (λ r. r.0.words ≡ words) }
        ensures seat { IfOk result (λ r. r.1 ≡ record { table = r.0; view = new_view }) }
    {
        let zeros = vec![in alloc; 0u64; words as usize]?;
        let (table, seat) = Table::of_words(alloc, zeros.as_slice(), &u64::from(words))?;
        Ok((Claims { table }, ClaimSeat { seat }))
    }

    /// Returns another seat, which knows nothing.
    pub fn split(&self, seat: &mut ClaimSeat) -> ClaimSeat
        requires { seat.old.table ≡ self.now }
        ensures same { seat.new ≡ seat.old }
        ensures new { result ≡ record { table = self.now; view = new_view } }
    {
        ClaimSeat {
            seat: self.table.shared.split_seat::<Anew>(&mut seat.seat),
        }
    }

    /// Swaps the word to 1. Returns `true` if it found 0: this seat has claimed the word. Returns `false` if the word
    /// was taken, which it is if the seat knew so before.
    #[tactic(auto, using(crate::proofs::ClaimLemmas::knows_claimed, crate::proofs::ClaimLemmas::knows_taken))]
    pub fn claim(&self, seat: &mut ClaimSeat, word: u32) -> bool
        requires seat { seat.old.table ≡ self.now }
        requires word { word < self.now.words }
        ensures seat { seat.new.table ≡ self.now }
        ensures claimed { MatchBool result
            (seat.new.view ≡ with_claimed word seat.old.view)
            (seat.new.view ≡ with_taken word seat.old.view) }
        ensures before { Knows word seat.old.view → result ≡ false }
        ensures after { Knows word seat.new.view }
        ensures once { IsOnce seat.new.view }
    {
        self.table
            .shared
            .swap::<Swap>(&mut seat.seat, word as usize, 1)
            == 0
    }

    /// Loads the word. Returns `true` if it was 1, which it is if the seat claimed it or found it taken before.
    #[tactic(auto, using(crate::proofs::ClaimLemmas::knows_taken))]
    pub fn is_claimed(&self, seat: &mut ClaimSeat, word: u32) -> bool
        requires seat { seat.old.table ≡ self.now }
        requires word { word < self.now.words }
        ensures seat { seat.new.table ≡ self.now }
        ensures loaded { MatchBool result
            (seat.new.view ≡ with_taken word seat.old.view)
            (seat.new.view ≡ with_free word seat.old.view) }
        ensures before { Knows word seat.old.view → result ≡ true }
        ensures after { IsTrue result → Knows word seat.new.view }
        ensures once { IsOnce seat.new.view }
    {
        self.table
            .shared
            .load::<Load>(&mut seat.seat, word as usize)
            == 1
    }

    /// Adds what another seat knows to this one. The other seat is spent.
    pub fn join(&self, seat: &mut ClaimSeat, other: ClaimSeat)
        requires seat { seat.old.table ≡ self.now }
        requires other { other.table ≡ self.now }
        ensures { seat.new ≡ record { table = self.now; view = joined seat.old.view other.view } }
    {
        let ClaimSeat { seat: other } = other;
        self.table.shared.join_seat::<Both>(&mut seat.seat, other);
    }
}
