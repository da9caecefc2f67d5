// The loans of a pool, by its ledger: a share of 1 for each arena that is lent.
ghost use Rattle.std.specs.Prelude.{◌≡◌, ◌+◌, ◌<◌};
ghost use Rattle.arena_pool.specs.Kinds.{HasId};
ghost use Rattle.arena_pool.specs.Names.{IsBlankOf};

use crate::name::{MOST_LENT, PoolName};
use std::marker::Model;
use std::sync::ledger;
use std::sync::ledger::{Blank, Share};

/// The loan of an arena: the arena's id, and one part of the pool's ledger. It is consumed when the arena is given back
/// or given up, to the pool of the same name. It can't be dropped, and so can't be moved into a closure.
pub struct Loan<L: PoolName> {
    id: Option<u32>,
    share: Share<L>,
    ghost part: { share.parts ≡ 1 },
    ghost one: { share.amount ≡ 1 },
    ghost has_id: { HasId L.kind id },
}

impl<L: PoolName> Loan<L> {
    // The id of the arena.
    pub(crate) fn id(&self) -> Option<u32>
        ensures id { result ≡ self.now.id }
        ensures kind { HasId L.kind result }
    {
        self.id
    }
}

// The number of lent arenas, which is the number of loans. Contracts see the number.
#[derive(Drop)]
pub(crate) struct Lending<L: PoolName> {
    ledger: ledger::Book<L>,
    spare: Share<L>,
}

impl<L: PoolName> Model for Lending<L> {
    ghost use Rattle.std.specs.Prelude.{ℕ, ◌≡◌, ◌+◌};
    ghost use Rattle.arena_pool.specs.Pool.{most_lent};

    ghost Value = { ℕ };

    ghost view = { λ l. l.ledger.total };

    ghost invariant = { λ l. (l.spare.amount ≡ 0) × (l.spare.parts + l.ledger.total ≡ most_lent) };
}

impl<L: PoolName> Lending<L> {
    // Opens the ledger. Nothing is lent yet.
    pub(crate) fn open(blank: Blank) -> Lending<L>
        requires { IsBlankOf L.name L.parts blank }
        ensures { result ≡ 0 }
    {
        let (ledger, spare) = blank.open::<L>();
        Lending { ledger, spare }
    }

    // Returns a loan for an arena with this id.
    #[inline]
    pub(crate) fn lend(&mut self, id: Option<u32>) -> Loan<L>
        requires room { self.old < MOST_LENT }
        requires id { HasId L.kind id }
        ensures counted { self.new ≡ self.old + 1 }
        ensures id { result.id ≡ id }
    {
        self.ledger.add(&mut self.spare, 1);
        Loan {
            id,
            share: self.spare.split_off(1, 1),
        }
    }

    // Ends a loan, and returns the id of its arena. At least one arena was lent, since the loan exists.
    #[inline]
    pub(crate) fn settle(&mut self, loan: Loan<L>) -> Option<u32>
        ensures counted { self.new + 1 ≡ self.old }
        ensures id { result ≡ loan.id }
        ensures kind { HasId L.kind result }
    {
        let Loan { id, mut share } = loan;
        self.ledger.audit(&mut share);
        self.ledger.sub(&mut share, 1);
        self.spare.merge(share);
        id
    }
}
