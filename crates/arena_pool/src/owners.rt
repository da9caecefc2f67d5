// Two owners of one arena; the later one to give up gets it.
ghost use Rattle.std.specs.Prelude.{◌≡◌, ◌<◌, IfOk, IfErr, MatchBool, false};
ghost use Rattle.std.specs.Arc.{arc_value};
ghost use Rattle.arena_pool.specs.Claiming.{new_view, with_taken, with_free, times};
ghost use Rattle.arena_pool.specs.GivingUp.{IsGivenUp, IsReturned};

pub mod rule;

use arena_chunks::{Allocator, ChunkSource};
use atomic_table::{Seat, Table};
use rule::{First, Give, Look, OwnerRule, OwnerView, Second, Take, Two};
use std::alloc::Global;
use std::marker::Model;
use std::sync::Arc;

// Two words and a slot. The owner that finds word 0 taken claims word 1, and with it the slot.
type Shelf<C> = Table<
    Option<Allocator<C>>,
    OwnerView<Allocator<C>>,
    Allocator<C>,
    OwnerRule,
    Global,
>;

type Place<C> = Seat<Option<Allocator<C>>, OwnerView<Allocator<C>>>;

/// Why an arena isn't shared. The error returns the arena.
#[derive(Drop)]
pub enum ShareErr<C: ChunkSource> {
    /// Out of memory for the two owners.
    OutOfMemory { arena: Allocator<C> },
}

/// One of the two owners of an arena. It may be sent to another thread. Contracts see the arena, its table, and what
/// the owner knows. An owner that is dropped doesn't give up: then the arena is dropped with the later of the two.
#[derive(Drop)]
pub struct Owner<C: ChunkSource> {
    table: Arc<Shelf<C>, Global>,
    seat: Place<C>,
}

impl<C: ChunkSource> Model for Owner<C> {
    ghost use Rattle.std.specs.Prelude.{◌≡◌, []};
    ghost use Rattle.std.specs.Arc.{arc_value};
    ghost use Rattle.arena_chunks.specs.declared.allocator.Allocator.{Allocator};
    ghost use Rattle.arena_pool.specs.Sharing.{Owning};

    ghost Value = { Owning (Allocator C) };

    ghost view = { λ o. record {
      table = o.seat.table_id;
      lists = o.seat.me.0.lists;
      shared = o.seat.me.0.shared;
    } };

    ghost invariant = { λ o. (o.seat.table_id ≡ (arc_value o.table).shared.table_id)
        × ((arc_value o.table).shared.table_id.words ≡ 2)
        × ((arc_value o.table).shared.key ≡ o.seat.me.0.shared)
        × (o.seat.me.0.stage ≡ 3)
        × (o.seat.me.0.lists.claimed ≡ [])
        × (o.seat.me.1 ≡ []) };
}

/// What is left of an owner that gave up. Contracts see what it knows.
#[derive(Drop)]
pub struct OwnerSeat<C: ChunkSource> {
    seat: Place<C>,
}

impl<C: ChunkSource> Model for OwnerSeat<C> {
    ghost use Rattle.arena_pool.specs.declared.claims.rule.ClaimView.{ClaimView};

    ghost Value = { ClaimView };

    ghost view = { λ o. o.seat.me.0.lists };
}

/// The result of giving up: the arena stays with the other owner, or it is freed from both.
#[derive(Drop)]
pub enum GaveUp<C: ChunkSource> {
    /// The other owner has the arena now.
    Stays(OwnerSeat<C>),
    /// The other owner had given up before: this is the arena.
    Freed(Allocator<C>, OwnerSeat<C>),
}

/// Shares an arena between two owners.
///
/// # Errors
///
/// Out of memory. The error returns the arena.
pub fn share<C: ChunkSource + Drop>(
    alloc: Global,
    a: Allocator<C>,
) -> Result<(Owner<C>, Owner<C>), ShareErr<C>>
    ensures one { IfOk result (λ r. r.0 ≡ r.1) }
    ensures new { IfOk result (λ r. (r.0.lists ≡ new_view) × (r.0.shared ≡ a)) }
    ensures err { IfErr result (IsReturned a) }
{
    let Ok((table, mut seat)) = Shelf::<C>::vacant(alloc, &[0, 0], 1, &a) else {
        return Err(ShareErr::OutOfMemory { arena: a });
    };
    let Ok(table) = Arc::new(alloc, table) else {
        return Err(ShareErr::OutOfMemory { arena: a });
    };
    let Ok(other) = Arc::try_clone(&table) else {
        return Err(ShareErr::OutOfMemory { arena: a });
    };
    // Nothing fails from here on, so the arena can be moved.
    table.shared.load::<Take>(&mut seat, 0);
    let _ = table.shared.exchange(&mut seat, 0, Some(a));
    table.shared.load::<Give>(&mut seat, 0);
    let second = table.shared.split_seat::<Two>(&mut seat);
    Ok((
        Owner { table, seat },
        Owner {
            table: other,
            seat: second,
        },
    ))
}

impl<C: ChunkSource + Drop> Owner<C> {
    /// Returns `true` if the other owner hadn't given up yet when word 0 was loaded. If it returns `false`, `give_up`
    /// of this owner frees the arena.
    #[tactic(auto, using(crate::proofs::ClaimLemmas::is_taken))]
    pub fn is_double_owned(&mut self) -> bool
        ensures table { self.new.table ≡ self.old.table }
        ensures shared { self.new.shared ≡ self.old.shared }
        ensures lists { MatchBool result
            (self.new.lists ≡ with_free 0 self.old.lists)
            (self.new.lists ≡ with_taken 0 self.old.lists) }
        ensures before { 0 < times 0 self.old.lists.taken → result ≡ false }
        ensures after { result ≡ false → 0 < times 0 self.new.lists.taken }
    {
        self.table.shared.load::<Look>(&mut self.seat, 0) == 0
    }

    /// Gives up this owner. The first of the two owners to call this leaves the arena to the other; the second gets the
    /// arena.
    pub fn give_up(self) -> GaveUp<C>
        ensures { IsGivenUp self result }
    {
        let Owner { table, mut seat } = self;
        if table.shared.swap::<First>(&mut seat, 0, 1) == 0 {
            return GaveUp::Stays(OwnerSeat { seat });
        }
        table.shared.swap::<Second>(&mut seat, 1, 1);
        let found = table.shared.exchange(&mut seat, 0, None);
        let Some(arena) = found else { unreachable!() };
        GaveUp::Freed(arena, OwnerSeat { seat })
    }
}
