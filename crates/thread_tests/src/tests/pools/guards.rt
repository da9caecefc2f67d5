// Tests of guards, one after another and three at once.
ghost use Rattle.std.specs.Prelude.{◌≡◌};
ghost use Rattle.arena_pool.specs.Kinds.{IsOfKind};
ghost use Rattle.arena_pool.specs.Names.{IsBlankOf};
ghost use Rattle.arena_pool.specs.declared.kind.PoolKind.{PoolKind};

use super::{SMALL, places};
use crate::tests::{All, Plan, Pool, Rt, are_counts, holds, pool_of};
use arena_chunks::{Allocator, ChunkSource};
use arena_place::Layout;
use arena_pool::{AllocatorGuard, MOST_LENT, MemoryMaker, PoolKind, PoolName};
use std::marker::Brand;
use std::sync::ledger::Blank;
use std::test::*;

type Guard<'a, L> = AllocatorGuard<'a, MemoryMaker, L>;

fn lent<'a, L: PoolName>(rt: &impl Rt, pool: &'a Pool<L>) -> Guard<'a, L>
    ensures { IsOfKind L.kind result.0.memory.state }
{
    pool.get(rt).ok().expect(rt, "an arena")
}

// An arena that is borrowed: its id, its capacity when it is lent, the size of a further block that is placed in it
// after one of a byte, whether it is given up, and the pool's counts while the guard is held and after that.
type Borrow = (Option<u32>, u64, Option<u64>, bool, All, All);

fn id_of<L: PoolName>(guard: &Guard<'_, L>) -> Option<u32> {
    guard.fixed_size_metadata().map(|metadata| metadata.id)
}

// Whether an arena is empty, has the row's capacity, and has places for a block of a byte and for the further one.
fn has_places<C: ChunkSource>(a: &mut Allocator<C>, row: &Borrow) -> bool
    ensures { (kind : PoolKind) → IsOfKind kind a.old.memory.state → IsOfKind kind a.new.memory.state }
{
    let (_, capacity, further, _, _, _) = *row;
    let is_unused = a.used_bytes() == 0 && a.capacity() == capacity;
    let is_placed = places(a, 1);
    match further {
        Some(size) => places(a, size) && is_placed && is_unused,
        None => is_placed && is_unused,
    }
}

// Whether a guard has the row's id, and its arena has these places.
fn is_lent<L: PoolName>(guard: &mut Guard<'_, L>, row: &Borrow) -> bool
    requires { IsOfKind L.kind guard.old.0.memory.state }
    ensures { IsOfKind L.kind guard.new.0.memory.state }
{
    let has_id = id_of(guard) == row.0;
    has_places(guard.parts_mut(), row) && has_id
}

fn borrows_of<L: PoolName>(rt: &impl Rt, plan: Plan, rows: &[Borrow], blank: Blank)
    requires blank { IsBlankOf L.name L.parts blank }
    requires kind { L.kind ≡ plan.0 }
    requires limit { L.limit ≡ plan.1 }
{
    let pool = pool_of::<L>(rt, plan, blank);
    for row in rows {
        let (_, _, _, gives_up, held, after) = *row;
        let mut guard = lent(rt, &pool);
        are_counts(rt, pool.counts(rt), held);
        holds(rt, is_lent(&mut guard, row), "id, bytes and blocks");
        if gives_up {
            let _ = guard.give_up(rt);
        } else {
            guard.put_back(rt);
        }
        are_counts(rt, pool.counts(rt), after);
    }
}

// Each pool, and the borrows.
const BORROWS: &[(Plan, &[Borrow])] = &[
    (
        (SMALL, None, 1),
        &[
            (Some(0), 64, None, false, (1, 0, 1, 0), (1, 1, 0, 0)),
            (Some(0), 64, None, true, (1, 0, 1, 0), (1, 0, 0, 1)),
        ],
    ),
    // As many arenas as asked for.
    (
        (PoolKind::Standard, None, 9),
        &[(None, 0, None, false, (9, 8, 1, 0), (9, 9, 0, 0))],
    ),
    (
        (PoolKind::Standard, Some(16320), 9),
        &[(None, 0, None, false, (9, 8, 1, 0), (9, 9, 0, 0))],
    ),
    (
        (SMALL, None, 9),
        &[(Some(8), 64, None, false, (9, 8, 1, 0), (9, 9, 0, 0))],
    ),
    // A pool without an arena makes one.
    (
        (PoolKind::Standard, None, 0),
        &[(None, 0, None, false, (1, 0, 1, 0), (1, 1, 0, 0))],
    ),
    // The arena comes back with its first chunk, of 16320 bytes, and then with a second one, which exceeds the limit.
    (
        (PoolKind::Standard, Some(16320), 1),
        &[
            (None, 0, None, false, (1, 0, 1, 0), (1, 1, 0, 0)),
            (None, 16320, Some(16320), false, (1, 0, 1, 0), (1, 0, 0, 1)),
            (None, 0, None, false, (2, 0, 1, 1), (2, 1, 0, 1)),
        ],
    ),
];

#[test]
fn borrows(rt: HostRuntime) {
    for (plan, rows) in BORROWS {
        borrows_of::<Brand>(&rt, *plan, rows, Blank::new(MOST_LENT));
    }
}

// Leaves a byte in an arena's first block. Returns the byte that was there, which an earlier borrower left.
#[tactic(auto, using(arena_pool::proofs::Layers::placed_of_kind, arena_pool::proofs::Layers::wrote_of_kind))]
fn leave<C: ChunkSource>(a: &mut Allocator<C>, mark: u8) -> Option<u8>
    ensures { (kind : PoolKind) → IsOfKind kind a.old.memory.state → IsOfKind kind a.new.memory.state }
{
    let block = a.alloc_layout(Layout::new(1, 1)?).ok()?;
    let left = a.read(block).first().copied();
    a.write(block, 0, &[mark]);
    left
}

// Returns the id of a guard as a bit if its arena has the byte that this id leaves, or 0 the first time; otherwise
// returns 0.
fn id_bit<L: PoolName>(guard: &mut Guard<'_, L>, is_first: bool) -> u32
    requires { IsOfKind L.kind guard.old.0.memory.state }
    ensures { IsOfKind L.kind guard.new.0.memory.state }
{
    let Some(id) = id_of(guard) else { return 0 };
    let id = id % 8;
    let mark = id as u8 + 1;
    let left = leave(guard.parts_mut(), mark);
    if left == Some(if is_first { 0 } else { mark }) {
        1 << id
    } else {
        0
    }
}

// Returns the ids of three guards that are held at once, as bits. They are given back in another order.
fn ids_of_three<L: PoolName>(rt: &impl Rt, pool: &Pool<L>, is_first: bool) -> u32 {
    let mut first = lent(rt, pool);
    let mut second = lent(rt, pool);
    let mut third = lent(rt, pool);
    let ids = id_bit(&mut first, is_first)
        | id_bit(&mut second, is_first)
        | id_bit(&mut third, is_first);
    second.put_back(rt);
    first.put_back(rt);
    third.put_back(rt);
    ids
}

fn guards_of_three<L: PoolName>(rt: &impl Rt, plan: Plan, blank: Blank)
    requires blank { IsBlankOf L.name L.parts blank }
    requires kind { L.kind ≡ plan.0 }
    requires limit { L.limit ≡ plan.1 }
{
    let pool = pool_of::<L>(rt, plan, blank);
    for round in 0..3 {
        holds(rt, ids_of_three(rt, &pool, round == 0) == 7, "three ids");
    }
}

#[test]
fn guards_that_are_held_at_once(rt: HostRuntime) {
    guards_of_three::<Brand>(&rt, (SMALL, None, 3), Blank::new(MOST_LENT));
}
