// Tests of books: how they are made, and one that lends its only arena twice.
ghost use Rattle.std.specs.Prelude.{◌≡◌};
ghost use Rattle.arena_pool.specs.Kinds.{HasId, IsOfKind};
ghost use Rattle.thread_tests.specs.declared.tests.pools.TheConstants.{SMALL};

use super::{SMALL, marks};
use crate::tests::{Plan, Rt, are_counts, says};
use arena_chunks::{Allocator, MemoryChunks};
use arena_pool::laws::{events, puts};
use arena_pool::{Book, ClaimErr, MemoryMaker, PoolErr, PoolKind};
use std::process::Abort;
use std::test::*;

// An arena that a book of small arenas lent.
#[derive(Drop)]
struct Lent {
    arena: Allocator<MemoryChunks>,
    id: Option<u32>,
    ghost of_kind: { IsOfKind SMALL arena.memory.state },
    ghost has_id: { HasId SMALL id },
}

fn book_of(rt: &impl Rt, plan: Plan) -> Book<MemoryMaker>
    ensures { result.kind ≡ plan.0 }
{
    let (alloc, (kind, limit, arenas)) = (rt.alloc(), plan);
    let maker = MemoryMaker::new(alloc, 1 << 20);
    let book = match (kind, limit) {
        (PoolKind::Standard, None) => Book::new(alloc, arenas, maker),
        (PoolKind::Standard, Some(limit)) => Book::new_with_limit(alloc, arenas, limit, maker),
        (PoolKind::FixedSize { bytes }, limit) => {
            assert!(rt; bytes % 16 == 0 && bytes >= 48 && limit.is_none());
            Book::new_fixed(alloc, arenas, bytes, maker)
        }
    };
    book.ok().expect(rt, "a book")
}

#[tactic(auto, using(arena_pool::proofs::Layers::event_laws))]
fn lend(book: &mut Book<MemoryMaker>) -> Result<Lent, PoolErr>
    requires { book.old.kind ≡ SMALL }
    ensures { book.new.kind ≡ SMALL }
{
    events();
    let (arena, id) = book.take()?;
    Ok(Lent { arena, id })
}

#[tactic(auto, using(arena_pool::proofs::Layers::event_laws))]
fn store(rt: &impl Abort, book: &mut Book<MemoryMaker>, lent: Lent)
    requires { book.old.kind ≡ SMALL }
    ensures { book.new.kind ≡ SMALL }
{
    puts();
    assert!(rt; book.counts().lent > 0);
    book.store(lent.arena, lent.id);
}

// Checks that an empty arena with id 0 and 64 bytes is lent, and marks it.
fn lends(rt: &impl Abort, book: &mut Book<MemoryMaker>) -> Lent
    requires { book.old.kind ≡ SMALL }
    ensures { book.new.kind ≡ SMALL }
{
    let Lent { mut arena, id } = lend(book).ok().expect(rt, "an arena");
    assert!(rt; id == Some(0));
    assert_eq!(rt; arena.capacity(), 64);
    assert!(rt; marks(&mut arena, 7));
    Lent { arena, id }
}

#[test]
fn one_arena_is_lent_again(rt: HostRuntime) {
    let mut book = book_of(&rt, (SMALL, None, 1));
    let lent = lends(&rt, &mut book);
    assert!(rt; lend(&mut book).err() == Some(PoolErr::PoolEmpty));
    are_counts(&rt, book.counts(), (1, 0, 1, 0));
    store(&rt, &mut book, lent);
    are_counts(&rt, book.counts(), (1, 1, 0, 0));
    let _ = lends(&rt, &mut book);
}

#[test]
fn new_books(rt: HostRuntime) {
    for limit in [None, Some(16320)] {
        let book = book_of(&rt, (PoolKind::Standard, limit, 2));
        assert!(rt; book.limit() == limit);
        are_counts(&rt, book.counts(), (2, 2, 0, 0));
    }
}

#[test]
fn a_region_that_no_memory_has(rt: HostRuntime) {
    let maker = MemoryMaker::new(rt.alloc(), 0);
    let made = Book::new_fixed(rt.alloc(), 1, 1 << 62, maker);
    assert!(rt; made.is_err());
}

#[test]
fn errors_say_their_texts(rt: HostRuntime) -> Result<(), Fail> {
    says(&rt, &PoolErr::PoolEmpty, "pool is empty")?;
    says(&rt, &PoolErr::OutOfMemory, "out of memory")?;
    says(&rt, &PoolErr::Limit, "pool limit reached")?;
    says(&rt, &ClaimErr::OutOfMemory, "out of memory")
}
