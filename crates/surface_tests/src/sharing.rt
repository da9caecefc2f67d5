// Public items of claims, and of arenas with two owners.
use crate::kinds::is_error;
use arena_chunks::{Allocator, ChunkSource};
use arena_pool::{ClaimErr, ClaimSeat, Claims, GaveUp, Owner, OwnerSeat, ShareErr, share};
use std::alloc::Global;

fn claims() {
    let _: fn(Global, u32) -> Result<(Claims, ClaimSeat), ClaimErr> = Claims::new;
    let _: fn(&Claims, &mut ClaimSeat) -> ClaimSeat = Claims::split;
    let _: fn(&Claims, &mut ClaimSeat, u32) -> bool = Claims::claim;
    let _: fn(&Claims, &mut ClaimSeat, u32) -> bool = Claims::is_claimed;
    let _: fn(&Claims, &mut ClaimSeat, ClaimSeat) = Claims::join;
    is_error::<ClaimErr>();
}

fn refused(e: ClaimErr) {
    match e {
        ClaimErr::OutOfMemory => {}
    }
}

fn handed_back<C: ChunkSource>(e: ShareErr<C>) -> Allocator<C> {
    match e {
        ShareErr::OutOfMemory { arena } => arena,
    }
}

fn owned<C: ChunkSource + Drop>(alloc: Global, a: Allocator<C>, owner: &mut Owner<C>) {
    return;
    let _: Result<(Owner<C>, Owner<C>), ShareErr<C>> = share(alloc, a);
    let _: bool = owner.is_double_owned();
}

fn given_up<C: ChunkSource + Drop>(owner: Owner<C>) -> GaveUp<C> {
    owner.give_up()
}

fn seat<C: ChunkSource + Drop>(gave_up: GaveUp<C>) -> (Option<Allocator<C>>, OwnerSeat<C>) {
    match gave_up {
        GaveUp::Stays(seat) => (None, seat),
        GaveUp::Freed(arena, seat) => (Some(arena), seat),
    }
}
