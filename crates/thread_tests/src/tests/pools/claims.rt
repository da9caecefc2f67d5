// Tests of words that are claimed, by one seat after another and by many threads at once.
ghost use Rattle.std.specs.Prelude.{◌≡◌, ◌<◌, ◌≤◌, [], ◌∷◌, All, IfOk};
ghost use Rattle.arena_pool.specs.Claiming.{new_view};

use crate::tests::{Rt, holds};
use arena_pool::{ClaimErr, ClaimSeat, Claims};
use example_collections::{claim_all, claim_by_two};
use std::alloc::Global;
use std::process::Abort;
use std::test::*;
use std::thread;

const WORKERS: usize = 64;

const WORDS: u32 = 10_000;

// Claims a word with a seat, tries it again with one that is split off then, and joins the two: the list of the first
// seat has the word once.
fn claimed_once(rt: &impl Abort, claims: &Claims, seat: &mut ClaimSeat)
    requires seat { seat.old.table ≡ claims.now }
    requires new { seat.old.view ≡ new_view }
    requires words { 0 < claims.now.words }
    ensures table { seat.new.table ≡ claims.now }
    ensures list { seat.new.view.claimed ≡ 0 ∷ [] }
{
    assert!(rt; claims.claim(seat, 0), "a word that is free");
    let mut other = claims.split(seat);
    assert!(rt; !claims.claim(&mut other, 0), "a word that is taken");
    claims.join(seat, other);
}

#[test]
fn the_only_word_is_claimed_once(rt: HostRuntime) {
    let (claims, mut seat) = Claims::new(rt.alloc(), 1).ok().expect(&rt, "claims");
    claimed_once(&rt, &claims, &mut seat);
    holds(&rt, claims.is_claimed(&mut seat, 0), "a word that is taken");
}

// Claims the words in order. Before each claim a new seat looks at every word; after it, that seat tries to claim the
// word, and is joined. Returns whether the calls of the new seats claimed or released no word.
fn one_after_another(claims: &Claims, seat: ClaimSeat, words: u32) -> bool
    requires seat { seat.table ≡ claims.now }
    requires words { words ≤ claims.now.words }
{
    let mut seat = seat;
    for word in 0..words {
        let mut other = claims.split(&mut seat);
        for look in 0..words {
            if claims.is_claimed(&mut other, look) != (look < word) {
                return false;
            }
        }
        if !claims.claim(&mut seat, word) || claims.claim(&mut other, word) {
            return false;
        }
        claims.join(&mut seat, other);
    }
    true
}

#[test]
fn words_are_claimed_alone(rt: HostRuntime) {
    for words in [1, 9] {
        let made = Claims::new(rt.alloc(), words);
        let (claims, seat) = made.ok().expect(&rt, "claims");
        assert!(rt; one_after_another(&claims, seat, words));
    }
}

// Returns a seat for each worker.
fn seats(alloc: Global, claims: &Claims, seat: ClaimSeat) -> Result<Vec<ClaimSeat>, ClaimErr>
    requires { seat.table ≡ claims.now }
    ensures { IfOk result (λ all. All (λ s. s.table ≡ claims.now) all.items) }
{
    let mut seat = seat;
    let mut all = Vec::with_capacity(alloc, WORKERS)?;
    for _i in 1..WORKERS {
        all.push_reserved(claims.split(&mut seat));
    }
    all.push_reserved(seat);
    Ok(all)
}

// Each worker tries to claim all words. Returns what each of them claimed.
fn crowd(rt: &impl Rt) -> Vec<Result<Vec<u32>, ClaimErr>> {
    let alloc = rt.alloc();
    let (claims, seat) = Claims::new(alloc, WORDS).ok().expect(rt, "claims");
    let seats = seats(alloc, &claims, seat).ok().expect(rt, "seats");
    let claimed = thread::map_vec(
        rt,
        seats,
        &|seat: ClaimSeat| -> Result<Vec<u32>, ClaimErr>
            requires { (seat.table ≡ claims) × (WORDS ≤ claims.words) }
        {
            let mut seat = seat;
            claim_all(alloc, &claims, &mut seat, WORDS)
        },
    );
    claimed.ok().expect(rt, "words")
}

// Counts the words. Returns whether each of them has a count.
fn count(counts: &mut [u8], words: &[u32]) -> bool {
    for word in words {
        let Some(count) = counts.get_mut(*word as usize) else {
            return false;
        };
        *count = count.saturating_add(1);
    }
    true
}

#[test]
fn threads_claim_each_word_once(rt: HostRuntime) {
    let mut counts = vec![in rt.alloc(); 0u8; WORDS as usize].expect(&rt, "counts");
    for claimed in crowd(&rt) {
        let words = claimed.ok().expect(&rt, "words");
        assert!(rt; count(&mut counts, &words));
    }
    assert!(rt; counts.iter().all(|count| *count == 1));
}

#[test]
fn two_threads_claim_each_word_once(rt: HostRuntime) {
    let claimed = claim_by_two(&rt, rt.alloc(), 9);
    let (ours, theirs) = claimed.ok().expect(&rt, "words");
    let mut counts = [0; 9];
    holds(&rt, count(&mut counts, &ours), "words");
    holds(&rt, count(&mut counts, &theirs), "words");
    assert!(rt; counts.iter().all(|count| *count == 1));
}
