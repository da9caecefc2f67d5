// Words that threads claim, each word by one thread.
ghost use Rattle.std.specs.Prelude.{◌≡◌, ℕ, ◌<◌, ◌≤◌, ◌++◌, IfOk};
ghost use Rattle.arena_pool.specs.Claiming.{new_view, times};

use arena_pool::{ClaimErr, ClaimSeat, Claims};
use std::alloc::Global;
use std::thread::{Threads, join};

/// Tries to claim each of the first `words` words, and returns those that it claimed.
///
/// # Errors
///
/// Out of memory for the list of words. None is claimed.
pub fn claim_all(
    alloc: Global,
    claims: &Claims,
    seat: &mut ClaimSeat,
    words: u32,
) -> Result<Vec<u32>, ClaimErr>
    requires seat { seat.old.table ≡ claims.now }
    requires words { words ≤ claims.now.words }
    ensures table { seat.new.table ≡ claims.now }
    ensures claimed { IfOk result (λ mine. seat.new.view.claimed ≡ seat.old.view.claimed ++ mine.items) }
{
    let mut mine = Vec::with_capacity(alloc, words as usize)?;
    for word in 0..words {
        if claims.claim(seat, word) {
            mine.push_reserved(word);
        }
    }
    Ok(mine)
}

// `claim_all` as the work of one thread, with a seat of its own that hasn't been used yet.
fn shift(
    alloc: Global,
    claims: &Claims,
    seat: ClaimSeat,
    words: u32,
) -> Result<(Vec<u32>, ClaimSeat), ClaimErr>
    requires seat { seat.table ≡ claims.now }
    requires new { seat.view ≡ new_view }
    requires words { words ≤ claims.now.words }
    ensures table { IfOk result (λ r. r.1.table ≡ claims.now) }
    ensures claimed { IfOk result (λ r. r.1.view.claimed ≡ r.0.items) }
{
    let mut seat = seat;
    let mine = claim_all(alloc, claims, &mut seat, words)?;
    Ok((mine, seat))
}

/// Two threads claim words of one table. Returns what each of them claimed: no word is claimed twice, by one or by
/// both.
///
/// # Errors
///
/// Out of memory.
pub fn claim_by_two<R: Threads>(
    rt: &R,
    alloc: Global,
    words: u32,
) -> Result<(Vec<u32>, Vec<u32>), ClaimErr>
    requires { 0 < words }
    ensures { IfOk result (λ r. (w : ℕ) → times w (r.0.items ++ r.1.items) ≤ 1) }
{
    let (claims, mut seat) = Claims::new(alloc, words)?;
    let other = claims.split(&mut seat);
    let (ours, theirs) = join(
        rt,
        || shift(alloc, &claims, seat, words),
        || shift(alloc, &claims, other, words),
    );
    let (ours, mut seat) = ours?;
    let (theirs, other) = theirs?;
    claims.join(&mut seat, other);
    // Each look at a word shows that the seat claimed none twice, and by now this seat has the claims of both.
    let _ = claims.is_claimed(&mut seat, 0);
    Ok((ours, theirs))
}
