//! The arena's rules of places for memory that isn't the arena's: a cursor between two addresses of a program in C, and
//! the chunks that such a program asks for if its arena grows.
//!
//! The functions compute numbers from any numbers, and neither use the memory nor take any. All but `arena_cursor_find`
//! return a code, and change something only if that is 0. `CALLING.md` has the codes.
#![tactic(auto)]

ghost use Rattle.std.specs.Prelude.{◌≡◌, ◌≢◌, ◌+◌, ◌-◌, ◌%◌, ◌^◌, ◌≤◌, ◌&&◌, IsTrue, false, true, Some, None, nat_le, nat_lt, is_some};
ghost use Rattle.std.specs.Option.{option_map_or};
ghost use Rattle.arena_rules.specs.Rounding.{is_layout};
ghost use Rattle.arena_rules.specs.State.{is_min_align, start_of, cursor_of, used_bytes, allocated_bytes};
ghost use Rattle.arena_rules.specs.Search.{place_below, size_for};
ghost use Rattle.arena_rules.specs.Moves.{dealloc, grow, shrink, emptied, with_chunk};
ghost use Rattle.arena_rules.specs.Creation.{empty_state};
ghost use Rattle.arena_cursor.specs.Steps.{is_valid, is_in_use, is_outside, is_mark, arena_of, answer_of, refuses_growth, growth_outside, shrinking_outside, IsCode, IsStep, IsResized};
ghost use Rattle.arena_cursor.specs.Growing.{size_after, IsRequest, IsRequestCode, is_region};

mod cursor;
mod growing;
mod laws;
#[cfg(test)]
mod tests;

use arena_place::Layout;
use cursor::{find, is_min_align, is_region};
pub use cursor::{Counts, Cursor};
pub use growing::Chunk;
use growing::{request_after, request_for};
pub use laws::{any_address, any_older};

// The codes.
const DONE: u32 = 0;

const NO_PLACE: u32 = 1;

const BAD_LAYOUT: u32 = 2;

const BAD_CURSOR: u32 = 3;

const OUT_OF_RANGE: u32 = 4;

const REFUSED: u32 = 5;
// A block without a byte in the chunk is allocated again, or stays.
const ELSEWHERE: u32 = 6;

const STAYS: u32 = 7;

/// Returns where a block of this size and alignment, in bytes, is placed below a cursor, by the rule `place_below`.
///
/// Returns 0 if there is no place or layout, if the start is 0, or if the least alignment is none of 1, 2, 4, 8 and 16.
/// This is `arena_cursor_place` on numbers: a caller that keeps a valid cursor moves it to the result.
#[unsafe(no_mangle)]
pub extern "C" fn arena_cursor_find(
    start: u64,
    cursor: u64,
    size: u64,
    align: u64,
    min_align: u64,
) -> u64
    ensures refused { (nat_lt 0 start && is_min_align min_align && is_layout size align) ≡ false → result ≡ 0 }
    ensures found { (nat_lt 0 start && is_min_align min_align && is_layout size align) ≡ true
        → result ≡ option_map_or (λ p. p) (place_below start cursor size align min_align) 0 }
    ensures aligned { result ≢ 0 → result % align ≡ 0 }
    ensures least { result ≢ 0 → result % min_align ≡ 0 }
    ensures low { result ≢ 0 → start ≤ result }
    ensures high { result ≢ 0 → result + size ≤ cursor }
{
    if start == 0 || !is_min_align(min_align) {
        return 0;
    }
    let Some(layout) = Layout::new(size, align) else {
        return 0;
    };
    match find(start, cursor, layout, min_align) {
        Some(p) => p,
        None => 0,
    }
}

/// Places a block of this size and alignment, in bytes, below the cursor, and writes its address to `addr`, by the rule
/// `place_below`.
///
/// Returns 0; 1 if there is no place; 2 if size and alignment are no layout; 3 for a cursor that isn't valid.
#[unsafe(no_mangle)]
pub extern "C" fn arena_cursor_place(at: &mut Cursor, size: u64, align: u64, addr: &mut u64) -> u32
    ensures bad_cursor { is_valid at.old ≡ false → result ≡ 3 }
    ensures no_layout { is_valid at.old ≡ true → is_layout size align ≡ false → result ≡ 2 }
    ensures no_place { is_valid at.old ≡ true → is_layout size align ≡ true
        → place_below at.old.start at.old.cursor size align at.old.min_align ≡ None → result ≡ 1 }
    ensures some_place { is_valid at.old ≡ true → is_layout size align ≡ true
        → place_below at.old.start at.old.cursor size align at.old.min_align ≢ None → result ≡ 0 }
    ensures placed { result ≡ 0 → place_below at.old.start at.old.cursor size align at.old.min_align ≡ Some addr.new }
    ensures moved { result ≡ 0 → at.new ≡ record at.old { cursor = addr.new } }
    ensures aligned { result ≡ 0 → addr.new % align ≡ 0 }
    ensures low { result ≡ 0 → at.old.start ≤ addr.new }
    ensures high { result ≡ 0 → addr.new + size ≤ at.old.cursor }
    ensures valid { IsTrue (is_valid at.old) → IsTrue (is_valid at.new) }
    ensures same { result ≢ 0 → at.new ≡ at.old }
    ensures kept { result ≢ 0 → addr.new ≡ addr.old }
{
    if !at.is_valid() {
        return BAD_CURSOR;
    }
    let Some(block) = Layout::new(size, align) else {
        return BAD_LAYOUT;
    };
    match at.alloc(block) {
        Some(p) => {
            *addr = p;
            DONE
        }
        None => NO_PLACE,
    }
}

/// Gives the block of this size, in bytes, at `addr` back, by the rule `dealloc`: the cursor moves only if the block is
/// at it.
///
/// Returns 0; 3 for a cursor that isn't valid; 4 if the block isn't in use; 7, as the rule does nothing, if it isn't but
/// is empty, or below the start or past the end, in another chunk.
#[unsafe(no_mangle)]
#[tactic(auto, using(crate::proofs::StepLemmas::outside_laws))]
pub extern "C" fn arena_cursor_give_back(at: &mut Cursor, addr: u64, size: u64) -> u32
    ensures bad_cursor { is_valid at.old ≡ false → result ≡ 3 }
    ensures no_block { is_valid at.old ≡ true → is_in_use at.old addr size ≡ false → is_outside at.old addr size ≡ false
        → result ≡ 4 }
    ensures elsewhere { is_valid at.old ≡ true → is_in_use at.old addr size ≡ false → is_outside at.old addr size ≡ true
        → (result ≡ 7) × (dealloc (arena_of at.old) addr size ≡ arena_of at.old) }
    ensures done { is_valid at.old ≡ true → is_in_use at.old addr size ≡ true → result ≡ 0 }
    ensures step { result ≡ 0 → arena_of at.new ≡ dealloc (arena_of at.old) addr size }
    ensures ends { (at.new.start ≡ at.old.start) × (at.new.end ≡ at.old.end) }
    ensures min_align { at.new.min_align ≡ at.old.min_align }
    ensures valid { IsTrue (is_valid at.old) → IsTrue (is_valid at.new) }
    ensures same { result ≢ 0 → at.new ≡ at.old }
{
    if !at.is_valid() {
        return BAD_CURSOR;
    }
    if !at.is_in_use(addr, size) {
        return if at.is_outside(addr, size) {
            STAYS
        } else {
            OUT_OF_RANGE
        };
    }
    at.dealloc(addr, size);
    DONE
}

/// Grows the block at `addr` to `new_size` bytes, by the rule `grow`, and writes its new address there. If that differs,
/// the caller moves the block's bytes. The new block may overlap the old one.
///
/// Returns 0; 1 if there is no place; 2 if a size and its alignment are no layout; 3 for a cursor that isn't valid; 4 if
/// the block isn't in use or the new size is smaller; 5 if the rule refuses at once, as the growth is no layout; 6 if the
/// block isn't in use but is empty, or below the start or past the end, in another chunk: by the rule it is allocated
/// again. Of several, 3 comes first, then 2.
#[unsafe(no_mangle)]
#[tactic(auto, using(crate::proofs::StepLemmas::outside_laws))]
pub extern "C" fn arena_cursor_grow(
    at: &mut Cursor,
    addr: &mut u64,
    size: u64,
    align: u64,
    new_size: u64,
    new_align: u64,
) -> u32
    ensures code { IsCode (is_valid at.old) (is_layout size align && is_layout new_size new_align) (nat_le size new_size)
        (is_in_use at.old addr.old size) (is_outside at.old addr.old size)
        (refuses_growth at.old addr.old size align new_size new_align)
        (growth_outside at.old addr.old size align new_size new_align) result }
    ensures step { result ≤ 1 → IsStep
        (grow (arena_of at.old) addr.old size align new_size new_align 0) at.old at.new (answer_of result addr.new) }
    ensures resized { result ≡ 0 → IsResized at.old at.new addr.old size addr.new new_size }
    ensures aligned { result ≡ 0 → addr.old % align ≡ 0 → addr.new % new_align ≡ 0 }
    ensures valid { IsTrue (is_valid at.old) → IsTrue (is_valid at.new) }
    ensures same { result ≢ 0 → at.new ≡ at.old }
    ensures kept { result ≢ 0 → addr.new ≡ addr.old }
{
    if !at.is_valid() {
        return BAD_CURSOR;
    }
    let Some(from) = Layout::new(size, align) else {
        return BAD_LAYOUT;
    };
    let Some(to) = Layout::new(new_size, new_align) else {
        return BAD_LAYOUT;
    };
    if new_size < size {
        return OUT_OF_RANGE;
    }
    if !at.is_in_use(*addr, size) {
        return if at.is_outside(*addr, size) {
            ELSEWHERE
        } else {
            OUT_OF_RANGE
        };
    }
    if at.refuses(*addr, from, to) {
        return REFUSED;
    }
    match at.grow(*addr, from, to) {
        Some(p) => {
            *addr = p;
            DONE
        }
        None => NO_PLACE,
    }
}

/// Shrinks the block at `addr` to `new_size` bytes, by the rule `shrink`, and writes its new address there. If that
/// differs, the caller moves the block's first `new_size` bytes. The new block may overlap the old one.
///
/// Returns the codes of `arena_cursor_grow` but 5, with 4 where the new size is greater, and 7 in place of 6 where the
/// block stays by the rule.
#[unsafe(no_mangle)]
#[tactic(auto, using(crate::proofs::StepLemmas::outside_laws))]
pub extern "C" fn arena_cursor_shrink(
    at: &mut Cursor,
    addr: &mut u64,
    size: u64,
    align: u64,
    new_size: u64,
    new_align: u64,
) -> u32
    ensures code { IsCode (is_valid at.old) (is_layout size align && is_layout new_size new_align) (nat_le new_size size)
        (is_in_use at.old addr.old size) (is_outside at.old addr.old size) false
        (shrinking_outside at.old addr.old size align new_size new_align) result }
    ensures step { result ≤ 1 → IsStep
        (shrink (arena_of at.old) addr.old size align new_size new_align 0) at.old at.new (answer_of result addr.new) }
    ensures resized { result ≡ 0 → IsResized at.old at.new addr.old size addr.new new_size }
    ensures aligned { result ≡ 0 → addr.old % align ≡ 0 → addr.new % new_align ≡ 0 }
    ensures valid { IsTrue (is_valid at.old) → IsTrue (is_valid at.new) }
    ensures same { result ≢ 0 → at.new ≡ at.old }
    ensures kept { result ≢ 0 → addr.new ≡ addr.old }
{
    if !at.is_valid() {
        return BAD_CURSOR;
    }
    let Some(from) = Layout::new(size, align) else {
        return BAD_LAYOUT;
    };
    let Some(to) = Layout::new(new_size, new_align) else {
        return BAD_LAYOUT;
    };
    if size < new_size {
        return OUT_OF_RANGE;
    }
    if !at.is_in_use(*addr, size) {
        return at.code_elsewhere(*addr, from, to);
    }
    match at.shrink(*addr, from, to) {
        Some(p) => {
            *addr = p;
            DONE
        }
        None => NO_PLACE,
    }
}

/// Moves the cursor back up to `mark`, an address at which it was: what was placed since is given back.
///
/// Returns 0; 3 for a cursor that isn't valid; 4 if the mark is below it, past the end, or not at the least alignment.
#[unsafe(no_mangle)]
#[tactic(auto, using(crate::proofs::PlaceLemmas::mark_valid))]
pub extern "C" fn arena_cursor_back(at: &mut Cursor, mark: u64) -> u32
    ensures bad_cursor { is_valid at.old ≡ false → result ≡ 3 }
    ensures no_mark { is_valid at.old ≡ true → is_mark at.old mark ≡ false → result ≡ 4 }
    ensures done { is_valid at.old ≡ true → is_mark at.old mark ≡ true → result ≡ 0 }
    ensures back { result ≡ 0 → at.new ≡ record at.old { cursor = mark } }
    ensures valid { IsTrue (is_valid at.old) → IsTrue (is_valid at.new) }
    ensures same { result ≢ 0 → at.new ≡ at.old }
{
    if !at.is_valid() {
        return BAD_CURSOR;
    }
    if !at.is_mark(mark) {
        return OUT_OF_RANGE;
    }
    at.cursor = mark;
    DONE
}

/// Writes the request for a chunk for a tried size and a block of this size and alignment, by the rule `size_for`.
///
/// Returns 0; 1 if no chunk is that large; 2 if size and alignment are no layout; 4 if the tried size is 0.
#[unsafe(no_mangle)]
pub extern "C" fn arena_cursor_chunk(tried: u64, size: u64, align: u64, chunk: &mut Chunk) -> u32
    ensures code { IsRequestCode (is_layout size align) (nat_lt 0 tried) (is_some (size_for tried size align)) result }
    ensures size { result ≡ 0 → size_for tried size align ≡ Some chunk.new.size }
    ensures request { result ≡ 0 → IsRequest size align chunk.new }
    ensures same { result ≢ 0 → chunk.new ≡ chunk.old }
{
    let Some(layout) = Layout::new(size, align) else {
        return BAD_LAYOUT;
    };
    if tried == 0 {
        return OUT_OF_RANGE;
    }
    match request_for(tried, layout) {
        Some(request) => {
            *chunk = request;
            DONE
        }
        None => NO_PLACE,
    }
}

/// Writes the request for a new chunk, for a block that has no place in the newest chunk, after this many requests for it
/// were refused: the size that a growing arena asks for then. `newest` is the data size of the newest chunk, 0 if there
/// is none.
///
/// Returns 0; 1 if the arena asks no more; 2 if size and alignment are no layout; 4 if `newest` is 2^63 or more.
#[unsafe(no_mangle)]
pub extern "C" fn arena_cursor_next_chunk(
    newest: u64,
    size: u64,
    align: u64,
    refused: u32,
    chunk: &mut Chunk,
) -> u32
    ensures code { IsRequestCode (is_layout size align) (nat_lt newest (2 ^ 63))
        (is_some (size_after newest size align refused)) result }
    ensures size { result ≡ 0 → size_after newest size align refused ≡ Some chunk.new.size }
    ensures request { result ≡ 0 → IsRequest size align chunk.new }
    ensures same { result ≢ 0 → chunk.new ≡ chunk.old }
{
    let Some(layout) = Layout::new(size, align) else {
        return BAD_LAYOUT;
    };
    if newest >= 1 << 63 {
        return OUT_OF_RANGE;
    }
    match request_after(newest, layout, refused) {
        Some(request) => {
            *chunk = request;
            DONE
        }
        None => NO_PLACE,
    }
}

/// Makes the cursor that of a new chunk with these bytes for blocks, with nothing in use.
///
/// Returns 0; 4 if the base is 0, or the end exceeds the last address or is no multiple of the least alignment.
#[unsafe(no_mangle)]
#[tactic(auto, using(arena_rules::proofs::RoundingLemmas::min_align_power))]
pub extern "C" fn arena_cursor_enter(at: &mut Cursor, base: u64, size: u64, min_align: u64) -> u32
    ensures no_region { is_region base size min_align ≡ false → result ≡ 4 }
    ensures done { is_region base size min_align ≡ true → result ≡ 0 }
    ensures entered { result ≡ 0 → (arena_of at.new).chunks ≡ (with_chunk (base, size) (empty_state min_align)).chunks }
    ensures min_align { result ≡ 0 → at.new.min_align ≡ min_align }
    ensures valid { result ≡ 0 → IsTrue (is_valid at.new) }
    ensures same { result ≢ 0 → at.new ≡ at.old }
{
    if !is_region(base, size, min_align) {
        return OUT_OF_RANGE;
    }
    *at = Cursor::entered(base, size, min_align);
    DONE
}

/// Gives everything back, by the rule `emptied`: the cursor moves to the end.
///
/// Returns 0; 3 for a cursor that isn't valid.
#[unsafe(no_mangle)]
pub extern "C" fn arena_cursor_reset(at: &mut Cursor) -> u32
    ensures bad_cursor { is_valid at.old ≡ false → result ≡ 3 }
    ensures done { is_valid at.old ≡ true → result ≡ 0 }
    ensures emptied { result ≡ 0 → (arena_of at.new).chunks ≡ emptied (arena_of at.old).chunks }
    ensures min_align { at.new.min_align ≡ at.old.min_align }
    ensures valid { IsTrue (is_valid at.old) → IsTrue (is_valid at.new) }
    ensures same { result ≢ 0 → at.new ≡ at.old }
{
    if !at.is_valid() {
        return BAD_CURSOR;
    }
    at.empty();
    DONE
}

/// Writes how many of the chunk's bytes there are, how many are in use, and how many are below the cursor.
///
/// Returns 0; 3 for a cursor that isn't valid.
#[unsafe(no_mangle)]
pub extern "C" fn arena_cursor_count(at: &Cursor, counts: &mut Counts) -> u32
    ensures bad_cursor { is_valid at.now ≡ false → result ≡ 3 }
    ensures done { is_valid at.now ≡ true → result ≡ 0 }
    ensures used { result ≡ 0 → counts.new.used ≡ used_bytes (arena_of at.now) }
    ensures size { result ≡ 0 → counts.new.size ≡ allocated_bytes (arena_of at.now) }
    ensures free { result ≡ 0 → counts.new.free ≡ cursor_of (arena_of at.now).chunks - start_of (arena_of at.now).chunks }
    ensures same { result ≢ 0 → counts.new ≡ counts.old }
{
    if !at.is_valid() {
        return BAD_CURSOR;
    }
    *counts = at.counts();
    DONE
}
