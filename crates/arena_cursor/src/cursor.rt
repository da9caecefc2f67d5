// A cursor between two addresses, and the steps of the rules on it.
ghost use Rattle.std.specs.Prelude.{◌≡◌, ◌+◌, ◌-◌, ◌%◌, ◌<◌, ◌≤◌, IsTrue, IfSome, IfNone, is_some, false, true};
ghost use Rattle.arena_rules.specs.Rounding.{up, down, is_layout, is_power};
ghost use Rattle.arena_rules.specs.Search.{place_below};
ghost use Rattle.arena_rules.specs.State.{is_min_align, start_of, cursor_of, used_bytes, allocated_bytes};
ghost use Rattle.arena_rules.specs.Moves.{dealloc, grow, shrink, emptied, with_chunk};
ghost use Rattle.arena_rules.specs.Creation.{empty_state};
ghost use Rattle.arena_cursor.specs.Growing.{is_region};
ghost use Rattle.arena_cursor.specs.Steps.{is_valid, are_aligned, is_in_use, is_outside, is_mark, refuses_growth, shrinking_outside, arena_of, MovesTo, IsStep, IsResized};

use crate::{ELSEWHERE, OUT_OF_RANGE, STAYS};
use arena_place::{Layout, is_aligned_to, place, round_down_to, round_up_to_unchecked};

// Returns how many of the last bytes of a block can be given back, so that its address keeps this alignment.
#[tactic(auto, using(crate::proofs::PlaceLemmas::down_below))]
fn freed(most: u64, align: u64) -> u64
    requires { IsTrue (is_power align) }
    ensures value { result ≡ down most align }
    ensures small { result ≤ most }
{
    round_down_to(most, align)
}

// Returns whether this is a least alignment of an arena.
pub(crate) fn is_min_align(n: u64) -> bool
    ensures { result ≡ is_min_align n }
{
    n == 1 || n == 2 || n == 4 || n == 8 || n == 16
}

// Returns whether an arena with this least alignment may have a chunk with these bytes.
#[tactic(auto, using(arena_rules::proofs::RoundingLemmas::min_align_power))]
pub(crate) fn is_region(base: u64, size: u64, min_align: u64) -> bool
    ensures { result ≡ is_region base size min_align }
{
    0 < base
        && size <= u64::MAX - base
        && is_min_align(min_align)
        && is_aligned_to(base + size, min_align)
}

// Returns where a block is placed below a cursor, or `None` if there is no place.
#[tactic(auto, using(crate::proofs::PlaceLemmas::find_laws))]
pub(crate) fn find(start: u64, cursor: u64, layout: Layout, min_align: u64) -> Option<u64>
    requires start { 0 < start }
    requires min_align { IsTrue (is_min_align min_align) }
    ensures found { result ≡ place_below start cursor layout.size layout.align min_align }
    ensures low { IfSome result (λ p. start ≤ p) }
    ensures high { IfSome result (λ p. p + layout.size ≤ cursor) }
    ensures aligned { IfSome result (λ p. p % layout.align ≡ 0) }
    ensures least { IfSome result (λ p. p % min_align ≡ 0) }
{
    match place(start, cursor, layout, min_align) {
        Some(p) => Some(p),
        None => None,
    }
}

/// A cursor that moves down from `end` to `start`, all three addresses of the caller's own memory. The bytes from the
/// cursor up to the end are in use.
#[repr(C)]
#[derive(Clone, Copy)]
pub struct Cursor {
    /// The lowest address, above 0.
    pub start: u64,
    /// The lowest address in use, or `end` if none is; a multiple of the least alignment.
    pub cursor: u64,
    /// One past the highest address; a multiple of the least alignment.
    pub end: u64,
    /// The least alignment of blocks: 1, 2, 4, 8 or 16.
    pub min_align: u64,
}

/// How many bytes of a chunk there are.
#[repr(C)]
#[derive(Clone, Copy)]
pub struct Counts {
    /// In use: from the cursor up.
    pub used: u64,
    /// In all.
    pub size: u64,
    /// Below the cursor.
    pub free: u64,
}

impl Cursor {
    // Returns whether the cursor and the end are multiples of the least alignment, which is one.
    #[tactic(auto, using(crate::proofs::PlaceLemmas::least_laws))]
    fn are_aligned(&self) -> bool
        ensures { result ≡ are_aligned self.now }
    {
        is_min_align(self.min_align)
            && is_aligned_to(self.cursor, self.min_align)
            && is_aligned_to(self.end, self.min_align)
    }

    // Returns whether the cursor is between its start, which is above 0, and its end, and aligned as that is.
    pub(crate) fn is_valid(&self) -> bool
        ensures { result ≡ is_valid self.now }
    {
        0 < self.start && self.start <= self.cursor && self.cursor <= self.end && self.are_aligned()
    }

    // Returns whether a block is between the cursor and the end.
    pub(crate) fn is_in_use(&self, addr: u64, size: u64) -> bool
        ensures { result ≡ is_in_use self.now addr size }
    {
        self.cursor <= addr && addr <= self.end && size <= self.end - addr
    }

    // Returns whether a block is empty, or below the start or past the end.
    pub(crate) fn is_outside(&self, addr: u64, size: u64) -> bool
        ensures { result ≡ is_outside self.now addr size }
    {
        size == 0 || self.end < addr || (addr <= self.start && size <= self.start - addr)
    }

    // Returns the code for a block that isn't in use and shrinks: whether it is in another chunk or empty, and moves.
    #[tactic(auto, using(crate::proofs::StepLemmas::outside_laws))]
    pub(crate) fn code_elsewhere(&self, addr: u64, from: Layout, to: Layout) -> u32
        requires valid { IsTrue (is_valid self.now) }
        requires unused { is_in_use self.now addr from.size ≡ false }
        ensures none { is_outside self.now addr from.size ≡ false → result ≡ 4 }
        ensures some { is_outside self.now addr from.size ≡ true
            → result ≡ shrinking_outside self.now addr from.size from.align to.size to.align }
    {
        if !self.is_outside(addr, from.size) {
            return OUT_OF_RANGE;
        }
        if to.align <= from.align {
            return STAYS;
        }
        if is_aligned_to(addr, to.align) {
            return STAYS;
        }
        ELSEWHERE
    }

    // Returns whether the cursor may go back to this address.
    #[tactic(auto, using(crate::proofs::PlaceLemmas::least_laws))]
    pub(crate) fn is_mark(&self, mark: u64) -> bool
        requires { IsTrue (is_valid self.now) }
        ensures { result ≡ is_mark self.now mark }
    {
        self.cursor <= mark && mark <= self.end && is_aligned_to(mark, self.min_align)
    }

    // Places a block below the cursor, which moves to it.
    #[tactic(auto, using(crate::proofs::PlaceLemmas::place_laws))]
    pub(crate) fn alloc(&mut self, layout: Layout) -> Option<u64>
        requires { IsTrue (is_valid self.old) }
        ensures found { result ≡ place_below self.old.start self.old.cursor layout.size layout.align self.old.min_align }
        ensures moves { MovesTo self.old self.new result }
        ensures valid { IsTrue (is_valid self.new) }
        ensures low { IfSome result (λ p. self.old.start ≤ p) }
        ensures high { IfSome result (λ p. p + layout.size ≤ self.old.cursor) }
        ensures aligned { IfSome result (λ p. p % layout.align ≡ 0) }
    {
        match find(self.start, self.cursor, layout, self.min_align) {
            Some(addr) => {
                self.cursor = addr;
                Some(addr)
            }
            None => None,
        }
    }

    // Gives a block in use back, with the bytes up to the next multiple of the least alignment. The cursor moves only if
    // the block is at it.
    #[tactic(auto, using(crate::proofs::StepLemmas::return_laws))]
    pub(crate) fn dealloc(&mut self, addr: u64, size: u64)
        requires valid { IsTrue (is_valid self.old) }
        requires used { IsTrue (is_in_use self.old addr size) }
        ensures step { arena_of self.new ≡ dealloc (arena_of self.old) addr size }
        ensures start { self.new.start ≡ self.old.start }
        ensures end { self.new.end ≡ self.old.end }
        ensures min_align { self.new.min_align ≡ self.old.min_align }
        ensures valid { IsTrue (is_valid self.new) }
    {
        if addr == self.cursor {
            self.cursor = round_up_to_unchecked(addr + size, self.min_align);
        }
    }

    // Returns the layout of the bytes that a block at the cursor lacks to grow in place, if they have one.
    #[tactic(auto, using(crate::proofs::PlaceLemmas::least_laws))]
    fn growth(&self, from: Layout, to: Layout) -> Option<Layout>
        requires valid { IsTrue (is_valid self.now) }
        requires size { from.size ≤ to.size }
        ensures fits { is_some result ≡ is_layout (up to.size self.now.min_align - from.size) from.align }
        ensures value { IfSome result (λ l. (l.size ≡ up to.size self.now.min_align - from.size) × (l.align ≡ from.align)) }
    {
        Layout::new(
            round_up_to_unchecked(to.size, self.min_align) - from.size,
            from.align,
        )
    }

    // Returns whether the rule refuses to grow the block: it is at the cursor, and the bytes that it lacks have no layout.
    #[tactic(auto, using(crate::proofs::StepLemmas::refused_laws))]
    pub(crate) fn refuses(&self, addr: u64, from: Layout, to: Layout) -> bool
        requires valid { IsTrue (is_valid self.now) }
        requires size { from.size ≤ to.size }
        ensures { result ≡ refuses_growth self.now addr from.size from.align to.size to.align }
    {
        to.align <= from.align && addr == self.cursor && self.growth(from, to).is_none()
    }

    // Grows a block in use: down, if it is at the cursor, its alignment doesn't rise and there is room below it;
    // otherwise by a new block.
    #[tactic(auto, using(crate::proofs::StepLemmas::grow_laws))]
    pub(crate) fn grow(&mut self, addr: u64, from: Layout, to: Layout) -> Option<u64>
        requires valid { IsTrue (is_valid self.old) }
        requires used { IsTrue (is_in_use self.old addr from.size) }
        requires size { from.size ≤ to.size }
        ensures step { IsStep (grow (arena_of self.old) addr from.size from.align to.size to.align 0) self.old self.new result }
        ensures valid { IsTrue (is_valid self.new) }
        ensures resized { IfSome result (λ q. IsResized self.old self.new addr from.size q to.size) }
        ensures aligned { IfSome result (λ q. addr % from.align ≡ 0 → q % to.align ≡ 0) }
        ensures same { IfNone result (self.new ≡ self.old) }
    {
        if from.align < to.align || addr != self.cursor {
            return self.alloc(to);
        }
        let Some(below) = self.growth(from, to) else {
            return None;
        };
        if let Some(lower) = self.alloc(below) {
            return Some(lower);
        }
        self.alloc(to)
    }

    // Shrinks a block in use to a greater alignment: it is allocated again only if its address isn't a multiple of that.
    #[tactic(auto, using(crate::proofs::StepLemmas::realign_laws))]
    fn realign(&mut self, addr: u64, from: Layout, to: Layout) -> Option<u64>
        requires valid { IsTrue (is_valid self.old) }
        requires used { IsTrue (is_in_use self.old addr from.size) }
        requires size { to.size ≤ from.size }
        requires align { from.align < to.align }
        ensures step { IsStep (shrink (arena_of self.old) addr from.size from.align to.size to.align 0) self.old self.new result }
        ensures valid { IsTrue (is_valid self.new) }
        ensures resized { IfSome result (λ q. IsResized self.old self.new addr from.size q to.size) }
        ensures aligned { IfSome result (λ q. q % to.align ≡ 0) }
        ensures same { IfNone result (self.new ≡ self.old) }
    {
        if is_aligned_to(addr, to.align) {
            return Some(addr);
        }
        self.alloc(to)
    }

    // Shrinks a block in use: up, if it is at the cursor and at least half of it is given back.
    #[tactic(auto, using(crate::proofs::StepLemmas::shrink_laws))]
    pub(crate) fn shrink(&mut self, addr: u64, from: Layout, to: Layout) -> Option<u64>
        requires valid { IsTrue (is_valid self.old) }
        requires used { IsTrue (is_in_use self.old addr from.size) }
        requires size { to.size ≤ from.size }
        ensures step { IsStep (shrink (arena_of self.old) addr from.size from.align to.size to.align 0) self.old self.new result }
        ensures valid { IsTrue (is_valid self.new) }
        ensures resized { IfSome result (λ q. IsResized self.old self.new addr from.size q to.size) }
        ensures aligned { IfSome result (λ q. addr % from.align ≡ 0 → q % to.align ≡ 0) }
        ensures same { IfNone result (self.new ≡ self.old) }
    {
        if from.align < to.align {
            return self.realign(addr, from, to);
        }
        let up = freed(from.size - to.size, to.align.max(self.min_align));
        if addr != self.cursor || up < from.size - up {
            return Some(addr);
        }
        self.cursor = addr + up;
        Some(addr + up)
    }

    // Returns the cursor of a new chunk with these bytes, with nothing in use.
    #[tactic(auto, using(crate::proofs::CountLemmas::count_laws))]
    pub(crate) fn entered(base: u64, size: u64, min_align: u64) -> Cursor
        requires { IsTrue (is_region base size min_align) }
        ensures chunk { (arena_of result).chunks ≡ (with_chunk (base, size) (empty_state min_align)).chunks }
        ensures min_align { result.min_align ≡ min_align }
        ensures valid { IsTrue (is_valid result) }
    {
        let end = base + size;
        Cursor {
            start: base,
            cursor: end,
            end,
            min_align,
        }
    }

    // Gives everything back.
    #[tactic(auto, using(crate::proofs::CountLemmas::count_laws))]
    pub(crate) fn empty(&mut self)
        requires { IsTrue (is_valid self.old) }
        ensures chunk { (arena_of self.new).chunks ≡ emptied (arena_of self.old).chunks }
        ensures min_align { self.new.min_align ≡ self.old.min_align }
        ensures valid { IsTrue (is_valid self.new) }
    {
        self.cursor = self.end;
    }

    // Returns how many bytes there are.
    #[tactic(auto, using(crate::proofs::CountLemmas::count_laws))]
    pub(crate) fn counts(&self) -> Counts
        requires { IsTrue (is_valid self.now) }
        ensures used { result.used ≡ used_bytes (arena_of self.now) }
        ensures size { result.size ≡ allocated_bytes (arena_of self.now) }
        ensures free { result.free ≡ cursor_of (arena_of self.now).chunks - start_of (arena_of self.now).chunks }
    {
        Counts {
            used: self.end - self.cursor,
            size: self.end - self.start,
            free: self.cursor - self.start,
        }
    }
}
