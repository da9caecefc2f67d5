// The state: chunks, newest first.
ghost use Rattle.std.specs.Prelude.{◌≡◌, ◌+◌, ◌^◌, ◌<◌, ◌≤◌, IfOk, OnErr, IfSome, IfNone, IsTrue, Some, None, true, All, sum, map};
ghost use Rattle.std.specs.Option.{option_map, option_map_or};
ghost use Rattle.arena_rules.specs.Rounding.{is_power};
ghost use Rattle.arena_rules.specs.State.{IsValid, is_min_align, start_of, cursor_of, newest_size, used_bytes, allocated_bytes, floor_of, top_of, with_cursor, data_end, used_length, is_range_used};
ghost use Rattle.arena_rules.specs.Back.{mark_of, accepts, back};
ghost use Rattle.arena_rules.specs.Search.{place, asked};
ghost use Rattle.arena_rules.specs.Moves as moves;
ghost use Rattle.arena_rules.specs.State as places;
ghost use Rattle.plain_machine.specs.Answers.{first_state, leaves, EndsWithin};

use crate::chunk::PlainChunk;
use crate::marks::{PlainPoint, keep_first, raise};
use crate::search::{entries, entry_at};
use arena_place::{
    CHUNK_ALIGN, DEFAULT_CHUNK_SIZE_WITHOUT_FOOTER, Layout, next_base, place, round_up_to_unchecked,
};
use arena_rules::{OutOfMemory, Place};
use std::alloc::Global;
use std::marker::Model;

/// An address, or `None` where a call fails.
pub(crate) type Answer = Option<u64>;

/// The chunks of a growing arena, newest first.
#[derive(Drop)]
pub(crate) struct PlainState {
    min_align: u64,
    generation: u64,
    chunks: Vec<PlainChunk>,
}

impl Model for PlainState {
    ghost use Rattle.arena_rules.specs.State.{State, IsValid};
    ghost use Rattle.plain_machine.specs.Answers.{growing_state};

    ghost Value = { State };

    ghost view = { λ s. growing_state s.min_align s.generation s.chunks.items };

    ghost invariant = { λ s. IsValid (growing_state s.min_align s.generation s.chunks.items) };
}

impl PlainState {
    /// Returns a state with no chunk.
    pub(crate) fn new(alloc: Global, min_align: u64) -> PlainState
        requires { IsTrue (is_min_align min_align) }
        ensures { result ≡ first_state min_align }
    {
        PlainState {
            min_align,
            generation: 0,
            chunks: Vec::new(alloc),
        }
    }

    #[tactic(auto, using(arena_rules::proofs::RoundingLemmas::min_align_power))]
    pub(crate) fn min_align(&self) -> u64
        ensures value { result ≡ self.now.min_align }
        ensures power { IsTrue (is_power result) }
        ensures positive { 0 < result }
        ensures small { result ≤ 16 }
        ensures valid { IsValid self.now }
    {
        self.min_align
    }

    fn start(&self) -> u64
        ensures { result ≡ start_of self.now.chunks }
    {
        match self.chunks.first() {
            None => 16,
            Some(newest) => newest.base,
        }
    }

    pub(crate) fn cursor(&self) -> u64
        ensures { result ≡ cursor_of self.now.chunks }
    {
        match self.chunks.first() {
            None => 16,
            Some(newest) => newest.cursor,
        }
    }

    fn newest_size(&self) -> u64
        ensures value { result ≡ newest_size self.now.chunks }
        ensures small { result < 2 ^ 63 }
    {
        match self.chunks.first() {
            None => 0,
            Some(newest) => newest.size,
        }
    }

    // The data end of the newest chunk.
    fn end(&self) -> Option<u64>
        ensures floor { option_map_or (λ e. e + 48) result 4096 ≡ floor_of self.now.chunks }
        ensures valid { IsValid self.now }
        ensures growing { self.now.is_growing ≡ true }
    {
        let newest = self.chunks.first()?;
        Some(newest.base + newest.size)
    }

    pub(crate) fn place(&self, layout: Layout) -> Option<u64>
        ensures valid { IsValid self.now }
        ensures value { result ≡ place self.now layout.size layout.align }
        ensures moved { IfSome result (λ p. IsValid (with_cursor p self.now)) }
        ensures within { IfSome result (λ p. p + layout.size ≤ cursor_of self.now.chunks) }
        ensures cursor { cursor_of self.now.chunks ≤ top_of self.now.chunks }
    {
        place(self.start(), self.cursor(), layout, self.min_align)
    }

    // The chunks that are asked for one after another.
    fn asked(&self, alloc: Global, layout: Layout) -> Result<Vec<(u64, u64)>, OutOfMemory>
        ensures value { IfOk result (λ all. all.items ≡ asked self.now layout.size layout.align) }
        ensures valid { IsValid self.now }
        ensures growing { self.now.is_growing ≡ true }
    {
        let least = layout.size.max(DEFAULT_CHUNK_SIZE_WITHOUT_FOOTER);
        let first = least.max(2 * self.newest_size());
        match next_base(self.end(), layout.align.max(CHUNK_ALIGN)) {
            Some(base) => entries(alloc, base, layout, first, least),
            None => Ok(Vec::new(alloc)),
        }
    }

    // Sets the cursor of the newest chunk.
    pub(crate) fn set_cursor(&mut self, addr: u64)
        requires { IsValid (with_cursor addr self.old) }
        ensures state { self.new ≡ with_cursor addr self.old }
        ensures top { top_of self.new.chunks ≡ top_of self.old.chunks }
    {
        if let Some(newest) = self.chunks.first_mut() {
            newest.cursor = addr;
        }
    }

    // Places a block in the newest chunk, at this address. Asks for no chunk.
    pub(crate) fn place_at(&mut self, addr: u64, refused: u32) -> Option<Answer>
        requires { IsValid (with_cursor addr self.old) }
        ensures step { leaves self.new result ≡ moves.unasked refused (moves.placed self.old addr) }
        ensures none { IfNone result (self.new ≡ self.old) }
        ensures some { IfSome result (λ answer. answer ≡ Some addr) }
        ensures top { top_of self.new.chunks ≡ top_of self.old.chunks }
    {
        if refused > 0 {
            return None;
        }
        self.set_cursor(addr);
        Some(Some(addr))
    }

    // Places a block in this chunk, which becomes the newest.
    fn alloc_in_chunk(
        &mut self,
        base: u64,
        size: u64,
        layout: Layout,
    ) -> Result<Option<Answer>, OutOfMemory>
        requires { IsValid (moves.with_chunk (base, size) self.old) }
        ensures step { IfOk result (λ answer. leaves self.new answer
            ≡ option_map (moves.placed (moves.with_chunk (base, size) self.old))
            (place (moves.with_chunk (base, size) self.old) layout.size layout.align)) }
        ensures err { OnErr result (self.new ≡ self.old) }
        ensures none { IfOk result (λ answer. IfNone answer (self.new ≡ self.old)) }
        ensures later { top_of self.old.chunks ≤ top_of self.new.chunks }
        ensures within { IfOk result (λ answer. EndsWithin layout.size answer (top_of self.new.chunks)) }
    {
        let min_align = self.min_align;
        let Some(cursor) = place(base, base + size, layout, min_align) else {
            return Ok(None);
        };
        if self
            .chunks
            .insert(0, PlainChunk { base, size, cursor })
            .is_err()
        {
            return Err(OutOfMemory);
        }
        Ok(Some(Some(cursor)))
    }

    // Allocates a block for which there is no place in the newest chunk.
    #[tactic(auto, using(arena_rules::proofs::AllocLemmas::alloc_refused), unfolding(arena_rules::specs::Moves::alloc))]
    fn alloc_in_new(
        &mut self,
        alloc: Global,
        layout: Layout,
        refused: u32,
    ) -> Result<Option<Answer>, OutOfMemory>
        requires { place self.old layout.size layout.align ≡ None }
        ensures step { IfOk result (λ answer. leaves self.new answer
            ≡ moves.alloc self.old layout.size layout.align refused) }
        ensures err { OnErr result (self.new ≡ self.old) }
        ensures none { IfOk result (λ answer. IfNone answer (self.new ≡ self.old)) }
        ensures later { top_of self.old.chunks ≤ top_of self.new.chunks }
        ensures within { IfOk result (λ answer. EndsWithin layout.size answer (top_of self.new.chunks)) }
    {
        let asked = self.asked(alloc, layout)?;
        if let Some((base, size)) = entry_at(&asked, refused) {
            return self.alloc_in_chunk(base, size, layout);
        }
        if asked.len() == refused as usize {
            return Ok(Some(None));
        }
        Ok(None)
    }

    /// Allocates a block where this many requests are refused. Returns `None` where there is no such step.
    #[tactic(auto, unfolding(arena_rules::specs::Moves::alloc))]
    pub(crate) fn alloc(
        &mut self,
        alloc: Global,
        layout: Layout,
        refused: u32,
    ) -> Result<Option<Answer>, OutOfMemory>
        ensures valid { IsValid self.old }
        ensures step { IfOk result (λ answer. leaves self.new answer
            ≡ moves.alloc self.old layout.size layout.align refused) }
        ensures err { OnErr result (self.new ≡ self.old) }
        ensures none { IfOk result (λ answer. IfNone answer (self.new ≡ self.old)) }
        ensures later { top_of self.old.chunks ≤ top_of self.new.chunks }
        ensures within { IfOk result (λ answer. EndsWithin layout.size answer (top_of self.new.chunks)) }
    {
        match self.place(layout) {
            Some(addr) => Ok(self.place_at(addr, refused)),
            None => self.alloc_in_new(alloc, layout, refused),
        }
    }

    /// Frees a block.
    #[tactic(auto, using(arena_rules::proofs::ReturnLemmas::dealloc_at, arena_rules::proofs::ReturnLemmas::dealloc_elsewhere))]
    pub(crate) fn dealloc(&mut self, addr: u64, size: u64)
        requires { 0 < size → addr + size ≤ top_of self.old.chunks }
        ensures { self.new ≡ moves.dealloc self.old addr size }
    {
        if addr == self.cursor() {
            let end = round_up_to_unchecked(addr + size, self.min_align);
            self.set_cursor(end);
        }
    }

    /// Frees all blocks, and all chunks but the newest.
    pub(crate) fn reset(&mut self)
        ensures { self.new ≡ moves.reset self.old }
    {
        self.generation = self.generation.saturating_add(1);
        keep_newest(&mut self.chunks);
    }

    /// Returns a mark of the present state.
    #[tactic(auto, using(arena_rules::proofs::BackLemmas::own_accepted))]
    pub(crate) fn mark(&self) -> PlainPoint
        ensures value { result ≡ mark_of self.now }
        ensures accepted { IsTrue (accepts (mark_of self.now) self.now) }
    {
        PlainPoint {
            chunks: self.chunks.len() as u64,
            cursor: self.cursor(),
        }
    }

    /// Goes back to a mark: removes the newer chunks, and raises the cursor to the mark's if it is below.
    #[tactic(auto, using(arena_rules::proofs::BackLemmas::back_valid))]
    pub(crate) fn back(&mut self, mark: PlainPoint)
        requires { IsTrue (accepts mark self.old) }
        ensures state { self.new ≡ back mark self.old }
        ensures valid { IsValid self.new }
    {
        keep_first(&mut self.chunks, mark.chunks);
        raise(&mut self.chunks, mark.cursor);
    }

    /// Returns whether the block has no bytes, or is in the used part of one chunk.
    #[tactic(auto, using(crate::proofs::SumLemmas::ends_below))]
    pub(crate) fn is_place_used(&self, place: Place) -> bool
        ensures { result ≡ places.is_place_used self.now place }
    {
        place.size == 0 || is_range_used(&self.chunks, place.addr, place.size)
    }

    #[tactic(auto, using(crate::proofs::SumLemmas::sum_below, crate::proofs::SumLemmas::ends_below))]
    pub(crate) fn used_bytes(&self) -> u64
        ensures { result ≡ used_bytes self.now }
    {
        sum_of_used(&self.chunks)
    }

    #[tactic(auto, using(crate::proofs::SumLemmas::sum_below))]
    pub(crate) fn allocated_bytes(&self) -> u64
        ensures { result ≡ allocated_bytes self.now }
    {
        sum_of_sizes(&self.chunks)
    }
}

// Keeps the newest chunk, with nothing used.
fn keep_newest(chunks: &mut Vec<PlainChunk>)
    requires { top_of chunks.old.items < 2 ^ 64 }
    ensures { chunks.new.items ≡ moves.emptied chunks.old.items }
{
    chunks.truncate(1);
    if let Some(newest) = chunks.first_mut() {
        newest.cursor = newest.base + newest.size;
    }
}

// Whether the `n` addresses from this one on are in the used part of one chunk.
#[tactic(auto, using(crate::proofs::SumLemmas::none_past))]
fn is_range_used(chunks: &[PlainChunk], addr: u64, n: u64) -> bool
    requires { All (λ c. (c.cursor ≤ data_end c) × (data_end c < 2 ^ 64)) chunks.now }
    ensures { result ≡ is_range_used chunks.now addr n }
{
    let Some(end) = addr.checked_add(n) else {
        return false;
    };
    chunks.iter().any(|chunk| chunk.cursor <= addr && end <= chunk.base + chunk.size)
}

fn sum_of_used(chunks: &[PlainChunk]) -> u64
    requires chunks { All (λ c. (c.cursor ≤ data_end c) × (data_end c < 2 ^ 64)) chunks.now }
    requires fits { sum (map used_length chunks.now) < 2 ^ 64 }
    ensures { result ≡ sum (map used_length chunks.now) }
{
    chunks
        .iter()
        .map(|chunk| chunk.base + chunk.size - chunk.cursor)
        .sum()
}

fn sum_of_sizes(chunks: &[PlainChunk]) -> u64
    requires { sum (map (λ c. c.size) chunks.now) < 2 ^ 64 }
    ensures { result ≡ sum (map (λ c. c.size) chunks.now) }
{
    chunks.iter().map(|chunk| chunk.size).sum()
}
