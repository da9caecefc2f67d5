// Blocks that grow and shrink.
#![tactic(auto, unfolding(arena_rules::specs::Moves::grow, arena_rules::specs::Moves::shrink))]

ghost use Rattle.std.specs.Prelude.{◌≡◌, ◌+◌, ◌^◌, ◌<◌, ◌≤◌, IfOk, OnErr, IfNone, ◌==◌, if◌then◌else◌, Some, None};
ghost use Rattle.arena_rules.specs.Rounding.{up};
ghost use Rattle.arena_rules.specs.State.{IsValid, cursor_of, top_of};
ghost use Rattle.arena_rules.specs.Moves as moves;
ghost use Rattle.plain_machine.specs.Answers.{leaves, EndsWithin};

use crate::state::{Answer, PlainState};
use crate::unasked::unasked;
use arena_place::{Layout, is_aligned_to, round_down_to, round_up_to_unchecked};
use arena_rules::{OutOfMemory, Place};
use std::alloc::Global;

impl PlainState {
    /// Grows the block to a size that is greater or the same.
    pub(crate) fn grow(
        &mut self,
        alloc: Global,
        block: Place,
        layout: Layout,
        refused: u32,
    ) -> Result<Option<Answer>, OutOfMemory>
        requires size { block.size ≤ layout.size }
        requires end { 0 < block.size → block.addr + block.size ≤ top_of self.old.chunks }
        ensures step { IfOk result (λ answer. leaves self.new answer
            ≡ moves.grow self.old block.addr block.size block.align layout.size layout.align refused) }
        ensures err { OnErr result (self.new ≡ self.old) }
        ensures none { IfOk result (λ answer. IfNone answer (self.new ≡ self.old)) }
        ensures later { top_of self.old.chunks ≤ top_of self.new.chunks }
        ensures within { IfOk result (λ answer. EndsWithin layout.size answer (top_of self.new.chunks)) }
    {
        if layout.align <= block.align && block.addr == self.cursor() {
            self.grow_at_cursor(alloc, block, layout, refused)
        } else {
            self.alloc(alloc, layout, refused)
        }
    }

    // Grows downwards where there is a place, and else allocates a new block.
    fn grow_at_cursor(
        &mut self,
        alloc: Global,
        block: Place,
        layout: Layout,
        refused: u32,
    ) -> Result<Option<Answer>, OutOfMemory>
        requires align { layout.align ≤ block.align }
        requires at { block.addr ≡ cursor_of self.old.chunks }
        requires size { block.size ≤ layout.size }
        requires end { 0 < block.size → block.addr + block.size ≤ top_of self.old.chunks }
        ensures step { IfOk result (λ answer. leaves self.new answer
            ≡ moves.grow self.old block.addr block.size block.align layout.size layout.align refused) }
        ensures err { OnErr result (self.new ≡ self.old) }
        ensures none { IfOk result (λ answer. IfNone answer (self.new ≡ self.old)) }
        ensures later { top_of self.old.chunks ≤ top_of self.new.chunks }
        ensures within { IfOk result (λ answer. EndsWithin layout.size answer (top_of self.new.chunks)) }
    {
        let padded = self.padded(layout);
        let Some(more) = Layout::new(padded - block.size, block.align) else {
            return Ok(unasked(refused, None));
        };
        match self.place(more) {
            Some(addr) => Ok(self.place_at(addr, refused)),
            None => self.alloc(alloc, layout, refused),
        }
    }

    // The size, rounded up to the least alignment.
    #[tactic(auto, using(arena_rules::proofs::RoundingLemmas::up_ge, arena_rules::proofs::RoundingLemmas::layout_small))]
    fn padded(&self, layout: Layout) -> u64
        ensures value { result ≡ up layout.size self.now.min_align }
        ensures large { layout.size ≤ result }
    {
        round_up_to_unchecked(layout.size, self.min_align())
    }

    /// Shrinks the block to a size that is smaller or the same.
    pub(crate) fn shrink(
        &mut self,
        alloc: Global,
        block: Place,
        layout: Layout,
        refused: u32,
    ) -> Result<Option<Answer>, OutOfMemory>
        requires size { layout.size ≤ block.size }
        requires end { 0 < block.size → block.addr + block.size ≤ top_of self.old.chunks }
        ensures step { IfOk result (λ answer. leaves self.new answer
            ≡ moves.shrink self.old block.addr block.size block.align layout.size layout.align refused) }
        ensures err { OnErr result (self.new ≡ self.old) }
        ensures none { IfOk result (λ answer. IfNone answer (self.new ≡ self.old)) }
        ensures later { top_of self.old.chunks ≤ top_of self.new.chunks }
        ensures within { IfOk result (λ answer. EndsWithin layout.size answer (top_of self.new.chunks)) }
    {
        if layout.align > block.align {
            if is_aligned_to(block.addr, layout.align) {
                return Ok(unasked(refused, Some(block.addr)));
            }
            return self.alloc(alloc, layout, refused);
        }
        if refused > 0 {
            return Ok(None);
        }
        Ok(Some(Some(self.shrink_here(block, layout))))
    }

    // Moves the block up if it is at the cursor and that saves at least half of it. Returns its address.
    fn shrink_here(&mut self, block: Place, layout: Layout) -> u64
        requires align { layout.align ≤ block.align }
        requires size { layout.size ≤ block.size }
        requires end { 0 < block.size → block.addr + block.size ≤ top_of self.old.chunks }
        ensures step { leaves self.new (Some (Some result))
            ≡ moves.shrink self.old block.addr block.size block.align layout.size layout.align 0 }
        ensures top { top_of self.new.chunks ≡ top_of self.old.chunks }
        ensures within { result + layout.size ≤ block.addr + block.size }
    {
        let step = self.shrink_step(block.size, layout);
        if block.addr != self.cursor() || step < block.size - step {
            return block.addr;
        }
        self.set_cursor(block.addr + step);
        block.addr + step
    }

    // The most that a block of this size moves up.
    #[tactic(auto, using(arena_rules::proofs::RoundingLemmas::down_le))]
    fn shrink_step(&self, size: u64, layout: Layout) -> u64
        requires { layout.size ≤ size }
        ensures value { result ≡ moves.shrink_step self.now size layout.size layout.align }
        ensures high { result + layout.size ≤ size }
        ensures fits { top_of self.now.chunks < 2 ^ 64 }
        ensures valid { IsValid self.now }
    {
        round_down_to(size - layout.size, layout.align.max(self.min_align()))
    }
}
