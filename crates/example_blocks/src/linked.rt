// A chain of boxes, in which each one holds the handle of the next.
ghost use Rattle.std.specs.Prelude.{◌≡◌, ◌+◌, ◌<◌, ◌^◌, ℕ, List, IfOk, IfErr, [], ◌∷◌, sum, slice_set};
ghost use Rattle.arena_chunks.specs.Frame.{Frame, AreAllApart};
ghost use Rattle.arena_items.specs.Typed.{PlacesBox};
ghost use Rattle.arena_items.specs.Values.{box_value};
ghost use Rattle.example_blocks.specs.Chains.{IsChain, third, blocks, numbers};
ghost use Rattle.example_blocks.specs.TwoValues.{PlacesThen, box_in};
ghost use Rattle.example_blocks.specs.laws.ChainLaws.{chain_readable, chain_blocks, chain_numbers, chain_again};

use arena_chunks::{Allocator, ChunkSource};
use arena_items::laws::frame_law;
use arena_items::{Box, InArena, Item, ItemErr};

/// The value of a chain's first box: a number and the second box.
pub type First = (u32, Box<Second>);

/// The value of a chain's second box: a number and the third box.
pub type Second = (u32, Box<u32>);

/// Three numbers, each in a box. The first box holds the handle of the second, and the second that of the third.
#[derive(Clone, Copy)]
pub struct Chain {
    pub first: Box<First>,
}

impl InArena for Chain {
    ghost Meaning = { List ℕ };

    ghost footprint = { blocks ⟦<First as Item>⟧ ⟦<Second as Item>⟧ };

    ghost is_held = { IsChain ⟦<First as Item>⟧ ⟦<Second as Item>⟧ ⟦<u32 as Item>⟧ };

    ghost means = { numbers ⟦<First as Item>⟧ ⟦<Second as Item>⟧ ⟦<u32 as Item>⟧ };

    ghost readable = { chain_readable ⟦<First as Item>⟧ ⟦<Second as Item>⟧ ⟦<u32 as Item>⟧ };

    ghost same_footprint = { chain_blocks ⟦<First as Item>⟧ ⟦<Second as Item>⟧ ⟦<u32 as Item>⟧ };

    ghost same_meaning = { chain_numbers ⟦<First as Item>⟧ ⟦<Second as Item>⟧ ⟦<u32 as Item>⟧ };

    ghost held_again = { λ a c v held agree readable.
        chain_again ⟦<First as Item>⟧ ⟦<Second as Item>⟧ ⟦<u32 as Item>⟧ a c v agree held readable };
}

#[tactic(auto, unfolding(arena_rules::specs::Rounding::up, arena_items::specs::Layout::pair_size, arena_items::specs::Layout::second_at))]
impl Chain {
    /// Places a chain of three numbers.
    ///
    /// # Errors
    ///
    /// Those of `Box::new_in`. The boxes that were placed before the failure stay placed; nothing else changes.
    pub fn make<C: ChunkSource>(
        a: &mut Allocator<C>,
        x: u32,
        y: u32,
        z: u32,
    ) -> Result<Chain, ItemErr>
        ensures held { IfOk result (⟦<Chain as InArena>⟧.is_held a.new.memory) }
        ensures numbers { IfOk result (λ c. ⟦<Chain as InArena>⟧.means a.new.memory c ≡ x ∷ y ∷ z ∷ []) }
        ensures frame { IfOk result (λ c.
            Frame a.old.memory a.new.memory [] (⟦<Chain as InArena>⟧.footprint a.new.memory c)) }
        ensures calls { PlacesThen ⟦<u32 as Item>⟧ a.old a.new (λ v. v ≡ z) (λ one third.
            PlacesThen ⟦<Second as Item>⟧ one a.new (λ v. v ≡ (y, third)) (λ two second.
            PlacesBox ⟦<First as Item>⟧ two a.new (λ v. v ≡ (x, second)) (box_in (λ c. c.first) result))
            result) result }
    {
        let third = Box::new_in(z, a)?;
        let second = Box::new_in((y, third), a)?;
        let first = Box::new_in((x, second), a)?;
        Ok(Chain { first })
    }

    /// Returns the sum of the chain's numbers.
    pub fn sum<C: ChunkSource>(self, a: &Allocator<C>) -> u64
        requires { ⟦<Chain as InArena>⟧.is_held a.now.memory self }
        ensures { result ≡ sum (⟦<Chain as InArena>⟧.means a.now.memory self) }
    {
        let (x, second) = self.first.get(a);
        let (y, third) = second.get(a);
        u64::from(x) + u64::from(y) + u64::from(third.get(a))
    }

    // Returns the chain's third box.
    fn third<C: ChunkSource>(self, a: &Allocator<C>) -> Box<u32>
        requires { ⟦<Chain as InArena>⟧.is_held a.now.memory self }
        ensures { result ≡ third ⟦<First as Item>⟧ ⟦<Second as Item>⟧ a.now.memory self }
    {
        let (_, second) = self.first.get(a);
        let (_, third) = second.get(a);
        third
    }

    /// Replaces the chain's third number. The first two numbers and all three blocks are unchanged.
    pub fn set_last<C: ChunkSource>(self, a: &mut Allocator<C>, z: u32)
        requires held { ⟦<Chain as InArena>⟧.is_held a.old.memory self }
        ensures held { ⟦<Chain as InArena>⟧.is_held a.new.memory self }
        ensures numbers { ⟦<Chain as InArena>⟧.means a.new.memory self
            ≡ slice_set (⟦<Chain as InArena>⟧.means a.old.memory self) 2 z }
        ensures blocks { ⟦<Chain as InArena>⟧.footprint a.new.memory self
            ≡ ⟦<Chain as InArena>⟧.footprint a.old.memory self }
        ensures frame { let b = (third ⟦<First as Item>⟧ ⟦<Second as Item>⟧ a.old.memory self).block in
            Frame a.old.memory a.new.memory (b ∷ []) (b ∷ []) }
    {
        self.third(a).set(a, z);
    }
}

/// Replaces the third number of one chain beside another, which has the same numbers then.
pub fn set_last_beside<C: ChunkSource>(a: &mut Allocator<C>, one: Chain, other: Chain, z: u32)
    requires one { ⟦<Chain as InArena>⟧.is_held a.old.memory one }
    requires other { ⟦<Chain as InArena>⟧.is_held a.old.memory other }
    requires apart { let b = (third ⟦<First as Item>⟧ ⟦<Second as Item>⟧ a.old.memory one).block in
        AreAllApart (⟦<Chain as InArena>⟧.footprint a.old.memory other) (b ∷ []) }
    ensures one { ⟦<Chain as InArena>⟧.means a.new.memory one
        ≡ slice_set (⟦<Chain as InArena>⟧.means a.old.memory one) 2 z }
    ensures held { ⟦<Chain as InArena>⟧.is_held a.new.memory other }
    ensures other { ⟦<Chain as InArena>⟧.means a.new.memory other
        ≡ ⟦<Chain as InArena>⟧.means a.old.memory other }
{
    frame_law::<Chain>();
    one.set_last(a, z);
}
