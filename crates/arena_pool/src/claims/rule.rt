// What a seat of some claims knows, and the rule that ties all seats to the words.
use atomic_table::{Join, Play, Split, TableRule};
use std::collections::LinkedList;

/// What a seat knows: the words that it claimed, by a swap that found 0, those that it found taken, and those that it
/// found free, by a load that found 0. Values of it exist in contracts alone.
pub struct ClaimView {
    pub claimed: LinkedList<u32>,
    pub taken: LinkedList<u32>,
    pub free: LinkedList<u32>,
}

/// The rule of claims on n words.
pub struct ClaimRule;

impl TableRule<(), ClaimView, u64> for ClaimRule {
    ghost use Rattle.arena_pool.specs.Claiming.{Kept, new_view};

    ghost holds = { λ n s. Kept n s };

    ghost first = { λ _. new_view };
}

/// A swap of a word to 1.
pub struct Swap;

impl Play<(), ClaimView> for Swap {
    ghost use Rattle.arena_pool.specs.Claiming.{Swapped};

    ghost then = { Swapped };
}

/// A load of a word.
pub struct Load;

impl Play<(), ClaimView> for Load {
    ghost use Rattle.arena_pool.specs.Claiming.{Loaded};

    ghost then = { Loaded };
}

/// Splits off a new seat that knows nothing. The first seat is unchanged.
pub struct Anew;

impl Split<ClaimView> for Anew {
    ghost use Rattle.arena_pool.specs.Claiming.{new_view};

    ghost left = { λ v. v };

    ghost right = { λ v. new_view };
}

/// Joins the lists of two seats, the second of which is spent.
pub struct Both;

impl Join<ClaimView> for Both {
    ghost use Rattle.arena_pool.specs.Claiming.{joined, new_view};

    ghost both = { joined };

    ghost spent = { new_view };
}
