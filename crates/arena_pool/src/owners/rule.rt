// What an owner knows, and the rule of two owners: the rule of claims on two words, and where the arena is.
use crate::claims::rule::ClaimView;
use atomic_table::{Play, Split, TableRule};

/// What an owner knows: its lists of words, what is shared, and the stage of the table's setup (3: there are two
/// owners). Values of it exist in contracts alone.
pub struct OwnerView<X> {
    pub lists: ClaimView,
    pub shared: X,
    pub stage: u8,
}

/// The rule of two owners of what is shared.
pub struct OwnerRule;

impl<X> TableRule<Option<X>, OwnerView<X>, X> for OwnerRule {
    ghost use Rattle.arena_pool.specs.Sharing.{Shares, owner_view};

    ghost holds = { Shares };

    ghost first = { λ a. owner_view a 0 };
}

/// During setup: takes the empty slot.
pub struct Take;

impl<X> Play<Option<X>, OwnerView<X>> for Take {
    ghost use Rattle.arena_pool.specs.Sharing.{Took};

    ghost then = { Took };
}

/// During setup: gives the full slot back.
pub struct Give;

impl<X> Play<Option<X>, OwnerView<X>> for Give {
    ghost use Rattle.arena_pool.specs.Sharing.{Gave};

    ghost then = { Gave };
}

/// An owner's swap of the first word to 1.
pub struct First;

impl<X> Play<Option<X>, OwnerView<X>> for First {
    ghost use Rattle.arena_pool.specs.Sharing.{FirstSwapped};

    ghost then = { FirstSwapped };
}

/// The swap of the second word to 1, which takes the slot.
pub struct Second;

impl<X> Play<Option<X>, OwnerView<X>> for Second {
    ghost use Rattle.arena_pool.specs.Sharing.{SecondSwapped};

    ghost then = { SecondSwapped };
}

/// An owner's load of the first word.
pub struct Look;

impl<X> Play<Option<X>, OwnerView<X>> for Look {
    ghost use Rattle.arena_pool.specs.Sharing.{Looked};

    ghost then = { Looked };
}

/// Splits the one seat into two owners.
pub struct Two;

impl<X> Split<OwnerView<X>> for Two {
    ghost use Rattle.arena_pool.specs.Sharing.{owner_view};

    ghost left = { λ v. owner_view v.shared 3 };

    ghost right = { λ v. owner_view v.shared 3 };
}
