// Names of pools.
ghost use Rattle.std.specs.Prelude.{ℕ, Option, None};
ghost use Rattle.arena_pool.specs.declared.kind.PoolKind.{PoolKind};
ghost use Rattle.arena_pool.specs.declared.kind.PoolKind.TheVariants.{Standard};

use std::marker::Brand;
use std::sync::ledger::Ledger;

/// The maximum number of arenas of a pool that are lent at once. A pool's ledger has one part for each of them.
pub const MOST_LENT: u64 = 4_294_967_295;

/// Names one pool: its ledger of lent arenas, the kind of its arenas, and its limit, if it has one. Guards, loans and
/// the pool have it as a type parameter, so that an arena lent by one pool can't be given back to another. A pool is
/// created in a function over `L: PoolName`, which is called at `Brand`.
pub trait PoolName: Ledger {
    // The kind of the pool's arenas.
    ghost kind: { PoolKind };

    // The limit on the bytes of a stored arena, if there is one.
    ghost limit: { Option ℕ };
}

impl PoolName for Brand {
    ghost kind = { Standard };

    ghost limit = { None };
}
