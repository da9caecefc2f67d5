// What the handles of interners and of scoped tables mean.
ghost use Rattle.std.specs.Prelude.{ℕ, List, refl};
ghost use Rattle.arena_symbols.specs.laws.NameLaws.{names_readable, names_same_footprint, names_same, names_held_again};
ghost use Rattle.arena_symbols.specs.Names.{IsInternerIn, names_in, names_footprint};
ghost use Rattle.arena_symbols.specs.laws.TableLaws.{table_readable, table_same, table_held_again};
ghost use Rattle.arena_symbols.specs.Tables.{entry_item, IsTableIn, scopes_in, table_blocks};

use crate::scopes::Scopes;
use crate::symbols::Symbols;
use arena_items::InArena;

impl InArena for Symbols {
    ghost Meaning = { List (List ℕ) };

    ghost footprint = { names_footprint };

    ghost is_held = { IsInternerIn };

    ghost means = { names_in };

    ghost readable = { names_readable };

    ghost same_footprint = { names_same_footprint };

    ghost same_meaning = { names_same };

    ghost held_again = { λ a c s held agree readable. names_held_again a c s agree held readable };
}

impl InArena for Scopes {
    ghost Meaning = { List (List (ℕ × ℕ)) };

    ghost footprint = { λ m s. table_blocks s };

    ghost is_held = { IsTableIn entry_item };

    ghost means = { scopes_in entry_item };

    ghost readable = { table_readable entry_item };

    ghost same_footprint = { λ a c s agree. refl };

    ghost same_meaning = { table_same entry_item };

    ghost held_again = { λ a c s held agree readable. table_held_again entry_item a c s agree held readable };
}
