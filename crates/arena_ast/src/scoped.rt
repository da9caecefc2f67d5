// Values of names, such as the nodes that they are bound to: scopes beside a tree.
ghost use Rattle.std.specs.Prelude.{◌≡◌, ℕ, Some, not, IfOk, OnOk, OnErr, [], ◌∷◌, if◌then◌else◌};
ghost use Rattle.arena_chunks.specs.Memory.{Memory};
ghost use Rattle.arena_items.specs.Beside.{IsNew, Moves};
ghost use Rattle.arena_symbols.specs.Interner.{number_of};
ghost use Rattle.arena_symbols.specs.Named.{meant};
ghost use Rattle.arena_symbols.specs.Names.{names_in};
ghost use Rattle.arena_symbols.specs.Scoping.{is_in_last, with_pair};
ghost use Rattle.arena_symbols.specs.Tables.{entry_item, scopes_in};
ghost use Rattle.arena_ast.specs.Rows.{no_rows, rows_in, with_name, Binds};

use crate::ast::Ast;
use crate::linked::Linked;
use arena_chunks::{Allocator, ChunkSource};
use arena_items::laws::beside_law;
use arena_items::{Beside, Grown, InArena, Item};
use arena_symbols::Scopes;

/// A tree, and scopes beside it, in which names have values: the indices of nodes, for example. A name's key is its
/// number, so that no text is a key.
pub type Scoped<T> = Beside<Ast<T>, Scopes>;

/// Returns a tree without nodes or names, and one empty scope. Nothing is placed.
pub fn new_scoped<T: Item + Linked>() -> Scoped<T>
    ensures fresh { (memory : Memory) → IsNew ⟦<Scoped<T> as InArena>⟧ memory memory result }
    ensures len { result.first.nodes.raw.len ≡ 0 }
    ensures rows { (memory : Memory) → rows_in T.Item memory result.first ≡ no_rows }
    ensures scopes { (memory : Memory) → scopes_in entry_item memory result.second ≡ [] ∷ [] }
{
    Beside {
        first: Ast::new_in(),
        second: Scopes::new_in(),
    }
}

/// Gives a name a value in the innermost scope, unless it has one there, and returns whether it did.
///
/// # Errors
///
/// Those of `name` and of `define`. The nodes and the values are as they were; the name may have its number.
pub fn bind<T: Item + Linked, C: ChunkSource>(
    a: &mut Allocator<C>,
    tree: &mut Scoped<T>,
    name: &str,
    value: u32,
) -> Grown<bool>
    requires { ⟦<Scoped<T> as InArena>⟧.is_held a.old.memory tree.old }
    ensures moves { Moves ⟦<Scoped<T> as InArena>⟧ a.old.memory a.new.memory tree.old tree.new }
    ensures binds { Binds a.old a.new tree.old tree.new name.now value result }
    ensures nodes { tree.new.first.nodes ≡ tree.old.first.nodes }
    ensures rows { OnOk result (rows_in T.Item a.new.memory tree.new.first
        ≡ with_name (rows_in T.Item a.old.memory tree.old.first) name.now) }
    ensures scopes { IfOk result (λ is_new. (id : ℕ)
        × (number_of (names_in a.new.memory tree.new.first.names) name.now ≡ Some id)
        × (is_new ≡ not (is_in_last (scopes_in entry_item a.old.memory tree.old.second) id))
        × (scopes_in entry_item a.new.memory tree.new.second
        ≡ (if is_new then with_pair (scopes_in entry_item a.old.memory tree.old.second) id value
        else scopes_in entry_item a.old.memory tree.old.second))) }
    ensures kept { OnErr result (scopes_in entry_item a.new.memory tree.new.second
        ≡ scopes_in entry_item a.old.memory tree.old.second) }
{
    beside_law::<Ast<T>, Scopes>();
    let id = tree.first.name(a, name)?;
    tree.second.define(a, id, value)
}

/// Returns the value of a name in the innermost scope where it has one.
pub fn bound<T: Item + Linked, C: ChunkSource>(
    a: &Allocator<C>,
    tree: &Scoped<T>,
    name: &str,
) -> Option<u32>
    requires { ⟦<Scoped<T> as InArena>⟧.is_held a.now.memory tree.now }
    ensures { result ≡ meant (scopes_in entry_item a.now.memory tree.now.second)
        (number_of (names_in a.now.memory tree.now.first.names) name.now) }
{
    match tree.first.number(a, name) {
        Some(id) => tree.second.lookup(a, id),
        None => None,
    }
}
