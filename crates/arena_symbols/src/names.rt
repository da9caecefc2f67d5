// The names of a program: they are declared in scopes, and resolved.
ghost use Rattle.std.specs.Prelude.{◌≡◌, ◌≢◌, ◌^◌, ◌<◌, ◌≤◌, ◌↔◌, [], ◌∷◌, Some, Ok, Err, length, true, false, IfOk, OnOk, OnErr};
ghost use Rattle.arena_chunks.specs.Frame.{Frame};
ghost use Rattle.arena_items.specs.Room.{SamePlaces};
ghost use Rattle.arena_symbols.specs.Interner.{with_text};
ghost use Rattle.arena_symbols.specs.Named.{AreNames, AreNewNames, Moves, Declares, DeclaresWithin, OwnScopeWithin, MayHave, all_blocks, all_credit, meaning};
ghost use Rattle.arena_symbols.specs.Names.{names_in};
ghost use Rattle.arena_symbols.specs.Paying.{Pays, far_up};
ghost use Rattle.arena_symbols.specs.Scoping.{innermost, outer_of, most_scopes};
ghost use Rattle.arena_symbols.specs.Tables.{entry_item, scopes_in};

use crate::scopes::Scopes;
use crate::symbols::Symbols;
use arena_chunks::{Allocator, ChunkSource};
use arena_items::{AllocError, Grown};

/// The names of a program: the number of each name, and the values of numbers in scopes.
#[derive(Clone, Copy)]
pub struct Names {
    /// The number of each name.
    pub symbols: Symbols,
    /// The value of each number.
    pub scopes: Scopes,
}

impl Names {
    /// Returns an empty set of names, with one scope. Nothing is placed.
    pub fn new_in() -> Names
        ensures { AreNewNames result }
    {
        Names {
            symbols: Symbols::new_in(),
            scopes: Scopes::new_in(),
        }
    }

    /// Returns the value of a name in the innermost scope that declares it.
    pub fn resolve<C: ChunkSource>(&self, a: &Allocator<C>, name: &str) -> Option<u32>
        requires { AreNames a.now.memory self.now }
        ensures { result ≡ meaning a.now.memory self.now name.now }
    {
        match self.symbols.find(a, name) {
            Some(id) => self.scopes.lookup(a, id),
            None => None,
        }
    }

    /// Declares a name in the innermost scope, unless it is declared there, and returns whether it did.
    ///
    /// # Errors
    ///
    /// `CapacityOverflow` for a new name if there are 67,108,864 names, or for a new pair if there are 134,217,728
    /// pairs; otherwise as for the arena's `alloc_layout` and `grow`. The scopes are unchanged; the name may have been
    /// given its number.
    #[tactic(auto, using(crate::proofs::NamedLemmas::declarations))]
    pub fn declare<C: ChunkSource>(
        &mut self,
        a: &mut Allocator<C>,
        name: &str,
        value: u32,
    ) -> Grown<bool>
        requires held { AreNames a.old.memory self.old }
        requires short { length name.now < 2 ^ 32 }
        ensures held { AreNames a.new.memory self.new }
        ensures means { result ≡ Ok true → meaning a.new.memory self.new name.now ≡ Some value }
        ensures fresh { innermost (scopes_in entry_item a.old.memory self.old.scopes) ≡ [] → result ≢ Ok false }
        ensures outer { outer_of (scopes_in entry_item a.new.memory self.new.scopes)
            ≡ outer_of (scopes_in entry_item a.old.memory self.old.scopes) }
        ensures kept { OnErr result (scopes_in entry_item a.new.memory self.new.scopes
            ≡ scopes_in entry_item a.old.memory self.old.scopes) }
        ensures declares { Declares a.old.memory a.new.memory self.old self.new name.now value result }
        ensures within { DeclaresWithin a.old a.new self.old self.new name.now result }
    {
        self.bind(a, name, value)
    }

    // Declares a name in the innermost scope.
    fn bind<C: ChunkSource>(&mut self, a: &mut Allocator<C>, name: &str, value: u32) -> Grown<bool>
        requires held { AreNames a.old.memory self.old }
        requires short { length name.now < 2 ^ 32 }
        ensures declares { Declares a.old.memory a.new.memory self.old self.new name.now value result }
        ensures within { DeclaresWithin a.old a.new self.old self.new name.now result }
    {
        let id = self.symbols.intern(a, name)?;
        self.scopes.define(a, id, value)
    }

    // Begins a scope inside the others.
    fn enter<C: ChunkSource>(&mut self, a: &mut Allocator<C>) -> Grown<()>
        requires { AreNames a.old.memory self.old }
        ensures moves { Moves a.old.memory a.new.memory self.old self.new }
        ensures names { names_in a.new.memory self.new.symbols ≡ names_in a.old.memory self.old.symbols }
        ensures scopes { OnOk result (scopes_in entry_item a.new.memory self.new.scopes
            ≡ [] ∷ scopes_in entry_item a.old.memory self.old.scopes) }
        ensures kept { OnErr result (scopes_in entry_item a.new.memory self.new.scopes
            ≡ scopes_in entry_item a.old.memory self.old.scopes) }
        ensures overflows { (result ≡ Err AllocError.CapacityOverflow)
            ↔ (most_scopes ≤ length (scopes_in entry_item a.old.memory self.old.scopes)) }
        ensures pays { Pays far_up 64 (all_credit self.old) (all_credit self.new) a.old a.new result }
    {
        self.scopes.enter(a)
    }

    // Ends the innermost scope.
    #[tactic(auto, using(crate::proofs::NamedLemmas::scopes_moved))]
    fn leave<C: ChunkSource>(&mut self, a: &mut Allocator<C>)
        requires { AreNames a.old.memory self.old }
        ensures moves { Moves a.old.memory a.new.memory self.old self.new }
        ensures names { names_in a.new.memory self.new.symbols ≡ names_in a.old.memory self.old.symbols }
        ensures scopes { 2 ≤ length (scopes_in entry_item a.old.memory self.old.scopes)
            → scopes_in entry_item a.new.memory self.new.scopes
            ≡ outer_of (scopes_in entry_item a.old.memory self.old.scopes) }
        ensures places { SamePlaces a.old a.new }
        ensures credit { all_credit self.new ≤ all_credit self.old }
    {
        let _ = self.scopes.leave(a);
    }

    // Declares a name in an empty scope, and returns its value there.
    #[tactic(auto, using(crate::proofs::NamedLemmas::within_ok))]
    fn declared<C: ChunkSource>(
        &mut self,
        a: &mut Allocator<C>,
        name: &str,
        value: u32,
    ) -> Grown<Option<u32>>
        requires held { AreNames a.old.memory self.old }
        requires short { length name.now < 2 ^ 32 }
        requires empty { innermost (scopes_in entry_item a.old.memory self.old.scopes) ≡ [] }
        ensures moves { Moves a.old.memory a.new.memory self.old self.new }
        ensures texts { OnOk result (names_in a.new.memory self.new.symbols
            ≡ with_text (names_in a.old.memory self.old.symbols) name.now) }
        ensures refused { OnErr result (MayHave (names_in a.old.memory self.old.symbols) name.now
            (names_in a.new.memory self.new.symbols)) }
        ensures found { IfOk result (λ found. found ≡ Some value) }
        ensures outer { outer_of (scopes_in entry_item a.new.memory self.new.scopes)
            ≡ outer_of (scopes_in entry_item a.old.memory self.old.scopes) }
        ensures within { DeclaresWithin a.old a.new self.old self.new name.now result }
    {
        self.declare(a, name, value)?;
        Ok(self.resolve(a, name))
    }

    /// Declares a name with this value in a scope of its own, ends that scope, and returns the name's value in it. The
    /// other scopes are unchanged, whatever they say of the name. The name has a number from then on, and no other name
    /// gains one.
    ///
    /// # Errors
    ///
    /// `CapacityOverflow` if there are 536,870,912 scopes; otherwise as for the arena's `alloc_layout` and `grow` for
    /// the scope, and then as for `declare`. The scopes are unchanged; the name may have been given its number.
    pub fn in_own_scope<C: ChunkSource>(
        &mut self,
        a: &mut Allocator<C>,
        name: &str,
        value: u32,
    ) -> Grown<Option<u32>>
        requires held { AreNames a.old.memory self.old }
        requires short { length name.now < 2 ^ 32 }
        ensures held { AreNames a.new.memory self.new }
        ensures found { IfOk result (λ found. found ≡ Some value) }
        ensures after { scopes_in entry_item a.new.memory self.new.scopes
            ≡ scopes_in entry_item a.old.memory self.old.scopes }
        ensures texts { OnOk result (names_in a.new.memory self.new.symbols
            ≡ with_text (names_in a.old.memory self.old.symbols) name.now) }
        ensures refused { OnErr result (MayHave (names_in a.old.memory self.old.symbols) name.now
            (names_in a.new.memory self.new.symbols)) }
        ensures frame { Frame a.old.memory a.new.memory (all_blocks a.old.memory self.old)
            (all_blocks a.new.memory self.new) }
        ensures within { OwnScopeWithin a.old a.new self.old self.new name.now result }
    {
        self.enter(a)?;
        let found = self.declared(a, name, value);
        self.leave(a);
        found
    }
}
