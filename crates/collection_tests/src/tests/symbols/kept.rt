// An interner, a scoped table, and both together, each in an arena of its own, in which it is always held.
ghost use Rattle.arena_symbols.specs.Named.{AreNames};
ghost use Rattle.arena_symbols.specs.Names.{IsInternerIn};
ghost use Rattle.arena_symbols.specs.Tables.{entry_item, IsTableIn};

use crate::tests::Memory;
use arena_chunks::{Allocator, ChunkSource};
use arena_items::{AllocError, Grown};
use arena_symbols::{Call, Names, Reply, Scopes, Symbols};
use std::alloc::Global;
use std::marker::Model;

#[derive(Drop)]
pub(super) struct Texts<C: ChunkSource> {
    a: Allocator<C>,
    symbols: Symbols,
}

impl<C: ChunkSource> Model for Texts<C> {
    ghost Value = { Unit {0} };

    ghost view = { λ s. tt };

    ghost invariant = { λ s. IsInternerIn s.a.memory s.symbols };
}

impl<C: ChunkSource> Texts<C> {
    pub(super) fn new(a: Allocator<C>) -> Texts<C> {
        let symbols = Symbols::new_in();
        Texts { a, symbols }
    }

    // Interns a text if it isn't too long, and returns its number.
    pub(super) fn intern(&mut self, text: &str) -> Grown<u32> {
        if text.len() >= 1 << 32 {
            return Err(AllocError::CapacityOverflow);
        }
        self.symbols.intern(&mut self.a, text)
    }

    pub(super) fn find(&self, text: &str) -> Option<u32> {
        self.symbols.find(&self.a, text)
    }

    // Returns the text with this number, if there is one.
    pub(super) fn text(&self, id: u32) -> Option<&str> {
        if id >= self.symbols.len() {
            return None;
        }
        let text = self.symbols.text(&self.a, id);
        text.get(&self.a)
    }

    pub(super) fn len(&self) -> u32 {
        self.symbols.len()
    }
}

#[derive(Drop)]
pub(super) struct Nest<C: ChunkSource> {
    a: Allocator<C>,
    scopes: Scopes,
}

impl<C: ChunkSource> Model for Nest<C> {
    ghost Value = { Unit {0} };

    ghost view = { λ s. tt };

    ghost invariant = { λ s. IsTableIn entry_item s.a.memory s.scopes };
}

impl<C: ChunkSource> Nest<C> {
    pub(super) fn new(a: Allocator<C>) -> Nest<C> {
        let scopes = Scopes::new_in();
        Nest { a, scopes }
    }

    pub(super) fn enter(&mut self) -> Grown<()> {
        self.scopes.enter(&mut self.a)
    }

    pub(super) fn leave(&mut self) -> bool {
        self.scopes.leave(&mut self.a)
    }

    pub(super) fn define(&mut self, id: u32, value: u32) -> Grown<bool> {
        self.scopes.define(&mut self.a, id, value)
    }

    pub(super) fn lookup(&self, id: u32) -> Option<u32> {
        self.scopes.lookup(&self.a, id)
    }

    pub(super) fn in_last(&self, id: u32) -> bool {
        self.scopes.in_last(&self.a, id)
    }
}

#[derive(Drop)]
pub(super) struct Both {
    a: Memory,
    names: Names,
}

impl Model for Both {
    ghost Value = { Unit {0} };

    ghost view = { λ s. tt };

    ghost invariant = { λ s. AreNames s.a.memory s.names };
}

impl Both {
    pub(super) fn new(a: Memory) -> Both {
        let names = Names::new_in();
        Both { a, names }
    }

    pub(super) fn run(
        &mut self,
        alloc: Global,
        calls: &[Call],
        replies: &mut Vec<Reply>,
    ) -> Grown<()> {
        self.names.run(alloc, &mut self.a, calls, replies)
    }

    // Declares a name if it isn't too long.
    pub(super) fn declare(&mut self, name: &str, value: u32) -> Grown<bool> {
        if name.len() >= 1 << 32 {
            return Err(AllocError::CapacityOverflow);
        }
        self.names.declare(&mut self.a, name, value)
    }

    // Returns what a name means in a scope of its own, if it isn't too long.
    pub(super) fn in_own_scope(&mut self, name: &str, value: u32) -> Grown<Option<u32>> {
        if name.len() >= 1 << 32 {
            return Err(AllocError::CapacityOverflow);
        }
        self.names.in_own_scope(&mut self.a, name, value)
    }
}
