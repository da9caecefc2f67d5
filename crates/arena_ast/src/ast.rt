// Trees: their nodes and their names, and what is added to them.
ghost use Rattle.std.specs.Prelude.{◌≡◌, ℕ, ◌+◌, ◌^◌, ◌<◌, ◌≤◌, Some, Ok, IfOk, IfErr, OnOk, slice_get};
ghost use Rattle.arena_chunks.specs.Memory.{Memory};
ghost use Rattle.arena_items.specs.Beside.{IsNew, Moves};
ghost use Rattle.arena_vec.specs.Vecs.{vec_list};
ghost use Rattle.arena_symbols.specs.Interner.{number_of};
ghost use Rattle.arena_symbols.specs.Interning.{Interns};
ghost use Rattle.arena_symbols.specs.Names.{names_in};
ghost use Rattle.arena_ast.specs.Asts.{AreNodesIn, IsAstIn, KeepsCount};
ghost use Rattle.arena_ast.specs.Rows.{rows_in, with_node, with_name, no_rows, Adds, NodeRefused, NameRefused};

use crate::linked::Linked;
use arena_chunks::{Allocator, ChunkSource};
use arena_items::laws::frame_law;
use arena_items::{AllocError, Grown, InArena, Item};
use arena_symbols::Symbols;
use arena_vec::Vec;

/// The handle of a tree: nodes that name nodes before them by index, and names by number. Its last node is the whole of it.
#[derive(Clone, Copy)]
pub struct Ast<T> {
    /// The nodes.
    pub nodes: Vec<T>,
    /// The names, by their numbers.
    pub names: Symbols,
}

impl<T: Item + Linked> Ast<T> {
    /// Returns a tree without nodes or names. Nothing is placed.
    pub fn new_in() -> Ast<T>
        ensures fresh { (memory : Memory) → IsNew ⟦<Ast<T> as InArena>⟧ memory memory result }
        ensures len { result.nodes.raw.len ≡ 0 }
        ensures rows { (memory : Memory) → rows_in T.Item memory result ≡ no_rows }
    {
        Ast {
            nodes: Vec::new_in(),
            names: Symbols::new_in(),
        }
    }

    /// Appends a node, which may name the nodes before it, and returns its index.
    ///
    /// # Errors
    ///
    /// As for `push` of a vector. The tree is as it was.
    pub fn add<C: ChunkSource>(&mut self, a: &mut Allocator<C>, node: T) -> Grown<u32>
        requires small { T.SIZE ≤ 2 ^ 24 }
        requires held { IsAstIn T.Item T.is_after a.old.memory self.old }
        requires node { T.is_after self.old.nodes.raw.len node }
        ensures moves { Moves ⟦<Ast<T> as InArena>⟧ a.old.memory a.new.memory self.old self.new }
        ensures counts { KeepsCount a.old.source a.new.source }
        ensures index { IfOk result (λ i. i ≡ self.old.nodes.raw.len) }
        ensures len { OnOk result (self.new.nodes.raw.len ≡ self.old.nodes.raw.len + 1) }
        ensures rows { OnOk result (rows_in T.Item a.new.memory self.new
            ≡ with_node (rows_in T.Item a.old.memory self.old) node) }
        ensures names { self.new.names ≡ self.old.names }
        ensures took { OnOk result (Adds T.Item a.old a.new self.old node self.new.nodes (Ok tt)) }
        ensures refused { IfErr result (NodeRefused T.Item a.old a.new self.old node) }
    {
        frame_law::<Symbols>();
        let index = self.nodes.len();
        self.nodes.push(a, node)?;
        Ok(index)
    }

    /// Returns the number of a name. A new name gets the next one.
    ///
    /// # Errors
    ///
    /// As for `intern`, and `CapacityOverflow` for a name of 4,294,967,296 bytes or more. The nodes are as they were.
    #[tactic(auto, using(crate::proofs::MoveLemmas::stays, crate::proofs::CountLemmas::same_count))]
    pub fn name<C: ChunkSource>(&mut self, a: &mut Allocator<C>, name: &str) -> Grown<u32>
        requires { IsAstIn T.Item T.is_after a.old.memory self.old }
        ensures moves { Moves ⟦<Ast<T> as InArena>⟧ a.old.memory a.new.memory self.old self.new }
        ensures counts { KeepsCount a.old.source a.new.source }
        ensures nodes { self.new.nodes ≡ self.old.nodes }
        ensures rows { OnOk result (rows_in T.Item a.new.memory self.new
            ≡ with_name (rows_in T.Item a.old.memory self.old) name.now) }
        ensures number { IfOk result (λ n. number_of (names_in a.new.memory self.new.names) name.now ≡ Some n) }
        ensures took { IfOk result (λ n. Interns a.old a.new self.old.names self.new.names name.now (Ok n)) }
        ensures refused { IfErr result (NameRefused a.old a.new self.old name.now) }
    {
        if name.len() >= 1 << 32 {
            return Err(AllocError::CapacityOverflow);
        }
        frame_law::<Vec<T>>();
        self.names.intern(a, name)
    }

    /// Returns the number of a name, if the tree has it.
    pub fn number<C: ChunkSource>(&self, a: &Allocator<C>, name: &str) -> Option<u32>
        requires { IsAstIn T.Item T.is_after a.now.memory self.now }
        ensures { result ≡ number_of (names_in a.now.memory self.now.names) name.now }
    {
        self.names.find(a, name)
    }

    /// Returns the node at an index. The nodes that it names are before it.
    pub fn node<C: ChunkSource>(&self, a: &Allocator<C>, i: u32) -> T
        requires small { T.SIZE ≤ 2 ^ 24 }
        requires held { AreNodesIn T.Item T.is_after a.now.memory self.now.nodes }
        requires index { i < self.now.nodes.raw.len }
        ensures node { slice_get (vec_list T.Item a.now.memory self.now.nodes) i ≡ Some result }
        ensures after { T.is_after i result }
    {
        self.nodes.get(a, i)
    }
}
