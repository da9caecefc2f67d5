// Trees.
ghost use Rattle.std.specs.Prelude.{◌≡◌, ◌^◌, ◌≤◌, None, length, IfOk};
ghost use Rattle.tree_rules.specs.Reading.{refusal_of};
ghost use Rattle.arena_tree.specs.declared.stop.Stop.{Stop};
ghost use Rattle.tree_rules.specs.Trees.{Stmts, text};
ghost use Rattle.arena_tree.specs.Asking.{ProgramRan};
ghost use Rattle.arena_tree.specs.Cloning.{Clones, CopyAsks, clone_bytes};
ghost use Rattle.arena_tree.specs.Given.{IsTreeIn, IsLeanTree, Means};
ghost use Rattle.arena_tree.specs.Folding.{Folds};
ghost use Rattle.arena_tree.specs.Parsing.{Parses, ParsesInOnePass, TakesAtMost, parse_bytes, error_for, unplaced_by};

use crate::clone::clone_row;
use crate::fold::fold_row;
use crate::print::{Stand, put_row};
use crate::program::program;
use crate::stop::Stop;
use arena_chunks::{Allocator, ChunkSource};
use arena_items::AllocError;
use arena_rules::OutOfMemory;
use arena_vec::Vec;
use short_bytes::Bytes;
use std::alloc::Global;
use tree_nodes::Node;
use tree_reader::refusal;
use tree_rules::Refused;
use tree_rules::laws::{folding, machine, one_program, some_reading, well_formed};

/// The handle of a tree in an arena: the list of its statements.
#[derive(Clone, Copy)]
pub struct Tree {
    pub stmts: Vec<Node>,
}

/// Why a tree wasn't placed.
#[derive(Clone, Copy, PartialEq, Eq, Debug)]
pub enum TreeErr {
    /// The tokens before the one at this byte begin a program, but not with it; or the text ends there too early.
    Syntax { at: u64 },
    /// With the token at this byte, more than 64 parentheses, braces and signs would be open at once.
    TooDeep { at: u64 },
    /// The number at this byte exceeds 64 bits.
    NumberTooBig { at: u64 },
    /// There is no place for a block. At least this many requests for a chunk were refused in the call.
    AllocErr { refused: u32 },
    /// Out of memory for the arena's table of chunks.
    OutOfMemory,
}

// A refusal of the text as an error.
fn refused_as(refused: Refused) -> TreeErr
    ensures { result ≡ error_for refused }
{
    match refused {
        Refused::Syntax { at } => TreeErr::Syntax { at },
        Refused::TooDeep { at } => TreeErr::TooDeep { at },
        Refused::NumberTooBig { at } => TreeErr::NumberTooBig { at },
    }
}

// Why a text's tree wasn't placed: the text is refused, or else that is why the parser stopped.
fn unplaced(src: &[u8], stop: Stop) -> TreeErr
    requires { stop ≡ Stop.Text → refusal_of src.now ≡ None → ⊥ }
    ensures { result ≡ unplaced_by (refusal_of src.now) stop }
{
    if let Some(refused) = refusal(src) {
        return refused_as(refused);
    }
    match stop {
        Stop::AllocErr { refused } => TreeErr::AllocErr { refused },
        Stop::OutOfMemory => TreeErr::OutOfMemory,
        Stop::Text => unreachable!(),
    }
}

impl Tree {
    /// Places the tree of a text of at most 16,777,216 bytes. It takes at most 1024 bytes of the arena for each byte of
    /// the text, and 1024 more.
    ///
    /// # Errors
    ///
    /// `Syntax`, `TooDeep` or `NumberTooBig` at the first token that is refused, or `Syntax` at the end of a text that
    /// ends too early: then the arena is unchanged. `AllocErr` where the arena has no place for the bytes of a name, or
    /// for a list of nodes, which doubles as it grows: it grows and was starved, or it doesn't and has fewer bytes than
    /// were in use plus those. `OutOfMemory` where memory outside the chunks runs out. Blocks placed until then stay in
    /// the arena, unused.
    pub fn parse<C: ChunkSource>(a: &mut Allocator<C>, src: &[u8]) -> Result<Tree, TreeErr>
        requires { length src.now ≤ 2 ^ 24 }
        ensures parses { Parses src.now a.old a.new result }
        ensures tree { IfOk result (IsTreeIn a.new.memory) }
        ensures lean { IfOk result (IsLeanTree a.new.memory) }
        ensures bytes { TakesAtMost (parse_bytes (length src.now)) a.old a.new }
        ensures asks { IfOk result (λ t. ProgramRan src.now a.old a.new) }
    {
        machine();
        match refusal(src) {
            Some(refused) => Err(refused_as(refused)),
            None => Tree::parse_in_one_pass(a, src),
        }
    }

    /// Places the tree of a text as [`Tree::parse`] does, but judges the text while it places the tree, not before. It
    /// returns the same, and takes no more.
    ///
    /// # Errors
    ///
    /// Those of `parse`. Blocks that were placed until then stay in the arena, unused, even if the text is refused.
    pub fn parse_in_one_pass<C: ChunkSource>(
        a: &mut Allocator<C>,
        src: &[u8],
    ) -> Result<Tree, TreeErr>
        requires { length src.now ≤ 2 ^ 24 }
        ensures parses { ParsesInOnePass src.now a.old a.new result }
        ensures tree { IfOk result (IsTreeIn a.new.memory) }
        ensures lean { IfOk result (IsLeanTree a.new.memory) }
        ensures bytes { TakesAtMost (parse_bytes (length src.now)) a.old a.new }
        ensures asks { IfOk result (λ t. ProgramRan src.now a.old a.new) }
    {
        some_reading();
        machine();
        one_program();
        well_formed();
        match program(a, src) {
            Ok(stmts) => Ok(Tree { stmts }),
            Err(stop) => Err(unplaced(src, stop)),
        }
    }

    /// Returns the text of the tree.
    ///
    /// # Errors
    ///
    /// Out of memory for the text.
    pub fn print<C: ChunkSource>(
        &self,
        alloc: Global,
        a: &Allocator<C>,
    ) -> Result<Bytes, OutOfMemory>
        requires { IsTreeIn a.now.memory self.now }
        ensures { (trees : Stmts) → Means a.now.memory self.now trees → IfOk result (λ out. out ≡ text trees) }
    {
        let mut out = Bytes::new(alloc);
        let room = a.used_bytes() / 88 + 1;
        put_row(&mut out, a, self.stmts, Stand::Expr, room)?;
        Ok(out)
    }

    /// Copies the tree to another arena, on blocks that were free there. The copy means the same. It takes at most 128
    /// bytes of that arena for each node, and one for each byte of the names.
    ///
    /// # Errors
    ///
    /// `AllocErr` where the other arena has no place for a block: it grows and was starved, or it doesn't and has fewer
    /// bytes than were in use plus those. `OutOfMemory` where memory outside the chunks runs out. Blocks placed until
    /// then stay in the arena, unused.
    pub fn clone_in<C: ChunkSource, D: ChunkSource>(
        &self,
        from: &Allocator<C>,
        to: &mut Allocator<D>,
    ) -> Result<Tree, TreeErr>
        requires { IsTreeIn from.now.memory self.now }
        ensures clones { (trees : Stmts) → Means from.now.memory self.now trees → Clones trees to.old to.new result }
        ensures asks { (trees : Stmts) → Means from.now.memory self.now trees → CopyAsks trees to.old to.new result }
        ensures tree { IfOk result (IsTreeIn to.new.memory) }
        ensures lean { IfOk result (IsLeanTree to.new.memory) }
        ensures bytes { (trees : Stmts) → Means from.now.memory self.now trees
            → TakesAtMost (clone_bytes trees) to.old to.new }
    {
        let room = from.used_bytes() / 88 + 1;
        match clone_row(from, to, self.stmts, room) {
            Ok(stmts) => Ok(Tree { stmts }),
            Err(AllocError::AllocErr { refused }) => Err(TreeErr::AllocErr { refused }),
            Err(AllocError::OutOfMemory) => Err(TreeErr::OutOfMemory),
            Err(AllocError::CapacityOverflow) => unreachable!(),
        }
    }

    /// Folds each expression in place, children first: a negation of a negation becomes what that negates, and a sum or
    /// a product of numbers alone becomes their total, if it fits 64 bits. Returns the number of nodes to which one of
    /// these two rules was applied. Takes no memory, and changes only bytes of the tree's lists of nodes.
    pub fn fold<C: ChunkSource>(&mut self, a: &mut Allocator<C>) -> u64
        requires { IsTreeIn a.old.memory self.old }
        ensures folded { (trees : Stmts) → Means a.old.memory self.old trees → Folds trees a.old a.new self.old self.new result }
        ensures tree { IsTreeIn a.new.memory self.new }
        ensures lean { IsLeanTree a.old.memory self.old → IsLeanTree a.new.memory self.new }
    {
        folding();
        let room = a.used_bytes() / 88 + 1;
        fold_row(a, self.stmts, room)
    }
}
