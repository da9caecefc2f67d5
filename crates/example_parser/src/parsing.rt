// Texts, and the trees that they become.
ghost use Rattle.std.specs.Prelude.{◌<◌, ℕ, IfOk, []};
ghost use Rattle.arena_ast.specs.Asts.{AreBelow};
ghost use Rattle.arena_ast.specs.Beside.{IsNew, Moves};
ghost use Rattle.arena_chunks.specs.Frame.{Frame};
ghost use Rattle.example_parser.specs.Nodes.{IsAfter};

use crate::nodes::{Node, Tree};
use arena_ast::ByParts;
use arena_chunks::{Allocator, ChunkSource};
use arena_items::{AllocError, InArena};
use arrayvec::ArrayVec;

/// Why a text has no tree.
#[derive(Clone, Copy, PartialEq, Eq, Debug)]
pub enum ParseErr {
    /// A word is no token.
    Token,
    /// A sign has fewer than two operands, or more than one tree is left.
    Operands,
    /// More than 64 trees wait for their sign.
    TooDeep,
    /// The arena refused a block, or has as many nodes or names as it can.
    Refused(AllocError),
}

impl From<AllocError> for ParseErr {
    fn from(e: AllocError) -> ParseErr {
        ParseErr::Refused(e)
    }
}

// The indices of the trees that wait for their sign.
pub(crate) type Waiting = ArrayVec<u32, 64>;

// Takes the last two operands from the stack.
fn operands(stack: &mut Waiting) -> Result<(u32, u32), ParseErr>
    ensures below { (n : ℕ) → AreBelow n stack.old.items → AreBelow n stack.new.items }
    ensures both { (n : ℕ) → AreBelow n stack.old.items → IfOk result (λ p. (p.0 < n) × (p.1 < n)) }
{
    let Some(right) = stack.pop() else {
        return Err(ParseErr::Operands);
    };
    let Some(left) = stack.pop() else {
        return Err(ParseErr::Operands);
    };
    Ok((left, right))
}

// The node of a word.
#[tactic(auto, using(arena_ast::proofs::Layers::stays))]
fn node_of<C: ChunkSource>(
    a: &mut Allocator<C>,
    tree: &mut Tree,
    stack: &mut Waiting,
    word: &str,
) -> Result<Node, ParseErr>
    requires tree { ⟦<Tree as InArena>⟧.is_held a.old.memory tree.old }
    requires stack { AreBelow tree.old.nodes.raw.len stack.old.items }
    ensures moves { Moves ⟦<Tree as InArena>⟧ a.old.memory a.new.memory tree.old tree.new }
    ensures stack { AreBelow tree.new.nodes.raw.len stack.new.items }
    ensures node { IfOk result (IsAfter tree.new.nodes.raw.len) }
{
    if word == "+" {
        let (left, right) = operands(stack)?;
        return Ok(Node::Sum(left, right));
    }
    if word == "*" {
        let (left, right) = operands(stack)?;
        return Ok(Node::Product(left, right));
    }
    if let Ok(number) = word.parse::<u32>() {
        return Ok(Node::Number(number));
    }
    if word.is_empty() {
        return Err(ParseErr::Token);
    }
    Ok(Node::Name(tree.name(a, word)?))
}

/// Returns the tree of a text. What was in use before stays as it was.
///
/// # Errors
///
/// Blocks placed until then stay in the arena, unused.
#[tactic(auto, using(arena_ast::proofs::Layers::others_stay, arena_ast::proofs::Layers::new_then), unfolding(arena_rules::specs::Rounding::up, arena_items::specs::Layout::second_at, arena_items::specs::Layout::pair_size))]
pub fn parse<C: ChunkSource>(a: &mut Allocator<C>, src: &str) -> Result<Tree, ParseErr>
    ensures tree { IfOk result (IsNew ⟦<Tree as InArena>⟧ a.old.memory a.new.memory) }
    ensures others { Frame a.old.memory a.new.memory [] [] }
{
    let mut tree = Tree::new_in();
    let mut stack = Waiting::new();
    'tokens: for word in src.split(' ') {
        let node = node_of(a, &mut tree, &mut stack, word)?;
        if stack.is_full() {
            return Err(ParseErr::TooDeep);
        }
        let index = tree.add(a, ByParts(node))?;
        stack.push(index);
    }
    if stack.len() != 1 {
        return Err(ParseErr::Operands);
    }
    Ok(tree)
}
