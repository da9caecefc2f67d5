// Texts, and the trees that they become.
ghost use Rattle.std.specs.Prelude.{◌≡◌, ◌<◌, List, [], ◌∷◌, ◌++◌, ℕ, Some, length, IfOk, IfErr, OnOk, OnErr};
ghost use Rattle.arena.specs.AllocErrorType.{AllocError};
ghost use Rattle.arena.specs.Asts.{AreBelow};
ghost use Rattle.arena.specs.AstRows.{NameRefused};
ghost use Rattle.arena.specs.Frame.{Frame};
ghost use Rattle.example_language.specs.Meaning.{Expr, is_name, number_in, token_of, applied, reading};
ghost use Rattle.example_language.specs.Nodes.{IsAfter};
ghost use Rattle.example_language.specs.Parsing.{Completes, ReadsWord, RefusesWord, Fails, IsOfText, StopsAt};
ghost use Rattle.example_language.specs.Placing.{ArePlaced};
ghost use Rattle.example_language.specs.Trees.{IsTreeIn, IsBuilt, Moved, rows_in};
ghost use Rattle.example_language.specs.declared.parsing.ParseErr.TheVariants.{Refused};

use crate::nodes::{Node, Sign, Tree, sign_node};
use arena::{AllocError, Allocator, ByParts, ChunkSource};
use arrayvec::ArrayVec;

/// Why a text has no tree.
#[derive(Clone, Copy, PartialEq, Eq, Debug)]
pub enum ParseErr {
    /// The word at this byte is no token.
    Token { at: usize },
    /// The sign at this byte has fewer than two operands; or the text ends here, and more than one tree is left.
    Operands { at: usize },
    /// After the word at this byte more than 64 trees wait for their sign.
    TooDeep { at: usize },
    /// The arena refused a block, or has as many nodes or names as it can.
    Refused(AllocError),
}

impl From<AllocError> for ParseErr {
    ghost from_gives = { λ e result. result ≡ Refused e };

    fn from(e: AllocError) -> ParseErr {
        ParseErr::Refused(e)
    }
}

// What a word is.
#[derive(Clone, Copy)]
enum Token {
    Number(u32),
    Name,
    Join(Sign),
}

// Whether the word is a name: letters, and at least one.
fn is_name(word: &[u8]) -> bool
    ensures { result ≡ is_name word.now }
{
    !word.is_empty() && word.iter().all(|b| b.is_ascii_alphabetic())
}

// The number that digits spell, if it is below 2^32.
fn number_in(word: &str) -> Option<u32>
    ensures { result ≡ number_in word.now }
{
    match word.as_bytes() {
        // `parse` reads a plus before the digits.
        [b'+', ..] => None,
        _ => word.parse::<u32>().ok(),
    }
}

fn token_of(word: &str) -> Option<Token>
    ensures { result ≡ token_of word.now }
{
    if word == "+" {
        return Some(Token::Join(Sign::Plus));
    }
    if word == "*" {
        return Some(Token::Join(Sign::Times));
    }
    if is_name(word.as_bytes()) {
        return Some(Token::Name);
    }
    match number_in(word) {
        Some(n) => Some(Token::Number(n)),
        None => None,
    }
}

// The indices of the trees that wait for their sign, in the order of the text.
type Waiting = ArrayVec<u32, 64>;

// Takes the last two operands from the stack, and returns them in the order of the text.
fn operands(stack: &mut Waiting, at: usize) -> Result<(u32, u32), ParseErr>
    ensures below { (n : ℕ) → AreBelow n stack.old.items → AreBelow n stack.new.items }
    ensures both { (n : ℕ) → AreBelow n stack.old.items → IfOk result (λ p. (p.0 < n) × (p.1 < n)) }
    ensures items { IfOk result (λ p. stack.old.items ≡ stack.new.items ++ p.0 ∷ p.1 ∷ []) }
    ensures few { OnErr result (length stack.old.items < 2) }
    ensures place { IfErr result (λ e. e ≡ ParseErr.Operands at) }
{
    let Some(right) = stack.pop() else {
        return Err(ParseErr::Operands { at });
    };
    let Some(left) = stack.pop() else {
        return Err(ParseErr::Operands { at });
    };
    Ok((left, right))
}

// The node of a token. A name gets its number, and a sign takes its operands from the stack.
#[tactic(auto, using(arena_ast::proofs::Layers::moved_none))]
fn node_of<C: ChunkSource>(
    a: &mut Allocator<C>,
    tree: &mut Tree,
    stack: &mut Waiting,
    word: &str,
    token: Token,
    at: usize,
) -> Result<Node, ParseErr>
    requires tree { IsTreeIn a.old.memory tree.old }
    requires stack { AreBelow tree.old.nodes.raw.len stack.old.items }
    ensures moved { Moved a.old a.new tree.old tree.new }
    ensures stack { AreBelow tree.new.nodes.raw.len stack.new.items }
    ensures node { IfOk result (IsAfter tree.new.nodes.raw.len) }
    ensures completes { IfOk result (λ node. (trees : List Expr)
        → ArePlaced (rows_in a.old.memory tree.old) stack.old.items trees
        → Completes token word.now at (rows_in a.new.memory tree.new) stack.new.items trees node) }
    ensures fails { IfErr result (λ e. (trees : List Expr)
        → ArePlaced (rows_in a.old.memory tree.old) stack.old.items trees
        → Fails (applied (Some token) word.now at trees)
        (λ error. (token ≡ Token.Name) × NameRefused a.old a.new tree.old word.now error) e) }
{
    match token {
        Token::Number(n) => Ok(Node::Number(n)),
        Token::Name => Ok(Node::Name(tree.name(a, word)?)),
        Token::Join(sign) => {
            let (left, right) = operands(stack, at)?;
            Ok(sign_node(sign, left, right))
        }
    }
}

// Reads a word: its node comes into the tree, and the index of the node on the stack.
#[tactic(auto, using(arena_ast::proofs::Layers::moved_none), unfolding(arena_rules::specs::Rounding::up, arena_items::specs::Layout::second_at, arena_items::specs::Layout::pair_size))]
fn read_word<C: ChunkSource>(
    a: &mut Allocator<C>,
    tree: &mut Tree,
    stack: &mut Waiting,
    word: &str,
    at: usize,
) -> Result<(), ParseErr>
    requires tree { IsTreeIn a.old.memory tree.old }
    requires stack { AreBelow tree.old.nodes.raw.len stack.old.items }
    ensures moved { Moved a.old a.new tree.old tree.new }
    ensures stack { OnOk result (AreBelow tree.new.nodes.raw.len stack.new.items) }
    ensures reads { OnOk result ((trees : List Expr)
        → ArePlaced (rows_in a.old.memory tree.old) stack.old.items trees
        → ReadsWord word.now at trees (rows_in a.new.memory tree.new) stack.new.items) }
    ensures fails { IfErr result (λ e. (trees : List Expr)
        → ArePlaced (rows_in a.old.memory tree.old) stack.old.items trees
        → Fails (applied (token_of word.now) word.now at trees)
        (RefusesWord word.now at trees a.old a.new tree.old) e) }
{
    let Some(token) = token_of(word) else {
        return Err(ParseErr::Token { at });
    };
    let node = node_of(a, tree, stack, word, token, at)?;
    if stack.is_full() {
        return Err(ParseErr::TooDeep { at });
    }
    let index = tree.add(a, ByParts(node))?;
    stack.push(index);
    Ok(())
}

/// Returns the tree of a text. What was in use before stays as it was.
///
/// # Errors
///
/// The text's first error, which is `Token`, `Operands` or `TooDeep`. `Refused` with the arena's error, or with
/// `CapacityOverflow` for a name of 4,294,967,296 letters or more. Blocks placed until then stay in the arena, unused.
#[tactic(auto, using(arena_ast::proofs::Layers::built_others, arena_ast::proofs::Layers::built_then))]
pub fn parse<C: ChunkSource>(a: &mut Allocator<C>, src: &str) -> Result<Tree, ParseErr>
    ensures tree { IfOk result (IsBuilt a.old a.new) }
    ensures reading { IfOk result (IsOfText src.now a.new.memory) }
    ensures wrong { IfErr result (Fails (reading src.now) (StopsAt src.now a.old a.new)) }
    ensures others { Frame a.old.memory a.new.memory [] [] }
{
    let mut tree = Tree::new_in();
    let mut stack = Waiting::new();
    let mut at = 0;
    'words: for word in src.split(' ') {
        read_word(a, &mut tree, &mut stack, word, at)?;
        at += word.len() + 1;
    }
    if stack.len() != 1 {
        return Err(ParseErr::Operands { at: src.len() });
    }
    Ok(tree)
}
