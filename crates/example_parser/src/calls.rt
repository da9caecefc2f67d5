// Texts of calls with any number of operands: `x y 2 f/3` is `f(x, y, 2)`.
ghost use Rattle.std.specs.Prelude.{◌≡◌, ◌==◌, if◌then◌else◌, refl, IfOk, []};
ghost use Rattle.arena_ast.specs.Beside.{IsNew, Moves};
ghost use Rattle.arena_chunks.specs.Frame.{Frame};
ghost use Rattle.example_parser.specs.declared.calls.Term.TheVariants.{Name, Call};

use crate::parsing::{ParseErr, Waiting};
use arena_ast::{Ast, ByParts, Linked, Listed, Parts, list_operands, new_listed};
use arena_chunks::{Allocator, ChunkSource};
use arena_items::laws::part_law;
use arena_items::{Grown, InArena};
use arena_vec::Vec;

/// A node of a tree of calls.
#[derive(Clone, Copy, PartialEq, Eq, Debug)]
pub enum Term {
    /// The name with this number.
    Name(u32),
    /// A call of the name with this number. Its operands are this range of the list.
    Call(u32, u32, u32),
}

impl Parts for Term {
    type Form = (u8, (u32, (u32, u32)));

    ghost parts = { elim [ Name n ↦ (0, (n, (0, 0))) | Call n i j ↦ (1, (n, (i, j))) ] };

    ghost whole = { λ p. if p.0 == 0 then Name p.1.0 else Call p.1.0 p.1.1.0 p.1.1.1 };

    ghost back = { elim [ Name n ↦ refl | Call n i j ↦ refl ] };

    fn parts(self) -> Self::Form {
        match self {
            Term::Name(n) => (0, (n, (0, 0))),
            Term::Call(n, from, to) => (1, (n, (from, to))),
        }
    }

    fn whole(form: Self::Form) -> Self {
        let (tag, (n, (from, to))) = form;
        match tag {
            0 => Term::Name(n),
            _ => Term::Call(n, from, to),
        }
    }
}

impl Linked for Term {
    ghost is_after = { λ at term. Unit {0} };
}

/// A tree of calls, and beside it the operands of all of them.
pub type Calls = Listed<ByParts<Term>>;

// Returns the number of a name of the tree. The list stays.
fn name<C: ChunkSource>(a: &mut Allocator<C>, calls: &mut Calls, name: &str) -> Grown<u32>
    requires { ⟦<Calls as InArena>⟧.is_held a.old.memory calls.old }
    ensures { Moves ⟦<Calls as InArena>⟧ a.old.memory a.new.memory calls.old calls.new }
{
    part_law::<Ast<ByParts<Term>>, Vec<u32>>();
    calls.first.name(a, name)
}

// Appends a node to the tree, and returns its index. The list stays.
#[tactic(auto, unfolding(arena_rules::specs::Rounding::up, arena_items::specs::Layout::second_at, arena_items::specs::Layout::pair_size))]
fn add<C: ChunkSource>(a: &mut Allocator<C>, calls: &mut Calls, term: Term) -> Grown<u32>
    requires { ⟦<Calls as InArena>⟧.is_held a.old.memory calls.old }
    ensures { Moves ⟦<Calls as InArena>⟧ a.old.memory a.new.memory calls.old calls.new }
{
    part_law::<Ast<ByParts<Term>>, Vec<u32>>();
    calls.first.add(a, ByParts(term))
}

// The node of a word. A call takes its operands from the stack.
#[tactic(auto, using(arena_ast::proofs::Layers::stays, arena_ast::proofs::Layers::moves_then))]
fn term_of<C: ChunkSource>(
    a: &mut Allocator<C>,
    calls: &mut Calls,
    stack: &mut Waiting,
    word: &str,
) -> Result<Term, ParseErr>
    requires { ⟦<Calls as InArena>⟧.is_held a.old.memory calls.old }
    ensures { Moves ⟦<Calls as InArena>⟧ a.old.memory a.new.memory calls.old calls.new }
{
    let Some((callee, count)) = word.split_once('/') else {
        let number = name(a, calls, word)?;
        return Ok(Term::Name(number));
    };
    let Ok(count) = count.parse::<usize>() else {
        return Err(ParseErr::Token);
    };
    let Some(rest) = stack.len().checked_sub(count) else {
        return Err(ParseErr::Operands);
    };
    let (from, to) = list_operands(a, calls, &stack.as_slice()[rest..])?;
    stack.truncate(rest);
    let number = name(a, calls, callee)?;
    Ok(Term::Call(number, from, to))
}

// Adds the node of a word, and puts its index on the stack.
#[tactic(auto, using(arena_ast::proofs::Layers::moves_then))]
fn push_term<C: ChunkSource>(
    a: &mut Allocator<C>,
    calls: &mut Calls,
    stack: &mut Waiting,
    word: &str,
) -> Result<(), ParseErr>
    requires { ⟦<Calls as InArena>⟧.is_held a.old.memory calls.old }
    ensures { Moves ⟦<Calls as InArena>⟧ a.old.memory a.new.memory calls.old calls.new }
{
    let term = term_of(a, calls, stack, word)?;
    if stack.is_full() {
        return Err(ParseErr::TooDeep);
    }
    let index = add(a, calls, term)?;
    stack.push(index);
    Ok(())
}

/// Returns the tree of a text of calls. What was in use before stays as it was.
///
/// # Errors
///
/// Blocks placed until then stay in the arena, unused.
#[tactic(auto, using(arena_ast::proofs::Layers::others_stay, arena_ast::proofs::Layers::new_then))]
pub fn parse_calls<C: ChunkSource>(a: &mut Allocator<C>, src: &str) -> Result<Calls, ParseErr>
    ensures calls { IfOk result (IsNew ⟦<Calls as InArena>⟧ a.old.memory a.new.memory) }
    ensures others { Frame a.old.memory a.new.memory [] [] }
{
    let mut calls = new_listed();
    let mut stack = Waiting::new();
    'words: for word in src.split(' ') {
        push_term(a, &mut calls, &mut stack, word)?;
    }
    if stack.len() != 1 {
        return Err(ParseErr::Operands);
    }
    Ok(calls)
}

/// Returns the node of an operand of a call, counted from 0. Nothing is known of a range that is read from a node, so it
/// is compared with the list.
pub fn operand<C: ChunkSource>(a: &Allocator<C>, calls: &Calls, term: Term, i: u32) -> Option<u32>
    requires { ⟦<Calls as InArena>⟧.is_held a.now.memory calls.now }
{
    let Term::Call(_, from, to) = term else {
        return None;
    };
    let at = from.checked_add(i)?;
    if at < to && at < calls.second.len() {
        return Some(calls.second.get(a, at));
    }
    None
}
