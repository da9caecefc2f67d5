// Statements.
ghost use Rattle.std.specs.Prelude.{◌≡◌, ℕ, ◌^◌, ◌≤◌, None, [], length, slice_range, IfOk};
ghost use Rattle.arena_items.specs.Asks.{EndsAt};
ghost use Rattle.tree_rules.specs.Grammar.{Program, spell};
ghost use Rattle.tree_rules.specs.Reading.{refusal_of};
ghost use Rattle.tree_rules.specs.Refusals.{most_nest};
ghost use Rattle.tree_rules.specs.Tokens.{Word, LeftBrace, tokens, without_places};
ghost use Rattle.tree_reader.specs.Seen.{tokens_at};
ghost use Rattle.arena_tree.specs.Parts.{IsTokenAt};
ghost use Rattle.arena_tree.specs.LineParts.{IsLet, IsLine, AreLines, LineOrStop, LinesStop, ExprStarts, NoLineIn, IsProgramRead};
ghost use Rattle.arena_tree.specs.Asking.{HasRun, LineRan, LineRanOrNot, ProgramRan, program_asks};
ghost use Rattle.arena_tree.specs.Stopping.{LineEnds, LinesEnd};
ghost use Rattle.arena_tree.specs.Spending.{SpendsUpTo, SpendsAll, SpendsOrNot, SpendsWhole};
ghost use Rattle.arena_tree.specs.Stops.{OnText, OnArena};

use crate::begin::{LineStart, brace_at, line_at, semicolon_at};
use crate::exprs::expr;
use crate::stop::{MOST_OPEN, Parsed, Stop};
use arena_chunks::{Allocator, ChunkSource};
use arena_vec::Vec;
use tree_nodes::{Kind, Node, number, place_name, push_node, with_kids, wrap};
use tree_reader::next;

// A definition: its name's bytes, and the byte after the equals sign.
fn let_line<C: ChunkSource>(
    a: &mut Allocator<C>,
    src: &[u8],
    at: usize,
    begin: usize,
    end: usize,
    behind: usize,
    deep: usize,
    node: &mut Node,
) -> Parsed<usize>
    requires small { length src.now ≤ 2 ^ 24 }
    requires name { begin ≤ end }
    requires first_name { at ≤ begin }
    requires last_name { end ≤ behind }
    requires within { end ≤ length src.now }
    requires first { IsLet src.now at (slice_range src.now begin end) behind }
    requires word { (place : ℕ) × IsTokenAt src.now place (Word (slice_range src.now begin end)) end }
    requires rest { behind ≤ length src.now }
    requires nest { deep ≤ most_nest }
    ensures tree { IfOk result (λ end. IsLine deep src.now at end a.old.memory a.new.memory node.new) }
    ensures spends { SpendsUpTo at src.now a.old a.new result }
    ensures ran { IfOk result (λ end. LineRan src.now at end a.old a.new) }
    ensures ends { LineEnds src.now at a.old a.new result }
    ensures text { OnText result (NoLineIn deep src.now at) }
{
    let name = place_name(a, &src[begin..end])?;
    let stop = expr(a, src, behind, deep, node)?;
    let Some(last) = semicolon_at(src, stop) else {
        return Err(Stop::Text);
    };
    wrap(a, Kind::Let, node)?;
    node.text = name;
    Ok(last)
}

fn show_line<C: ChunkSource>(
    a: &mut Allocator<C>,
    src: &[u8],
    at: usize,
    deep: usize,
    node: &mut Node,
) -> Parsed<usize>
    requires small { length src.now ≤ 2 ^ 24 }
    requires within { at ≤ length src.now }
    requires starts { ExprStarts src.now at }
    requires nest { deep ≤ most_nest }
    ensures tree { IfOk result (λ end. IsLine deep src.now at end a.old.memory a.new.memory node.new) }
    ensures spends { SpendsUpTo at src.now a.old a.new result }
    ensures ran { IfOk result (λ end. LineRan src.now at end a.old a.new) }
    ensures ends { LineEnds src.now at a.old a.new result }
    ensures text { OnText result (NoLineIn deep src.now at) }
{
    let stop = expr(a, src, at, deep, node)?;
    let Some(last) = semicolon_at(src, stop) else {
        return Err(Stop::Text);
    };
    wrap(a, Kind::Show, node)?;
    Ok(last)
}

#[cycle(lines)]
fn line<C: ChunkSource>(
    a: &mut Allocator<C>,
    src: &[u8],
    at: usize,
    deep: usize,
    node: &mut Node,
) -> Parsed<Option<usize>>
    requires small { length src.now ≤ 2 ^ 24 }
    requires within { at ≤ length src.now }
    requires nest { deep ≤ most_nest }
    ensures tree { IfOk result (LineOrStop deep src.now at a.old.memory a.new.memory node.new) }
    ensures spends { SpendsOrNot at src.now a.old a.new result }
    ensures ran { IfOk result (LineRanOrNot src.now at a.old a.new) }
    ensures ends { LineEnds src.now at a.old a.new result }
    ensures text { OnText result (NoLineIn deep src.now at) }
{
    match line_at(src, at) {
        None => Err(Stop::Text),
        Some(LineStart::End) => Ok(None),
        Some(LineStart::Let { begin, end, behind }) => {
            let last = let_line(a, src, at, begin, end, behind, deep, node)?;
            Ok(Some(last))
        }
        Some(LineStart::Expr) => {
            let last = show_line(a, src, at, deep, node)?;
            Ok(Some(last))
        }
        Some(LineStart::Block(behind)) => {
            let last = block(a, src, at, behind, deep, node)?;
            Ok(Some(last))
        }
    }
}

// A block, of which the brace was read up to this byte after it.
#[cycle(lines)]
fn block<C: ChunkSource>(
    a: &mut Allocator<C>,
    src: &[u8],
    at: usize,
    behind: usize,
    deep: usize,
    node: &mut Node,
) -> Parsed<usize>
    requires small { length src.now ≤ 2 ^ 24 }
    requires start { IsTokenAt src.now at LeftBrace behind }
    requires nest { deep ≤ most_nest }
    ensures tree { IfOk result (λ end. IsLine deep src.now at end a.old.memory a.new.memory node.new) }
    ensures spends { SpendsUpTo at src.now a.old a.new result }
    ensures ran { IfOk result (λ end. LineRan src.now at end a.old a.new) }
    ensures ends { LineEnds src.now at a.old a.new result }
    ensures text { OnText result (NoLineIn deep src.now at) }
{
    if deep == MOST_OPEN {
        return Err(Stop::Text);
    }
    let (list, stop) = lines(a, src, behind, deep + 1)?;
    let Some(last) = brace_at(src, stop) else {
        return Err(Stop::Text);
    };
    *node = with_kids(Kind::Block, list);
    Ok(last)
}

#[cycle(lines)]
fn lines<C: ChunkSource>(
    a: &mut Allocator<C>,
    src: &[u8],
    at: usize,
    deep: usize,
) -> Parsed<(Vec<Node>, usize)>
    requires small { length src.now ≤ 2 ^ 24 }
    requires within { at ≤ length src.now }
    requires nest { deep ≤ most_nest }
    ensures trees { IfOk result (λ r. AreLines deep src.now at r.1 a.old.memory a.new.memory r.0
        × LinesStop (tokens_at src.now r.1)) }
    ensures spends { SpendsAll at src.now a.old a.new result }
    ensures ran { IfOk result (λ r. HasRun spell program_asks src.now at r.1 a.old a.new) }
    ensures ends { LinesEnd src.now at a.old a.new result }
    ensures text { OnText result (NoLineIn deep src.now at) }
{
    let mut list = Vec::new_in();
    let mut node = number(0);
    let mut here = at;
    loop {
        match line(a, src, here, deep, &mut node)? {
            None => return Ok((list, here)),
            Some(end) => {
                push_node(a, &mut list, &node)?;
                here = end;
            }
        }
    }
}

// A whole text: its statements, with nothing after them.
pub(crate) fn program<C: ChunkSource>(a: &mut Allocator<C>, src: &[u8]) -> Parsed<Vec<Node>>
    requires { length src.now ≤ 2 ^ 24 }
    ensures trees { IfOk result (IsProgramRead src.now a.old.memory a.new.memory) }
    ensures spends { SpendsWhole src.now a.old a.new result }
    ensures ran { IfOk result (λ list. ProgramRan src.now a.old a.new) }
    ensures ends { (p : Program) → spell p [] ≡ without_places (tokens src.now)
        → OnArena result (EndsAt (program_asks 0 p) [] a.old a.new) }
    ensures text { OnText result (refusal_of src.now ≡ None → ⊥) }
{
    let (list, end) = lines(a, src, 0, 0)?;
    match next(src, end) {
        Some(_more) => Err(Stop::Text),
        None => Ok(list),
    }
}
