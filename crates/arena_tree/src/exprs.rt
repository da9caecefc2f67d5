// Reads texts that are programs, and places their trees.
ghost use Rattle.std.specs.Prelude.{ℕ, ◌^◌, ◌≤◌, length, IfOk};
ghost use Rattle.arena_chunks.specs.Source.{View};
ghost use Rattle.tree_rules.specs.Refusals.{most_nest};
ghost use Rattle.arena_tree.specs.Parts.{IsStart, IsFactor, IsTerm, IsTerms, NoFactorIn, NoTermsIn};
ghost use Rattle.arena_tree.specs.Asking.{FactorRan, TermRan, TermsRan, FirstFactorRan, FirstTermRan};
ghost use Rattle.arena_tree.specs.Stopping.{FactorEnds, TermEnds, ExprEnds};
ghost use Rattle.arena_tree.specs.Spending.{SpendsUpTo, IsFirstFactor, IsFirstTerm};
ghost use Rattle.arena_tree.specs.Stops.{OnText};

use crate::look::{Start, close_at, sign_at, star_at, start_at};
use crate::signs::{negate, sign};
use crate::stop::{MOST_OPEN, Parsed, Stop};
use arena_chunks::{Allocator, ChunkSource};
use arena_vec::Vec;
use tree_nodes::{Kind, Node, name_node, number, with_kids, with_more};

// This function and the next ones each read a part, write its node, and return where it ends. So many are open before
// it. Factors are inlined into their callers; the rarer parts, which clear memory for their results, are not.
#[cycle(parse)]
#[inline(always)]
fn factor<C: ChunkSource>(
    a: &mut Allocator<C>,
    src: &[u8],
    at: usize,
    deep: usize,
    node: &mut Node,
) -> Parsed<usize>
    requires small { length src.now ≤ 2 ^ 24 }
    requires within { at ≤ length src.now }
    requires nest { deep ≤ most_nest }
    ensures tree { IfOk result (λ end. IsFactor deep src.now at end a.old.memory a.new.memory node.new) }
    ensures spends { SpendsUpTo at src.now a.old a.new result }
    ensures ran { IfOk result (λ end. FactorRan src.now at end a.old a.new) }
    ensures ends { FactorEnds src.now at a.old a.new result }
    ensures text { OnText result (NoFactorIn deep src.now at) }
{
    match start_at(src, at) {
        None => Err(Stop::Text),
        Some(Start::Number { n, end }) => {
            *node = number(n);
            Ok(end)
        }
        Some(Start::Minus(behind)) => minus(a, src, at, behind, deep, node),
        Some(Start::Paren(behind)) => paren(a, src, at, behind, deep, node),
        Some(Start::Word { begin, end }) => {
            name_node(a, &src[begin..end], node)?;
            Ok(end)
        }
    }
}

// A factor after a minus sign, which was read up to this byte after it.
#[cycle(parse)]
#[inline(never)]
fn minus<C: ChunkSource>(
    a: &mut Allocator<C>,
    src: &[u8],
    at: usize,
    behind: usize,
    deep: usize,
    node: &mut Node,
) -> Parsed<usize>
    requires small { length src.now ≤ 2 ^ 24 }
    requires start { IsStart src.now at (Start.Minus behind) }
    requires nest { deep ≤ most_nest }
    ensures tree { IfOk result (λ end. IsFactor deep src.now at end a.old.memory a.new.memory node.new) }
    ensures spends { SpendsUpTo at src.now a.old a.new result }
    ensures ran { IfOk result (λ end. FactorRan src.now at end a.old a.new) }
    ensures ends { FactorEnds src.now at a.old a.new result }
    ensures text { OnText result (NoFactorIn deep src.now at) }
{
    if deep == MOST_OPEN {
        return Err(Stop::Text);
    }
    let end = factor(a, src, behind, deep + 1, node)?;
    negate(a, node)?;
    Ok(end)
}

// An expression in parentheses, of which the first was read.
#[cycle(parse)]
#[inline(never)]
fn paren<C: ChunkSource>(
    a: &mut Allocator<C>,
    src: &[u8],
    at: usize,
    behind: usize,
    deep: usize,
    node: &mut Node,
) -> Parsed<usize>
    requires small { length src.now ≤ 2 ^ 24 }
    requires start { IsStart src.now at (Start.Paren behind) }
    requires nest { deep ≤ most_nest }
    ensures tree { IfOk result (λ end. IsFactor deep src.now at end a.old.memory a.new.memory node.new) }
    ensures spends { SpendsUpTo at src.now a.old a.new result }
    ensures ran { IfOk result (λ end. FactorRan src.now at end a.old a.new) }
    ensures ends { FactorEnds src.now at a.old a.new result }
    ensures text { OnText result (NoFactorIn deep src.now at) }
{
    if deep == MOST_OPEN {
        return Err(Stop::Text);
    }
    let end = expr(a, src, behind, deep + 1, node)?;
    let Some(last) = close_at(src, end) else {
        return Err(Stop::Text);
    };
    Ok(last)
}

#[cycle(parse)]
fn term<C: ChunkSource>(
    a: &mut Allocator<C>,
    src: &[u8],
    at: usize,
    deep: usize,
    node: &mut Node,
) -> Parsed<usize>
    requires small { length src.now ≤ 2 ^ 24 }
    requires within { at ≤ length src.now }
    requires nest { deep ≤ most_nest }
    ensures tree { IfOk result (λ end. IsTerm deep src.now at end a.old.memory a.new.memory node.new) }
    ensures spends { SpendsUpTo at src.now a.old a.new result }
    ensures ran { IfOk result (λ end. TermRan src.now at end a.old a.new) }
    ensures ends { TermEnds src.now at a.old a.new result }
    ensures text { OnText result (NoTermsIn deep src.now at) }
{
    let end = factor(a, src, at, deep, node)?;
    match star_at(src, end) {
        None => Ok(end),
        Some(star) => factors(a, src, star, deep, node),
    }
}

// So many nodes are gathered before they go into a list, so that a list of no more has just the room for them. Where more
// come, the first list has this room.
const FEW: usize = 4;

const MORE: u32 = 8;

// The factors behind the first one and a star. Not inlined, since it clears memory for the nodes.
#[cycle(parse)]
#[inline(never)]
fn factors<C: ChunkSource>(
    a: &mut Allocator<C>,
    src: &[u8],
    at: usize,
    deep: usize,
    node: &mut Node,
) -> Parsed<usize>
    requires small { length src.now ≤ 2 ^ 24 }
    requires within { at ≤ length src.now }
    requires nest { deep ≤ most_nest }
    ensures tree { (from : ℕ) (old : View) → IsFirstFactor deep src.now from at old a.old node.old
        → IfOk result (λ end. IsTerm deep src.now from end old.memory a.new.memory node.new) }
    ensures spends { (from : ℕ) (old : View) → IsFirstFactor deep src.now from at old a.old node.old
        → SpendsUpTo from src.now old a.new result }
    ensures ran { (from : ℕ) (old : View) → FirstFactorRan src.now from at old a.old
        → IfOk result (λ end. TermRan src.now from end old a.new) }
    ensures ends { (from : ℕ) (old : View) → FirstFactorRan src.now from at old a.old → TermEnds src.now from old a.new result }
    ensures text { (from : ℕ) (old : View) → IsFirstFactor deep src.now from at old a.old node.old
        → OnText result (NoTermsIn deep src.now from) }
{
    let mut nodes = [*node, number(0), number(0), number(0)];
    let mut count = 1;
    let mut list = Vec::new_in();
    let mut here = at;
    loop {
        let stop = factor(a, src, here, deep, &mut nodes[count])?;
        count += 1;
        let Some(star) = star_at(src, stop) else {
            let all = with_more(a, list, &nodes[..count], count as u32)?;
            *node = with_kids(Kind::Prod, all);
            return Ok(stop);
        };
        here = star;
        if count == FEW {
            list = with_more(a, list, &nodes, MORE)?;
            count = 0;
        }
    }
}

#[cycle(parse)]
pub(crate) fn expr<C: ChunkSource>(
    a: &mut Allocator<C>,
    src: &[u8],
    at: usize,
    deep: usize,
    node: &mut Node,
) -> Parsed<usize>
    requires small { length src.now ≤ 2 ^ 24 }
    requires within { at ≤ length src.now }
    requires nest { deep ≤ most_nest }
    ensures tree { IfOk result (λ end. IsTerms deep src.now at end a.old.memory a.new.memory node.new) }
    ensures spends { SpendsUpTo at src.now a.old a.new result }
    ensures ran { IfOk result (λ end. TermsRan src.now at end a.old a.new) }
    ensures ends { ExprEnds src.now at a.old a.new result }
    ensures text { OnText result (NoTermsIn deep src.now at) }
{
    let end = term(a, src, at, deep, node)?;
    match sign_at(src, end) {
        None => Ok(end),
        Some((minus, sign)) => terms(a, src, minus, sign, deep, node),
    }
}

// The terms behind the first one and a sign.
#[cycle(parse)]
#[inline(never)]
fn terms<C: ChunkSource>(
    a: &mut Allocator<C>,
    src: &[u8],
    first: bool,
    at: usize,
    deep: usize,
    node: &mut Node,
) -> Parsed<usize>
    requires small { length src.now ≤ 2 ^ 24 }
    requires within { at ≤ length src.now }
    requires nest { deep ≤ most_nest }
    ensures tree { (from : ℕ) (old : View) → IsFirstTerm first deep src.now from at old a.old node.old
        → IfOk result (λ end. IsTerms deep src.now from end old.memory a.new.memory node.new) }
    ensures spends { (from : ℕ) (old : View) → IsFirstTerm first deep src.now from at old a.old node.old
        → SpendsUpTo from src.now old a.new result }
    ensures ran { (from : ℕ) (old : View) → FirstTermRan first src.now from at old a.old
        → IfOk result (λ end. TermsRan src.now from end old a.new) }
    ensures ends { (from : ℕ) (old : View) → FirstTermRan first src.now from at old a.old → ExprEnds src.now from old a.new result }
    ensures text { (from : ℕ) (old : View) → IsFirstTerm first deep src.now from at old a.old node.old
        → OnText result (NoTermsIn deep src.now from) }
{
    let mut nodes = [*node, number(0), number(0), number(0)];
    let mut count = 1;
    let mut list = Vec::new_in();
    let mut minus = first;
    let mut here = at;
    loop {
        let stop = term(a, src, here, deep, &mut nodes[count])?;
        sign(a, minus, &mut nodes[count])?;
        count += 1;
        let Some((less, more)) = sign_at(src, stop) else {
            let all = with_more(a, list, &nodes[..count], count as u32)?;
            *node = with_kids(Kind::Sum, all);
            return Ok(stop);
        };
        minus = less;
        here = more;
        if count == FEW {
            list = with_more(a, list, &nodes, MORE)?;
            count = 0;
        }
    }
}
