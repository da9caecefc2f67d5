// Statements, one after another.
ghost use Rattle.std.specs.Prelude.{◌≡◌, ◌+◌, ◌^◌, ◌<◌, ◌≤◌, ◌∷◌, [], length, drop, List, Some, None, Ok, IfOk, OnOk, if◌then◌else◌};
ghost use Rattle.std.specs.Str.{IsUtf8};
ghost use Rattle.arena_symbols.specs.Named.{AreNames, Moves};
ghost use Rattle.arena_tree.specs.Parts.{spelled_at};
ghost use Rattle.arena_tree.specs.Spending.{error_of};
ghost use Rattle.tree_reader.specs.Seen.{IsNext};
ghost use Rattle.tree_rules.specs.Grammar.{line_tree};
ghost use Rattle.tree_rules.specs.Report.{NameSet, defined, walk_stmt, walk};
ghost use Rattle.tree_rules.specs.Weights.{weight, weights};
ghost use Rattle.arena_lint.specs.Ahead.{LineAhead, LinesAhead, line_trees};
ghost use Rattle.arena_lint.specs.Knowing.{Knows, found_of};
ghost use Rattle.arena_lint.specs.Spending.{Takes, IsExhausted};
ghost use Rattle.arena_lint.specs.Stopping.{DoesName, BeginsBlock, EndsBlock, Does, DoesAll, StopsAtName, StopsAtBlock, StopsAt, StopsIn, Goes};
ghost use Rattle.arena_lint.specs.Steps.{Finds, IsNotEmpty};

use crate::names::{Known, exhausted, use_names};
use arena_chunks::{Allocator, ChunkSource};
use arena_items::Grown;
use lint_reports::{FindKind, TakesFindings};
use std::alloc::Global;
use std::str;
use tree_reader::{Lexeme, Seen, next};

// Defines a name. Returns what is found of it, if anything.
fn define_name<C: ChunkSource>(
    a: &mut Allocator<C>,
    known: &mut Known,
    name: &str,
) -> Grown<Option<FindKind>>
    requires known { AreNames a.old.memory known.old }
    requires length { length name.now < 2 ^ 32 }
    ensures moves { Moves a.old.memory a.new.memory known.old known.new }
    ensures means { (sets : List NameSet) → Knows a.old.memory known.old sets
        → IfOk result (λ found. Knows a.new.memory known.new (defined name.now sets).known
        × ((defined name.now sets).findings ≡ found_of found name.now)) }
    ensures takes { Takes (1 + length name.now) a.old a.new known.old known.new (error_of result) }
    ensures goes { Goes (DoesName name.now) (StopsAtName name.now) a.old a.new known.old known.new (error_of result) }
{
    let id = known.symbols.intern(a, name)?;
    let is_seen = known.scopes.lookup(a, id).is_some();
    let is_new = known.scopes.define(a, id, 0)?;
    Ok(finding(is_new, is_seen))
}

// What is found of a definition, by whether it is new in its block, and whether an enclosing block has it.
fn finding(is_new: bool, is_seen: bool) -> Option<FindKind>
    ensures { result ≡ (if is_new then (if is_seen then Some FindKind.Shadowed else None) else Some FindKind.Redefined) }
{
    if !is_new {
        return Some(FindKind::Redefined);
    }
    if is_seen {
        Some(FindKind::Shadowed)
    } else {
        None
    }
}

// Gives a finding, if there is one.
fn give<F: TakesFindings>(
    alloc: Global,
    found: &mut F,
    kind: Option<FindKind>,
    name: &[u8],
) -> Grown<()>
    ensures gains { OnOk result (F.taking.gains found.old found.new (found_of kind name.now)) }
    ensures exhausted { IsExhausted (error_of result) }
{
    match kind {
        Some(kind) => exhausted(found.take(alloc, kind, name)),
        None => Ok(()),
    }
}

// Walks over the name of a definition.
fn define<C: ChunkSource, F: TakesFindings>(
    alloc: Global,
    a: &mut Allocator<C>,
    known: &mut Known,
    name: &[u8],
    found: &mut F,
) -> Grown<()>
    requires known { AreNames a.old.memory known.old }
    requires utf8 { IsUtf8 name.now }
    requires short { length name.now < 2 ^ 32 }
    ensures moves { Moves a.old.memory a.new.memory known.old known.new }
    ensures finds { Finds F.taking a.old.memory a.new.memory known.old known.new found.old found.new result (defined name.now) }
    ensures takes { Takes (1 + length name.now) a.old a.new known.old known.new (error_of result) }
    ensures goes { Goes (DoesName name.now) (StopsAtName name.now) a.old a.new known.old known.new (error_of result) }
{
    let spelled = unsafe { str::from_utf8_unchecked(name) };
    let kind = define_name(a, known, spelled)?;
    give(alloc, found, kind, name)
}

// Walks over a definition. Returns the byte after it, as the next functions do.
fn let_line<C: ChunkSource, F: TakesFindings>(
    alloc: Global,
    a: &mut Allocator<C>,
    known: &mut Known,
    src: &[u8],
    at: usize,
    l: Lexeme,
    found: &mut F,
) -> Grown<usize>
    requires known { AreNames a.old.memory known.old }
    requires small { length src.now ≤ 2 ^ 24 }
    requires line { LineAhead src.now at }
    requires next { IsNext src.now at l }
    requires key { l.seen ≡ Seen.LetKey }
    ensures moves { Moves a.old.memory a.new.memory known.old known.new }
    ensures finds { (t : LineAhead src.now at)
        → Finds F.taking a.old.memory a.new.memory known.old known.new found.old found.new result (walk_stmt (line_tree t.line)) }
    ensures takes { (t : LineAhead src.now at)
        → Takes (weight (line_tree t.line)) a.old a.new known.old known.new (error_of result) }
    ensures goes { (t : LineAhead src.now at)
        → Goes (Does (line_tree t.line)) (StopsAt (line_tree t.line)) a.old a.new known.old known.new (error_of result) }
    ensures behind { (t : LineAhead src.now at) → IfOk result (λ end. spelled_at src.now end ≡ t.behind) }
    ensures later { IfOk result (λ end. at < end) }
    ensures within { IfOk result (λ end. end ≤ length src.now) }
{
    let Some(name) = next(src, l.end) else {
        unreachable!()
    };
    let end = use_names(alloc, a, known, src, name.end, found)?;
    define(alloc, a, known, &src[name.at..name.end], found)?;
    Ok(end)
}

// Begins a block.
fn enter_block<C: ChunkSource>(a: &mut Allocator<C>, known: &mut Known) -> Grown<()>
    requires { AreNames a.old.memory known.old }
    ensures moves { Moves a.old.memory a.new.memory known.old known.new }
    ensures knows { (sets : List NameSet) → Knows a.old.memory known.old sets
        → OnOk result (Knows a.new.memory known.new ([] ∷ sets) × IsNotEmpty sets) }
    ensures takes { Takes 1 a.old a.new known.old known.new (error_of result) }
    ensures goes { Goes BeginsBlock StopsAtBlock a.old a.new known.old known.new (error_of result) }
{
    known.scopes.enter(a)
}

// Ends a block.
fn leave_block<C: ChunkSource>(a: &mut Allocator<C>, known: &mut Known)
    requires { AreNames a.old.memory known.old }
    ensures moves { Moves a.old.memory a.new.memory known.old known.new }
    ensures leaves { (names : NameSet) (sets : List NameSet) → Knows a.old.memory known.old (names ∷ sets)
        → IsNotEmpty sets → Knows a.new.memory known.new sets }
    ensures takes { Takes 0 a.old a.new known.old known.new None }
    ensures goes { EndsBlock a.old known.old a.new known.new }
{
    known.scopes.leave(a);
}

// Walks over a statement, of which the first token was read.
#[cycle(walk)]
fn walk_line<C: ChunkSource, F: TakesFindings>(
    alloc: Global,
    a: &mut Allocator<C>,
    known: &mut Known,
    src: &[u8],
    at: usize,
    l: Lexeme,
    found: &mut F,
) -> Grown<usize>
    requires known { AreNames a.old.memory known.old }
    requires small { length src.now ≤ 2 ^ 24 }
    requires line { LineAhead src.now at }
    requires next { IsNext src.now at l }
    ensures moves { Moves a.old.memory a.new.memory known.old known.new }
    ensures finds { (t : LineAhead src.now at)
        → Finds F.taking a.old.memory a.new.memory known.old known.new found.old found.new result (walk_stmt (line_tree t.line)) }
    ensures takes { (t : LineAhead src.now at)
        → Takes (weight (line_tree t.line)) a.old a.new known.old known.new (error_of result) }
    ensures goes { (t : LineAhead src.now at)
        → Goes (Does (line_tree t.line)) (StopsAt (line_tree t.line)) a.old a.new known.old known.new (error_of result) }
    ensures behind { (t : LineAhead src.now at) → IfOk result (λ end. spelled_at src.now end ≡ t.behind) }
    ensures later { IfOk result (λ end. at < end) }
    ensures within { IfOk result (λ end. end ≤ length src.now) }
{
    match l.seen {
        Seen::LetKey => let_line(alloc, a, known, src, at, l, found),
        Seen::LeftBrace => {
            enter_block(a, known)?;
            let end = walk(alloc, a, known, src, l.end, found)?;
            leave_block(a, known);
            Ok(end)
        }
        _ => use_names(alloc, a, known, src, at, found),
    }
}

// Walks over all statements of a block, up to the brace that ends it and that one, or over all of a text.
#[cycle(walk)]
pub(crate) fn walk<C: ChunkSource, F: TakesFindings>(
    alloc: Global,
    a: &mut Allocator<C>,
    known: &mut Known,
    src: &[u8],
    at: usize,
    found: &mut F,
) -> Grown<usize>
    requires known { AreNames a.old.memory known.old }
    requires small { length src.now ≤ 2 ^ 24 }
    requires start { at ≤ length src.now }
    requires lines { LinesAhead src.now at }
    ensures moves { Moves a.old.memory a.new.memory known.old known.new }
    ensures finds { (t : LinesAhead src.now at)
        → Finds F.taking a.old.memory a.new.memory known.old known.new found.old found.new result (walk (line_trees t.lines)) }
    ensures takes { (t : LinesAhead src.now at)
        → Takes (weights (line_trees t.lines)) a.old a.new known.old known.new (error_of result) }
    ensures goes { (t : LinesAhead src.now at)
        → Goes (DoesAll (line_trees t.lines)) (StopsIn (line_trees t.lines)) a.old a.new known.old known.new (error_of result) }
    ensures behind { (t : LinesAhead src.now at) → IfOk result (λ end. spelled_at src.now end ≡ drop 1 t.behind) }
    ensures later { IfOk result (λ end. at ≤ end) }
    ensures within { IfOk result (λ end. end ≤ length src.now) }
{
    let mut here = at;
    'lines: loop {
        let Some(l) = next(src, here) else {
            return Ok(here);
        };
        if let Seen::RightBrace = l.seen {
            return Ok(l.end);
        }
        here = walk_line(alloc, a, known, src, here, l, found)?;
    }
}
