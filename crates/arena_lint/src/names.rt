// The names of an expression that aren't defined.
ghost use Rattle.std.specs.Prelude.{◌≡◌, ◌<◌, ◌≤◌, [], ◌∷◌, List, length, IfOk, OnOk};
ghost use Rattle.std.specs.Str.{IsUtf8};
ghost use Rattle.arena_symbols.specs.Named.{AreNames};
ghost use Rattle.arena_tree.specs.Parts.{spelled_at};
ghost use Rattle.arena_tree.specs.Spending.{error_of};
ghost use Rattle.tree_rules.specs.Report.{NameSet, have_name, undefined};
ghost use Rattle.arena_lint.specs.Ahead.{NamesAhead};
ghost use Rattle.arena_lint.specs.Knowing.{Knows};
ghost use Rattle.arena_lint.specs.Spending.{IsExhausted};

use arena_chunks::{Allocator, ChunkSource};
use arena_items::{AllocError, Grown};
use arena_rules::OutOfMemory;
use lint_reports::{FindKind, TakesFindings};
use std::alloc::Global;
use std::str;
use tree_reader::{is_name_start, word_end};

// The names that a walk knows: each has a number, and scopes hold the numbers of those that are defined.
pub(crate) type Known = arena_symbols::Names;

// Out of memory outside the arena.
pub(crate) fn exhausted(r: Result<(), OutOfMemory>) -> Grown<()>
    ensures same { IfOk result (λ x. r ≡ Ok x) }
    ensures exhausted { IsExhausted (error_of result) }
{
    r.map_err(|_| AllocError::OutOfMemory)
}

// Whether a name is defined.
#[tactic(auto, using(crate::proofs::KnowLemmas::known_has))]
fn is_defined<C: ChunkSource>(a: &Allocator<C>, known: &Known, name: &str) -> bool
    requires { AreNames a.now.memory known.now }
    ensures { (sets : List NameSet) → Knows a.now.memory known.now sets → result ≡ have_name sets name.now }
{
    known.resolve(a, name).is_some()
}

// Gives a finding if the name isn't defined.
fn use_name<C: ChunkSource, F: TakesFindings>(
    alloc: Global,
    a: &Allocator<C>,
    known: &Known,
    name: &[u8],
    found: &mut F,
) -> Grown<()>
    requires held { AreNames a.now.memory known.now }
    requires utf8 { IsUtf8 name.now }
    ensures gains { (sets : List NameSet) → Knows a.now.memory known.now sets
        → OnOk result (F.taking.gains found.old found.new (undefined sets (name.now ∷ []))) }
    ensures exhausted { IsExhausted (error_of result) }
{
    let spelled = unsafe { str::from_utf8_unchecked(name) };
    if is_defined(a, known, spelled) {
        return Ok(());
    }
    exhausted(found.take(alloc, FindKind::Undefined, name))
}

// Gives the names up to the next semicolon that aren't defined. Returns the byte after that.
pub(crate) fn use_names<C: ChunkSource, F: TakesFindings>(
    alloc: Global,
    a: &Allocator<C>,
    known: &Known,
    src: &[u8],
    at: usize,
    found: &mut F,
) -> Grown<usize>
    requires held { AreNames a.now.memory known.now }
    requires names { NamesAhead src.now at }
    ensures gains { (t : NamesAhead src.now at) (sets : List NameSet) → Knows a.now.memory known.now sets
        → OnOk result (F.taking.gains found.old found.new (undefined sets t.names)) }
    ensures behind { (t : NamesAhead src.now at) → IfOk result (λ end. spelled_at src.now end ≡ t.behind) }
    ensures later { IfOk result (λ end. at < end) }
    ensures within { IfOk result (λ end. end ≤ length src.now) }
    ensures exhausted { IsExhausted (error_of result) }
{
    let mut here = at;
    'names: loop {
        let b = src[here];
        // Most bytes that begin no name are below the semicolon.
        if b > b';' && is_name_start(b) {
            let end = word_end(src, here, here);
            use_name(alloc, a, known, &src[here..end], found)?;
            here = end;
        } else if b == b';' {
            return Ok(here + 1);
        } else {
            here += 1;
        }
    }
}
