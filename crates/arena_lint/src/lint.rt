// The report of one text.
ghost use Rattle.std.specs.Prelude.{◌≡◌, ◌+◌, ◌*◌, ◌^◌, ◌≤◌, [], length, Ok, IfOk, IfErr, OnOk};
ghost use Rattle.arena_items.specs.Costs.{used};
ghost use Rattle.arena_tree.specs.Spending.{error_of};
ghost use Rattle.lint_reports.specs.Reports.{report_text};
ghost use Rattle.arena_tree.specs.Parsing.{IsProgramText};
ghost use Rattle.tree_rules.specs.Refusals.{TreeOf};
ghost use Rattle.tree_rules.specs.Report.{findings_of};
ghost use Rattle.tree_rules.specs.Trees.{Stmts};
ghost use Rattle.tree_rules.specs.Weights.{weights};
ghost use Rattle.arena_lint.specs.All.{IsTextOf};
ghost use Rattle.arena_lint.specs.Linting.{Lints, Checks, no_place, unparsed_by};
ghost use Rattle.arena_lint.specs.Spending.{Spends, walk_bytes};
ghost use Rattle.arena_lint.specs.Stopping.{WalksFrom};

use crate::walk::walk;
use arena_chunks::{Allocator, ChunkSource};
use arena_items::{AllocError, Grown};
use arena_rules::OutOfMemory;
use arena_symbols::Names;
use arena_tree::{Tree, TreeErr};
use lint_reports::{FileReport, Findings, TakesFindings, put_report};
use std::alloc::Global;
use tree_rules::laws::{tree_weight, well_formed};

// The report where a block had no place.
fn no_place<C: ChunkSource>(a: &Allocator<C>) -> FileReport
    ensures { result ≡ no_place a.now.memory.state.is_growing }
{
    if a.is_growing() {
        FileReport::Refused
    } else {
        FileReport::Full
    }
}

// The report of a text that has no tree.
fn unparsed<C: ChunkSource>(a: &Allocator<C>, why: TreeErr) -> FileReport
    ensures { result ≡ unparsed_by a.now.memory.state.is_growing why }
{
    match why {
        TreeErr::Syntax { at } => FileReport::Syntax { at },
        TreeErr::TooDeep { at } => FileReport::TooDeep { at },
        TreeErr::NumberTooBig { at } => FileReport::NumberTooBig { at },
        TreeErr::AllocErr { .. } => no_place(a),
        TreeErr::OutOfMemory => FileReport::OutOfMemory,
    }
}

// Gives the findings in the text of a program to what takes them.
fn give_findings<C: ChunkSource, F: TakesFindings>(
    alloc: Global,
    a: &mut Allocator<C>,
    src: &[u8],
    found: &mut F,
) -> Grown<usize>
    requires small { length src.now ≤ 2 ^ 24 }
    requires program { IsProgramText src.now }
    ensures gains { (trees : Stmts) → TreeOf src.now (Ok trees)
        → OnOk result (F.taking.gains found.old found.new (findings_of trees)) }
    ensures spends { (trees : Stmts) → TreeOf src.now (Ok trees)
        → Spends (walk_bytes (weights trees)) 0 0 a.old a.new (error_of result) }
    ensures asks { (trees : Stmts) → TreeOf src.now (Ok trees) → WalksFrom trees a.old a.new (error_of result) }
{
    tree_weight();
    well_formed();
    let mut known = Names::new_in();
    walk(alloc, a, &mut known, src, 0, found)
}

// Gives the findings in a text to what takes them. Returns its report where that isn't `Checked`: what was given then
// is of no use.
fn lint_with<C: ChunkSource, F: TakesFindings>(
    alloc: Global,
    a: &mut Allocator<C>,
    src: &[u8],
    found: &mut F,
) -> Result<(), FileReport>
    requires unused { used a.old ≡ 0 }
    requires small { length src.now ≤ 2 ^ 24 }
    ensures checked { OnOk result (Checks F.taking src.now a.old a.new found.old found.new) }
    ensures other { IfErr result (Lints src.now a.old a.new) }
{
    tree_weight();
    if let Err(why) = Tree::parse_in_one_pass(a, src) {
        return Err(unparsed(a, why));
    }
    // The names are read in the text, which has far fewer bytes than the tree.
    match give_findings(alloc, a, src, found) {
        Ok(_) => Ok(()),
        Err(AllocError::AllocErr { .. }) => Err(no_place(a)),
        Err(AllocError::OutOfMemory) => Err(FileReport::OutOfMemory),
        // A walk never needs more numbers than there are.
        Err(AllocError::CapacityOverflow) => unreachable!(),
    }
}

/// Returns the report of a text of at most 16,777,216 bytes. Its tree, its names and their scopes are placed in the
/// arena, of which nothing is used yet; they take at most 4096 bytes for each byte of the text, and 4096 more.
///
/// # Errors
///
/// `Syntax`, `TooDeep` or `NumberTooBig` at the first token that is refused, or `Syntax` at the end of a text that ends
/// too early. Where a block that a program asks for has no place, it is `Full` over an arena that doesn't grow, which
/// has fewer bytes than those, and `Refused` over one that grows, which was starved. It is `OutOfMemory` where memory
/// runs out.
pub fn lint_one<C: ChunkSource>(alloc: Global, a: &mut Allocator<C>, src: &[u8]) -> FileReport
    requires unused { used a.old ≡ 0 }
    requires small { length src.now ≤ 2 ^ 24 }
    ensures { Lints src.now a.old a.new result }
{
    let mut found = Findings::new(alloc);
    match lint_with(alloc, a, src, &mut found) {
        Ok(()) => FileReport::Checked(found),
        Err(report) => report,
    }
}

// The report of a text for whose findings there is no memory.
fn without_findings<C: ChunkSource>(a: &mut Allocator<C>, src: &[u8]) -> FileReport
    requires unused { used a.old ≡ 0 }
    requires small { length src.now ≤ 2 ^ 24 }
    ensures { Lints src.now a.old a.new result }
{
    tree_weight();
    match Tree::parse_in_one_pass(a, src) {
        Ok(_) => FileReport::OutOfMemory,
        Err(why) => unparsed(a, why),
    }
}

// The text of a report of no findings, with room for as many bytes as the source has.
fn begin_text(alloc: Global, src: &[u8], i: u64) -> Result<Vec<u8>, OutOfMemory>
    ensures { IfOk result (λ text. text.items ≡ report_text i (FileReport.Checked [])) }
{
    let mut text = Vec::with_capacity(alloc, src.len())?;
    put_report(&mut text, i, &FileReport::Checked(Findings::new(alloc)))?;
    Ok(text)
}

/// Does what `lint_one` does, for source number `i`, but returns the text of the report, and whether it is `Refused`.
/// The findings go straight into the text.
///
/// # Errors
///
/// The report, where there is no memory for its text.
pub fn lint_text<C: ChunkSource>(
    alloc: Global,
    a: &mut Allocator<C>,
    src: &[u8],
    i: u64,
) -> Result<(Vec<u8>, bool), FileReport>
    requires unused { used a.old ≡ 0 }
    requires small { length src.now ≤ 2 ^ 24 }
    ensures text { IfOk result (λ told. IsTextOf i (Lints src.now a.old a.new) told.0.items told.1) }
    ensures report { IfErr result (Lints src.now a.old a.new) }
{
    let Ok(mut text) = begin_text(alloc, src, i) else {
        return Err(without_findings(a, src));
    };
    let Err(report) = lint_with(alloc, a, src, &mut text) else {
        return Ok((text, false));
    };
    text.clear();
    match put_report(&mut text, i, &report) {
        Ok(()) => Ok((text, matches!(report, FileReport::Refused))),
        Err(_) => Err(report),
    }
}
