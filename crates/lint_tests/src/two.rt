// A caller of the linter.
ghost use Rattle.std.specs.Prelude.{◌≡◌, ◌≢◌, ◌^◌, ◌≤◌, length, false, IfNone};
ghost use Rattle.arena_rules.specs.State.{allocated_bytes};
ghost use Rattle.arena_chunks.specs.Source.{View};
ghost use Rattle.arena_items.specs.Costs.{used};
ghost use Rattle.arena_tree.specs.Parsing.{IsProgramText};
ghost use Rattle.lint_reports.specs.Reports.{Reports, said};
ghost use Rattle.arena_lint.specs.Linting.{lint_bytes, IsStopped, IsResetBehind};

use arena_chunks::laws::used_by_giving_back;
use arena_chunks::{Allocator, ChunkSource};
use arena_lint::lint_one;
use lint_reports::FileReport;
use std::alloc::Global;

/// Lints two texts one after another on an arena that doesn't grow, with a reset between them. Each has its own report,
/// whatever the other defines; and the second has all bytes of the arena, whatever the first took. A report is `Full`
/// only if the arena has too few bytes for its text and no place for the block that is asked for next, and never
/// `Refused`. One that says nothing of its text is of a program.
pub fn lint_two<C: ChunkSource>(
    alloc: Global,
    a: &mut Allocator<C>,
    first: &[u8],
    second: &[u8],
) -> (FileReport, FileReport)
    requires unused { used a.old ≡ 0 }
    requires still { a.old.memory.state.is_growing ≡ false }
    requires small { length first.now ≤ 2 ^ 24 }
    requires small_too { length second.now ≤ 2 ^ 24 }
    ensures first { Reports first.now result.0 }
    ensures first_stopped { IfNone (said result.0) (IsProgramText first.now) }
    ensures first_full { lint_bytes (length first.now) ≤ allocated_bytes a.old.memory.state → result.0 ≢ FileReport.Full }
    ensures first_denied { result.0 ≡ FileReport.Full → IsStopped first.now a.old }
    ensures first_never { result.0 ≢ FileReport.Refused }
    ensures second { Reports second.now result.1 }
    ensures stopped { IfNone (said result.1) (IsProgramText second.now) }
    ensures full { lint_bytes (length second.now) ≤ allocated_bytes a.old.memory.state → result.1 ≢ FileReport.Full }
    ensures denied { result.1 ≡ FileReport.Full
        → (mid : View) × IsResetBehind first.now result.0 a.old mid × IsStopped second.now mid }
    ensures never { result.1 ≢ FileReport.Refused }
{
    used_by_giving_back();
    let one = lint_one(alloc, a, first);
    // For the proof: the arena's state is valid, so that a reset keeps its bytes.
    a.known();
    a.reset();
    let two = lint_one(alloc, a, second);
    (one, two)
}
