// Laws of the statuses of runs of scripts, and of runs in which sources are linted.
ghost use Rattle.std.specs.Prelude.{◌≡◌, ◌≢◌, ◌<◌, ◌≤◌, ◌⊎◌, ℕ, List, Some, Result, length};
ghost use Rattle.script_rules.specs.Grammar.{ScriptsOf};
ghost use Rattle.script_rules.specs.declared.commands.Command.{Command};
ghost use Rattle.arena_workers.specs.declared.served.Starved.{Starved};
ghost use Rattle.arena_calls.specs.Ends.{Outside, IsFaultless, status_of};
ghost use Rattle.arena_calls.specs.ReadAll.{limit};
ghost use Rattle.arena_calls.specs.declared.status.Status.{Status};
ghost use Rattle.arena_program.specs.PoolEnds.{ScriptEnds, LintEnds};
ghost use Rattle.arena_program.specs.declared.tasks.Lender.{Lender};

use arena_chunks::ChunkSource;
use arena_script::Job;
use script_rules::laws;

/// Where nothing fails, the bytes of an input that reports them determine the status of a run of scripts, unless memory
/// runs out.
#[tactic(auto, using(arena_calls::proofs::StatusLemmas::over, arena_calls::proofs::StatusLemmas::within))]
pub fn one_script_status<C: ChunkSource, J: Job<C>>()
    ensures within { (lender : Lender) (status : Status) (old new : Outside) (before after : List (ℕ × Starved C)) (bytes : List ℕ)
        (read : Result (List (List Command)) ℕ)
        → ScriptEnds C.source J.worked lender status old new before after → IsFaultless old new → old.left ≡ Some bytes
        → length bytes ≤ limit → ScriptsOf bytes read
        → (status ≡ status_of read) ⊎ (status ≡ Status.OutOfMemory) }
    ensures over { (lender : Lender) (status : Status) (old new : Outside) (before after : List (ℕ × Starved C)) (bytes : List ℕ)
        → ScriptEnds C.source J.worked lender status old new before after → IsFaultless old new → old.left ≡ Some bytes
        → limit < length bytes
        → (status ≡ Status.InputTooLong) ⊎ (status ≡ Status.OutOfMemory) }
{
    laws::one_reading();
}

/// A read that failed is reported as a read fault, and a write that failed as a write fault, whatever else ran out.
#[tactic(auto, using(arena_calls::proofs::StatusLemmas::told_reads, arena_calls::proofs::StatusLemmas::told_writes))]
pub fn told_script_faults<C: ChunkSource, J: Job<C>>()
    ensures reads { (lender : Lender) (status : Status) (old new : Outside) (before after : List (ℕ × Starved C))
        → ScriptEnds C.source J.worked lender status old new before after
        → new.read_faults ≢ old.read_faults → status ≡ Status.ReadFault }
    ensures writes { (lender : Lender) (status : Status) (old new : Outside) (before after : List (ℕ × Starved C))
        → ScriptEnds C.source J.worked lender status old new before after
        → new.write_faults ≢ old.write_faults → status ≡ Status.WriteFault }
{}

/// Where nothing fails, an input that isn't too long is linted, unless memory runs out.
#[tactic(auto, using(arena_calls::proofs::StatusLemmas::over))]
pub fn one_lint_status<C: ChunkSource>()
    ensures within { (status : Status) (old new : Outside) (before after : List (ℕ × Starved C)) (bytes : List ℕ)
        → LintEnds C.source status old new before after → IsFaultless old new → old.left ≡ Some bytes → length bytes ≤ limit
        → (status ≡ Status.Done) ⊎ (status ≡ Status.OutOfMemory) }
    ensures over { (status : Status) (old new : Outside) (before after : List (ℕ × Starved C)) (bytes : List ℕ)
        → LintEnds C.source status old new before after → IsFaultless old new → old.left ≡ Some bytes → limit < length bytes
        → (status ≡ Status.InputTooLong) ⊎ (status ≡ Status.OutOfMemory) }
{}

/// A failed read or write is reported as such when sources are linted, too.
#[tactic(auto, using(arena_calls::proofs::StatusLemmas::told_reads, arena_calls::proofs::StatusLemmas::told_writes))]
pub fn told_lint_faults<C: ChunkSource>()
    ensures reads { (status : Status) (old new : Outside) (before after : List (ℕ × Starved C))
        → LintEnds C.source status old new before after → new.read_faults ≢ old.read_faults → status ≡ Status.ReadFault }
    ensures writes { (status : Status) (old new : Outside) (before after : List (ℕ × Starved C))
        → LintEnds C.source status old new before after → new.write_faults ≢ old.write_faults → status ≡ Status.WriteFault }
{}
