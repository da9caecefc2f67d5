// Laws of the statuses.
ghost use Rattle.std.specs.Prelude.{◌≡◌, ◌≢◌, ◌+◌, ◌<◌, ◌≤◌, ◌⊎◌, ℕ, List, Some, Result, Err, length};
ghost use Rattle.call_rules.specs.Grammar.{CallsOf};
ghost use Rattle.call_rules.specs.declared.calls.Call.{Call};
ghost use Rattle.arena_calls.specs.Streams.{Writes, WritesPart};
ghost use Rattle.arena_calls.specs.Ends.{Ends, GenEnds, HasNoFault, HasReadFault, HasWriteFault, IsUntouched};
ghost use Rattle.arena_calls.specs.Ends.{ReadsWhole, ReadsCalls, RunsTo, StopsBefore, StopsIn, reply_lines};
ghost use Rattle.arena_calls.specs.Ends.{Outside, IsFaultless, status_of};
ghost use Rattle.arena_calls.specs.ReadAll.{limit, TakesFront};
ghost use Rattle.arena_calls.specs.declared.status.Status.{Status};

/// What each status says of a run of lines.
pub fn each_status()
    ensures done { (old new : Outside) → Ends Status.Done old new → HasNoFault old new
        × ((calls : List Call) × ReadsCalls old new calls × RunsTo old new calls reply_lines Writes) }
    ensures usage { (old new : Outside) → Ends Status.Usage old new → ⊥ }
    ensures bad_line { (n : ℕ) (old new : Outside) → Ends (Status.BadLine n) old new → HasNoFault old new × IsUntouched old new
        × ((bytes : List ℕ) × ReadsWhole old new bytes × CallsOf bytes (Err n)) }
    ensures out_of_memory { (old new : Outside) → Ends Status.OutOfMemory old new → HasNoFault old new
        × (StopsBefore old new ⊎ ((calls : List Call) × ReadsCalls old new calls × StopsIn old new calls)) }
    ensures read_fault { (old new : Outside) → Ends Status.ReadFault old new → HasReadFault old new × IsUntouched old new
        × TakesFront old.left new.left (λ n. n ≤ limit) }
    ensures write_fault { (old new : Outside) → Ends Status.WriteFault old new → HasWriteFault old new
        × ((calls : List Call) × ReadsCalls old new calls × RunsTo old new calls reply_lines WritesPart) }
    ensures input_too_long { (old new : Outside) → Ends Status.InputTooLong old new → HasNoFault old new × IsUntouched old new
        × TakesFront old.left new.left (λ n. n ≡ limit + 1) }
{}

/// Where nothing fails, the bytes of an input that reports them determine the status of a run of lines, unless memory
/// runs out. A run of calls from a number is then done, unless memory runs out.
pub fn one_status()
    ensures within { (status : Status) (old new : Outside) (bytes : List ℕ) (read : Result (List Call) ℕ)
        → Ends status old new → IsFaultless old new → old.left ≡ Some bytes
        → length bytes ≤ limit → CallsOf bytes read
        → (status ≡ status_of read) ⊎ (status ≡ Status.OutOfMemory) }
    ensures over { (status : Status) (old new : Outside) (bytes : List ℕ)
        → Ends status old new → IsFaultless old new → old.left ≡ Some bytes
        → limit < length bytes
        → (status ≡ Status.InputTooLong) ⊎ (status ≡ Status.OutOfMemory) }
    ensures generated { (start count : ℕ) (status : Status) (old new : Outside)
        → GenEnds start count status old new → IsFaultless old new
        → (status ≡ Status.Done) ⊎ (status ≡ Status.OutOfMemory) }
{}

/// A read that failed is reported as a read fault, and a write that failed as a write fault, whatever else ran out. A
/// run of calls from a number doesn't read.
pub fn told_faults()
    ensures reads { (status : Status) (old new : Outside) → Ends status old new
        → new.read_faults ≢ old.read_faults → status ≡ Status.ReadFault }
    ensures writes { (status : Status) (old new : Outside) → Ends status old new
        → new.write_faults ≢ old.write_faults → status ≡ Status.WriteFault }
    ensures generated_reads { (start count : ℕ) (status : Status) (old new : Outside)
        → GenEnds start count status old new → new.read_faults ≡ old.read_faults }
    ensures generated_writes { (start count : ℕ) (status : Status) (old new : Outside)
        → GenEnds start count status old new
        → new.write_faults ≢ old.write_faults → status ≡ Status.WriteFault }
{}
