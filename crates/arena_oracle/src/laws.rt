// Laws of runs within limits.
ghost use Rattle.std.specs.Prelude.{◌≡◌, ℕ, List, [], Some};
ghost use Rattle.arena_rules.specs.State.{State};
ghost use Rattle.arena_store.specs.Source.{Source};
ghost use Rattle.arena_calls.specs.declared.status.Status.{Status};
ghost use Rattle.call_rules.specs.Machine.{Machine, run, told};
ghost use Rattle.call_rules.specs.declared.calls.Call.{Call};
ghost use Rattle.call_rules.specs.declared.calls.Reply.{Reply};
ghost use Rattle.arena_oracle.specs.Limits.{KeepsLimits, limited};
ghost use Rattle.arena_oracle.specs.Answers.{CallsWithin, DrawsWithin, GenWithin, Yields};

/// The limits determine the refusals: two runs of the machine over the same calls that keep the same limits have the
/// same replies, and so the same number of refused requests in each call.
pub fn one_run()
    ensures { (budget : ℕ) (refuse : List ℕ) (entry : State) (calls : List Call) (one other : List Reply) (last end : Machine)
        → run entry calls (told one) ≡ Some (one, last) → KeepsLimits budget refuse entry calls one
        → run entry calls (told other) ≡ Some (other, end) → KeepsLimits budget refuse entry calls other
        → one ≡ other }
{}

/// So two calls of an export with the same arguments return the same text, if both have code 0.
pub fn one_text()
    ensures calls { (budget : ℕ) (refuse lines text other : List ℕ) (after later : Source)
        → Yields (CallsWithin budget refuse) lines (limited budget refuse) after Status.Done text
        → Yields (CallsWithin budget refuse) lines (limited budget refuse) later Status.Done other → text ≡ other }
    ensures generated { (budget : ℕ) (refuse text other : List ℕ) (start count : ℕ) (after later : Source)
        → Yields (GenWithin start count budget refuse) [] (limited budget refuse) after Status.Done text
        → Yields (GenWithin start count budget refuse) [] (limited budget refuse) later Status.Done other → text ≡ other }
    ensures drawn { (budget : ℕ) (refuse lines text other : List ℕ) (after later : Source)
        → Yields (DrawsWithin budget refuse) lines (limited budget refuse) after Status.Done text
        → Yields (DrawsWithin budget refuse) lines (limited budget refuse) later Status.Done other → text ≡ other }
{}
