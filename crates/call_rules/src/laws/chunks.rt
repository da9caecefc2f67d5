// How chunks grow through calls by name.
ghost use Rattle.std.specs.Prelude.{◌≡◌, ℕ, ◌-◌, ◌*◌, ◌^◌, ◌≤◌, IsTrue, Some, List, [], length};
ghost use Rattle.arena_rules.specs.State.{State, allocated_bytes};
ghost use Rattle.arena_rules.specs.Doubling.{IsDoubling};
ghost use Rattle.call_rules.specs.Machine.{Machine, Next, step, run};
ghost use Rattle.call_rules.specs.MadeFirst.{call_made_first, made_first};
ghost use Rattle.call_rules.specs.declared.calls.Call.{Call};
ghost use Rattle.call_rules.specs.declared.calls.Reply.{Reply};

/// Chunks still double after a call, and after a run of calls, if each chunk that is made has the first size that is
/// tried. So the chunks have at least 16,320 · (2 ^ n − 1) bytes after a run that begins with no chunk and ends with n.
pub fn doubling_runs()
    ensures by_step { (z : ℕ) (m : Machine) (call : Call) (k : ℕ) (next : Next) → z ≤ 16320
        → IsDoubling z m.state.chunks → step call k m ≡ Some next → IsTrue (call_made_first call k m)
        → IsDoubling z next.1.state.chunks }
    ensures by_run { (z : ℕ) (state : State) (calls : List Call) (ks : List ℕ) (replies : List Reply)
        (last : Machine) → z ≤ 16320 → IsDoubling z state.chunks → run state calls ks ≡ Some (replies, last)
        → IsTrue (made_first state calls ks)
        → IsDoubling z last.state.chunks }
    ensures from_none { (state : State) (calls : List Call) (ks : List ℕ) (replies : List Reply)
        (last : Machine) → state.chunks ≡ [] → run state calls ks ≡ Some (replies, last)
        → IsTrue (made_first state calls ks)
        → 16320 * (2 ^ length last.state.chunks - 1) ≤ allocated_bytes last.state }
{}
