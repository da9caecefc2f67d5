// A proved caller of the engine.
ghost use Rattle.std.specs.Prelude.{◌≡◌, ℕ, ◌≤◌, false};
ghost use Rattle.arena_rules.specs.State.{used_bytes, allocated_bytes};
ghost use Rattle.script_rules.specs.Machine as machine;
ghost use Rattle.script_rules.specs.Machine.{cost_of};

use arena_chunks::laws::used_by_giving_back;
use arena_chunks::{Allocator, ChunkSource};
use arena_script::laws::fixed_outcome;
use arena_script::run_script;
use script_rules::laws::prefixes;
use script_rules::{Ended, Outcome, Script};
use std::alloc::Global;

/// Runs two scripts in order in an arena that doesn't grow, with a reset between them. Whatever the first one took,
/// the second has all bytes of the arena: it ends `full` only if it costs more than these. A script that is run twice has
/// one outcome, unless memory runs out.
pub fn run_two<C: ChunkSource>(
    alloc: Global,
    a: &mut Allocator<C>,
    first: &Script,
    second: &Script,
) -> (Outcome, Outcome)
    requires unused { used_bytes a.old.memory.state ≡ 0 }
    requires still { a.old.memory.state.is_growing ≡ false }
    ensures first { result.0.ended ≡ Ended.Done → result.0.replies ≡ (machine.run first.now).replies }
    ensures second { result.1.ended ≡ Ended.Done → result.1.replies ≡ (machine.run second.now).replies }
    ensures full { cost_of second.now ≤ allocated_bytes a.old.memory.state → ¬ (result.1.ended ≡ Ended.Full) }
    ensures never { ¬ (result.1.ended ≡ Ended.Refused) }
    ensures twice { first.now ≡ second.now → ¬ (result.0.ended ≡ Ended.OutOfMemory) → ¬ (result.1.ended ≡ Ended.OutOfMemory)
        → result.0 ≡ result.1 }
{
    prefixes();
    fixed_outcome();
    used_by_giving_back();
    let one = run_script(alloc, a, first);
    // For the proof: the arena's state is valid, so that a reset keeps its bytes.
    a.known();
    a.reset();
    let two = run_script(alloc, a, second);
    (one, two)
}
