// What runs scripts.
ghost use Rattle.std.specs.Prelude.{◌≡◌};
ghost use Rattle.arena_script.specs.Acts.{used};
ghost use Rattle.arena_script.specs.Running.{IsRun};

use crate::run::run_script;
use arena_chunks::{Allocator, ChunkSource};
use script_rules::{Outcome, Script};
use std::alloc::Global;

/// Runs a script on an arena of which nothing is used, as `run_script` does. May promise more than that.
pub trait Job<C: ChunkSource> {
    ghost use Rattle.std.specs.Prelude.{List};
    ghost use Rattle.script_rules.specs.declared.commands.Command.{Command};
    ghost use Rattle.script_rules.specs.declared.outcome.Outcome.{Outcome as Came};

    // What it promises of a script and its outcome: any relation.
    ghost worked: { List Command → Came → Type 0 };

    /// Runs the script.
    fn run(&self, alloc: Global, a: &mut Allocator<C>, script: &Script) -> Outcome
        requires { used a.old ≡ 0 }
        ensures ran { IsRun script.now a.old a.new result }
        ensures worked { worked script.now result };
}

/// The engine: it runs each script in its arena, and promises no more.
pub struct Engine;

impl<C: ChunkSource> Job<C> for Engine {
    ghost worked = { λ script outcome. Unit {0} };

    fn run(&self, alloc: Global, a: &mut Allocator<C>, script: &Script) -> Outcome {
        run_script(alloc, a, script)
    }
}
