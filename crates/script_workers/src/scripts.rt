// A job as work on lent arenas.
ghost use Rattle.std.specs.Prelude.{◌≡◌};
ghost use Rattle.script_workers.specs.Serving.{is_refused};

use arena_chunks::{Allocator, ChunkSource};
use arena_script::Job;
use arena_workers::Work;
use script_rules::{Ended, Outcome, Replies, Script};
use std::alloc::Global;

/// The work of running scripts, for callers of `run_all` that wrap it; `run_scripts` does this work.
#[derive(Drop)]
pub struct Scripts<'a, J> {
    /// What runs each script.
    pub job: &'a J,
}

impl<'a, C: ChunkSource, J: Job<C>> Work<C> for Scripts<'a, J> {
    type Piece = Script;

    type Outcome = Outcome;

    ghost use Rattle.script_workers.specs.Serving.{script_terms};

    ghost terms = { script_terms J.worked };

    #[tactic(auto, using(crate::proofs::AloneLemmas::kind_kept))]
    fn run(&self, alloc: Global, a: &mut Allocator<C>, _i: u32, piece: &Script) -> Outcome {
        self.job.run(alloc, a, piece)
    }

    fn unserved(&self, alloc: Global) -> Outcome {
        Outcome {
            replies: Replies::new(alloc),
            ended: Ended::OutOfMemory,
            used: 0,
        }
    }

    fn is_refused(&self, outcome: &Outcome) -> bool {
        matches!(outcome.ended, Ended::Refused)
    }
}
