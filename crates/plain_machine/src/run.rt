// Whole runs.
ghost use Rattle.std.specs.Prelude.{◌≡◌, IfOk, IsTrue};
ghost use Rattle.std.specs.Option.{option_map};
ghost use Rattle.arena_rules.specs.State.{is_min_align};
ghost use Rattle.call_rules.specs.Machine as machine;
ghost use Rattle.plain_machine.specs.Answers.{first_state, gives_all, replies_of};

use crate::machine::PlainMachine;
use arena_rules::OutOfMemory;
use call_rules::{Call, Reply};
use std::alloc::Global;

impl PlainMachine {
    /// Returns the replies to the calls, where `refused` says how many requests of each are refused, or `None` where
    /// there is no such run.
    ///
    /// # Errors
    ///
    /// Out of memory.
    #[tactic(auto, using(crate::proofs::RunLemmas::run_more, crate::proofs::RunLemmas::run_none, crate::proofs::RunLemmas::run_done))]
    pub fn run_from(
        &mut self,
        alloc: Global,
        calls: &[Call],
        refused: &[u32],
    ) -> Result<Option<Vec<Reply>>, OutOfMemory>
        ensures { IfOk result (λ replies. gives_all self.new replies
            ≡ machine.run_from self.old calls.now refused.now) }
    {
        if calls.len() != refused.len() {
            return Ok(None);
        }
        let mut replies = Vec::new(alloc);
        for (i, call) in calls.iter().enumerate() {
            let Some(reply) = self.step(alloc, call, refused[i])? else {
                return Ok(None);
            };
            replies.push(reply)?;
        }
        Ok(Some(replies))
    }

    /// Returns the replies of a whole run of an arena with this least alignment, which begins with no chunk, or `None`
    /// where there is no such run.
    ///
    /// # Errors
    ///
    /// Out of memory.
    pub fn run(
        alloc: Global,
        min_align: u64,
        calls: &[Call],
        refused: &[u32],
    ) -> Result<Option<Vec<Reply>>, OutOfMemory>
        requires { IsTrue (is_min_align min_align) }
        ensures { IfOk result (λ replies. replies_of replies
            ≡ option_map (λ r. r.0) (machine.run (first_state min_align) calls.now refused.now)) }
    {
        PlainMachine::new(alloc, min_align).run_from(alloc, calls, refused)
    }
}
