// Whole runs.
ghost use Rattle.std.specs.Prelude.{◌≡◌, ℕ, ◌≤◌, length, take, IfOk, OnErr};
ghost use Rattle.script_rules.specs.Machine as machine;
ghost use Rattle.plain_scripts.specs.Answers.{gives_all};

use crate::machine::PlainScripts;
use arena_rules::OutOfMemory;
use script_rules::{Command, Replies, Script};
use std::alloc::Global;

/// The replies and the costs of commands, one after another.
#[derive(Drop)]
pub struct PlainRun {
    /// One reply for each command.
    pub replies: Replies,
    /// One cost for each command.
    pub costs: Vec<u64>,
}

impl PlainScripts {
    /// Serves commands one after another.
    ///
    /// # Errors
    ///
    /// Out of memory. The objects are those after a first part of the commands.
    pub fn run_from(&mut self, alloc: Global, commands: &[Command]) -> Result<PlainRun, OutOfMemory>
        ensures ok { IfOk result (λ run. gives_all self.new run ≡ machine.run_from self.old commands.now) }
        ensures err { OnErr result ((n : ℕ) × (n ≤ length commands.now)
            × (self.new ≡ (machine.run_from self.old (take n commands.now)).objects)) }
    {
        let mut replies = Replies::new(alloc);
        let mut costs = Vec::new(alloc);
        for command in commands {
            let answered = self.step(alloc, command)?;
            replies.push(answered.reply)?;
            costs.push(answered.cost)?;
        }
        Ok(PlainRun { replies, costs })
    }

    /// Runs a whole script, which begins with no objects.
    ///
    /// # Errors
    ///
    /// Out of memory.
    pub fn run(alloc: Global, script: &Script) -> Result<PlainRun, OutOfMemory>
        ensures replies { IfOk result (λ run. run.replies ≡ (machine.run script.now).replies) }
        ensures costs { IfOk result (λ run. run.costs.items ≡ (machine.run script.now).costs) }
    {
        PlainScripts::new(alloc).run_from(alloc, script.as_slice())
    }
}
