// A list of commands.
ghost use Rattle.std.specs.Prelude.{◌≡◌, [], ◌∷◌, ◌++◌, length, OnOk, OnErr};

use crate::commands::Command;
use arena_rules::OutOfMemory;
use std::alloc::Global;
use std::marker::Model;

/// A script, which contracts see as its list of commands.
#[derive(Drop, Debug)]
pub struct Script {
    commands: Vec<Command>,
}

impl Model for Script {
    ghost use Rattle.std.specs.Prelude.{List};
    ghost use Rattle.script_rules.specs.declared.commands.Command.{Command};

    ghost Value = { List Command };

    ghost view = { λ s. s.commands.items };
}

impl Script {
    /// Returns a script with no commands. Takes no memory.
    pub fn new(alloc: Global) -> Script
        ensures { result ≡ [] }
    {
        Script {
            commands: Vec::new(alloc),
        }
    }

    /// Appends a command.
    ///
    /// # Errors
    ///
    /// Out of memory. The script is unchanged.
    pub fn push(&mut self, c: Command) -> Result<(), OutOfMemory>
        ensures ok { OnOk result (self.new ≡ self.old ++ c ∷ []) }
        ensures err { OnErr result (self.new ≡ self.old) }
    {
        Ok(self.commands.push(c)?)
    }

    /// Returns the commands as a slice.
    pub fn as_slice(&self) -> &[Command]
        ensures { result.now ≡ self.now }
    {
        self.commands.as_slice()
    }

    /// Returns how many commands there are.
    pub fn len(&self) -> u64
        ensures { result ≡ length self.now }
    {
        self.commands.len() as u64
    }
}
