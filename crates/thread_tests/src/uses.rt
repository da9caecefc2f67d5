// A proved caller of the plain machine.
ghost use Rattle.std.specs.Prelude.{◌≡◌, IfOk, OnOk};
ghost use Rattle.script_rules.specs.Machine.{step, is_refusal};

use arena_rules::OutOfMemory;
use plain_scripts::PlainScripts;
use script_rules::{Command, ScriptReply};
use std::alloc::Global;

/// Serves a command, and returns whether it was refused.
pub fn is_refused(
    alloc: Global,
    machine: &mut PlainScripts,
    command: &Command,
) -> Result<bool, OutOfMemory>
    ensures told { IfOk result (λ refused. refused ≡ is_refusal (step command.now machine.old).reply) }
    ensures objects { OnOk result (machine.new ≡ (step command.now machine.old).objects) }
{
    let answered = machine.step(alloc, command)?;
    Ok(matches!(
        &answered.reply,
        ScriptReply::NoSuchName
            | ScriptReply::NameTaken
            | ScriptReply::WrongKind
            | ScriptReply::OutOfRange
            | ScriptReply::NotAscii
            | ScriptReply::CapacityOverflow
    ))
}
