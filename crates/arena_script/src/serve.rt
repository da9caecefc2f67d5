// One command after another.
ghost use Rattle.std.specs.Prelude.{◌≡◌};
ghost use Rattle.arena_script.specs.Things.{AreThings};
ghost use Rattle.arena_script.specs.Serves.{Settles, ServesOrStops};

use crate::act::Act;
use crate::dispatch::act;
use crate::thing::Thing;
use arena_chunks::{Allocator, ChunkSource};
use arena_items::AllocError;
use script_rules::{Command, Names, ScriptReply};
use std::alloc::Global;

// Updates the names after a command.
fn settle(things: &mut Names<Thing>, act: Act) -> Result<ScriptReply, AllocError>
    ensures { Settles act things.old things.new result }
{
    match act {
        Act::Tells(reply) => Ok(reply),
        Act::Gives(name, thing, reply) => match things.insert(name, thing) {
            Ok(()) => Ok(reply),
            Err(_) => Err(AllocError::OutOfMemory),
        },
        Act::LetsGo(name) => {
            things.remove(name);
            Ok(ScriptReply::Done)
        }
    }
}

/// Serves a command.
///
/// # Errors
///
/// The arena refused a block, or memory ran out.
pub(crate) fn serve<C: ChunkSource>(
    alloc: Global,
    a: &mut Allocator<C>,
    things: &mut Names<Thing>,
    command: &Command,
) -> Result<ScriptReply, AllocError>
    requires { AreThings a.old.memory things.old }
    ensures { ServesOrStops command.now a.old a.new things.old things.new result }
{
    let act = act(alloc, a, things, command)?;
    settle(things, act)
}
