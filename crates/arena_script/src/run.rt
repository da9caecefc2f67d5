// Whole scripts.
ghost use Rattle.std.specs.Prelude.{◌≡◌, ℕ, ◌≤◌, [], length, if◌then◌else◌};
ghost use Rattle.std.specs.Vec.{vec_capacity};
ghost use Rattle.arena_script.specs.Acts.{used};
ghost use Rattle.arena_script.specs.Running.{IsStart, IsRun};

use crate::serve::serve;
use crate::thing::Thing;
use arena_chunks::{Allocator, ChunkSource};
use arena_hash::{FxHasher, bytes_law};
use arena_items::AllocError;
use script_rules::{Command, Ended, Names, Outcome, Replies, Script, ScriptReply};
use std::alloc::Global;

// How a script ends when the arena refuses a block.
fn refused<C: ChunkSource>(a: &Allocator<C>) -> Ended
    ensures { result ≡ (if a.now.memory.state.is_growing then Ended.Refused else Ended.Full) }
{
    if a.is_growing() {
        Ended::Refused
    } else {
        Ended::Full
    }
}

// Serves commands one after another, until one can't be served. There is room for all replies.
fn serve_all<C: ChunkSource>(
    alloc: Global,
    a: &mut Allocator<C>,
    replies: &mut Vec<ScriptReply>,
    commands: &[Command],
) -> Ended
    requires start { IsStart a.old }
    requires replies { replies.old.items ≡ [] }
    requires room { length commands.now ≤ vec_capacity replies.old }
    ensures { (bytes : ℕ) → bytes ≡ used a.new
        → IsRun commands.now a.old a.new (record { replies = replies.new.items; ended = result; used = bytes }) }
{
    bytes_law::<u32, u32, FxHasher>();
    let mut things = Names::new(alloc);
    for command in commands {
        match serve(alloc, a, &mut things, command) {
            Ok(reply) => match replies.push(reply) {
                Ok(()) => {}
                Err(_) => unreachable!(),
            },
            Err(AllocError::AllocErr { .. }) => return refused(a),
            Err(_) => return Ended::OutOfMemory,
        }
    }
    Ended::Done
}

/// Runs a script on an arena of which nothing is used. Its objects live in the arena, each in a block of its own; only
/// their names and the replies are elsewhere. The replies are those of the plain machine, as far as the script is
/// served:
///
/// - `Done`: to the end. The arena uses at least what the last objects need, and at most what the script costs.
/// - `Full`: the arena doesn't grow, and has fewer bytes than the commands up to the next one cost.
/// - `Refused`: the arena grows, and was starved with that cost as its bound.
/// - `OutOfMemory`: memory outside the arena's chunks ran out, at a command that takes some. If it ran out for the
///   replies, no command is served.
///
/// After a reset, the arena can run another script.
pub fn run_script<C: ChunkSource>(alloc: Global, a: &mut Allocator<C>, script: &Script) -> Outcome
    requires { used a.old ≡ 0 }
    ensures { IsRun script.now a.old a.new result }
{
    a.known();
    let commands = script.as_slice();
    let Ok(mut replies) = Vec::with_capacity(alloc, commands.len()) else {
        return Outcome {
            replies: Replies::new(alloc),
            ended: Ended::OutOfMemory,
            used: a.used_bytes(),
        };
    };
    let ended = serve_all(alloc, a, &mut replies, commands);
    Outcome {
        replies: Replies::from_vec(replies),
        ended,
        used: a.used_bytes(),
    }
}
