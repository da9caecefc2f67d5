// The rules without an arena: places as numbers, and the replies of the placement machine.
ghost use Rattle.std.specs.Prelude.{◌≡◌, ◌-◌, ◌*◌, ◌^◌, ◌<◌, ◌≤◌, IfOk, None, if◌then◌else◌};
ghost use Rattle.std.specs.Option.{option_map};
ghost use Rattle.arena_rules.specs.Rounding.{is_layout};
ghost use Rattle.arena_rules.specs.Search.{place_below};
ghost use Rattle.call_rules.specs.Machine as machine;
ghost use Rattle.plain_machine.specs.Answers.{first_state};

use arena_place::{Layout, place};
use arena_rules::OutOfMemory;
use call_rules::{Call, Reply};
use plain_machine::PlainMachine;
use std::alloc::Global;

/// Returns the place of an array below a cursor, or `None` if it isn't a valid layout or there is no room for it.
pub fn place_array(start: u64, cursor: u64, n: u64, size: u64, align: u64) -> Option<u64>
    requires start { 0 < start }
    ensures { result ≡ (if is_layout (n * size) align
        then place_below start cursor (n * size) align 1
        else None) }
{
    place(start, cursor, Layout::array(n, size, align)?, 1)
}

/// Returns the placement machine's reply to a first call if none of its requests for chunks is refused.
///
/// # Errors
///
/// `OutOfMemory` if the machine itself runs out of memory.
pub fn first_reply(alloc: Global, call: &Call) -> Result<Option<Reply>, OutOfMemory>
    ensures { IfOk result (λ reply.
        reply ≡ option_map (λ next. next.0) (machine.step call.now 0 (machine.fresh (first_state 1)))) }
{
    let mut m = PlainMachine::new(alloc, 1);
    m.step(alloc, call, 0)
}
