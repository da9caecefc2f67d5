// Commands on things of any kind.
#![tactic(auto, using(crate::proofs::ListLemmas::told), unfolding(script_rules::specs::Effects::effect))]

ghost use Rattle.std.specs.Prelude.{◌≡◌, Ok, IfOk, IfErr};
ghost use Rattle.script_rules.specs.Effects as effects;
ghost use Rattle.arena_chunks.specs.Source.{View};
ghost use Rattle.arena_script.specs.Things.{AreThings, IsThingIn, object_in};
ghost use Rattle.arena_script.specs.Acts.{Acts};

use crate::act::Act;
use crate::thing::Thing;
use crate::{bits, lists, maps, texts, values};
use arena_chunks::{Allocator, ChunkSource};
use arena_items::{AllocError, Grown};
use arena_text::laws::length_rule;
use script_rules::{Command, Names, ScriptReply};
use std::alloc::Global;

#[inline(never)]
pub(crate) fn drop_name(things: &Names<Thing>, name: u32) -> Grown<Act>
    ensures { (a : View) → Acts (Command.DropName name) things.now a a result }
{
    match things.get(name) {
        None => Ok(Act::Tells(ScriptReply::NoSuchName)),
        Some(_) => Ok(Act::LetsGo(name)),
    }
}

#[inline(never)]
pub(crate) fn len(things: &Names<Thing>, name: u32) -> Grown<Act>
    ensures { (a : View) → AreThings a.memory things.now → Acts (Command.Len name) things.now a a result }
{
    length_rule();
    match things.get(name) {
        None => Ok(Act::Tells(ScriptReply::NoSuchName)),
        Some(Thing::List(list)) => Ok(Act::Tells(ScriptReply::Number(list.len() as u64))),
        Some(Thing::Text(text)) => Ok(Act::Tells(ScriptReply::Number(text.len()))),
        Some(Thing::Bits(set)) => Ok(Act::Tells(ScriptReply::Number(set.capacity()))),
        Some(Thing::Map(map)) => Ok(Act::Tells(ScriptReply::Number(map.len() as u64))),
        Some(Thing::Value(_)) => Ok(Act::Tells(ScriptReply::WrongKind)),
    }
}

// All that a thing holds.
fn shown<C: ChunkSource>(alloc: Global, a: &Allocator<C>, thing: Thing) -> Grown<ScriptReply>
    requires { IsThingIn a.now.memory thing }
    ensures told { IfOk result (λ reply. reply ≡ effects.shown (object_in a.now.memory thing)) }
    ensures exhausted { IfErr result (λ e. e ≡ AllocError.OutOfMemory) }
{
    Ok(match thing {
        Thing::List(list) => ScriptReply::Numbers(lists::numbers_of(alloc, a, list)?),
        Thing::Text(text) => ScriptReply::Bytes(texts::bytes_of(alloc, a, text)?),
        Thing::Bits(set) => ScriptReply::Printed(bits::printed_of(alloc, a, set)?),
        Thing::Map(map) => ScriptReply::Numbers(maps::numbers_of(alloc, a, map)?),
        Thing::Value(value) => ScriptReply::Number(value.get(a)),
    })
}

#[inline(never)]
pub(crate) fn show<C: ChunkSource>(
    alloc: Global,
    a: &Allocator<C>,
    things: &Names<Thing>,
    name: u32,
) -> Grown<Act>
    requires { AreThings a.now.memory things.now }
    ensures { Acts (Command.Show name) things.now a.now a.now result }
{
    let Some(thing) = things.get(name) else {
        return Ok(Act::Tells(ScriptReply::NoSuchName));
    };
    Ok(Act::Tells(shown(alloc, a, thing)?))
}

/// Makes an equal object under another name.
#[inline(never)]
pub(crate) fn copy<C: ChunkSource>(
    a: &mut Allocator<C>,
    things: &Names<Thing>,
    name: u32,
    other: u32,
) -> Grown<Act>
    requires { AreThings a.old.memory things.now }
    ensures { Acts (Command.CopyTo name other) things.now a.old a.new result }
{
    let Some(thing) = things.get(name) else {
        return Ok(Act::Tells(ScriptReply::NoSuchName));
    };
    if things.get(other).is_some() {
        return Ok(Act::Tells(ScriptReply::NameTaken));
    }
    match thing {
        Thing::Value(value) => values::copied(a, other, value),
        Thing::List(list) => lists::copied(a, other, list),
        Thing::Text(text) => texts::copied(a, other, text),
        Thing::Bits(set) => bits::copied(a, other, set),
        Thing::Map(map) => maps::copied(a, other, map),
    }
}
