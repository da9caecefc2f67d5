// Commands on values.
#![tactic(auto, unfolding(script_rules::specs::Effects::effect))]

ghost use Rattle.std.specs.Prelude.{◌≡◌, ℕ, Ok, Some, None};
ghost use Rattle.script_rules.specs.Objects.{get};
ghost use Rattle.arena_script.specs.Things.{Things, AreThings, IsThingIn};
ghost use Rattle.arena_script.specs.Acts.{Acts};

use crate::act::{Act, found};
use crate::kinds::value_of;
use crate::thing::Thing;
use arena_chunks::{Allocator, ChunkSource};
use arena_clone::FromIn;
use arena_items::{Box, Grown};
use script_rules::{Command, Names, ScriptReply};

#[inline(never)]
pub(crate) fn make_value<C: ChunkSource>(
    a: &mut Allocator<C>,
    things: &Names<Thing>,
    name: u32,
    value: u64,
) -> Grown<Act>
    requires { AreThings a.old.memory things.now }
    ensures { Acts (Command.MakeValue name value) things.now a.old a.new result }
{
    a.known();
    if things.get(name).is_some() {
        return Ok(Act::Tells(ScriptReply::NameTaken));
    }
    let made: Grown<Box<u64>> = Box::from_in(value, a);
    let value = made?;
    Ok(Act::Gives(name, Thing::Value(value), ScriptReply::Done))
}

#[inline(never)]
pub(crate) fn load<C: ChunkSource>(a: &Allocator<C>, things: &Names<Thing>, name: u32) -> Grown<Act>
    requires { AreThings a.now.memory things.now }
    ensures { Acts (Command.Load name) things.now a.now a.now result }
{
    match value_of(things, name) {
        Ok(value) => Ok(Act::Tells(ScriptReply::Number(value.get(a)))),
        Err(reply) => Ok(Act::Tells(reply)),
    }
}

#[inline(never)]
pub(crate) fn store<C: ChunkSource>(
    a: &mut Allocator<C>,
    things: &Names<Thing>,
    name: u32,
    new: u64,
) -> Grown<Act>
    requires { AreThings a.old.memory things.now }
    ensures { Acts (Command.Store name new) things.now a.old a.new result }
{
    let value = found!(value_of(things, name), else return);
    value.set(a, new);
    Ok(Act::Gives(name, Thing::Value(value), ScriptReply::Done))
}

// Copies the value of a name to another that holds nothing.
#[inline(never)]
pub(crate) fn copied<C: ChunkSource>(
    a: &mut Allocator<C>,
    other: u32,
    value: Box<u64>,
) -> Grown<Act>
    requires { IsThingIn a.old.memory (Thing.Value value) }
    ensures { (things : Things) (name : ℕ) → AreThings a.old.memory things → get things name ≡ Some (Thing.Value value)
        → get things other ≡ None → Acts (Command.CopyTo name other) things a.old a.new result }
{
    a.known();
    let content = value.get(a);
    let made: Grown<Box<u64>> = Box::from_in(content, a);
    let copy = made?;
    Ok(Act::Gives(other, Thing::Value(copy), ScriptReply::Done))
}
