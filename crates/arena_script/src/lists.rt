// Commands on lists.
#![tactic(auto, using(crate::proofs::ListLemmas::told), unfolding(script_rules::specs::Effects::effect))]

ghost use Rattle.std.specs.Prelude.{◌≡◌, ℕ, Ok, Some, None, IfOk, IfErr};
ghost use Rattle.script_rules.specs.Objects.{get};
ghost use Rattle.arena_vec.specs.Vecs.{IsVecIn, vec_list};
ghost use Rattle.arena_script.specs.Kinds.{short};
ghost use Rattle.arena_chunks.specs.Source.{View};
ghost use Rattle.arena_script.specs.Things.{Things, AreThings, IsThingIn};
ghost use Rattle.arena_script.specs.Acts.{Acts};

use crate::act::{Act, found, number_or_nothing};
use crate::kinds::list_of;
use crate::thing::Thing;
use arena_chunks::{Allocator, ChunkSource};
use arena_items::{AllocError, Grown};
use arena_vec::Vec;
use arena_vec::laws::{growth_costs, growth_rule};
use script_rules::{Command, Names, Numbers, ScriptReply};
use std::alloc::Global;

/// The most items of a list.
const MOST_ITEMS: u32 = 536_870_912;

#[inline(never)]
pub(crate) fn make_list(things: &Names<Thing>, name: u32) -> Grown<Act>
    ensures { (a : View) → Acts (Command.MakeList name) things.now a a result }
{
    if things.get(name).is_some() {
        return Ok(Act::Tells(ScriptReply::NameTaken));
    }
    Ok(Act::Gives(name, Thing::List(Vec::new_in()), ScriptReply::Done))
}

#[inline(never)]
pub(crate) fn push<C: ChunkSource>(
    a: &mut Allocator<C>,
    things: &Names<Thing>,
    name: u32,
    value: u32,
) -> Grown<Act>
    requires { AreThings a.old.memory things.now }
    ensures { Acts (Command.Push name value) things.now a.old a.new result }
{
    growth_rule();
    growth_costs();
    // Provides that the least alignment is 1.
    a.known();
    let mut list = found!(list_of(things, name), else return);
    if list.len() >= MOST_ITEMS {
        return Ok(Act::Tells(ScriptReply::CapacityOverflow));
    }
    list.push(a, value)?;
    Ok(Act::Gives(name, Thing::List(list), ScriptReply::Done))
}

#[inline(never)]
pub(crate) fn insert<C: ChunkSource>(
    a: &mut Allocator<C>,
    things: &Names<Thing>,
    name: u32,
    at: u32,
    value: u32,
) -> Grown<Act>
    requires { AreThings a.old.memory things.now }
    ensures { Acts (Command.Insert name at value) things.now a.old a.new result }
{
    growth_rule();
    growth_costs();
    a.known();
    let mut list = found!(list_of(things, name), else return);
    if at > list.len() {
        return Ok(Act::Tells(ScriptReply::OutOfRange));
    }
    if list.len() >= MOST_ITEMS {
        return Ok(Act::Tells(ScriptReply::CapacityOverflow));
    }
    list.insert(a, at, value)?;
    Ok(Act::Gives(name, Thing::List(list), ScriptReply::Done))
}

#[inline(never)]
pub(crate) fn pop<C: ChunkSource>(a: &Allocator<C>, things: &Names<Thing>, name: u32) -> Grown<Act>
    requires { AreThings a.now.memory things.now }
    ensures { Acts (Command.Pop name) things.now a.now a.now result }
{
    let mut list = found!(list_of(things, name), else return);
    let last = list.pop(a);
    Ok(Act::Gives(name, Thing::List(list), number_or_nothing(last)))
}

#[inline(never)]
pub(crate) fn remove<C: ChunkSource>(
    a: &mut Allocator<C>,
    things: &Names<Thing>,
    name: u32,
    at: u32,
) -> Grown<Act>
    requires { AreThings a.old.memory things.now }
    ensures { Acts (Command.Remove name at) things.now a.old a.new result }
{
    let mut list = found!(list_of(things, name), else return);
    if at >= list.len() {
        return Ok(Act::Tells(ScriptReply::OutOfRange));
    }
    let number = list.remove(a, at);
    Ok(Act::Gives(name, Thing::List(list), ScriptReply::Number(number as u64)))
}

#[inline(never)]
pub(crate) fn at<C: ChunkSource>(
    a: &Allocator<C>,
    things: &Names<Thing>,
    name: u32,
    at: u32,
) -> Grown<Act>
    requires { AreThings a.now.memory things.now }
    ensures { Acts (Command.At name at) things.now a.now a.now result }
{
    let list = found!(list_of(things, name), else return);
    if at >= list.len() {
        return Ok(Act::Tells(ScriptReply::OutOfRange));
    }
    Ok(Act::Tells(ScriptReply::Number(list.get(a, at) as u64)))
}

#[inline(never)]
pub(crate) fn put<C: ChunkSource>(
    a: &mut Allocator<C>,
    things: &Names<Thing>,
    name: u32,
    at: u32,
    value: u32,
) -> Grown<Act>
    requires { AreThings a.old.memory things.now }
    ensures { Acts (Command.Put name at value) things.now a.old a.new result }
{
    let mut list = found!(list_of(things, name), else return);
    if at >= list.len() {
        return Ok(Act::Tells(ScriptReply::OutOfRange));
    }
    list.set(a, at, value);
    Ok(Act::Gives(name, Thing::List(list), ScriptReply::Done))
}

#[inline(never)]
pub(crate) fn truncate(things: &Names<Thing>, name: u32, len: u32) -> Grown<Act>
    ensures { (a : View) → AreThings a.memory things.now → Acts (Command.Truncate name len) things.now a a result }
{
    let mut list = found!(list_of(things, name), else return);
    list.truncate(len);
    Ok(Act::Gives(name, Thing::List(list), ScriptReply::Done))
}

// The numbers of a list.
pub(crate) fn numbers_of<C: ChunkSource>(
    alloc: Global,
    a: &Allocator<C>,
    list: Vec<u32>,
) -> Grown<Numbers>
    requires { IsVecIn short a.now.memory list }
    ensures numbers { IfOk result (λ n. n ≡ vec_list short a.now.memory list) }
    ensures exhausted { IfErr result (λ e. e ≡ AllocError.OutOfMemory) }
{
    let mut numbers = std::vec::Vec::new(alloc);
    for item in list.into_iter(a) {
        numbers
            .push(item as u64)
            .map_err(|_| AllocError::OutOfMemory)?;
    }
    Ok(Numbers::from_vec(numbers))
}

// Copies the list of a name to another that holds nothing. A split at the start returns a list of all its numbers, in a
// block of its own, and leaves the old block unchanged.
#[inline(never)]
pub(crate) fn copied<C: ChunkSource>(a: &mut Allocator<C>, other: u32, list: Vec<u32>) -> Grown<Act>
    requires { IsThingIn a.old.memory (Thing.List list) }
    ensures { (things : Things) (name : ℕ) → AreThings a.old.memory things → get things name ≡ Some (Thing.List list)
        → get things other ≡ None → Acts (Command.CopyTo name other) things a.old a.new result }
{
    growth_rule();
    a.known();
    let mut source = list;
    let copy = source.split_off(a, 0)?;
    Ok(Act::Gives(other, Thing::List(copy), ScriptReply::Done))
}
