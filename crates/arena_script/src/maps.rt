// Commands on maps.
#![tactic(auto, using(crate::proofs::PairFacts::get_pair), unfolding(script_rules::specs::Effects::effect))]

ghost use Rattle.std.specs.Prelude.{◌≡◌, ℕ, [], ◌∷◌, IfOk, IfErr, ◌<◌, ◌≤◌, Ok, Some, None, false, IsTrue};
ghost use Rattle.arena_hash.specs.Finite.{has};
ghost use Rattle.arena_hash.specs.Maps.{map_in};
ghost use Rattle.script_rules.specs.Objects.{get, most_pairs};
ghost use Rattle.arena_script.specs.Kinds.{pairs};
ghost use Rattle.std.specs.List.{flat_map};
ghost use Rattle.arena_chunks.specs.Source.{View};
ghost use Rattle.arena_script.specs.Things.{Things, AreThings, IsPairsIn, content, pairs_of, IsThingIn};
ghost use Rattle.arena_script.specs.Acts.{Acts};

use crate::act::{Act, found, number_or_nothing};
use crate::in_order::{by_keys, listed};
use crate::kinds::map_of;
use crate::thing::Thing;
use arena_chunks::{Allocator, ChunkSource};
use arena_clone::{CloneIn, CloneInSemanticIds};
use arena_hash::{FxHasher, HashMap, bytes_law, lengths_law};
use arena_items::{AllocError, Grown};
use script_rules::{Command, Names, Numbers, ScriptReply};
use std::alloc::Global;

#[inline(never)]
pub(crate) fn make_map(things: &Names<Thing>, name: u32) -> Grown<Act>
    ensures { (a : View) → Acts (Command.MakeMap name) things.now a a result }
{
    if things.get(name).is_some() {
        return Ok(Act::Tells(ScriptReply::NameTaken));
    }
    Ok(Act::Gives(name, Thing::Map(HashMap::new_in()), ScriptReply::Done))
}

#[inline(never)]
pub(crate) fn find<C: ChunkSource>(
    a: &Allocator<C>,
    things: &Names<Thing>,
    name: u32,
    key: u32,
) -> Grown<Act>
    requires { AreThings a.now.memory things.now }
    ensures { Acts (Command.Find name key) things.now a.now a.now result }
{
    match map_of(things, name) {
        Ok(map) => Ok(Act::Tells(number_or_nothing(map.get(a, key)))),
        Err(reply) => Ok(Act::Tells(reply)),
    }
}

#[inline(never)]
pub(crate) fn unbind<C: ChunkSource>(
    a: &mut Allocator<C>,
    things: &Names<Thing>,
    name: u32,
    key: u32,
) -> Grown<Act>
    requires { AreThings a.old.memory things.now }
    ensures { Acts (Command.Unbind name key) things.now a.old a.new result }
{
    let mut map = found!(map_of(things, name), else return);
    let old = map.remove(a, key);
    Ok(Act::Gives(name, Thing::Map(map), number_or_nothing(old)))
}

// Whether a map has no room for a key.
fn has_no_room<C: ChunkSource>(a: &Allocator<C>, map: HashMap<u32, u32>, key: u32) -> bool
    requires { IsPairsIn a.now.memory map }
    ensures full { IsTrue result → (has (map_in pairs a.now.memory map) (content key) ≡ false) × (most_pairs ≤ map.len) }
    ensures room { result ≡ false → has (map_in pairs a.now.memory map) (content key) ≡ false → map.len < most_pairs }
{
    map.len() == u32::MAX && !map.contains_key(a, key)
}

#[inline(never)]
pub(crate) fn bind<C: ChunkSource>(
    a: &mut Allocator<C>,
    things: &Names<Thing>,
    name: u32,
    key: u32,
    value: u32,
) -> Grown<Act>
    requires { AreThings a.old.memory things.now }
    ensures { Acts (Command.Bind name key value) things.now a.old a.new result }
{
    a.known();
    let mut map = found!(map_of(things, name), else return);
    if has_no_room(a, map, key) {
        return Ok(Act::Tells(ScriptReply::CapacityOverflow));
    }
    let old = map.insert(a, key, value)?;
    Ok(Act::Gives(name, Thing::Map(map), number_or_nothing(old)))
}

// Copies the map of a name to another that holds nothing. The copy has the table of a new map for its pairs.
#[inline(never)]
pub(crate) fn copied<C: ChunkSource>(
    a: &mut Allocator<C>,
    other: u32,
    map: HashMap<u32, u32>,
) -> Grown<Act>
    requires { IsThingIn a.old.memory (Thing.Map map) }
    ensures { (things : Things) (name : ℕ) → AreThings a.old.memory things → get things name ≡ Some (Thing.Map map)
        → get things other ≡ None → Acts (Command.CopyTo name other) things a.old a.new result }
{
    bytes_law::<u32, u32, FxHasher>();
    lengths_law::<u32, u32, FxHasher>();
    a.known();
    let copy = map.clone_within(CloneInSemanticIds::With, a)?;
    Ok(Act::Gives(other, Thing::Map(copy), ScriptReply::Done))
}

// Each key of a map with its value, by rising keys.
pub(crate) fn numbers_of<C: ChunkSource>(
    alloc: Global,
    a: &Allocator<C>,
    map: HashMap<u32, u32>,
) -> Grown<Numbers>
    requires { IsPairsIn a.now.memory map }
    ensures numbers { IfOk result (λ all. all ≡ flat_map (λ e. e.0 ∷ e.1 ∷ []) (pairs_of (map_in pairs a.now.memory map))) }
    ensures exhausted { IfErr result (λ e. e ≡ AllocError.OutOfMemory) }
{
    listed(alloc, &by_keys(alloc, a, map)?)
}
