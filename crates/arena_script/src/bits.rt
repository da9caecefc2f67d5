// Commands on sets of numbers.
#![tactic(auto, using(crate::proofs::BitFacts::bit_told), unfolding(script_rules::specs::Effects::effect))]

ghost use Rattle.std.specs.Prelude.{◌≡◌, ℕ, ◌*◌, ◌<◌, ◌≤◌, Ok, Some, None, false, IsTrue, length, IfOk, IfErr};
ghost use Rattle.arena_bits.specs.Bits.{members};
ghost use Rattle.arena_bits.specs.Printed.{printed};
ghost use Rattle.arena_bits.specs.Sets.{IsSetIn, PlacesSet, set_of as bits_in};
ghost use Rattle.script_rules.specs.Objects.{bits_end, get, has};
ghost use Rattle.arena_rules.specs.Bits.{words_for};
ghost use Rattle.arena_script.specs.Things.{Things, AreThings, bits_below, IsThingIn};
ghost use Rattle.arena_script.specs.Acts.{Acts};

use crate::act::{Act, found};
use crate::kinds::set_of;
use crate::thing::Thing;
use arena_bits::BitSet;
use arena_bits::laws::{filled_law, limit_law};
use arena_chunks::{Allocator, ChunkSource};
use arena_items::laws::frame_law;
use arena_items::{AllocError, Grown};
use script_rules::{Command, Names, Numbers, ScriptReply};
use short_bytes::Bytes;
use std::alloc::Global;

// Whether a set has a word for a bit.
fn has_word(set: BitSet, bit: u32) -> bool
    requires { bits_end set.capacity ≡ 64 * set.words.length }
    ensures within { IsTrue result → bit < 64 * set.words.length }
    ensures past { result ≡ false → bits_end set.capacity ≤ bit }
{
    bit as u64 / 64 < set.words.length
}

#[inline(never)]
pub(crate) fn make_bits<C: ChunkSource>(
    a: &mut Allocator<C>,
    things: &Names<Thing>,
    name: u32,
    capacity: u32,
) -> Grown<Act>
    requires { AreThings a.old.memory things.now }
    ensures { Acts (Command.MakeBits name capacity) things.now a.old a.new result }
{
    a.known();
    if things.get(name).is_some() {
        return Ok(Act::Tells(ScriptReply::NameTaken));
    }
    let set = BitSet::new_in(capacity as u64, a)?;
    Ok(Act::Gives(name, Thing::Bits(set), ScriptReply::Done))
}

#[inline(never)]
pub(crate) fn set_bit<C: ChunkSource>(
    a: &mut Allocator<C>,
    things: &Names<Thing>,
    name: u32,
    bit: u32,
) -> Grown<Act>
    requires { AreThings a.old.memory things.now }
    ensures { Acts (Command.SetBit name bit) things.now a.old a.new result }
{
    let mut set = found!(set_of(things, name), else return);
    if !has_word(set, bit) {
        return Ok(Act::Tells(ScriptReply::OutOfRange));
    }
    set.set_bit(a, bit as u64);
    Ok(Act::Gives(name, Thing::Bits(set), ScriptReply::Done))
}

#[inline(never)]
pub(crate) fn unset_bit<C: ChunkSource>(
    a: &mut Allocator<C>,
    things: &Names<Thing>,
    name: u32,
    bit: u32,
) -> Grown<Act>
    requires { AreThings a.old.memory things.now }
    ensures { Acts (Command.UnsetBit name bit) things.now a.old a.new result }
{
    let mut set = found!(set_of(things, name), else return);
    if !has_word(set, bit) {
        return Ok(Act::Tells(ScriptReply::OutOfRange));
    }
    set.unset_bit(a, bit as u64);
    Ok(Act::Gives(name, Thing::Bits(set), ScriptReply::Done))
}

#[inline(never)]
pub(crate) fn has_bit<C: ChunkSource>(
    a: &Allocator<C>,
    things: &Names<Thing>,
    name: u32,
    bit: u32,
) -> Grown<Act>
    requires { AreThings a.now.memory things.now }
    ensures { Acts (Command.HasBit name bit) things.now a.now a.now result }
{
    match set_of(things, name) {
        Ok(set) => Ok(Act::Tells(ScriptReply::Truth(set.contains(a, bit as u64)))),
        Err(reply) => Ok(Act::Tells(reply)),
    }
}

#[inline(never)]
pub(crate) fn union<C: ChunkSource>(
    a: &mut Allocator<C>,
    things: &Names<Thing>,
    name: u32,
    other: u32,
) -> Grown<Act>
    requires { AreThings a.old.memory things.now }
    ensures { Acts (Command.Union name other) things.now a.old a.new result }
{
    if things.get(name).is_none() {
        return Ok(Act::Tells(ScriptReply::NoSuchName));
    }
    let Some(_other) = things.get(other) else {
        return Ok(Act::Tells(ScriptReply::NoSuchName));
    };
    let mut set = found!(set_of(things, name), else return);
    let more = found!(set_of(things, other), else return);
    set.union(a, &more);
    Ok(Act::Gives(name, Thing::Bits(set), ScriptReply::Done))
}

// The numbers of a set.
fn numbers_of<C: ChunkSource>(alloc: Global, a: &Allocator<C>, set: BitSet) -> Grown<Numbers>
    requires { IsSetIn a.now.memory set }
    ensures numbers { IfOk result (λ n. n ≡ members (bits_in a.now.memory set) 0 set.capacity) }
    ensures exhausted { IfErr result (λ e. e ≡ AllocError.OutOfMemory) }
{
    match set.ones(a).collect(alloc) {
        Ok(items) => Ok(Numbers::from_vec(items)),
        Err(_) => Err(AllocError::OutOfMemory),
    }
}

#[inline(never)]
pub(crate) fn ones<C: ChunkSource>(
    alloc: Global,
    a: &Allocator<C>,
    things: &Names<Thing>,
    name: u32,
) -> Grown<Act>
    requires { AreThings a.now.memory things.now }
    ensures { Acts (Command.Ones name) things.now a.now a.now result }
{
    let set = found!(set_of(things, name), else return);
    let numbers = numbers_of(alloc, a, set)?;
    Ok(Act::Tells(ScriptReply::Numbers(numbers)))
}

// The printed form of a set.
pub(crate) fn printed_of<C: ChunkSource>(
    alloc: Global,
    a: &Allocator<C>,
    set: BitSet,
) -> Grown<Bytes>
    requires { IsSetIn a.now.memory set }
    ensures text { let bits = bits_below (bits_end set.capacity) (bits_in a.now.memory set) in
        IfOk result (λ text. text ≡ printed (words_for set.capacity) (has bits)) }
    ensures exhausted { IfErr result (λ e. e ≡ AllocError.OutOfMemory) }
{
    limit_law();
    match set.display(alloc, a) {
        Ok(text) => Ok(text),
        Err(_) => Err(AllocError::OutOfMemory),
    }
}

// Copies a set into a new one of the same capacity.
#[tactic(auto)]
fn copy_of<C: ChunkSource>(a: &mut Allocator<C>, set: BitSet) -> Grown<BitSet>
    requires { IsSetIn a.old.memory set }
    ensures { PlacesSet a.old a.new set.capacity (bits_in a.old.memory set) result }
{
    frame_law::<BitSet>();
    limit_law();
    filled_law();
    let mut copy = BitSet::new_in(set.capacity, a)?;
    copy.union(a, &set);
    Ok(copy)
}

// Copies the set of a name to another that holds nothing.
#[inline(never)]
pub(crate) fn copied<C: ChunkSource>(a: &mut Allocator<C>, other: u32, set: BitSet) -> Grown<Act>
    requires { IsThingIn a.old.memory (Thing.Bits set) }
    ensures { (things : Things) (name : ℕ) → AreThings a.old.memory things → get things name ≡ Some (Thing.Bits set)
        → get things other ≡ None → Acts (Command.CopyTo name other) things a.old a.new result }
{
    a.known();
    let copy = copy_of(a, set)?;
    Ok(Act::Gives(other, Thing::Bits(copy), ScriptReply::Done))
}
