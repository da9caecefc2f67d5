// Commands on sets of bits.
#![tactic(auto, unfolding(script_rules::specs::Effects::effect))]

ghost use Rattle.std.specs.Prelude.{◌≡◌, IfOk};
ghost use Rattle.arena_rules.specs.Bits.{members};
ghost use Rattle.script_rules.specs.Objects.{get, has, united, bits_end};
ghost use Rattle.script_rules.specs.Effects as effects;
ghost use Rattle.plain_scripts.specs.Answers.{effect_of};

use crate::effect::{PlainEffect, content, gives};
use crate::machine::PlainScripts;
use crate::names::Names;
use crate::object::{Kind, words_for};
use arena_rules::OutOfMemory;
use script_rules::{Command, Numbers, ScriptReply};
use std::alloc::Global;

// The end of the bits that a set of this capacity can hold.
fn bits_end(capacity: u32) -> u64
    ensures { result ≡ bits_end capacity }
{
    64 * words_for(capacity)
}

// The bits, with those of `more` that are below the end.
fn united(end: u64, bits: &Names<()>, more: &Names<()>) -> Result<Names<()>, OutOfMemory>
    ensures { IfOk result (λ all. all ≡ united end bits.now more.now) }
{
    let mut all = bits.copied()?;
    for (bit, _) in &more.values {
        if *bit as u64 >= end {
            continue;
        }
        all.insert(*bit, ())?;
    }
    Ok(all)
}

// The bits below the capacity.
#[tactic(auto, using(crate::proofs::LoopLemmas::members_without))]
fn members(alloc: Global, bits: &Names<()>, capacity: u32) -> Result<Vec<u64>, OutOfMemory>
    ensures { IfOk result (λ all. all.items ≡ members (has bits.now) 0 capacity) }
{
    let mut all = Vec::new(alloc);
    for bit in 0..capacity {
        if !bits.has(bit) {
            continue;
        }
        all.push(bit as u64)?;
    }
    Ok(all)
}

impl PlainScripts {
    pub(crate) fn make_bits(&self, alloc: Global, name: u32, capacity: u32) -> PlainEffect
        ensures { effect_of result ≡ effects.effect (Command.MakeBits name capacity) (get self.now) }
    {
        if self.get(name).is_some() {
            return PlainEffect::Tells(ScriptReply::NameTaken);
        }
        let cost = 8 * words_for(capacity) + 7;
        gives(
            name,
            Kind::Bits(capacity, Names::new(alloc)),
            ScriptReply::Done,
            cost,
        )
    }

    pub(crate) fn set_bit(&self, name: u32, bit: u32) -> Result<PlainEffect, OutOfMemory>
        ensures { IfOk result (λ e. effect_of e ≡ effects.effect (Command.SetBit name bit) (get self.now)) }
    {
        content!(Kind::Bits(capacity, bits) = self.get(name), Ok);
        if bit as u64 >= bits_end(*capacity) {
            return Ok(PlainEffect::Tells(ScriptReply::OutOfRange));
        }
        let mut all = bits.copied()?;
        all.insert(bit, ())?;
        Ok(gives(name, Kind::Bits(*capacity, all), ScriptReply::Done, 0))
    }

    pub(crate) fn unset_bit(&self, name: u32, bit: u32) -> Result<PlainEffect, OutOfMemory>
        ensures { IfOk result (λ e. effect_of e ≡ effects.effect (Command.UnsetBit name bit) (get self.now)) }
    {
        content!(Kind::Bits(capacity, bits) = self.get(name), Ok);
        if bit as u64 >= bits_end(*capacity) {
            return Ok(PlainEffect::Tells(ScriptReply::OutOfRange));
        }
        let mut rest = bits.copied()?;
        rest.remove(bit);
        Ok(gives(name, Kind::Bits(*capacity, rest), ScriptReply::Done, 0))
    }

    pub(crate) fn has_bit(&self, name: u32, bit: u32) -> PlainEffect
        ensures { effect_of result ≡ effects.effect (Command.HasBit name bit) (get self.now) }
    {
        content!(Kind::Bits(capacity, bits) = self.get(name));
        PlainEffect::Tells(ScriptReply::Truth(bit < *capacity && bits.has(bit)))
    }

    pub(crate) fn union_with(&self, name: u32, other: u32) -> Result<PlainEffect, OutOfMemory>
        ensures { IfOk result (λ e. effect_of e ≡ effects.effect (Command.Union name other) (get self.now)) }
    {
        let Some(object) = self.get(name) else {
            return Ok(PlainEffect::Tells(ScriptReply::NoSuchName));
        };
        let Some(from) = self.get(other) else {
            return Ok(PlainEffect::Tells(ScriptReply::NoSuchName));
        };
        let Kind::Bits(capacity, bits) = &object.kind else {
            return Ok(PlainEffect::Tells(ScriptReply::WrongKind));
        };
        let Kind::Bits(others, more) = &from.kind else {
            return Ok(PlainEffect::Tells(ScriptReply::WrongKind));
        };
        let end = bits_end(*capacity).min(bits_end(*others));
        let all = united(end, bits, more)?;
        Ok(gives(name, Kind::Bits(*capacity, all), ScriptReply::Done, 0))
    }

    pub(crate) fn ones(&self, alloc: Global, name: u32) -> Result<PlainEffect, OutOfMemory>
        ensures { IfOk result (λ e. effect_of e ≡ effects.effect (Command.Ones name) (get self.now)) }
    {
        content!(Kind::Bits(capacity, bits) = self.get(name), Ok);
        let all = members(alloc, bits, *capacity)?;
        Ok(PlainEffect::Tells(ScriptReply::Numbers(Numbers::from_vec(all))))
    }
}
