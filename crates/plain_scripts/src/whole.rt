// Commands on values, and on objects of any kind.
#![tactic(auto, unfolding(script_rules::specs::Effects::effect))]

ghost use Rattle.std.specs.Prelude.{◌≡◌, [], ◌∷◌, IfOk};
ghost use Rattle.std.specs.List.{flat_map};
ghost use Rattle.script_rules.specs.Objects.{get};
ghost use Rattle.script_rules.specs.Effects as effects;
ghost use Rattle.plain_scripts.specs.Answers.{effect_of};

use crate::effect::{PlainEffect, content, gives};
use crate::machine::PlainScripts;
use crate::names::Names;
use crate::object::{Kind, PlainObject, words_for};
use crate::printed::printed;
use arena_rules::OutOfMemory;
use script_rules::{Command, Numbers, ScriptReply};
use short_bytes::Bytes;
use std::alloc::Global;

// The numbers of a list.
fn widened(alloc: Global, items: &[u32]) -> Result<Numbers, OutOfMemory>
    ensures { IfOk result (λ all. all ≡ items.now) }
{
    let mut all = Vec::new(alloc);
    for item in items {
        all.push(*item as u64)?;
    }
    Ok(Numbers::from_vec(all))
}

// Each key of a map with its value.
fn listed(alloc: Global, pairs: &Names<u32>) -> Result<Numbers, OutOfMemory>
    ensures { IfOk result (λ all. all ≡ flat_map (λ e. e.0 ∷ e.1 ∷ []) pairs.now) }
{
    let mut all = Vec::new(alloc);
    for (key, value) in &pairs.values {
        if all
            .extend_from_slice(&[*key as u64, *value as u64])
            .is_err()
        {
            return Err(OutOfMemory);
        }
    }
    Ok(Numbers::from_vec(all))
}

// All that an object holds.
fn shown(alloc: Global, object: &PlainObject) -> Result<ScriptReply, OutOfMemory>
    ensures { IfOk result (λ reply. reply ≡ effects.shown object.now) }
{
    Ok(match &object.kind {
        Kind::List(items) => ScriptReply::Numbers(widened(alloc, items)?),
        Kind::Text(bytes) => ScriptReply::Bytes(Bytes::of(alloc, bytes.as_slice())?),
        Kind::Bits(capacity, bits) => ScriptReply::Printed(printed(
            alloc,
            words_for(*capacity),
            bits,
        )?),
        Kind::Map(pairs) => ScriptReply::Numbers(listed(alloc, pairs)?),
        Kind::Value(value) => ScriptReply::Number(*value),
    })
}

impl PlainScripts {
    pub(crate) fn make_value(&self, name: u32, value: u64) -> PlainEffect
        ensures { effect_of result ≡ effects.effect (Command.MakeValue name value) (get self.now) }
    {
        if self.get(name).is_some() {
            return PlainEffect::Tells(ScriptReply::NameTaken);
        }
        gives(name, Kind::Value(value), ScriptReply::Done, 15)
    }

    pub(crate) fn load(&self, name: u32) -> PlainEffect
        ensures { effect_of result ≡ effects.effect (Command.Load name) (get self.now) }
    {
        content!(Kind::Value(value) = self.get(name));
        PlainEffect::Tells(ScriptReply::Number(*value))
    }

    pub(crate) fn store(&self, name: u32, value: u64) -> PlainEffect
        ensures { effect_of result ≡ effects.effect (Command.Store name value) (get self.now) }
    {
        content!(Kind::Value(_) = self.get(name));
        gives(name, Kind::Value(value), ScriptReply::Done, 0)
    }

    pub(crate) fn len(&self, name: u32) -> PlainEffect
        ensures { effect_of result ≡ effects.effect (Command.Len name) (get self.now) }
    {
        let Some(object) = self.get(name) else {
            return PlainEffect::Tells(ScriptReply::NoSuchName);
        };
        PlainEffect::Tells(match &object.kind {
            Kind::List(items) => ScriptReply::Number(items.len() as u64),
            Kind::Text(bytes) => ScriptReply::Number(bytes.len()),
            Kind::Bits(capacity, _) => ScriptReply::Number(*capacity as u64),
            Kind::Map(pairs) => ScriptReply::Number(pairs.len() as u64),
            Kind::Value(_) => ScriptReply::WrongKind,
        })
    }

    pub(crate) fn show(&self, alloc: Global, name: u32) -> Result<PlainEffect, OutOfMemory>
        ensures { IfOk result (λ e. effect_of e ≡ effects.effect (Command.Show name) (get self.now)) }
    {
        let Some(object) = self.get(name) else {
            return Ok(PlainEffect::Tells(ScriptReply::NoSuchName));
        };
        Ok(PlainEffect::Tells(shown(alloc, object)?))
    }

    pub(crate) fn copy_to(
        &self,
        alloc: Global,
        name: u32,
        other: u32,
    ) -> Result<PlainEffect, OutOfMemory>
        ensures { IfOk result (λ e. effect_of e ≡ effects.effect (Command.CopyTo name other) (get self.now)) }
    {
        let Some(object) = self.get(name) else {
            return Ok(PlainEffect::Tells(ScriptReply::NoSuchName));
        };
        if self.get(other).is_some() {
            return Ok(PlainEffect::Tells(ScriptReply::NameTaken));
        }
        Ok(PlainEffect::Gives {
            name: other,
            object: object.copied(alloc)?,
            reply: ScriptReply::Done,
            cost: object.copy_cost(),
        })
    }

    pub(crate) fn drop_name(&self, name: u32) -> PlainEffect
        ensures { effect_of result ≡ effects.effect (Command.DropName name) (get self.now) }
    {
        if self.get(name).is_none() {
            return PlainEffect::Tells(ScriptReply::NoSuchName);
        }
        PlainEffect::LetsGo(name)
    }
}
