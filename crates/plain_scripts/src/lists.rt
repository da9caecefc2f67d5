// Commands on lists.
#![tactic(auto, unfolding(script_rules::specs::Effects::effect))]

ghost use Rattle.std.specs.Prelude.{◌≡◌, IfOk};
ghost use Rattle.script_rules.specs.Objects.{get};
ghost use Rattle.script_rules.specs.Effects as effects;
ghost use Rattle.plain_scripts.specs.Answers.{effect_of};

use crate::copies::{copied, first};
use crate::effect::{PlainEffect, content, gives, number_or_nothing};
use crate::machine::PlainScripts;
use crate::object::Kind;
use arena_rules::OutOfMemory;
use script_rules::{Command, ScriptReply};
use std::alloc::Global;

/// The most items of a list.
const MOST_ITEMS: usize = 536_870_912;

impl PlainScripts {
    pub(crate) fn make_list(&self, alloc: Global, name: u32) -> PlainEffect
        ensures { effect_of result ≡ effects.effect (Command.MakeList name) (get self.now) }
    {
        if self.get(name).is_some() {
            return PlainEffect::Tells(ScriptReply::NameTaken);
        }
        gives(name, Kind::List(Vec::new(alloc)), ScriptReply::Done, 0)
    }

    pub(crate) fn push(
        &self,
        alloc: Global,
        name: u32,
        value: u32,
    ) -> Result<PlainEffect, OutOfMemory>
        ensures { IfOk result (λ e. effect_of e ≡ effects.effect (Command.Push name value) (get self.now)) }
    {
        content!(Kind::List(items) = self.get(name), Ok);
        if items.len() >= MOST_ITEMS {
            return Ok(PlainEffect::Tells(ScriptReply::CapacityOverflow));
        }
        let mut items = copied(alloc, items)?;
        items.push(value)?;
        Ok(gives(name, Kind::List(items), ScriptReply::Done, 24))
    }

    pub(crate) fn insert(
        &self,
        alloc: Global,
        name: u32,
        at: u32,
        value: u32,
    ) -> Result<PlainEffect, OutOfMemory>
        ensures { IfOk result (λ e. effect_of e
            ≡ effects.effect (Command.Insert name at value) (get self.now)) }
    {
        content!(Kind::List(items) = self.get(name), Ok);
        if at as usize > items.len() {
            return Ok(PlainEffect::Tells(ScriptReply::OutOfRange));
        }
        if items.len() >= MOST_ITEMS {
            return Ok(PlainEffect::Tells(ScriptReply::CapacityOverflow));
        }
        let mut items = copied(alloc, items)?;
        items.insert(at as usize, value)?;
        Ok(gives(name, Kind::List(items), ScriptReply::Done, 24))
    }

    pub(crate) fn pop(&self, alloc: Global, name: u32) -> Result<PlainEffect, OutOfMemory>
        ensures { IfOk result (λ e. effect_of e ≡ effects.effect (Command.Pop name) (get self.now)) }
    {
        content!(Kind::List(items) = self.get(name), Ok);
        let reply = number_or_nothing(items.last().copied());
        let items = first(alloc, items, items.len().saturating_sub(1))?;
        Ok(gives(name, Kind::List(items), reply, 0))
    }

    pub(crate) fn remove(
        &self,
        alloc: Global,
        name: u32,
        at: u32,
    ) -> Result<PlainEffect, OutOfMemory>
        ensures { IfOk result (λ e. effect_of e ≡ effects.effect (Command.Remove name at) (get self.now)) }
    {
        content!(Kind::List(items) = self.get(name), Ok);
        let Some(item) = items.get(at as usize) else {
            return Ok(PlainEffect::Tells(ScriptReply::OutOfRange));
        };
        let mut rest = copied(alloc, items)?;
        rest.remove(at as usize);
        Ok(gives(name, Kind::List(rest), ScriptReply::Number(*item as u64), 0))
    }

    pub(crate) fn at(&self, name: u32, at: u32) -> PlainEffect
        ensures { effect_of result ≡ effects.effect (Command.At name at) (get self.now) }
    {
        content!(Kind::List(items) = self.get(name));
        match items.get(at as usize) {
            Some(n) => PlainEffect::Tells(ScriptReply::Number(*n as u64)),
            None => PlainEffect::Tells(ScriptReply::OutOfRange),
        }
    }

    pub(crate) fn put(
        &self,
        alloc: Global,
        name: u32,
        at: u32,
        value: u32,
    ) -> Result<PlainEffect, OutOfMemory>
        ensures { IfOk result (λ e. effect_of e ≡ effects.effect (Command.Put name at value) (get self.now)) }
    {
        content!(Kind::List(items) = self.get(name), Ok);
        if items.get(at as usize).is_none() {
            return Ok(PlainEffect::Tells(ScriptReply::OutOfRange));
        }
        let mut items = copied(alloc, items)?;
        items[at as usize] = value;
        Ok(gives(name, Kind::List(items), ScriptReply::Done, 0))
    }

    pub(crate) fn truncate(
        &self,
        alloc: Global,
        name: u32,
        len: u32,
    ) -> Result<PlainEffect, OutOfMemory>
        ensures { IfOk result (λ e. effect_of e ≡ effects.effect (Command.Truncate name len) (get self.now)) }
    {
        content!(Kind::List(items) = self.get(name), Ok);
        let items = first(alloc, items, len as usize)?;
        Ok(gives(name, Kind::List(items), ScriptReply::Done, 0))
    }
}
