// Commands on maps.
#![tactic(auto, unfolding(script_rules::specs::Effects::effect))]

ghost use Rattle.std.specs.Prelude.{◌≡◌, IfOk};
ghost use Rattle.script_rules.specs.Objects.{get};
ghost use Rattle.script_rules.specs.Effects as effects;
ghost use Rattle.plain_scripts.specs.Answers.{effect_of};

use crate::effect::{PlainEffect, content, gives, number_or_nothing};
use crate::machine::PlainScripts;
use crate::names::Names;
use crate::object::Kind;
use arena_rules::OutOfMemory;
use script_rules::{Command, ScriptReply};
use std::alloc::Global;

/// The most pairs of a map.
const MOST_PAIRS: usize = 4_294_967_295;

impl PlainScripts {
    pub(crate) fn make_map(&self, alloc: Global, name: u32) -> PlainEffect
        ensures { effect_of result ≡ effects.effect (Command.MakeMap name) (get self.now) }
    {
        if self.get(name).is_some() {
            return PlainEffect::Tells(ScriptReply::NameTaken);
        }
        gives(name, Kind::Map(Names::new(alloc)), ScriptReply::Done, 0)
    }

    pub(crate) fn bind(&self, name: u32, key: u32, value: u32) -> Result<PlainEffect, OutOfMemory>
        ensures { IfOk result (λ e. effect_of e
            ≡ effects.effect (Command.Bind name key value) (get self.now)) }
    {
        content!(Kind::Map(pairs) = self.get(name), Ok);
        let mut all = pairs.copied()?;
        match pairs.get(key) {
            Some(old) => {
                all.insert(key, value)?;
                Ok(gives(name, Kind::Map(all), ScriptReply::Number(*old as u64), 0))
            }
            None => {
                if pairs.len() >= MOST_PAIRS {
                    return Ok(PlainEffect::Tells(ScriptReply::CapacityOverflow));
                }
                all.insert(key, value)?;
                Ok(gives(name, Kind::Map(all), ScriptReply::Nothing, 256))
            }
        }
    }

    pub(crate) fn find(&self, name: u32, key: u32) -> PlainEffect
        ensures { effect_of result ≡ effects.effect (Command.Find name key) (get self.now) }
    {
        content!(Kind::Map(pairs) = self.get(name));
        PlainEffect::Tells(number_or_nothing(pairs.get(key).copied()))
    }

    pub(crate) fn unbind(&self, name: u32, key: u32) -> Result<PlainEffect, OutOfMemory>
        ensures { IfOk result (λ e. effect_of e ≡ effects.effect (Command.Unbind name key) (get self.now)) }
    {
        content!(Kind::Map(pairs) = self.get(name), Ok);
        let reply = number_or_nothing(pairs.get(key).copied());
        let mut rest = pairs.copied()?;
        rest.remove(key);
        Ok(gives(name, Kind::Map(rest), reply, 0))
    }
}
