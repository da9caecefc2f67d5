// Commands on texts.
#![tactic(auto, unfolding(script_rules::specs::Effects::effect))]

ghost use Rattle.std.specs.Prelude.{◌≡◌, IfOk};
ghost use Rattle.std.specs.List.{list_any};
ghost use Rattle.script_rules.specs.Objects.{get};
ghost use Rattle.script_rules.specs.Effects as effects;
ghost use Rattle.plain_scripts.specs.Answers.{effect_of};

use crate::copies::joined;
use crate::effect::{PlainEffect, content, gives};
use crate::machine::PlainScripts;
use crate::object::Kind;
use arena_rules::OutOfMemory;
use script_rules::{Command, ScriptReply};
use short_bytes::Bytes;
use std::alloc::Global;

/// The most bytes of a text.
const MOST_BYTES: usize = 4_294_967_295;

// Whether some byte isn't ASCII.
fn has_other(bytes: &[u8]) -> bool
    ensures { result ≡ list_any effects.not_ascii bytes.now }
{
    for byte in bytes {
        if *byte > 127 {
            return true;
        }
    }
    false
}

impl PlainScripts {
    pub(crate) fn make_text(&self, alloc: Global, name: u32) -> PlainEffect
        ensures { effect_of result ≡ effects.effect (Command.MakeText name) (get self.now) }
    {
        if self.get(name).is_some() {
            return PlainEffect::Tells(ScriptReply::NameTaken);
        }
        gives(name, Kind::Text(Bytes::new(alloc)), ScriptReply::Done, 32)
    }

    pub(crate) fn byte(
        &self,
        alloc: Global,
        name: u32,
        byte: u8,
    ) -> Result<PlainEffect, OutOfMemory>
        ensures { IfOk result (λ e. effect_of e ≡ effects.effect (Command.Byte name byte) (get self.now)) }
    {
        self.append(alloc, name, &[byte])
    }

    pub(crate) fn front(
        &self,
        alloc: Global,
        name: u32,
        byte: u8,
    ) -> Result<PlainEffect, OutOfMemory>
        ensures { IfOk result (λ e. effect_of e ≡ effects.effect (Command.Front name byte) (get self.now)) }
    {
        content!(Kind::Text(bytes) = self.get(name), Ok);
        if has_other(&[byte]) {
            return Ok(PlainEffect::Tells(ScriptReply::NotAscii));
        }
        if bytes.len() as usize + 1 > MOST_BYTES {
            return Ok(PlainEffect::Tells(ScriptReply::CapacityOverflow));
        }
        let all = Bytes::from_vec(alloc, joined(alloc, &[byte], bytes.as_slice())?)?;
        Ok(gives(name, Kind::Text(all), ScriptReply::Done, 4))
    }

    pub(crate) fn append(
        &self,
        alloc: Global,
        name: u32,
        more: &[u8],
    ) -> Result<PlainEffect, OutOfMemory>
        ensures { IfOk result (λ e. effect_of e
            ≡ effects.effect (Command.Append name more.now) (get self.now)) }
    {
        content!(Kind::Text(bytes) = self.get(name), Ok);
        if has_other(more) {
            return Ok(PlainEffect::Tells(ScriptReply::NotAscii));
        }
        if bytes.len() as usize + more.len() > MOST_BYTES {
            return Ok(PlainEffect::Tells(ScriptReply::CapacityOverflow));
        }
        let all = Bytes::from_vec(alloc, joined(alloc, bytes.as_slice(), more)?)?;
        let cost = 4 * more.len() as u64;
        Ok(gives(name, Kind::Text(all), ScriptReply::Done, cost))
    }
}
