// The machine: objects under names, and one command after another.
ghost use Rattle.std.specs.Prelude.{◌≡◌, [], IfOk, OnErr, IfSome};
ghost use Rattle.std.specs.Option.{option_copied};
ghost use Rattle.script_rules.specs.Objects.{get, AreObjects, IsObject};
ghost use Rattle.script_rules.specs.Effects as effects;
ghost use Rattle.script_rules.specs.Machine as machine;
ghost use Rattle.plain_scripts.specs.Answers.{effect_of, gives};

use crate::effect::PlainEffect;
use crate::names::Names;
use crate::object::PlainObject;
use arena_rules::OutOfMemory;
use script_rules::laws::steps;
use script_rules::{Command, ScriptReply};
use std::alloc::Global;
use std::marker::Model;

/// The reply to a command, and its cost.
#[derive(Drop)]
pub struct Answered {
    /// The reply, which may be a refusal.
    pub reply: ScriptReply,
    /// The cost in bytes, 0 for a refusal.
    pub cost: u64,
}

/// The objects of the definitions, under names.
#[derive(Drop)]
pub struct PlainScripts {
    objects: Names<PlainObject>,
}

impl Model for PlainScripts {
    ghost use Rattle.script_rules.specs.Objects.{Objects, AreObjects};
    ghost use Rattle.std.specs.Coded.{coded_ℕ, coded_list, coded×};
    ghost use Rattle.plain_scripts.specs.Objects.{object_code};

    ghost Value = { Objects };

    ghost coded = { coded_list (coded× coded_ℕ object_code) };

    ghost view = { λ s. s.objects };

    ghost invariant = { λ s. AreObjects s.objects };
}

impl PlainScripts {
    /// Returns a machine with no objects.
    pub fn new(alloc: Global) -> PlainScripts
        ensures { result ≡ [] }
    {
        PlainScripts {
            objects: Names::new(alloc),
        }
    }

    // The object of a name.
    pub(crate) fn get(&self, name: u32) -> Option<&PlainObject>
        ensures value { option_copied result ≡ get self.now name }
        ensures is { IfSome result (λ o. IsObject o.now) }
    {
        self.objects.get(name)
    }

    // Applies an effect.
    fn settle(&mut self, effect: PlainEffect) -> Result<Answered, OutOfMemory>
        requires { AreObjects self.old → AreObjects (machine.settle self.old (effect_of effect)).objects }
        ensures ok { IfOk result (λ a. gives self.new a ≡ machine.settle self.old (effect_of effect)) }
        ensures err { OnErr result (self.new ≡ self.old) }
    {
        match effect {
            PlainEffect::Tells(reply) => Ok(Answered { reply, cost: 0 }),
            PlainEffect::Gives {
                name,
                object,
                reply,
                cost,
            } => {
                self.objects.insert(name, object)?;
                Ok(Answered { reply, cost })
            }
            PlainEffect::LetsGo(name) => {
                self.objects.remove(name);
                Ok(Answered {
                    reply: ScriptReply::Done,
                    cost: 0,
                })
            }
        }
    }

    fn effect(&self, alloc: Global, command: &Command) -> Result<PlainEffect, OutOfMemory>
        ensures { IfOk result (λ e. effect_of e ≡ effects.effect command.now (get self.now)) }
    {
        match command {
            Command::MakeList { name } => Ok(self.make_list(alloc, *name)),
            Command::MakeText { name } => Ok(self.make_text(alloc, *name)),
            Command::MakeBits { name, capacity } => Ok(self.make_bits(alloc, *name, *capacity)),
            Command::MakeMap { name } => Ok(self.make_map(alloc, *name)),
            Command::MakeValue { name, value } => Ok(self.make_value(*name, *value)),
            Command::Push { name, value } => self.push(alloc, *name, *value),
            Command::Insert { name, at, value } => self.insert(alloc, *name, *at, *value),
            Command::Pop { name } => self.pop(alloc, *name),
            Command::Remove { name, at } => self.remove(alloc, *name, *at),
            Command::At { name, at } => Ok(self.at(*name, *at)),
            Command::Put { name, at, value } => self.put(alloc, *name, *at, *value),
            Command::Truncate { name, len } => self.truncate(alloc, *name, *len),
            Command::Byte { name, byte } => self.byte(alloc, *name, *byte),
            Command::Front { name, byte } => self.front(alloc, *name, *byte),
            Command::Append { name, bytes } => self.append(alloc, *name, bytes.as_slice()),
            Command::SetBit { name, bit } => self.set_bit(*name, *bit),
            Command::UnsetBit { name, bit } => self.unset_bit(*name, *bit),
            Command::HasBit { name, bit } => Ok(self.has_bit(*name, *bit)),
            Command::Union { name, other } => self.union_with(*name, *other),
            Command::Ones { name } => self.ones(alloc, *name),
            Command::Bind { name, key, value } => self.bind(*name, *key, *value),
            Command::Find { name, key } => Ok(self.find(*name, *key)),
            Command::Unbind { name, key } => self.unbind(*name, *key),
            Command::Load { name } => Ok(self.load(*name)),
            Command::Store { name, value } => Ok(self.store(*name, *value)),
            Command::Len { name } => Ok(self.len(*name)),
            Command::Show { name } => self.show(alloc, *name),
            Command::CopyTo { name, other } => self.copy_to(alloc, *name, *other),
            Command::DropName { name } => Ok(self.drop_name(*name)),
        }
    }

    /// Serves a command.
    ///
    /// # Errors
    ///
    /// Out of memory. The objects are unchanged.
    pub fn step(&mut self, alloc: Global, command: &Command) -> Result<Answered, OutOfMemory>
        ensures ok { IfOk result (λ a. gives self.new a ≡ machine.step command.now self.old) }
        ensures err { OnErr result (self.new ≡ self.old) }
    {
        steps();
        let effect = self.effect(alloc, command)?;
        self.settle(effect)
    }
}
