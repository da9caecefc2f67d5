// Objects.
ghost use Rattle.std.specs.Prelude.{◌≡◌, IfOk};
ghost use Rattle.arena_rules.specs.Bits.{words_for};
ghost use Rattle.script_rules.specs.Objects.{IsObject, copy_cost};

use crate::copies::copied;
use crate::names::Names;
use arena_rules::OutOfMemory;
use short_bytes::Bytes;
use std::alloc::Global;
use std::marker::Model;

/// The kind of an object, with its content.
#[derive(Drop)]
pub(crate) enum Kind {
    List(Vec<u32>),
    Text(Bytes),
    Bits(u32, Names<()>),
    Map(Names<u32>),
    Value(u64),
}

/// An object, which contracts see as that of the definitions.
#[derive(Drop)]
pub(crate) struct PlainObject {
    pub(crate) kind: Kind,
}

impl Model for PlainObject {
    ghost use Rattle.script_rules.specs.Objects.{Object};
    ghost use Rattle.plain_scripts.specs.Objects.{object_code, object_of};

    ghost Value = { Object };

    ghost coded = { object_code };

    ghost view = { λ o. object_of o.kind };
}

/// Returns how many words of 64 bits hold this many bits.
pub(crate) fn words_for(bits: u32) -> u64
    ensures { result ≡ words_for bits }
{
    (bits as u64 + 63) / 64
}

impl PlainObject {
    /// Returns the cost of a copy.
    pub(crate) fn copy_cost(&self) -> u64
        requires { IsObject self.now }
        ensures { result ≡ copy_cost self.now }
    {
        match &self.kind {
            Kind::List(items) => 24 * items.len() as u64,
            Kind::Text(bytes) => 32 + 4 * bytes.len(),
            Kind::Bits(capacity, _) => 8 * words_for(*capacity) + 7,
            Kind::Map(pairs) => 256 * pairs.len() as u64,
            Kind::Value(_) => 15,
        }
    }

    /// Returns an equal object.
    pub(crate) fn copied(&self, alloc: Global) -> Result<PlainObject, OutOfMemory>
        ensures { IfOk result (λ o. o ≡ self.now) }
    {
        let kind = match &self.kind {
            Kind::List(items) => Kind::List(copied(alloc, items)?),
            Kind::Text(bytes) => Kind::Text(Bytes::of(alloc, bytes.as_slice())?),
            Kind::Bits(capacity, bits) => Kind::Bits(*capacity, bits.copied()?),
            Kind::Map(pairs) => Kind::Map(pairs.copied()?),
            Kind::Value(value) => Kind::Value(*value),
        };
        Ok(PlainObject { kind })
    }
}
