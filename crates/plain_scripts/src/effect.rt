// What a command does.
ghost use Rattle.std.specs.Prelude.{◌≡◌};
ghost use Rattle.script_rules.specs.Effects as effects;
ghost use Rattle.plain_scripts.specs.Objects.{object_of};
ghost use Rattle.plain_scripts.specs.Answers.{effect_of};

use crate::object::{Kind, PlainObject};
use script_rules::ScriptReply;

/// Reports something and changes nothing, or gives a name an object, or removes a name.
#[derive(Drop)]
pub(crate) enum PlainEffect {
    Tells(ScriptReply),
    Gives {
        name: u32,
        object: PlainObject,
        reply: ScriptReply,
        cost: u64,
    },
    LetsGo(u32),
}

// A name gets an object.
pub(crate) fn gives(name: u32, kind: Kind, reply: ScriptReply, cost: u64) -> PlainEffect
    ensures { effect_of result ≡ effects.Gives name (object_of kind) reply cost }
{
    PlainEffect::Gives {
        name,
        object: PlainObject { kind },
        reply,
        cost,
    }
}

// The number that is there, if any.
pub(crate) fn number_or_nothing(found: Option<u32>) -> ScriptReply
    ensures { result ≡ effects.number_or_nothing found }
{
    match found {
        Some(n) => ScriptReply::Number(n as u64),
        None => ScriptReply::Nothing,
    }
}

// Binds the content of a name's object of this kind. If there is none, the command ends with a reply that says why.
macro_rules! content {
    ($kind:pat = $found:expr $(, $ok:ident)?) => {
        let Some(object) = $found else {
            return $($ok)?(PlainEffect::Tells(ScriptReply::NoSuchName));
        };
        let $kind = &object.kind else {
            return $($ok)?(PlainEffect::Tells(ScriptReply::WrongKind));
        };
    };
}

pub(crate) use content;
