// The thing of a name, if it is of a kind.
ghost use Rattle.std.specs.Prelude.{◌≡◌, ℕ, Some, List, MatchResult};
ghost use Rattle.arena_chunks.specs.Memory.{Memory};
ghost use Rattle.script_rules.specs.Objects.{get, Bits, Entries};
ghost use Rattle.script_rules.specs.Effects.{Effect, Tells, held, a_list, a_map, a_set, a_text, a_value};
ghost use Rattle.arena_script.specs.Things.{seen};

use crate::thing::Thing;
use arena_bits::BitSet;
use arena_hash::HashMap;
use arena_items::Box;
use arena_text::StringBuilder;
use arena_vec::Vec;
use script_rules::{Names, ScriptReply};

/// Returns the list of a name.
///
/// # Errors
///
/// There is no such name, or it holds no list.
#[inline(always)]
pub(crate) fn list_of(things: &Names<Thing>, name: u32) -> Result<Vec<u32>, ScriptReply>
    ensures { MatchResult result (λ v. get things.now name ≡ Some (Thing.List v))
        (λ reply. (m : Memory) (go : List ℕ → Effect)
        → held (seen m things.now name) (λ o. a_list o go) ≡ Tells reply) }
{
    match things.get(name) {
        None => Err(ScriptReply::NoSuchName),
        Some(Thing::List(v)) => Ok(v),
        Some(_) => Err(ScriptReply::WrongKind),
    }
}

/// Returns the value of a name.
///
/// # Errors
///
/// There is no such name, or it holds no value.
#[inline(always)]
pub(crate) fn value_of(things: &Names<Thing>, name: u32) -> Result<Box<u64>, ScriptReply>
    ensures { MatchResult result (λ b. get things.now name ≡ Some (Thing.Value b))
        (λ reply. (m : Memory) (go : ℕ → Effect)
        → held (seen m things.now name) (λ o. a_value o go) ≡ Tells reply) }
{
    match things.get(name) {
        None => Err(ScriptReply::NoSuchName),
        Some(Thing::Value(b)) => Ok(b),
        Some(_) => Err(ScriptReply::WrongKind),
    }
}

/// Returns the text of a name.
///
/// # Errors
///
/// There is no such name, or it holds no text.
#[inline(always)]
pub(crate) fn text_of(things: &Names<Thing>, name: u32) -> Result<StringBuilder, ScriptReply>
    ensures { MatchResult result (λ t. get things.now name ≡ Some (Thing.Text t))
        (λ reply. (m : Memory) (go : List ℕ → Effect)
        → held (seen m things.now name) (λ o. a_text o go) ≡ Tells reply) }
{
    match things.get(name) {
        None => Err(ScriptReply::NoSuchName),
        Some(Thing::Text(t)) => Ok(t),
        Some(_) => Err(ScriptReply::WrongKind),
    }
}

/// Returns the set of a name.
///
/// # Errors
///
/// There is no such name, or it holds no set.
#[inline(always)]
pub(crate) fn set_of(things: &Names<Thing>, name: u32) -> Result<BitSet, ScriptReply>
    ensures { MatchResult result (λ s. get things.now name ≡ Some (Thing.Bits s))
        (λ reply. (m : Memory) (go : ℕ → Bits → Effect)
        → held (seen m things.now name) (λ o. a_set o go) ≡ Tells reply) }
{
    match things.get(name) {
        None => Err(ScriptReply::NoSuchName),
        Some(Thing::Bits(s)) => Ok(s),
        Some(_) => Err(ScriptReply::WrongKind),
    }
}

/// Returns the map of a name.
///
/// # Errors
///
/// There is no such name, or it holds no map.
#[inline(always)]
pub(crate) fn map_of(things: &Names<Thing>, name: u32) -> Result<HashMap<u32, u32>, ScriptReply>
    ensures { MatchResult result (λ m. get things.now name ≡ Some (Thing.Map m))
        (λ reply. (m : Memory) (go : Entries ℕ → Effect)
        → held (seen m things.now name) (λ o. a_map o go) ≡ Tells reply) }
{
    match things.get(name) {
        None => Err(ScriptReply::NoSuchName),
        Some(Thing::Map(m)) => Ok(m),
        Some(_) => Err(ScriptReply::WrongKind),
    }
}
