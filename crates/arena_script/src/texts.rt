// Commands on texts.
#![tactic(auto, unfolding(script_rules::specs::Effects::effect))]

ghost use Rattle.std.specs.Prelude.{◌≡◌, ℕ, Ok, Some, None, IfOk, IfErr};
ghost use Rattle.script_rules.specs.Objects.{get};
ghost use Rattle.arena_text.specs.Builders.{IsBuilderIn, builder_bytes};
ghost use Rattle.std.specs.List.{list_any};
ghost use Rattle.script_rules.specs.Effects as effects;
ghost use Rattle.arena_chunks.specs.Source.{View};
ghost use Rattle.arena_script.specs.Things.{Things, AreThings, IsWordsIn, IsThingIn};
ghost use Rattle.arena_script.specs.Acts.{Acts};

use crate::act::{Act, found};
use crate::kinds::text_of;
use crate::thing::Thing;
use arena_chunks::{Allocator, ChunkSource};
use arena_clone::{CloneIn, CloneInSemanticIds};
use arena_items::{AllocError, Grown};
use arena_text::StringBuilder;
use arena_text::laws::{growth_rule, length_rule};
use script_rules::{Command, Names, ScriptReply};
use short_bytes::Bytes;
use std::alloc::Global;

/// The most bytes of a text.
const MOST_BYTES: u64 = 4_294_967_295;

// Whether some byte isn't ASCII.
fn has_other(bytes: &[u8]) -> bool
    ensures { result ≡ list_any effects.not_ascii bytes.now }
{
    for byte in bytes {
        if *byte > 127 {
            return true;
        }
    }
    false
}

#[inline(never)]
pub(crate) fn make_text(things: &Names<Thing>, name: u32) -> Grown<Act>
    ensures { (a : View) → Acts (Command.MakeText name) things.now a a result }
{
    if things.get(name).is_some() {
        return Ok(Act::Tells(ScriptReply::NameTaken));
    }
    Ok(Act::Gives(
        name,
        Thing::Text(StringBuilder::new_in()),
        ScriptReply::Done,
    ))
}

#[inline(never)]
pub(crate) fn append<C: ChunkSource>(
    a: &mut Allocator<C>,
    things: &Names<Thing>,
    name: u32,
    bytes: &[u8],
) -> Grown<Act>
    requires { AreThings a.old.memory things.now }
    ensures { Acts (Command.Append name bytes.now) things.now a.old a.new result }
{
    length_rule();
    growth_rule();
    a.known();
    let mut text = found!(text_of(things, name), else return);
    if has_other(bytes) {
        return Ok(Act::Tells(ScriptReply::NotAscii));
    }
    if text.len().saturating_add(bytes.len() as u64) > MOST_BYTES {
        return Ok(Act::Tells(ScriptReply::CapacityOverflow));
    }
    text.push_bytes_unchecked(a, bytes)?;
    Ok(Act::Gives(name, Thing::Text(text), ScriptReply::Done))
}

#[inline(never)]
pub(crate) fn byte<C: ChunkSource>(
    a: &mut Allocator<C>,
    things: &Names<Thing>,
    name: u32,
    byte: u8,
) -> Grown<Act>
    requires { AreThings a.old.memory things.now }
    ensures { Acts (Command.Byte name byte) things.now a.old a.new result }
{
    append(a, things, name, &[byte])
}

#[inline(never)]
pub(crate) fn front<C: ChunkSource>(
    a: &mut Allocator<C>,
    things: &Names<Thing>,
    name: u32,
    byte: u8,
) -> Grown<Act>
    requires { AreThings a.old.memory things.now }
    ensures { Acts (Command.Front name byte) things.now a.old a.new result }
{
    length_rule();
    growth_rule();
    a.known();
    let mut text = found!(text_of(things, name), else return);
    if has_other(&[byte]) {
        return Ok(Act::Tells(ScriptReply::NotAscii));
    }
    if text.len() >= MOST_BYTES {
        return Ok(Act::Tells(ScriptReply::CapacityOverflow));
    }
    text.push_byte_start_unchecked(a, byte)?;
    Ok(Act::Gives(name, Thing::Text(text), ScriptReply::Done))
}

// The bytes of a text.
pub(crate) fn bytes_of<C: ChunkSource>(
    alloc: Global,
    a: &Allocator<C>,
    text: StringBuilder,
) -> Grown<Bytes>
    requires { IsBuilderIn a.now.memory text }
    ensures bytes { IfOk result (λ bytes. bytes ≡ builder_bytes a.now.memory text) }
    ensures exhausted { IfErr result (λ e. e ≡ AllocError.OutOfMemory) }
{
    Bytes::of(alloc, text.as_bytes(a)).map_err(|_| AllocError::OutOfMemory)
}

// Copies the text of a name to another that holds nothing. The copy has room for its bytes.
#[inline(never)]
pub(crate) fn copied<C: ChunkSource>(
    a: &mut Allocator<C>,
    other: u32,
    text: StringBuilder,
) -> Grown<Act>
    requires { IsThingIn a.old.memory (Thing.Text text) }
    ensures { (things : Things) (name : ℕ) → AreThings a.old.memory things → get things name ≡ Some (Thing.Text text)
        → get things other ≡ None → Acts (Command.CopyTo name other) things a.old a.new result }
{
    length_rule();
    a.known();
    let source = text.into_str();
    let copy = source.clone_within(CloneInSemanticIds::With, a)?;
    let made = StringBuilder {
        block: copy.block,
        len: text.len,
        cap: text.len,
    };
    Ok(Act::Gives(other, Thing::Text(made), ScriptReply::Done))
}
