// Each command in a function of its own. They aren't inlined, so that a command clears the stack space of its own
// values and no others.
ghost use Rattle.std.specs.Prelude.{◌≡◌};
ghost use Rattle.arena_script.specs.Things.{AreThings};
ghost use Rattle.arena_script.specs.Acts.{Acts};

use crate::act::Act;
use crate::thing::Thing;
use crate::{bits, lists, maps, texts, values, whole};
use arena_chunks::{Allocator, ChunkSource};
use arena_items::Grown;
use script_rules::{Command, Names};
use std::alloc::Global;

/// Performs a command on the things under names.
#[inline(never)]
pub(crate) fn act<C: ChunkSource>(
    alloc: Global,
    a: &mut Allocator<C>,
    things: &Names<Thing>,
    command: &Command,
) -> Grown<Act>
    requires { AreThings a.old.memory things.now }
    ensures { Acts command.now things.now a.old a.new result }
{
    match command {
        Command::MakeList { name } => lists::make_list(things, *name),
        Command::MakeText { name } => texts::make_text(things, *name),
        Command::MakeBits { name, capacity } => bits::make_bits(a, things, *name, *capacity),
        Command::MakeMap { name } => maps::make_map(things, *name),
        Command::MakeValue { name, value } => values::make_value(a, things, *name, *value),
        Command::Push { name, value } => lists::push(a, things, *name, *value),
        Command::Insert { name, at, value } => lists::insert(a, things, *name, *at, *value),
        Command::Pop { name } => lists::pop(a, things, *name),
        Command::Remove { name, at } => lists::remove(a, things, *name, *at),
        Command::At { name, at } => lists::at(a, things, *name, *at),
        Command::Put { name, at, value } => lists::put(a, things, *name, *at, *value),
        Command::Truncate { name, len } => lists::truncate(things, *name, *len),
        Command::Byte { name, byte } => texts::byte(a, things, *name, *byte),
        Command::Front { name, byte } => texts::front(a, things, *name, *byte),
        Command::Append { name, bytes } => texts::append(a, things, *name, bytes.as_slice()),
        Command::SetBit { name, bit } => bits::set_bit(a, things, *name, *bit),
        Command::UnsetBit { name, bit } => bits::unset_bit(a, things, *name, *bit),
        Command::HasBit { name, bit } => bits::has_bit(a, things, *name, *bit),
        Command::Union { name, other } => bits::union(a, things, *name, *other),
        Command::Ones { name } => bits::ones(alloc, a, things, *name),
        Command::Bind { name, key, value } => maps::bind(a, things, *name, *key, *value),
        Command::Find { name, key } => maps::find(a, things, *name, *key),
        Command::Unbind { name, key } => maps::unbind(a, things, *name, *key),
        Command::Load { name } => values::load(a, things, *name),
        Command::Store { name, value } => values::store(a, things, *name, *value),
        Command::Len { name } => whole::len(things, *name),
        Command::Show { name } => whole::show(alloc, a, things, *name),
        Command::CopyTo { name, other } => whole::copy(a, things, *name, *other),
        Command::DropName { name } => whole::drop_name(things, *name),
    }
}
