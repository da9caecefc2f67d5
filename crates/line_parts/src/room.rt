// Room for a text, and texts one after another.
ghost use Rattle.std.specs.Prelude.{◌≡◌, ◌+◌, ◌^◌, ◌++◌, ◌<◌, ◌≤◌, IsOk, OnOk, vec_len, vec_capacity};
ghost use Rattle.std.specs.Option.{SomeIff};
ghost use Rattle.std.specs.List.{flat_map};
ghost use Rattle.line_parts.specs.Room.{rooms};

use arena_rules::OutOfMemory;

/// Reserves room for `more` bytes.
///
/// # Errors
///
/// Out of memory. The text is unchanged.
pub fn make_room(out: &mut Vec<u8>, more: usize) -> Result<(), OutOfMemory>
    ensures same { out.new.items ≡ out.old.items }
    ensures room { OnOk result (vec_len out.new + more ≤ vec_capacity out.new) }
    ensures succeeds { vec_len out.old + more ≤ vec_capacity out.old → IsOk result }
{
    // The capacity may double: what is past the text's end isn't touched, and so takes no memory.
    Ok(out.reserve(more)?)
}

/// Prints things one after another.
pub trait Printer<T> {
    ghost use Rattle.std.specs.Prelude.{ℕ, List};

    // A size that is enough for a thing's text.
    ghost room: { T → ℕ };

    // A thing's text.
    ghost text: { T → List ℕ };

    /// Returns a size that is enough for its text, or `None` where it exceeds 64 bits.
    fn room(&self, thing: &T) -> Option<usize>
        ensures { SomeIff result (room thing.now < 2 ^ 64) (room thing.now) };

    /// Appends its text, for which there must be room.
    fn put(&self, out: &mut Vec<u8>, thing: &T)
        requires { vec_len out.old + room thing.now ≤ vec_capacity out.old }
        ensures items { out.new.items ≡ out.old.items ++ text thing.now }
        ensures len { vec_len out.new ≤ vec_len out.old + room thing.now }
        ensures capacity { vec_capacity out.old ≤ vec_capacity out.new };
}

/// Returns a size that is enough for the texts of all things, or `None` where it exceeds 64 bits.
pub fn room_of<T, P: Printer<T>>(printer: &P, all: &[T]) -> Option<usize>
    ensures { SomeIff result (rooms P.room all.now < 2 ^ 64) (rooms P.room all.now) }
{
    let mut room: usize = 0;
    for i in 0..all.len() {
        room = printer.room(&all[i])?.checked_add(room)?;
    }
    Some(room)
}

/// Appends the texts of all things, for which there must be room.
pub fn put_all<T, P: Printer<T>>(printer: &P, out: &mut Vec<u8>, all: &[T])
    requires { vec_len out.old + rooms P.room all.now ≤ vec_capacity out.old }
    ensures items { out.new.items ≡ out.old.items ++ flat_map P.text all.now }
    ensures len { vec_len out.new ≤ vec_len out.old + rooms P.room all.now }
    ensures capacity { vec_capacity out.old ≤ vec_capacity out.new }
{
    for i in 0..all.len() {
        printer.put(out, &all[i]);
    }
}
