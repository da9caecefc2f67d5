// The marks that calls set by name, and which names to remove when a run goes back to one.
ghost use Rattle.std.specs.Prelude.{◌≡◌, ℕ, ◌-◌, ◌<◌, ◌++◌, ◌∷◌, [], List, length, take, get_or, if◌then◌else◌, false, true, IsTrue, OnOk, OnErr};
ghost use Rattle.std.specs.Option.{is_some};
ghost use Rattle.call_rules.specs.Machine.{mark_named};
ghost use Rattle.arena_runs.specs.Marks.{Noted, named, marks_from, stands, LetsGo, Forgets};

use crate::names::keep;
use arena_core::{Arena, Checkpoint};
use arena_rules::{OutOfMemory, Place};
use name_map::Names;
use std::alloc::Global;
use std::collections::BTreeSet;
use std::marker::Model;

/// A mark: its name, and the arena's checkpoint.
#[derive(Clone, Copy, Drop)]
pub(crate) struct Mark {
    pub(crate) name: u32,
    pub(crate) checkpoint: Checkpoint,
}

/// The marks of a run, and a log of the names whose blocks were placed or resized while there was a mark. Such a block
/// is at the cursor, so for every mark the names whose blocks a rewind to it frees are the last ones in the log. Each
/// entry is removed once: a rewind reads the entries that it removes and one more.
#[derive(Drop)]
pub(crate) struct Marks {
    // Oldest first.
    list: Vec<Mark>,
    // Ordered, not hashed: a caller could choose names whose hashes collide.
    known: BTreeSet<u32>,
    log: Vec<u32>,
}

impl Model for Marks {
    ghost use Rattle.std.specs.Prelude.{reverse};
    ghost use Rattle.arena_runs.specs.Marks.{Noted, Knows};

    ghost Value = { Noted };

    ghost view = { λ m. record { marks = reverse m.list.items; log = m.log.items } };

    ghost invariant = { λ m. Knows m.known (reverse m.list.items) };
}

impl Marks {
    pub(crate) fn new(alloc: Global) -> Marks
        ensures { result ≡ record { marks = []; log = [] } }
    {
        Marks {
            list: Vec::new(alloc),
            known: BTreeSet::new(alloc),
            log: Vec::new(alloc),
        }
    }

    // Returns whether there is a mark of this name.
    pub(crate) fn has(&self, name: u32) -> bool
        ensures { result ≡ is_some (mark_named (named self.now.marks) name) }
    {
        self.known.contains(&name)
    }

    // Sets a mark. No mark may have the name yet.
    pub(crate) fn set(&mut self, name: u32, checkpoint: Checkpoint) -> Result<(), OutOfMemory>
        requires { is_some (mark_named (named self.old.marks) name) ≡ false }
        ensures { OnOk result (self.new ≡ record {
          marks = record { name = name; checkpoint = checkpoint } ∷ self.old.marks;
          log = self.old.log;
        }) }
    {
        let older = self.list.len();
        self.list.push(Mark { name, checkpoint })?;
        let Ok(_) = self.known.insert(name) else {
            self.list.truncate(older);
            return Err(OutOfMemory);
        };
        Ok(())
    }

    // Adds a name to the log before its block is placed, if there is a mark.
    pub(crate) fn note(&mut self, name: u32) -> Result<(), OutOfMemory>
        ensures marks { self.new.marks ≡ self.old.marks }
        ensures log { OnOk result (0 < length self.old.marks → self.new.log ≡ self.old.log ++ name ∷ []) }
        ensures err { OnErr result (0 < length self.old.marks) }
    {
        if self.list.is_empty() {
            return Ok(());
        }
        Ok(self.log.push(name)?)
    }

    // Removes the newest entry of the log again, if its block stayed where it was or wasn't placed.
    pub(crate) fn settle(&mut self, stayed: bool)
        ensures marks { self.new.marks ≡ self.old.marks }
        ensures log { 0 < length self.old.marks
            → self.new.log ≡ (if stayed then take (length self.old.log - 1) self.old.log else self.old.log) }
    {
        if stayed {
            self.log.pop();
        }
    }

    // Removes the marks that are newer than the name's, and returns the name's.
    pub(crate) fn back_to(&mut self, name: u32) -> Mark
        requires { IsTrue (is_some (mark_named (named self.old.marks) name)) }
        ensures marks { self.new.marks ≡ marks_from name self.old.marks }
        ensures newest { (older : List Mark) × (self.new.marks ≡ result ∷ older) }
        ensures log { self.new.log ≡ self.old.log }
    {
        let mut count = self.list.len();
        while self.list[count - 1].name != name {
            count -= 1;
            self.known.remove(&self.list[count].name);
        }
        self.list.truncate(count);
        self.list[count - 1]
    }

    // Removes the names whose blocks the rewind has freed.
    pub(crate) fn forget<const M: usize>(&mut self, arena: &Arena<M>, names: &mut Names<Place>)
        ensures { Forgets arena.now.state names.old names.new self.old self.new }
    {
        let count = let_go(arena, names, &self.log);
        self.log.truncate(count);
    }

    // Removes all marks. The tables are freed, since clearing them would take time in proportion to the size that they
    // once had.
    pub(crate) fn clear(&mut self, alloc: Global)
        ensures { self.new ≡ record { marks = []; log = [] } }
    {
        *self = Marks::new(alloc);
    }
}

// Reads the log from its last name back, and removes each name whose block isn't in use, until it finds a name whose
// block is in use and isn't empty. Returns the length of the log up to that name, or 0 if there is none.
fn let_go<const M: usize>(arena: &Arena<M>, names: &mut Names<Place>, log: &Vec<u32>) -> usize
    ensures lets { LetsGo arena.now.state names.old names.new result log.now.items }
    ensures over { 0 < result → IsTrue (stands arena.now.state names.new (get_or log.now.items (result - 1) 0)) }
{
    let mut count = log.len();
    while count > 0 {
        let name = log[count - 1];
        let stays = keep(names, arena, name);
        if stays {
            return count;
        }
        count -= 1;
    }
    0
}
