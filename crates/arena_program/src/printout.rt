// What the program prints of the results of scripts, or of sources.
ghost use Rattle.std.specs.Prelude.{◌≡◌, ◌++◌, ◌<◌, ◌^◌, length, IfOk, OnOk, OnErr};
ghost use Rattle.arena_calls.specs.Ends.{Prints};
ghost use Rattle.arena_program.specs.PoolEnds.{shown, starved_of};
ghost use Rattle.arena_program.specs.Rendering.{joined, text_from, outcome_text, rendered_text};

use crate::rendered::{Render, Rendered};
use arena_calls::{Output, Status, write_all};
use arena_chunks::{ChunkSource, OutOfMemory};
use arena_workers::{Served, Starved};
use std::alloc::Global;

// A shorter text is copied behind the one before it, so that there is no write for each of many short ones.
const SHORT: usize = 4096;

/// The texts of pieces of work, one after another, and what shows that some were starved, each with its number.
#[derive(Drop)]
pub struct Printout<C: ChunkSource> {
    texts: Vec<Vec<u8>>,
    starved: Vec<(u32, Starved<C>)>,
}

impl<C: ChunkSource + Drop> Printout<C> {
    /// Returns the texts. `starved` gains what shows that work was starved.
    ///
    /// # Errors
    ///
    /// Out of memory. `starved` is unchanged.
    pub fn into_texts(
        mut self,
        starved: &mut Vec<(u32, Starved<C>)>,
    ) -> Result<Vec<Vec<u8>>, OutOfMemory>
        ensures texts { IfOk result (λ texts. texts ≡ self.texts) }
        ensures gained { OnOk result (starved.new.items ≡ starved.old.items ++ self.starved.items) }
        ensures same { OnErr result (starved.new.items ≡ starved.old.items) }
    {
        starved.append(&mut self.starved)?;
        Ok(self.texts)
    }
}

// Adds a text behind the others.
#[tactic(auto, using(crate::proofs::PrintoutLemmas::joined_last))]
fn add(texts: &mut Vec<Vec<u8>>, text: Vec<u8>) -> Result<(), OutOfMemory>
    ensures { OnOk result (joined texts.new.items ≡ joined texts.old.items ++ text.items) }
{
    if text.len() >= SHORT || texts.is_empty() {
        return Ok(texts.push(text)?);
    }
    let last = texts.len() - 1;
    Ok(texts[last].extend_from_slice(text.as_slice())?)
}

// Adds what shows that the work of this number was starved, if something does.
fn gain<C: ChunkSource + Drop>(
    starved: &mut Vec<(u32, Starved<C>)>,
    i: u32,
    one: Option<Starved<C>>,
) -> Result<(), OutOfMemory>
    ensures { OnOk result (starved.new.items ≡ starved.old.items ++ shown i one) }
{
    let Some(one) = one else {
        return Ok(());
    };
    Ok(starved.push((i, one))?)
}

/// Puts together what the workers left of the outcomes of all pieces, in their order.
///
/// # Errors
///
/// Out of memory.
pub fn join<O: Render + Drop, C: ChunkSource + Drop>(
    alloc: Global,
    all: Vec<Served<Rendered<O>, C>>,
) -> Result<Printout<C>, OutOfMemory>
    requires { length all.items < 2 ^ 32 }
    ensures text { IfOk result (λ printout.
        joined printout.texts.items ≡ text_from (outcome_text (rendered_text O.text)) 0 all.items) }
    ensures starved { IfOk result (λ printout. printout.starved.items ≡ starved_of (λ served. served.starved) 0 all.items) }
{
    let mut texts = Vec::new(alloc);
    let mut starved = Vec::new(alloc);
    let mut i: u32 = 0;
    for served in all {
        add(&mut texts, served.outcome.into_text(alloc, u64::from(i))?)?;
        gain(&mut starved, i, served.starved)?;
        i += 1;
    }
    Ok(Printout { texts, starved })
}

/// Writes texts one after another. Returns `Done`, or `WriteFault` where only a first part was written.
#[tactic(auto, using(crate::proofs::PrintoutLemmas::part_of_all))]
pub fn print_all<O: Output>(output: &mut O, texts: &[Vec<u8>]) -> Status
    ensures { Prints (joined texts.now) result (O.written output.old) (O.faults output.old) (O.written output.new) (O.faults output.new) }
{
    for text in texts {
        match write_all(output, text.as_slice()) {
            Ok(()) => {}
            Err(_) => return Status::WriteFault,
        }
    }
    Status::Done
}
