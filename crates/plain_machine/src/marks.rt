// Marks, and going back to one.
#![tactic(auto, unfolding(call_rules::specs::Machine::step))]

ghost use Rattle.std.specs.Prelude.{◌≡◌, ℕ, IfOk, IfNone};
ghost use Rattle.std.specs.Option.{is_some};
ghost use Rattle.arena_rules.specs.Back.{first_chunks, raised};
ghost use Rattle.call_rules.specs.Machine as machine;
ghost use Rattle.call_rules.specs.declared.calls.Call.TheVariants.{Mark, Back};
ghost use Rattle.plain_machine.specs.Answers.{gives};

use crate::chunk::PlainChunk;
use crate::machine::PlainMachine;
use crate::unasked::unasked;
use arena_rules::OutOfMemory;
use call_rules::Reply;
use std::marker::Model;

/// How many chunks there were, and the cursor.
#[derive(Clone, Copy)]
pub(crate) struct PlainPoint {
    pub(crate) chunks: u64,
    pub(crate) cursor: u64,
}

impl Model for PlainPoint {
    ghost use Rattle.arena_rules.specs.Back.{Point};

    ghost Value = { Point };

    ghost view = { λ p. record { chunks = p.chunks; cursor = p.cursor } };

    ghost inverse = { λ p. record { chunks = p.chunks; cursor = p.cursor } };
}

impl PlainMachine {
    pub(crate) fn mark(&mut self, name: u32, refused: u32) -> Result<Option<Reply>, OutOfMemory>
        ensures step { IfOk result (λ reply. gives self.new reply
            ≡ machine.step (Mark name) refused self.old) }
        ensures none { IfOk result (λ reply. IfNone reply (self.new ≡ self.old)) }
    {
        if mark_named(&self.marks, name).is_some() {
            return Ok(unasked(refused, Reply::NameTaken));
        }
        if refused > 0 {
            return Ok(None);
        }
        let mark = self.state.mark();
        self.marks.insert(0, (name, mark))?;
        Ok(Some(Reply::Done))
    }

    pub(crate) fn back(&mut self, name: u32, refused: u32) -> Option<Reply>
        ensures step { gives self.new result ≡ machine.step (Back name) refused self.old }
        ensures none { IfNone result (self.new ≡ self.old) }
    {
        let Some(mark) = mark_named(&self.marks, name) else {
            return unasked(refused, Reply::NoSuchName);
        };
        if refused > 0 {
            return None;
        }
        self.state.back(mark);
        self.bytes.keep_left(&self.held, &self.state);
        self.held.keep_used(&self.state);
        keep_to(&mut self.marks, name);
        Some(Reply::Done)
    }
}

fn mark_named(marks: &[(u32, PlainPoint)], name: u32) -> Option<PlainPoint>
    ensures { result ≡ machine.mark_named marks.now name }
{
    let mut i = 0;
    while i < marks.len() {
        if marks[i].0 == name {
            return Some(marks[i].1);
        }
        i += 1;
    }
    None
}

// Removes the marks that are newer than the name's.
fn keep_to(marks: &mut Vec<(u32, PlainPoint)>, name: u32)
    ensures { marks.new.items ≡ machine.marks_to marks.old.items name }
{
    while let Some(mark) = marks.first() {
        if mark.0 == name {
            return;
        }
        marks.remove(0);
    }
}

// Keeps the `n` oldest chunks.
#[tactic(auto, using(crate::proofs::MarkLemmas::one_chunk_less))]
pub(crate) fn keep_first(chunks: &mut Vec<PlainChunk>, n: u64)
    ensures { chunks.new.items ≡ first_chunks n chunks.old.items }
{
    while chunks.len() as u64 > n {
        chunks.remove(0);
    }
}

// Raises the newest cursor to this address, if it is below.
pub(crate) fn raise(chunks: &mut Vec<PlainChunk>, addr: u64)
    ensures { chunks.new.items ≡ raised addr chunks.old.items }
{
    if let Some(newest) = chunks.first_mut() {
        newest.cursor = newest.cursor.max(addr);
    }
}
