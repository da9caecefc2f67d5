// An input and an output in memory.
ghost use Rattle.std.specs.Prelude.{◌≡◌, ◌+◌, ◌≤◌, ◌<◌, ◌↔◌, ◌++◌, List, length, take, drop, min, Some, []};
ghost use Rattle.std.specs.Prelude.{IfOk, IfSome, OnOk, OnErr, IsErr, Contains};
ghost use Rattle.arena_rules.specs.Causes.{counted};
ghost use Rattle.arena_calls.specs.Streams.{Takes, Writes};

use super::traits::{Failed, Input, Output};
use std::alloc::Global;

/// An input that returns its bytes, at most `step` a call, and fails the listed calls, numbered from 1.
#[derive(Drop)]
pub struct MemoryInput {
    bytes: Vec<u8>,
    at: usize,
    pub step: u32,
    pub fail: Vec<u64>,
    /// How many calls there were. The count saturates at 2^64 - 1.
    pub calls: u64,
    faults: u64,
    ghost within: { at ≤ length bytes.items },
    ghost some: { 0 < step },
}

impl MemoryInput {
    /// Returns an input of which no byte was read.
    pub fn new(_alloc: Global, bytes: Vec<u8>, step: u32, fail: Vec<u64>) -> MemoryInput
        requires { 0 < step }
        ensures left { ⟦<MemoryInput as Input>⟧.left result ≡ Some bytes.items }
        ensures faults { ⟦<MemoryInput as Input>⟧.faults result ≡ 0 }
        ensures step { result.step ≡ step }
        ensures fail { result.fail.items ≡ fail.items }
        ensures calls { result.calls ≡ 0 }
    {
        MemoryInput {
            bytes,
            at: 0,
            step,
            fail,
            calls: 0,
            faults: 0,
        }
    }
}

// Copies the piece into the front of the buffer.
fn copy_front(buffer: &mut [u8], piece: &[u8])
    requires { length piece.now ≤ length buffer.old }
    ensures { take (length piece.now) buffer.new ≡ piece.now }
{
    let count = piece.len();
    let (front, _) = buffer.split_at_mut(count);
    front.copy_from_slice(piece);
}

// At most this many bytes from a place on.
fn part(bytes: &[u8], at: usize, most: usize) -> &[u8]
    requires { at ≤ length bytes.now }
    ensures front { drop at bytes.now ≡ result.now ++ drop (at + length result.now) bytes.now }
    ensures count { length result.now ≡ min most (length (drop at bytes.now)) }
    ensures within { at + length result.now ≤ length bytes.now }
    ensures none { length result.now ≡ 0 → 0 < most → at ≡ length bytes.now }
{
    let count = (bytes.len() - at).min(most);
    &bytes[at..at + count]
}

impl Input for MemoryInput {
    ghost left = { λ m. Some (drop m.at m.bytes.items) };

    ghost faults = { λ m. m.faults };

    fn read(&mut self, buffer: &mut [u8]) -> Result<usize, Failed>
        ensures bytes { let left = ⟦<MemoryInput as Input>⟧.left in
            IfOk result (λ n. Takes (left self.old) (left self.new) (take n buffer.new)) }
        ensures same { let left = ⟦<MemoryInput as Input>⟧.left in
            OnErr result (left self.new ≡ left self.old) }
        ensures no_fault { let faults = ⟦<MemoryInput as Input>⟧.faults in
            OnOk result (faults self.new ≡ faults self.old) }
        ensures one_fault { let faults = ⟦<MemoryInput as Input>⟧.faults in
            OnErr result (faults self.new ≡ counted (faults self.old) 1) }
        ensures count { let left = ⟦<MemoryInput as Input>⟧.left in
            IfOk result (λ n. IfSome (left self.old) (λ all.
            n ≡ min (min (length buffer.old) self.old.step) (length all))) }
        ensures listed { IsErr result ↔ Contains self.old.fail.items self.new.calls }
        ensures calls { self.new.calls ≡ counted self.old.calls 1 }
        ensures fail { self.new.fail.items ≡ self.old.fail.items }
        ensures step { self.new.step ≡ self.old.step }
    {
        self.calls = self.calls.saturating_add(1);
        if self.fail.contains(&self.calls) {
            self.faults = self.faults.saturating_add(1);
            return Err(Failed);
        }
        let most = buffer.len().min(self.step as usize);
        let piece = part(self.bytes.as_slice(), self.at, most);
        let count = piece.len();
        copy_front(buffer, piece);
        self.at += count;
        Ok(count)
    }
}

/// An output that takes at most `step` bytes a call. It fails the listed calls, numbered from 1, and those for which
/// memory runs out.
#[derive(Drop)]
pub struct MemoryOutput {
    bytes: Vec<u8>,
    pub step: u32,
    pub fail: Vec<u64>,
    /// How many calls there were. The count saturates at 2^64 - 1.
    pub calls: u64,
    faults: u64,
    ghost some: { 0 < step },
}

impl MemoryOutput {
    /// Returns an output to which nothing was written.
    pub fn new(alloc: Global, step: u32, fail: Vec<u64>) -> MemoryOutput
        requires { 0 < step }
        ensures written { ⟦<MemoryOutput as Output>⟧.written result ≡ Some [] }
        ensures faults { ⟦<MemoryOutput as Output>⟧.faults result ≡ 0 }
        ensures step { result.step ≡ step }
        ensures fail { result.fail.items ≡ fail.items }
        ensures calls { result.calls ≡ 0 }
    {
        MemoryOutput {
            bytes: Vec::new(alloc),
            step,
            fail,
            calls: 0,
            faults: 0,
        }
    }

    /// Returns what was written.
    pub fn bytes(&self) -> &[u8]
        ensures { ⟦<MemoryOutput as Output>⟧.written self.now ≡ Some result.now }
    {
        self.bytes.as_slice()
    }
}

impl Output for MemoryOutput {
    ghost written = { λ m. Some m.bytes.items };

    ghost faults = { λ m. m.faults };

    fn write(&mut self, piece: &[u8]) -> Result<usize, Failed>
        ensures some { IfOk result (λ n. 0 < length piece.now → 0 < n) }
        ensures within { IfOk result (λ n. n ≤ length piece.now) }
        ensures bytes { let written = ⟦<MemoryOutput as Output>⟧.written in
            IfOk result (λ n. Writes (written self.old) (written self.new) (take n piece.now)) }
        ensures same { let written = ⟦<MemoryOutput as Output>⟧.written in
            OnErr result (written self.new ≡ written self.old) }
        ensures no_fault { let faults = ⟦<MemoryOutput as Output>⟧.faults in
            OnOk result (faults self.new ≡ faults self.old) }
        ensures one_fault { let faults = ⟦<MemoryOutput as Output>⟧.faults in
            OnErr result (faults self.new ≡ counted (faults self.old) 1) }
        ensures count { IfOk result (λ n. n ≡ min (length piece.now) self.old.step) }
        // A call that isn't listed fails only for lack of memory.
        ensures listed { Contains self.old.fail.items self.new.calls → IsErr result }
        ensures calls { self.new.calls ≡ counted self.old.calls 1 }
        ensures fail { self.new.fail.items ≡ self.old.fail.items }
        ensures step { self.new.step ≡ self.old.step }
    {
        self.calls = self.calls.saturating_add(1);
        let count = piece.len().min(self.step as usize);
        if self.fail.contains(&self.calls)
            || self.bytes.extend_from_slice(&piece[..count]).is_err()
        {
            self.faults = self.faults.saturating_add(1);
            return Err(Failed);
        }
        Ok(count)
    }
}
