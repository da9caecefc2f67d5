// Reads all there is, and writes all of a text.
ghost use Rattle.std.specs.Prelude.{◌≡◌, ◌≤◌, OnOk, OnErr, IfOk, vec_len};
ghost use Rattle.arena_rules.specs.Causes.{counted};
ghost use Rattle.arena_calls.specs.Streams.{Writes, WritesPart};
ghost use Rattle.arena_calls.specs.ReadAll.{TakesAll, faults_after, limit};

use super::traits::{Failed, Input, Output};
use std::alloc::Global;

const LIMIT: usize = 16_777_216;

const BLOCK: usize = 65_536;

/// Why not all was read.
#[derive(Drop, Debug)]
pub enum ReadErr {
    /// A read failed.
    Failed,
    /// The input has a byte past the limit, which was taken.
    TooLong,
    /// Out of memory for the bytes.
    OutOfMemory,
}

/// Reads all bytes of the input, of which there may be at most 16,777,216.
pub fn read_all<I: Input>(alloc: Global, input: &mut I) -> Result<Vec<u8>, ReadErr>
    ensures all { TakesAll (I.left input.old) (I.left input.new) result }
    ensures kept { IfOk result (λ bytes. vec_len bytes ≤ limit) }
    ensures faults { I.faults input.new ≡ faults_after (I.faults input.old) result }
{
    let mut block = [0u8; BLOCK];
    let mut bytes = Vec::new(alloc);
    'reads: loop {
        // Past the limit one byte more shows that the input is too long.
        let room = LIMIT - bytes.len();
        let most = BLOCK.min(room + 1);
        let Ok(count) = input.read(&mut block[..most]) else {
            return Err(ReadErr::Failed);
        };
        if count == 0 {
            return Ok(bytes);
        }
        if count > room {
            return Err(ReadErr::TooLong);
        }
        if bytes.extend_from_slice(&block[..count]).is_err() {
            return Err(ReadErr::OutOfMemory);
        }
    }
}

/// Writes all of the bytes.
///
/// # Errors
///
/// A write failed. A first part of the bytes may have been written.
pub fn write_all<O: Output>(output: &mut O, bytes: &[u8]) -> Result<(), Failed>
    ensures ok { OnOk result (Writes (O.written output.old) (O.written output.new) bytes.now) }
    ensures part { OnErr result (WritesPart (O.written output.old) (O.written output.new) bytes.now) }
    ensures no_fault { OnOk result (O.faults output.new ≡ O.faults output.old) }
    ensures one_fault { OnErr result (O.faults output.new ≡ counted (O.faults output.old) 1) }
{
    let mut at = 0;
    'pieces: while at < bytes.len() {
        match output.write(&bytes[at..]) {
            Ok(count) => at += count,
            Err(failed) => return Err(failed),
        }
    }
    Ok(())
}
