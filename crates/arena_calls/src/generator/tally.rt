// Counts replies, and keeps none.
ghost use Rattle.std.specs.Prelude.{◌≡◌, ◌*◌, ◌^◌, ◌≤◌, length, sum};

use arena_rules::OutOfMemory;
use arena_runs::Replies;
use call_rules::Reply;

// The sum of this many bytes fits in 16 bits, and the compiler adds them all at once.
const PIECE: usize = 32;

fn sum_of_piece(bytes: &[u8]) -> u16
    requires { length bytes.now ≤ 256 }
    ensures value { result ≡ sum bytes.now }
    ensures small { result ≤ 255 * length bytes.now }
{
    let mut total = 0;
    for b in bytes {
        total += u16::from(*b);
    }
    total
}

fn sum_of(bytes: &[u8]) -> u128
    ensures value { result ≡ sum bytes.now }
    ensures small { result ≤ 255 * length bytes.now }
{
    let mut total = 0;
    let mut rest = bytes;
    'pieces: while rest.len() > PIECE {
        let (piece, behind) = rest.split_at(PIECE);
        total += u128::from(sum_of_piece(piece));
        rest = behind;
    }
    total + u128::from(sum_of_piece(rest))
}

/// The tally of the replies so far: the first six numbers of a `Summary`.
// A slice has fewer than 2^64 bytes, so no sum is too great for its type.
#[derive(Drop)]
pub struct Tally {
    pub calls: u32,
    pub placed: u32,
    pub failed: u32,
    pub other: u32,
    pub bytes: u128,
    pub byte_sum: u128,
    pub ghost fewer_placed: { placed ≤ calls },
    pub ghost fewer_failed: { failed ≤ calls },
    pub ghost fewer_other: { other ≤ calls },
    pub ghost least_bytes: { bytes ≤ calls * 2 ^ 64 },
    pub ghost least_sum: { byte_sum ≤ calls * 2 ^ 72 },
}

impl Tally {
    ghost use Rattle.std.specs.Prelude.{[]};
    ghost use Rattle.arena_calls.specs.Tallies.{IsTally};

    /// Returns the tally of no replies.
    pub fn new() -> Tally
        ensures { IsTally result [] }
    {
        Tally {
            calls: 0,
            placed: 0,
            failed: 0,
            other: 0,
            bytes: 0,
            byte_sum: 0,
        }
    }
}

impl Replies for Tally {
    ghost use Rattle.std.specs.Prelude.{◌-◌};
    ghost use Rattle.arena_calls.specs.Tallies.{IsTally};

    ghost has_taken = { IsTally };

    ghost room = { λ a. 2 ^ 32 - 1 - a.calls };

    fn reserve(&mut self, count: usize) -> Result<(), OutOfMemory> {
        if count > (u32::MAX - self.calls) as usize {
            return Err(OutOfMemory);
        }
        Ok(())
    }

    fn take(&mut self, reply: Reply) {
        self.calls += 1;
        match reply {
            Reply::Placed { .. } => self.placed += 1,
            Reply::AllocErr { .. } => self.failed += 1,
            Reply::NoSuchName | Reply::NameTaken | Reply::BadLayout | Reply::OutOfRange => {
                self.other += 1;
            }
            Reply::Done | Reply::Number(_) => {}
            // Where the compiler knows that nothing is to be freed, it makes no reply in memory.
            Reply::Bytes(_) => unreachable!(),
        }
    }

    fn take_bytes(&mut self, bytes: &[u8], _left: usize) -> Result<(), OutOfMemory> {
        self.calls += 1;
        self.bytes += bytes.len() as u128;
        self.byte_sum += sum_of(bytes);
        Ok(())
    }
}
