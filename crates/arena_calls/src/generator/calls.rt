// Makes the calls.
ghost use Rattle.std.specs.Prelude.{◌≡◌};
ghost use Rattle.call_rules.specs.declared.calls.Call.{Call};
ghost use Rattle.call_rules.specs.Generator.{next_seed, drawn, size_in, align_in, fill_in, call_at, seed_behind};

use call_rules::Call;
use short_bytes::Bytes;
use std::alloc::Global;

// One call in this many frees all blocks: the last one.
const TURN: usize = 65_536;

// The block that a second number describes.
#[derive(Clone, Copy)]
struct Wanted {
    size: u64,
    align: u64,
    fill: u8,
}

// The seed after this one.
fn after(seed: u64) -> u64
    ensures { result ≡ next_seed seed }
{
    seed.wrapping_mul(6_364_136_223_846_793_005)
        .wrapping_add(1_442_695_040_888_963_407)
}

fn block_from(q: u64) -> Wanted
    ensures { result ≡ record { size = size_in q; align = align_in q; fill = fill_in q } }
{
    Wanted {
        size: q % 512,
        align: 1 << (q / 512 % 5),
        fill: (q / 4096 % 256) as u8,
    }
}

/// Draws numbers one after another, and makes calls of them. No call takes memory: one that writes has one byte. The
/// next seed is computed before it is needed, since the machine would wait for it.
#[derive(Drop)]
pub struct Draws {
    alloc: Global,
    seed: u64,
    next: u64,
    ghost ahead: { next ≡ next_seed seed },
}

impl Draws {
    /// Returns the draws from this seed on.
    pub fn new(alloc: Global, seed: u64) -> Draws
        ensures { result.seed ≡ seed }
    {
        Draws {
            alloc,
            seed,
            next: after(seed),
        }
    }

    // Draws a number, given the seed two steps further.
    fn draw_before(&mut self, second: u64) -> u64
        requires { second ≡ next_seed (next_seed self.old.seed) }
        ensures seed { self.new.seed ≡ next_seed self.old.seed }
        ensures value { result ≡ drawn self.old.seed }
    {
        self.seed = self.next;
        self.next = second;
        self.seed >> 33
    }

    // A call that places a block.
    fn alloc(&mut self, name: u32, second: u64) -> Call
        requires { second ≡ next_seed (next_seed self.old.seed) }
        ensures seed { self.new.seed ≡ next_seed self.old.seed }
        ensures call { result ≡ Call.Alloc name (size_in (drawn self.old.seed)) (align_in (drawn self.old.seed))
            (fill_in (drawn self.old.seed)) }
    {
        let Wanted { size, align, fill } = block_from(self.draw_before(second));
        Call::Alloc {
            name,
            size,
            align,
            fill,
        }
    }

    /// Makes the call with this index.
    #[inline(always)]
    pub fn call(&mut self, i: usize) -> Call
        ensures call { result ≡ call_at i self.old.seed }
        ensures seed { self.new.seed ≡ seed_behind i self.old.seed }
    {
        if i % TURN == TURN - 1 {
            return Call::Reset;
        }
        let r = self.draw_before(after(self.next));
        // This is computed before the kind is known, too, though two kinds draw no second number.
        let second = after(self.next);
        let name = (r / 8 % 256) as u32;
        match r % 8 {
            // The jump to a kind can't be predicted. With an arm for each number there is just one: the compiler makes
            // a table of all.
            0 => self.alloc(name, second),
            1 => self.alloc(name, second),
            2 => self.alloc(name, second),
            3 => {
                let Wanted { size, align, fill } = block_from(self.draw_before(second));
                Call::Grow {
                    name,
                    size,
                    align,
                    fill,
                }
            }
            4 => {
                let Wanted { size, align, .. } = block_from(self.draw_before(second));
                Call::Shrink { name, size, align }
            }
            5 => Call::Dealloc { name },
            6 => {
                let q = self.draw_before(second);
                let bytes = Bytes::one(self.alloc, (q / 512 % 256) as u8);
                Call::Write {
                    name,
                    at: q % 512,
                    bytes,
                }
            }
            _ => Call::Read { name },
        }
    }
}
