// The numbers of a bit set in order.
ghost use Rattle.std.specs.Prelude.{◌≡◌, ◌+◌, ◌-◌, ◌*◌, ◌/◌, ◌^◌, ◌<◌, ◌≤◌, ⊤, [], ◌∷◌, Some, IfSome, length};
ghost use Rattle.std.specs.Option.{MatchOption};
ghost use Rattle.std.specs.Iterator.{YieldsFirst, UpTo, at_most, item_count};
ghost use Rattle.std.specs.Iterator.SizeHint.{IsWithinCount};
ghost use Rattle.arena_bits.specs.Bits.{bits_of, members};
ghost use Rattle.arena_bits.specs.Sets.{IsSetIn, set_of};
ghost use Rattle.arena_bits.specs.Walks.{IsScan, Goes, Moves, words_in};

use crate::set::BitSet;
use crate::words::{first_word, word_at};
use arena_chunks::{Allocator, ChunkSource};
use std::marker::{Model, PhantomData};

// A place in a walk over words: the first number of a word, what is left of the word, and the place after the
// last number that was given.
#[derive(Clone, Copy)]
pub(crate) struct Scan {
    pub(crate) base: u64,
    pub(crate) rest: u64,
    pub(crate) front: u64,
}

/// The numbers of a bit set that are below its capacity, ascending.
#[derive(Drop)]
pub struct Ones<'a, C: ChunkSource> {
    bytes: &'a [u8],
    capacity: u64,
    scan: Scan,
    // The source of the arena's chunks, which isn't used.
    of: PhantomData<C>,
}

impl<'a, C: ChunkSource> Model for Ones<'a, C> {
    ghost use Rattle.std.specs.Prelude.{◌*◌, ◌/◌, ◌≤◌, length};
    ghost use Rattle.arena_bits.specs.Walks.{Walk, IsScan, words_in, walk_of};

    ghost Value = { Walk };

    ghost view = { λ s. walk_of s.bytes.now s.capacity s.scan };

    ghost invariant = { λ s. IsScan (words_in s.bytes.now) s.capacity s.scan
        × (s.capacity ≤ 64 * (length s.bytes.now / 8)) };
}

// Goes on to the next word that has bits left, or to the last word.
fn load(bytes: &[u8], capacity: u64, start: Scan) -> Scan
    requires words { capacity ≤ 64 * (length bytes.now / 8) }
    requires scan { IsScan (words_in bytes.now) capacity start }
    ensures scan { IsScan (words_in bytes.now) capacity result }
    ensures same { let set = bits_of (words_in bytes.now) in
        members set result.front capacity ≡ members set start.front capacity }
    ensures last { result.rest ≡ 0 → capacity ≤ result.base + 64 }
{
    let mut scan = start;
    'words: while scan.rest == 0 && capacity - scan.base > 64 {
        let base = scan.base + 64;
        scan = Scan {
            base,
            rest: word_at(bytes, base / 64),
            front: base,
        };
    }
    scan
}

// Returns the next number, and the place after it.
#[tactic(auto, using(crate::proofs::ScanLemmas::step_laws))]
fn step(bytes: &[u8], capacity: u64, start: Scan) -> (Option<u64>, Scan)
    requires words { capacity ≤ 64 * (length bytes.now / 8) }
    requires scan { IsScan (words_in bytes.now) capacity start }
    ensures scan { IsScan (words_in bytes.now) capacity result.1 }
    ensures front { MatchOption result.0 (result.1.front ≡ capacity) (λ bit. result.1.front ≡ bit + 1) }
    ensures first { let set = bits_of (words_in bytes.now) in
        let left = members set start.front capacity in
        MatchOption result.0 (left ≡ []) (λ bit. left ≡ bit ∷ members set (bit + 1) capacity) }
{
    let scan = load(bytes, capacity, start);
    // 64 if the word has no bit left; at most 64 numbers are left then.
    let place = scan.rest.trailing_zeros() as u64;
    let left = capacity - scan.base;
    if place >= left {
        let end = Scan {
            front: capacity,
            ..scan
        };
        return (None, end);
    }
    let bit = scan.base + place;
    let next = Scan {
        rest: scan.rest & !(1 << place),
        front: bit + 1,
        ..scan
    };
    (Some(bit), next)
}

// Returns a walk from the first word on.
#[tactic(auto, using(crate::proofs::MemberLemmas::member_laws))]
fn walk<C: ChunkSource>(bytes: &[u8], capacity: u64) -> Ones<'_, C>
    requires { capacity ≤ 64 * (length bytes.now / 8) }
    ensures walk { let set = bits_of (words_in bytes.now) in
        result ≡ record { left = members set 0 capacity; front = 0; capacity = capacity } }
    ensures few { length result.left < 2 ^ 64 }
{
    let scan = Scan {
        base: 0,
        rest: first_word(bytes),
        front: 0,
    };
    Ones {
        bytes,
        capacity,
        scan,
        of: PhantomData,
    }
}

impl BitSet {
    /// Returns an iterator over the numbers below the capacity, ascending, each once.
    pub fn ones<'a, C: ChunkSource>(&self, a: &'a Allocator<C>) -> Ones<'a, C>
        requires held { IsSetIn a.now.memory self.now }
        ensures walk { let bits = self.now.capacity in result
            ≡ record { left = members (set_of a.now.memory self.now) 0 bits; front = 0; capacity = bits } }
        ensures few { length result.left < 2 ^ 64 }
    {
        walk(self.bytes(a), self.capacity)
    }
}

impl<'a, C: ChunkSource> Ones<'a, C> {
    /// Returns the next number. After the last there is none, however often it is called.
    #[inline]
    pub fn next(&mut self) -> Option<u64>
        ensures gives { YieldsFirst (λ w. w.left) self.old result self.new }
        ensures moves { Moves self.old result self.new }
    {
        let (bit, scan) = step(self.bytes, self.capacity, self.scan);
        self.scan = scan;
        bit
    }
}

impl<'a, C: ChunkSource> Iterator for Ones<'a, C> {
    type Item = u64;

    ghost next_gives = { Goes };

    ghost remaining = { item_count (λ w. w.left) };

    #[inline]
    fn next(&mut self) -> Option<u64> {
        Ones::next(self)
    }

    // At least none, and at most all numbers from the place after the last one given up to the capacity.
    #[tactic(auto, using(crate::proofs::MemberLemmas::member_laws))]
    #[inline]
    fn size_hint(&self) -> (usize, Option<usize>)
        ensures lower { IsWithinCount result.0 (at_most (length self.now.left)) }
        ensures upper { IfSome result.1 (UpTo (at_most (length self.now.left))) }
        ensures exact { result ≡ (0, Some (self.now.capacity - self.now.front)) }
    {
        (0, Some((self.capacity - self.scan.front) as usize))
    }
}
