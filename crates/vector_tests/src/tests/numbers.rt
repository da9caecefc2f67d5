// An iterator of successive numbers, whose size hints may be higher than, lower than or equal to what it yields.
ghost use Rattle.std.specs.Prelude.{◌+◌};
ghost use Rattle.std.specs.Iterator.{at_most};

// The size hint of an iterator. The last number is the number of items that it yields.
#[derive(Drop)]
pub(super) enum Hints {
    Exactly(u32),
    AtLeast(usize, u32),
    AtMost(usize, u32),
}

impl Hints {
    // The iterator of numbers from `first`.
    pub(super) fn numbers(&self, first: u32) -> Numbers {
        let (least, most, bound, gives) = match *self {
            Hints::Exactly(n) => (n as usize, Some(n as usize), n as usize, n),
            Hints::AtLeast(least, n) => (least, None, usize::MAX, n),
            Hints::AtMost(most, n) => (0, Some(most), most, n),
        };
        Numbers {
            least,
            most,
            bound,
            first,
            gives,
            given: 0,
        }
    }

    // The iterator of numbers from `first`, which counts the items that are taken.
    pub(super) fn counting<'a>(&self, first: u32, taken: &'a mut u64) -> Counting<'a> {
        Counting {
            numbers: self.numbers(first),
            taken,
        }
    }
}

// Successive numbers, at most as many as the bound.
#[derive(Drop)]
pub(super) struct Numbers {
    least: usize,
    most: Option<usize>,
    bound: usize,
    first: u32,
    gives: u32,
    given: u32,
}

impl Iterator for Numbers {
    type Item = u32;

    ghost remaining = { λ s. at_most s.bound };

    fn next(&mut self) -> Option<u32> {
        if self.bound == 0 || self.given >= self.gives {
            return None;
        }
        let item = self.first.wrapping_add(self.given);
        self.bound -= 1;
        self.given += 1;
        Some(item)
    }

    fn size_hint(&self) -> (usize, Option<usize>) {
        let least = self.least.min(self.bound);
        match self.most {
            Some(most) => (least, Some(most.max(self.bound))),
            None => (least, None),
        }
    }
}

#[derive(Drop)]
pub(super) struct Counting<'a> {
    numbers: Numbers,
    taken: &'a mut u64,
}

impl Iterator for Counting<'_> {
    type Item = u32;

    ghost remaining = { λ s. at_most s.numbers.bound };

    fn next(&mut self) -> Option<u32> {
        let item = self.numbers.next()?;
        *self.taken = self.taken.wrapping_add(1);
        Some(item)
    }

    fn size_hint(&self) -> (usize, Option<usize>) {
        self.numbers.size_hint()
    }
}

// The numbers 5 and 6. Its hint is always at least 2^64 - 1 items, and its bound is higher.
#[derive(Drop)]
pub(super) struct FiveAndSix {
    left: u32,
}

impl FiveAndSix {
    pub(super) fn new() -> FiveAndSix {
        FiveAndSix { left: 2 }
    }
}

impl Iterator for FiveAndSix {
    type Item = u32;

    ghost remaining = { λ s. at_most (18446744073709551615 + s.left) };

    fn next(&mut self) -> Option<u32> {
        if self.left == 0 {
            return None;
        }
        self.left -= 1;
        Some(6u32.wrapping_sub(self.left))
    }

    fn size_hint(&self) -> (usize, Option<usize>) {
        (usize::MAX, None)
    }
}
