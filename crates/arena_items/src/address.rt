// Addresses.
ghost use Rattle.std.specs.Prelude.{◌≡◌, ℕ};

use crate::boxes::Box;

/// An address in an arena.
#[derive(Clone, Copy, PartialEq, Eq, Hash, Debug)]
pub struct Address(pub u64);

impl Address {
    /// No box whose value has bytes has this address.
    pub const DUMMY: Address = Address(0);
}

/// A type whose values have an address.
pub trait GetAddress {
    ghost addr: { Self → ℕ };

    /// Returns the address.
    fn address(&self) -> Address
        ensures { result.0 ≡ addr self.now };
}

impl<T> GetAddress for Box<T> {
    ghost addr = { λ b. b.block.addr };

    fn address(&self) -> Address {
        Address(self.block.addr)
    }
}

impl GetAddress for Address {
    ghost addr = { λ a. a.0 };

    fn address(&self) -> Address {
        *self
    }
}
