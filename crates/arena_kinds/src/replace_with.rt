// Replacing values by what is made of them.
use crate::dummy::Dummy;
use arena_items::{Box, BoxSlice, Item};
use arena_vec::Vec;
use core::mem;

/// A value that can be replaced by one that is made of it.
pub trait ReplaceWith: Dummy {
    /// Replaces the value by what the closure makes of it. Only the closure itself may place anything in an arena.
    final fn replace_with<F: FnOnce(Self) -> Self>(&mut self, replacer: F)
        requires { F.pre replacer self.old }
        ensures { F.post replacer self.old self.new }
    {
        mem::replace_with(
            self,
            replacer,
            |value: Self, replacer: F| -> (Self, ())
                requires { F.pre replacer value }
                ensures { F.post replacer value result.0 }
            { (replacer(value), ()) },
        );
    }
}

impl<T: ReplaceWith> ReplaceWith for Option<T> {}

impl<T: Dummy + Item> ReplaceWith for Box<T> {}

impl<T: Item> ReplaceWith for BoxSlice<T> {}

impl<T: Item> ReplaceWith for Vec<T> {}
