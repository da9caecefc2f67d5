// The debug text.
ghost use Rattle.std.specs.Prelude.{◌≡◌, ◌^◌, ◌≤◌, IfOk, IfSome, codes, string_bytes};
ghost use Rattle.std.specs.Fmt.{debug_variant, debug_list};
ghost use Rattle.arena_vec.specs.Vecs.{IsVecIn, vec_list};

use crate::vec::Vec;
use arena_chunks::{Allocator, ChunkSource, OutOfMemory};
use arena_items::Item;
use std::alloc::{AllocError, Global};
use std::fmt::Debug;

impl<T: Item + Debug> Vec<T> {
    // Returns the text, with std's error.
    fn text<C: ChunkSource>(&self, alloc: Global, a: &Allocator<C>) -> Result<String, AllocError>
        requires small { T.SIZE ≤ 2 ^ 24 }
        requires held { IsVecIn T.Item a.now.memory self.now }
        ensures { let text = debug_list T.debug_output (vec_list T.Item a.now.memory self.now) in
            IfOk result (λ s. IfSome (debug_variant (codes "Vec") text) (λ bytes. string_bytes s ≡ bytes)) }
    {
        let mut out = String::from_str(alloc, "Vec([")?;
        for i in 0..self.raw.len {
            let lead = if 0 < i { ", " } else { "" };
            let value = self.get(a, i);
            write!(out, "{lead}{value:?}")?;
        }
        out.push_str("])")?;
        Ok(out)
    }

    /// Returns the debug text of the values, as in `Vec([1, 2])`.
    ///
    /// # Errors
    ///
    /// `OutOfMemory` if there is no memory for the text, or if a value's own text fails.
    pub fn debug<C: ChunkSource>(
        &self,
        alloc: Global,
        a: &Allocator<C>,
    ) -> Result<String, OutOfMemory>
        requires small { T.SIZE ≤ 2 ^ 24 }
        requires held { IsVecIn T.Item a.now.memory self.now }
        ensures { let text = debug_list T.debug_output (vec_list T.Item a.now.memory self.now) in
            IfOk result (λ s. IfSome (debug_variant (codes "Vec") text) (λ bytes. string_bytes s ≡ bytes)) }
    {
        match self.text(alloc, a) {
            Ok(text) => Ok(text),
            Err(_) => Err(OutOfMemory),
        }
    }
}
