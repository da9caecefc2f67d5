// What names hold.
ghost use Rattle.std.specs.Prelude.{◌≡◌, ℕ, ◌<◌, ◌≤◌, ◌++◌, None, length, replicate, OnOk, OnErr, IfOk, IsSome, IsOk};
ghost use Rattle.std.specs.Ordering.{nat_cmp};
ghost use Rattle.std.specs.FinMap as map;

use arena_rules::OutOfMemory;
use std::alloc::Global;
use std::collections::BTreeMap;
use std::marker::Model;

// The names below this number have an entry in a list.
const FIRST: usize = 256;

/// A map from names to values, on the host's heap. The values of names below 256 are in a list, those of others in a
/// tree: a look-up or a change takes at most logarithmic time, whatever the names are. A hash table could be made slow
/// by a caller that chooses the names.
#[derive(Drop)]
pub struct Names<V> {
    // By name. Grows to at most 256 entries.
    first: Vec<Option<V>>,
    others: BTreeMap<u32, V>,
}

impl<V> Model for Names<V> {
    ghost use Rattle.std.specs.Prelude.{◌≤◌, length};
    ghost use Rattle.std.specs.Ordering.{nat_cmp};
    ghost use Rattle.std.specs.FinMap as map;
    ghost use Rattle.std.specs.Coded.{coded_ℕ};
    ghost use Rattle.name_map.specs.Names.{named_with, HasNoneBelow};

    ghost Value = { map.FinMap nat_cmp V };

    ghost coded = { map.code coded_ℕ V.code };

    ghost view = { λ n. named_with 0 n.first.items (map.from_entries n.others.entries) };

    ghost invariant = { λ n. (length n.first.items ≤ 256) × HasNoneBelow 256 (map.from_entries n.others.entries) };
}

impl<V: Copy> Names<V> {
    /// Returns a map with no names. Takes no memory.
    pub fn new(alloc: Global) -> Names<V>
        ensures { result ≡ map.empty }
    {
        Names {
            first: Vec::new(alloc),
            others: BTreeMap::new(alloc),
        }
    }

    /// Returns the value of a name, if it has one.
    #[inline(always)]
    pub fn get(&self, name: u32) -> Option<V>
        ensures { result ≡ map.get self.now name }
    {
        let at = name as usize;
        if at < self.first.len() {
            return self.first[at];
        }
        self.others.get(&name).copied()
    }

    /// Sets the value of a name, replacing the old one. Never fails for a name that has a value.
    ///
    /// # Errors
    ///
    /// Out of memory. The map is unchanged.
    #[inline(always)]
    pub fn insert(&mut self, name: u32, value: V) -> Result<(), OutOfMemory>
        ensures ok { OnOk result (self.new ≡ map.insert self.old name value) }
        ensures err { OnErr result (self.new ≡ self.old) }
        ensures held { IsSome (map.get self.old name) → IsOk result }
    {
        let at = name as usize;
        if at < self.first.len() {
            self.first[at] = Some(value);
            return Ok(());
        }
        if at >= FIRST {
            self.others.insert(name, value)?;
            return Ok(());
        }
        lengthen(&mut self.first, at)?;
        self.first[at] = Some(value);
        Ok(())
    }

    /// Removes a name, and returns its value if it had one. Takes no memory.
    #[inline(always)]
    pub fn remove(&mut self, name: u32) -> Option<V>
        ensures value { result ≡ map.get self.old name }
        ensures rest { self.new ≡ map.remove self.old name }
    {
        let at = name as usize;
        if at < self.first.len() {
            let value = self.first[at];
            self.first[at] = None;
            return value;
        }
        self.others.remove(&name)
    }

    /// Removes all names.
    pub fn clear(&mut self, alloc: Global)
        ensures { self.new ≡ map.empty }
    {
        for at in 0..self.first.len() {
            self.first[at] = None;
        }
        self.others = BTreeMap::new(alloc);
    }

    /// Returns the names and their values, by ascending name.
    ///
    /// # Errors
    ///
    /// Out of memory.
    pub fn entries(&self, alloc: Global) -> Result<Vec<(u32, V)>, OutOfMemory>
        ensures { IfOk result (λ all. all.items ≡ map.entries self.now) }
    {
        let mut all = Vec::new(alloc);
        for at in 0..self.first.len() {
            if let Some(value) = self.first[at] {
                all.push((at as u32, value))?;
            }
        }
        for (name, value) in &self.others {
            all.push((*name, *value))?;
        }
        Ok(all)
    }
}

// Lengthens the list of first values until it has this index. At least doubles it, so that names in a row seldom do.
#[inline(never)]
fn lengthen<V: Copy>(first: &mut Vec<Option<V>>, at: usize) -> Result<(), OutOfMemory>
    requires { (length first.old.items ≤ at) × (at < 256) }
    ensures ok { OnOk result ((n : ℕ) × (first.new.items ≡ first.old.items ++ replicate n None)) }
    ensures len { OnOk result ((at < length first.new.items) × (length first.new.items ≤ 256)) }
    ensures err { OnErr result (first.new.items ≡ first.old.items) }
{
    first.resize((2 * at + 1).min(FIRST), None)?;
    Ok(())
}
