// What names hold.
ghost use Rattle.std.specs.Prelude.{◌≡◌, [], length, IfOk, OnOk, OnErr};
ghost use Rattle.std.specs.Option.{option_copied};
ghost use Rattle.script_rules.specs.Objects.{get, has, bind, unbind};

use arena_rules::OutOfMemory;
use std::alloc::Global;
use std::collections::BTreeMap;
use std::marker::Model;

/// A map from names to values, which contracts see as its entries by rising names.
#[derive(Drop)]
pub(crate) struct Names<V> {
    pub(crate) values: BTreeMap<u32, V>,
}

impl<V> Model for Names<V> {
    ghost use Rattle.std.specs.Ordering.{nat_cmp};
    ghost use Rattle.std.specs.FinMap as map;
    ghost use Rattle.std.specs.Coded.{coded_ℕ, coded_list, coded×};
    ghost use Rattle.script_rules.specs.Objects.{Entries};

    ghost Value = { Entries V };

    ghost coded = { coded_list (coded× coded_ℕ V.code) };

    ghost view = { λ n. map.entries (map.from_entries {R = nat_cmp} n.values.entries) };
}

impl<V: Drop> Names<V> {
    #[tactic(auto, using(script_rules::proofs::TableLemmas::entries_none))]
    pub(crate) fn new(alloc: Global) -> Names<V>
        ensures { result ≡ [] }
    {
        Names {
            values: BTreeMap::new(alloc),
        }
    }

    #[tactic(auto, using(crate::proofs::TreeLemmas::tree_get))]
    pub(crate) fn get(&self, name: u32) -> Option<&V>
        ensures { option_copied result ≡ get self.now name }
    {
        self.values.get(&name)
    }

    /// Returns how many names hold a value.
    #[tactic(auto, using(name_map::proofs::MapLemmas::tree_entries))]
    pub(crate) fn len(&self) -> usize
        ensures { result ≡ length self.now }
    {
        self.values.len()
    }

    /// Sets the value of a name. Where memory runs out, the map is unchanged.
    #[tactic(auto, using(script_rules::proofs::TableLemmas::tree_bind))]
    pub(crate) fn insert(&mut self, name: u32, value: V) -> Result<(), OutOfMemory>
        ensures ok { OnOk result (self.new ≡ bind self.old name value) }
        ensures err { OnErr result (self.new ≡ self.old) }
    {
        self.values.insert(name, value)?;
        Ok(())
    }

    #[tactic(auto, using(crate::proofs::TreeLemmas::tree_unbind))]
    pub(crate) fn remove(&mut self, name: u32)
        ensures { self.new ≡ unbind self.old name }
    {
        self.values.remove(&name);
    }
}

impl<V: Drop + Clone> Names<V> {
    /// Returns a copy with the same names and values.
    pub(crate) fn copied(&self) -> Result<Names<V>, OutOfMemory>
        requires { (v w : V) → V.is_clone v w → w ≡ v }
        ensures { IfOk result (λ all. all ≡ self.now) }
    {
        let values = self.values.clone()?;
        Ok(Names { values })
    }
}

impl Names<()> {
    /// Returns whether a bit is in the set.
    pub(crate) fn has(&self, bit: u32) -> bool
        ensures { result ≡ has self.now bit }
    {
        self.get(bit).is_some()
    }
}
