// What names hold.
ghost use Rattle.std.specs.Prelude.{◌≡◌, ◌^◌, ◌<◌, [], OnOk, OnErr, IfOk, IsSome, IsOk};
ghost use Rattle.script_rules.specs.Objects.{get, bind, unbind};

use arena_rules::OutOfMemory;
use name_map::Names as Table;
use std::alloc::Global;
use std::marker::Model;

/// A table of the values of names, which contracts see as its entries by rising names.
#[derive(Drop)]
pub struct Names<V> {
    values: Table<V>,
}

impl<V> Model for Names<V> {
    ghost use Rattle.std.specs.FinMap as map;
    ghost use Rattle.std.specs.Coded.{coded_ℕ, coded_list, coded×};
    ghost use Rattle.script_rules.specs.Objects.{Entries};

    ghost Value = { Entries V };

    ghost coded = { coded_list (coded× coded_ℕ V.code) };

    ghost view = { λ n. map.entries n.values };
}

impl<V: Copy> Names<V> {
    /// Returns a table with no names. Takes no memory.
    #[tactic(auto, using(crate::proofs::TableLemmas::name_laws))]
    pub fn new(alloc: Global) -> Names<V>
        ensures { result ≡ [] }
    {
        Names {
            values: Table::new(alloc),
        }
    }

    /// Sets the value of a name, replacing the old one. Never fails for a name that has a value.
    ///
    /// # Errors
    ///
    /// Out of memory. The table is unchanged.
    #[tactic(auto, using(crate::proofs::TableLemmas::name_laws))]
    pub fn insert(&mut self, name: u32, value: V) -> Result<(), OutOfMemory>
        ensures ok { OnOk result (self.new ≡ bind self.old name value) }
        ensures err { OnErr result (self.new ≡ self.old) }
        ensures held { IsSome (get self.old name) → IsOk result }
        ensures range { name < 2 ^ 32 }
    {
        self.values.insert(name, value)?;
        Ok(())
    }

    /// Removes a name. Takes no memory.
    #[tactic(auto, using(crate::proofs::TableLemmas::name_laws))]
    pub fn remove(&mut self, name: u32)
        ensures { self.new ≡ unbind self.old name }
    {
        self.values.remove(name);
    }

    /// Returns the value of a name, if it has one.
    #[tactic(auto, using(crate::proofs::TableLemmas::name_laws))]
    pub fn get(&self, name: u32) -> Option<V>
        ensures { result ≡ get self.now name }
    {
        self.values.get(name)
    }

    /// Returns the names and their values, by ascending name.
    ///
    /// # Errors
    ///
    /// Out of memory.
    pub fn entries(&self, alloc: Global) -> Result<Vec<(u32, V)>, OutOfMemory>
        ensures { IfOk result (λ all. all.items ≡ self.now) }
    {
        self.values.entries(alloc)
    }
}
