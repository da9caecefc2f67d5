// What names hold.
ghost use Rattle.std.specs.Prelude.{◌≡◌, OnOk, OnErr};
ghost use Rattle.std.specs.Ordering.{nat_cmp};
ghost use Rattle.std.specs.Option.{option_copied};
ghost use Rattle.std.specs.FinMap as map;
ghost use Rattle.call_rules.specs.Machine as machine;

use crate::state::PlainState;
use arena_rules::{OutOfMemory, Place};
use short_bytes::Bytes;
use std::alloc::Global;
use std::collections::BTreeMap;
use std::marker::Model;

/// A map from names to values.
#[derive(Drop)]
pub(crate) struct Names<V> {
    values: BTreeMap<u32, V>,
}

impl<V> Model for Names<V> {
    ghost use Rattle.std.specs.Ordering.{nat_cmp};
    ghost use Rattle.std.specs.FinMap as map;
    ghost use Rattle.std.specs.Coded.{coded_ℕ};

    ghost Value = { map.FinMap nat_cmp V };

    ghost coded = { map.code coded_ℕ V.code };

    ghost view = { λ n. map.from_entries n.values.entries };
}

impl<V: Drop> Names<V> {
    pub(crate) fn new(alloc: Global) -> Names<V>
        ensures { result ≡ map.empty }
    {
        Names {
            values: BTreeMap::new(alloc),
        }
    }

    #[tactic(auto, using(name_map::proofs::MapLemmas::tree_get))]
    pub(crate) fn get(&self, name: u32) -> Option<&V>
        ensures { option_copied result ≡ map.get self.now name }
    {
        self.values.get(&name)
    }

    pub(crate) fn contains(&self, name: u32) -> bool
        ensures { result ≡ map.contains_key self.now name }
    {
        self.get(name).is_some()
    }

    /// Sets the value of a name. Where memory runs out, the map is unchanged.
    #[tactic(auto, using(name_map::proofs::MapLemmas::tree_insert))]
    pub(crate) fn insert(&mut self, name: u32, value: V) -> Result<(), OutOfMemory>
        ensures ok { OnOk result (self.new ≡ map.insert self.old name value) }
        ensures err { OnErr result (self.new ≡ self.old) }
    {
        self.values.insert(name, value)?;
        Ok(())
    }

    #[tactic(auto, using(name_map::proofs::MapLemmas::tree_remove))]
    pub(crate) fn remove(&mut self, name: u32)
        ensures { self.new ≡ map.remove self.old name }
    {
        self.values.remove(&name);
    }

    pub(crate) fn clear(&mut self)
        ensures { self.new ≡ map.empty }
    {
        self.values.clear();
    }
}

impl Names<Place> {
    // Whether the name's block has no bytes, or is in the used part of one chunk.
    fn is_left(&self, state: &PlainState, name: u32) -> bool
        ensures { result ≡ machine.is_left state.now self.now name }
    {
        match self.get(name) {
            Some(place) => state.is_place_used(*place),
            None => false,
        }
    }

    /// Keeps the names whose blocks have no bytes, or are in the used part of one chunk.
    pub(crate) fn keep_used(&mut self, state: &PlainState)
        ensures { self.new ≡ map.retain_keys self.old (machine.is_left state.now self.old) }
    {
        self.values.retain(|_, place| state.is_place_used(*place));
    }
}

impl Names<Bytes> {
    /// Keeps the names whose blocks have no bytes, or are in the used part of one chunk.
    pub(crate) fn keep_left(&mut self, held: &Names<Place>, state: &PlainState)
        ensures { self.new ≡ map.retain_keys self.old (machine.is_left state.now held.now) }
    {
        self.values.retain(|name, _| held.is_left(state, *name));
    }
}
