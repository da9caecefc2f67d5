// What was found in a text.
ghost use Rattle.std.specs.Prelude.{◌≡◌, [], ◌∷◌, ◌++◌, length, OnOk, OnErr};

use arena_rules::OutOfMemory;
use short_bytes::Bytes;
use std::alloc::Global;
use std::marker::Model;
use tree_rules::{FindKind, Finding};

/// Findings in the order in which they were found, which contracts see as their list.
#[derive(Drop, Debug)]
pub struct Findings {
    items: Vec<Finding>,
}

impl Model for Findings {
    ghost use Rattle.std.specs.Prelude.{List};
    ghost use Rattle.tree_rules.specs.declared.finding.Finding.{Finding};

    ghost Value = { List Finding };

    ghost view = { λ f. f.items.items };
}

impl Findings {
    /// Returns an empty list of findings. Takes no memory.
    pub fn new(alloc: Global) -> Findings
        ensures { result ≡ [] }
    {
        Findings {
            items: Vec::new(alloc),
        }
    }

    /// Appends a finding.
    ///
    /// # Errors
    ///
    /// Out of memory. The findings are unchanged.
    pub fn push(&mut self, kind: FindKind, name: Bytes) -> Result<(), OutOfMemory>
        ensures ok { OnOk result (self.new ≡ self.old ++ record { kind = kind; name = name } ∷ []) }
        ensures err { OnErr result (self.new ≡ self.old) }
    {
        Ok(self.items.push(Finding { kind, name })?)
    }

    /// Returns the findings as a slice.
    pub fn as_slice(&self) -> &[Finding]
        ensures { result.now ≡ self.now }
    {
        self.items.as_slice()
    }

    /// Returns how many findings there are.
    pub fn len(&self) -> u64
        ensures { result ≡ length self.now }
    {
        self.items.len() as u64
    }
}
