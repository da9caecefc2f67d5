// What takes findings as they are found.
use crate::findings::Findings;
use crate::printing::put_finding;
use arena_rules::OutOfMemory;
use line_parts::make_room;
use short_bytes::Bytes;
use std::alloc::Global;
use tree_rules::FindKind;

/// What takes findings, one after another: a list of them, or a text of their lines.
pub trait TakesFindings {
    ghost use Rattle.std.specs.Prelude.{[], ◌∷◌, OnOk};
    ghost use Rattle.tree_rules.specs.Report.{finding};
    ghost use Rattle.lint_reports.specs.Taking.{Taking};

    // What it has taken from one state to another.
    ghost taking: { Taking Self };

    /// Takes a finding.
    ///
    /// # Errors
    ///
    /// Out of memory.
    fn take(&mut self, alloc: Global, kind: FindKind, name: &[u8]) -> Result<(), OutOfMemory>
        ensures { OnOk result (taking.gains self.old self.new (finding kind name.now ∷ [])) };
}

impl TakesFindings for Findings {
    ghost use Rattle.lint_reports.specs.Taking.{listed};

    ghost taking = { listed };

    fn take(&mut self, alloc: Global, kind: FindKind, name: &[u8]) -> Result<(), OutOfMemory> {
        let name = Bytes::of(alloc, name)?;
        self.push(kind, name)
    }
}

impl TakesFindings for Vec<u8> {
    ghost use Rattle.lint_reports.specs.Taking.{in_lines};

    ghost taking = { in_lines };

    fn take(&mut self, _alloc: Global, kind: FindKind, name: &[u8]) -> Result<(), OutOfMemory> {
        make_room(self, name.len().checked_add(11).ok_or(OutOfMemory)?)?;
        put_finding(self, kind, name);
        Ok(())
    }
}
