// The texts of outcomes, which the workers make.
ghost use Rattle.std.specs.Prelude.{◌≡◌, IfOk};
ghost use Rattle.arena_program.specs.Rendering.{rendered_text};

use arena_chunks::OutOfMemory;
use lint_reports::{FileReport, put_report};
use script_lines::put_outcome;
use script_rules::Outcome;
use std::alloc::Global;

/// An outcome that has a text, by the number of its piece of work.
pub trait Render {
    ghost use Rattle.std.specs.Prelude.{ℕ, List, ◌≡◌, ◌++◌, OnOk};

    // The text of the outcome of the piece of this number.
    ghost text: { ℕ → Self → List ℕ };

    /// Appends its text.
    fn put(&self, out: &mut Vec<u8>, i: u64) -> Result<(), OutOfMemory>
        ensures { OnOk result (out.new.items ≡ out.old.items ++ text i self.now) };
}

impl Render for Outcome {
    ghost use Rattle.arena_program.specs.Rendering.{script_text};

    ghost text = { script_text };

    fn put(&self, out: &mut Vec<u8>, i: u64) -> Result<(), OutOfMemory> {
        put_outcome(out, i, self)
    }
}

impl Render for FileReport {
    ghost use Rattle.lint_reports.specs.Reports.{report_text};

    ghost text = { report_text };

    fn put(&self, out: &mut Vec<u8>, i: u64) -> Result<(), OutOfMemory> {
        put_report(out, i, self)
    }
}

/// An outcome that a worker has rendered, or couldn't.
#[derive(Drop)]
pub enum Rendered<O> {
    /// Its text, and whether it says that an arena refused.
    Text { bytes: Vec<u8>, refused: bool },
    /// The outcome, where the piece wasn't begun or there was no memory for the text.
    Unrendered(O),
}

impl<O: Render + Drop> Rendered<O> {
    /// Returns the text of the outcome of the piece of this number.
    ///
    /// # Errors
    ///
    /// Out of memory for a text that no worker made.
    pub fn into_text(self, alloc: Global, i: u64) -> Result<Vec<u8>, OutOfMemory>
        ensures { IfOk result (λ text. text.items ≡ rendered_text O.text i self) }
    {
        match self {
            Rendered::Text { bytes, .. } => Ok(bytes),
            Rendered::Unrendered(outcome) => {
                let mut text = Vec::new(alloc);
                outcome.put(&mut text, i)?;
                Ok(text)
            }
        }
    }
}
