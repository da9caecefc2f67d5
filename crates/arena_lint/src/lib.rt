//! A linter of small programs, over trees and names in a lent arena.
#![tactic(auto)]

mod all;
mod lint;
mod names;
mod parts;
mod walk;

pub use all::lint_all;
pub use arena_workers::{Gate, NoGate, Starved};
pub use lint::{lint_one, lint_text};
pub use lint_reports::{FileReport, FindKind, Finding, Findings, Source};
pub use parts::{LintErr, Linted, Linting, lint_parts};
