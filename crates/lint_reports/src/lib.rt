//! What a linter says of texts: the reports of sources, their lines, and the sources of an input.
//!
//! The definitions are in `specs/`: `Reports` defines what a report says of a source and how it is printed, and
//! `Sources` where an input is cut, `Taking` what takes findings. `tree_rules` defines what is found in a text.
#![tactic(auto)]

mod findings;
pub mod laws;
mod printing;
mod report;
mod source;
mod sources;
mod taking;

pub use findings::Findings;
pub use printing::put_report;
pub use report::FileReport;
pub use source::Source;
pub use sources::sources_of;
pub use taking::TakesFindings;
pub use tree_rules::{FindKind, Finding};
