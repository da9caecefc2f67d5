// Prints reports.
ghost use Rattle.std.specs.Prelude.{◌≡◌, ◌+◌, ◌^◌, ◌++◌, ◌∷◌, [], ◌<◌, ◌≤◌, OnOk, OnErr, length, vec_len, vec_capacity};
ghost use Rattle.std.specs.Option.{SomeIff};
ghost use Rattle.std.specs.List.{flat_map};
ghost use Rattle.line_parts.specs.Numbers.{fields, with_feed};
ghost use Rattle.tree_rules.specs.Report.{finding};
ghost use Rattle.lint_reports.specs.Reports.{report_lines, report_text, kind_word};
ghost use Rattle.lint_reports.specs.Room.{finding_room, findings_room, fed_finding};

use crate::report::FileReport;
use arena_rules::OutOfMemory;
use line_parts::{Printer, make_room, put, put_all, put_field, room_of};
use tree_rules::{FindKind, Finding};

// A size that is enough for the findings of a report, or `None` where it exceeds 64 bits. Other reports need only the
// line that each may have.
fn room_held(report: &FileReport) -> Option<usize>
    ensures { SomeIff result (findings_room report.now < 2 ^ 64) (findings_room report.now) }
{
    match report {
        FileReport::Checked(findings) => room_of(&FindingLine, findings.as_slice()),
        _ => Some(0),
    }
}

// Appends the word for a kind, and a space.
fn put_kind(out: &mut Vec<u8>, kind: FindKind)
    requires { vec_len out.old + 10 ≤ vec_capacity out.old }
    ensures items { out.new.items ≡ out.old.items ++ kind_word kind }
    ensures len { vec_len out.new ≤ vec_len out.old + 10 }
    ensures capacity { vec_capacity out.old ≤ vec_capacity out.new }
{
    match kind {
        FindKind::Undefined => put(out, b"undefined "),
        FindKind::Redefined => put(out, b"redefined "),
        FindKind::Shadowed => put(out, b"shadowed "),
    }
}

// Appends the line of a finding, with a line feed, for which there must be room: 11 bytes more than its name has.
pub(crate) fn put_finding(out: &mut Vec<u8>, kind: FindKind, name: &[u8])
    requires { vec_len out.old + (length name.now + 11) ≤ vec_capacity out.old }
    ensures items { out.new.items ≡ out.old.items ++ fed_finding (finding kind name.now) }
    ensures len { vec_len out.new ≤ vec_len out.old + (length name.now + 11) }
    ensures capacity { vec_capacity out.old ≤ vec_capacity out.new }
{
    put_kind(out, kind);
    put(out, name);
    put(out, b"\n");
}

// Prints a finding as its line, with a line feed.
struct FindingLine;

impl Printer<Finding> for FindingLine {
    ghost room = { finding_room };

    ghost text = { fed_finding };

    fn room(&self, finding: &Finding) -> Option<usize> {
        finding.name.as_slice().len().checked_add(11)
    }

    fn put(&self, out: &mut Vec<u8>, finding: &Finding) {
        put_finding(out, finding.kind, finding.name.as_slice());
    }
}

// Appends a line that ends with a number, for which there is room.
fn put_at(out: &mut Vec<u8>, words: &[u8], at: u64)
    requires { vec_len out.old + length words.now + 22 ≤ vec_capacity out.old }
    ensures len { vec_len out.new ≤ vec_len out.old + length words.now + 22 }
    ensures capacity { vec_capacity out.old ≤ vec_capacity out.new }
    ensures items { out.new.items ≡ out.old.items ++ with_feed (words.now ++ fields (at ∷ [])) }
{
    put(out, words);
    put_field(out, at);
    put(out, b"\n");
}

// Appends the lines of a report after the one of its source.
#[tactic(auto, using(crate::proofs::ReportLemmas::finding_lines))]
fn put_lines(out: &mut Vec<u8>, report: &FileReport)
    requires { vec_len out.old + (findings_room report.now + 39) ≤ vec_capacity out.old }
    ensures { out.new.items ≡ out.old.items ++ flat_map with_feed (report_lines report.now) }
{
    match report {
        FileReport::Checked(findings) => put_all(&FindingLine, out, findings.as_slice()),
        FileReport::Syntax { at } => put_at(out, b"syntax error at", *at),
        FileReport::TooDeep { at } => put_at(out, b"too deep at", *at),
        FileReport::NumberTooBig { at } => put_at(out, b"number too big at", *at),
        FileReport::Full => put(out, b"full\n"),
        FileReport::Refused => put(out, b"refused\n"),
        FileReport::OutOfMemory => put(out, b"out of memory\n"),
    }
}

/// Appends the lines of the report of source number `i`. Reserves memory once.
///
/// # Errors
///
/// Out of memory. The text is unchanged.
pub fn put_report(out: &mut Vec<u8>, i: u64, report: &FileReport) -> Result<(), OutOfMemory>
    ensures ok { OnOk result (out.new.items ≡ out.old.items ++ report_text i report.now) }
    ensures err { OnErr result (out.new.items ≡ out.old.items) }
{
    // The line of its source has at most 28 bytes, and one that has a number 39.
    let room = room_held(report).ok_or(OutOfMemory)?;
    make_room(out, room.checked_add(67).ok_or(OutOfMemory)?)?;
    put_at(out, b"source", i);
    put_lines(out, report);
    Ok(())
}
