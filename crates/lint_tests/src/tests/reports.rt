// Tests of where an input is split into sources, and of the lines of reports. Expected values are worked out by hand
// from the format.
use super::{Rt, same_at};
use lint_reports::{FileReport, put_report, sources_of};
use std::alloc::Global;
use std::test::Fail;

// Inputs, and their sources, separated by bars.
const INPUTS: &[(&str, &str)] = &[
    ("", ""),
    ("a;\n", "a;\n"),
    ("%%", "|"),
    ("%%\n", "|"),
    ("a;\n%%\nb;", "a;\n|b;"),
    ("a;\n%%\n%%\nb;\n", "a;\n||b;\n"),
    ("a;\n%% \nb;", "a;\n%% \nb;"),
    ("a;\r\n%%\r\nb;\r\n", "a;\r\n%%\r\nb;\r\n"),
    ("%%%\n%\n%", "%%%\n%\n%"),
];

// Checks the lines of a report, as that of source 0.
pub(super) fn reported(rt: &impl Rt, report: &FileReport, lines: &str) {
    let mut text = Vec::new(rt.alloc());
    put_report(&mut text, 0, report).ok().expect(rt, "memory");
    same_at(rt, lines, text.as_slice(), lines.as_bytes());
}

// Returns the sources of an input, separated by bars.
fn cut(alloc: Global, input: &str) -> Result<Vec<u8>, Fail> {
    let mut text = Vec::new(alloc);
    let mut first = true;
    for source in sources_of(alloc, input.as_bytes())? {
        if !first {
            text.push(b'|')?;
        }
        first = false;
        text.extend_from_slice(source.as_slice())?;
    }
    Ok(text)
}

#[test]
fn inputs_are_cut_at_marks(rt: HostRuntime) -> Result<(), Fail> {
    for (input, sources) in INPUTS {
        let found = cut(rt.alloc(), input)?;
        same_at(&rt, *input, found.as_slice(), sources.as_bytes());
    }
    Ok(())
}

#[test]
fn a_far_place_and_want_of_memory(rt: HostRuntime) {
    let far = FileReport::Syntax { at: u64::MAX };
    reported(
        &rt,
        &far,
        "source 0\nsyntax error at 18446744073709551615\n",
    );
    reported(&rt, &FileReport::OutOfMemory, "source 0\nout of memory\n");
}
