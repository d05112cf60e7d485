//! The lines that a run prints.

ghost use Rattle.std.specs.Prelude.{◌≡◌, ◌++◌, ◌<◌, ◌^◌, [], length, IfOk, codes, if◌then◌else◌};
ghost use Rattle.std.specs.Str.{bytes_eq};
ghost use Rattle.jls_diff.specs.Parts.{made};
ghost use Rattle.jls_diff.specs.PartsOf.{parts_of};
ghost use Rattle.jls_report.specs.Report.{report_of};
ghost use Rattle.jls_report.specs.ReportText.{report_text};
ghost use Rattle.jls_held.specs.Judging.{codings_of};
ghost use Rattle.jls_carried.specs.CodingLines.{HavePrintedNumbers};
ghost use Rattle.jls_splice_run.specs.CodingLines.{carried_noted_text, carried_text};
ghost use Rattle.jls_splice_run.specs.Differences.{differences};
ghost use Rattle.jls_splice_run.specs.Lines.{found_text, noted_text};

use crate::coding_lines::put_carried;
use crate::differences::differences_of;
use crate::found::SearchReport;
use crate::lines::put_found;
use crate::noting::{put_carried_noted, put_noted};
use jls_diff::Parts;
use jls_held::EditedCopy;
use jls_partial::Partial;
use jls_report::Report;
use std::alloc::{AllocError, Global};

/// The lines of what was found.
fn found_lines(
    alloc: Global,
    parts: &Parts<'_>,
    report: &SearchReport,
) -> Result<Vec<u8>, AllocError>
    requires { length (made 0 parts.now) < 2 ^ 64 }
    ensures { IfOk result (λ lines. lines.items ≡ found_text (differences parts.now) report.now) }
{
    let differences = differences_of(alloc, parts)?;
    let mut out = Vec::new(alloc);
    put_found(&mut out, &differences, report)?;
    Ok(out)
}

/// The lines of what was found in so many copies of several codings.
fn carried_lines(
    alloc: Global,
    parts: &Parts<'_>,
    count: usize,
    codings: &[Vec<EditedCopy>],
    strangers: &[usize],
    report: &SearchReport,
) -> Result<Vec<u8>, AllocError>
    requires small { length (made 0 parts.now) < 2 ^ 64 }
    requires numbers { HavePrintedNumbers (codings_of codings.now) }
    ensures { IfOk result (λ lines. lines.items
        ≡ carried_text (differences parts.now) count (codings_of codings.now) strangers.now report.now) }
{
    let differences = differences_of(alloc, parts)?;
    let mut out = Vec::new(alloc);
    put_carried(&mut out, &differences, count, codings, strangers, report)?;
    Ok(out)
}

/// What is noted of the search on the fault output. Nothing, unless the output is standard output.
pub(crate) fn notes_of(
    alloc: Global,
    out: &str,
    report: &SearchReport,
) -> Result<Vec<u8>, AllocError>
    ensures { IfOk result (λ notes. notes.items ≡ (if bytes_eq out.now (codes "-") then noted_text report.now else [])) }
{
    let mut notes = Vec::new(alloc);
    if out == "-" {
        put_noted(alloc, &mut notes, report)?;
    }
    Ok(notes)
}

/// What is noted on the fault output of a search in so many copies of several codings. Nothing, unless the output is standard output.
pub(crate) fn notes_of_carried(
    alloc: Global,
    out: &str,
    count: usize,
    codings: &[Vec<EditedCopy>],
    strangers: &[usize],
    report: &SearchReport,
) -> Result<Vec<u8>, AllocError>
    requires { HavePrintedNumbers (codings_of codings.now) }
    ensures { IfOk result (λ notes. notes.items ≡ (if bytes_eq out.now (codes "-")
        then carried_noted_text count (codings_of codings.now) strangers.now report.now else [])) }
{
    let mut notes = Vec::new(alloc);
    if out == "-" {
        put_carried_noted(alloc, &mut notes, count, codings, strangers, report)?;
    }
    Ok(notes)
}

/// The lines of the report of a partial picture.
fn report_lines(alloc: Global, partial: &Partial) -> Result<Vec<u8>, AllocError>
    ensures { IfOk result (λ lines. lines.items ≡ report_text (report_of partial.now)) }
{
    let report = Report::of(alloc, partial)?;
    report.to_text(alloc)
}

/// All lines: those of what was found, and then the report. None, where the output is standard output.
pub(crate) fn lines_of(
    alloc: Global,
    out: &str,
    parts: &Parts<'_>,
    report: &SearchReport,
    partial: &Partial,
) -> Result<Vec<u8>, AllocError>
    requires { length (made 0 parts.now) < 2 ^ 64 }
    ensures { IfOk result (λ lines. lines.items ≡ (if bytes_eq out.now (codes "-") then []
        else found_text (differences parts.now) report.now ++ report_text (report_of partial.now))) }
{
    if out == "-" {
        return Ok(Vec::new(alloc));
    }
    let mut lines = found_lines(alloc, parts, report)?;
    let counts = report_lines(alloc, partial)?;
    lines.extend_from_slice(&counts)?;
    Ok(lines)
}

/// All lines where so many copies of several codings gave each other something: those of what was found, and then the report. None, where
/// the output is standard output.
pub(crate) fn lines_of_carried(
    alloc: Global,
    out: &str,
    parts: &Parts<'_>,
    count: usize,
    codings: &[Vec<EditedCopy>],
    strangers: &[usize],
    report: &SearchReport,
    partial: &Partial,
) -> Result<Vec<u8>, AllocError>
    requires small { length (made 0 parts.now) < 2 ^ 64 }
    requires numbers { HavePrintedNumbers (codings_of codings.now) }
    ensures { IfOk result (λ lines. lines.items ≡ (if bytes_eq out.now (codes "-") then []
        else carried_text (differences parts.now) count (codings_of codings.now) strangers.now report.now
        ++ report_text (report_of partial.now))) }
{
    if out == "-" {
        return Ok(Vec::new(alloc));
    }
    let mut lines = carried_lines(alloc, parts, count, codings, strangers, report)?;
    let counts = report_lines(alloc, partial)?;
    lines.extend_from_slice(&counts)?;
    Ok(lines)
}
