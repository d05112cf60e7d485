//! The commands `check` and `show`.

ghost use Rattle.std.specs.Prelude.{◌≡◌, ◌++◌, [], IfOk, OnOk, if◌then◌else◌};
ghost use Rattle.jls_io.specs.Event.{GrewBoth};
ghost use Rattle.jls_salvage_run.specs.Reporting.{lines, report_lines, PrintsReport};
ghost use Rattle.jls_salvage_run.specs.Tracing.{trace_lines};

use crate::inputs::open_and_read;
use crate::tracing::put_trace;
use jls_cli::{Cause, Done, Refusal};
use jls_io::{Desk, Sink, write_all};
use jls_partial::Partial;
use jls_report::Report;
use jls_station::InputRead;
use std::alloc::{AllocError, Global};

/// The lines of the report of a partial picture.
fn report_of(alloc: Global, partial: &Partial) -> Result<Vec<u8>, AllocError>
    ensures { IfOk result (λ text. text.items ≡ report_lines partial.now) }
{
    let report = Report::of(alloc, partial)?;
    report.to_text(alloc)
}

/// Appends the trace of an input, if it is a copy.
fn put_input_trace(out: &mut Vec<u8>, input: &InputRead) -> Result<(), AllocError>
    ensures { OnOk result (out.new.items ≡ out.old.items ++ trace_lines input.now) }
{
    match input.copy() {
        Some(report) => put_trace(out, report),
        None => Ok(()),
    }
}

/// The trace of an input, if it is asked for.
fn trace_of(alloc: Global, input: &InputRead, traced: bool) -> Result<Vec<u8>, AllocError>
    ensures { IfOk result (λ text. text.items ≡ (if traced then trace_lines input.now else [])) }
{
    let mut out = Vec::new(alloc);
    if !traced {
        return Ok(out);
    }
    put_input_trace(&mut out, input)?;
    Ok(out)
}

/// The lines that are printed of an input.
fn lines_of(alloc: Global, input: &InputRead, traced: bool) -> Result<Vec<u8>, AllocError>
    ensures { IfOk result (λ text. text.items ≡ lines traced input.now) }
{
    let mut out = trace_of(alloc, input, traced)?;
    let text = report_of(alloc, input.partial())?;
    out.extend_from_slice(&text)?;
    Ok(out)
}

/// The commands `check` and `show`: reads one input and prints its report to the report output. `check` prints the trace of a copy before
/// it, and so it is `traced`.
pub fn print_report<'a, D: Desk, W: Sink>(
    alloc: Global,
    desk: &mut D,
    report: &mut W,
    traced: bool,
    file: &'a str,
) -> Result<Done, Refusal<'a>>
    ensures { GrewBoth (PrintsReport (lines traced) file.now result) (D.history desk.old) (D.history desk.new)
        (W.history report.old) (W.history report.new) }
{
    let input = open_and_read(alloc, desk, file)?;
    let text = lines_of(alloc, &input, traced).map_err(|_| Refusal {
        name: file,
        cause: Cause::OutOfMemory,
    })?;
    match write_all(report, &text) {
        Ok(()) => Ok(Done {
            settled: input.partial().is_settled(),
            whole: input.is_whole(),
        }),
        Err(count) => Err(Refusal {
            name: "-",
            cause: Cause::NotWritten(count),
        }),
    }
}
