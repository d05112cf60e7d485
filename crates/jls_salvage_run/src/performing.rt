//! What is asked for, done.

ghost use Rattle.jls_io.specs.Event.{GrewBoth};
ghost use Rattle.jls_cli.specs.SalvageAsking.{asked_of};
ghost use Rattle.jls_salvage_run.specs.Runs.{CameOf};

use crate::inputs::JoinInputs;
use crate::joining::join;
use crate::reporting::print_report;
use crate::writing::{Format, write};
use jls_cli::salvage::Asked;
use jls_cli::{Done, Refusal};
use jls_io::{Desk, Sink};
use std::alloc::Global;

/// Does what is asked for.
pub(crate) fn perform<'a, D: Desk, W: Sink>(
    alloc: Global,
    desk: &mut D,
    report: &mut W,
    asked: Asked<'_, 'a>,
) -> Result<Done, Refusal<'a>>
    ensures { GrewBoth (CameOf (asked_of asked.entry) result) (D.history desk.old) (D.history desk.new)
        (W.history report.old) (W.history report.new) }
{
    match asked {
        Asked::Check { file } => print_report(alloc, desk, report, true, file),
        Asked::Join {
            source,
            out,
            first,
            others,
        } => {
            let inputs = JoinInputs {
                source,
                first,
                others,
            };
            join(alloc, desk, out, inputs)
        }
        Asked::Show { file } => print_report(alloc, desk, report, false, file),
        Asked::WritePnm { out, file } => write(alloc, desk, Format::Pnm, out, file),
        Asked::WriteJls {
            line,
            ri,
            out,
            file,
        } => write(alloc, desk, Format::Jls { line, ri }, out, file),
    }
}
