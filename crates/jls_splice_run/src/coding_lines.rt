//! The lines of what was found in copies of several codings.

ghost use Rattle.std.specs.Prelude.{◌≡◌, ◌++◌, OnOk};
ghost use Rattle.jls_held.specs.Judging.{codings_of};
ghost use Rattle.jls_carried.specs.CodingLines.{HavePrintedNumbers, coding_lines};
ghost use Rattle.jls_splice_run.specs.CodingLines.{carried_text};

use crate::differences::Difference;
use crate::found::SearchReport;
use crate::lines::{put_differences, put_outcome, put_searches};
use jls_carried::put_all_codings;
use jls_held::EditedCopy;
use std::alloc::AllocError;

/// Appends the lines of what was found in so many copies of several codings, in ASCII. First come where copies differ, in order, and what
/// the search came to. Then come the codings with the edits of their copies, and what is made of it. Each ends with a newline. Strangers
/// are copies that agree with no other, by their indices. `Err` comes where memory is refused, and says nothing of what was appended.
pub fn put_carried(
    out: &mut Vec<u8>,
    differences: &[Difference],
    count: usize,
    codings: &[Vec<EditedCopy>],
    strangers: &[usize],
    report: &SearchReport,
) -> Result<(), AllocError>
    requires { HavePrintedNumbers (codings_of codings.now) }
    ensures { OnOk result (out.new.items
        ≡ out.old.items ++ carried_text differences.now count (codings_of codings.now) strangers.now report.now) }
{
    put_differences(out, differences)?;
    put_searches(out, report)?;
    put_all_codings(out, count, codings, strangers)?;
    put_outcome(out, report)
}
