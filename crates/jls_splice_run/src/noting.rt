//! What is noted of a search on the fault output, where the output is standard output.

ghost use Rattle.std.specs.Prelude.{◌≡◌, ◌++◌, codes, true, OnOk};
ghost use Rattle.jls_held.specs.Judging.{codings_of};
ghost use Rattle.jls_carried.specs.CodingLines.{HavePrintedNumbers};
ghost use Rattle.jls_splice_run.specs.CodingLines.{carried_noted_text};
ghost use Rattle.jls_splice_run.specs.Lines.{in_prefix, noted_text};

use crate::found::SearchReport;
use crate::lines::{put_outcome, put_searches};
use jls_carried::put_all_codings;
use jls_held::EditedCopy;
use std::alloc::{AllocError, Global};

/// Appends text with the program's name before each of its lines.
fn put_first(out: &mut Vec<u8>, text: &[u8]) -> Result<(), AllocError>
    ensures { OnOk result (out.new.items ≡ out.old.items ++ in_prefix (codes "jls-splice: ") true text.now) }
{
    let mut begins = true;
    for byte in text {
        if begins {
            out.extend_from_slice(b"jls-splice: ")?;
        }
        out.push(*byte)?;
        begins = *byte == b'\n';
    }
    Ok(())
}

/// Appends the lines of what the searches came to and of what is made of it, each with the program's name first. `Err`
/// comes where memory is refused, and says nothing of what was appended.
pub fn put_noted(alloc: Global, out: &mut Vec<u8>, report: &SearchReport) -> Result<(), AllocError>
    ensures { OnOk result (out.new.items ≡ out.old.items ++ noted_text report.now) }
{
    let mut lines = Vec::new(alloc);
    put_searches(&mut lines, report)?;
    put_outcome(&mut lines, report)?;
    put_first(out, &lines)
}

/// Appends these lines, and between them those of the codings of so many copies, each with the program's name first. Strangers are copies
/// that agree with no other, by their indices. `Err` comes where memory is refused, and says nothing of what was appended.
pub fn put_carried_noted(
    alloc: Global,
    out: &mut Vec<u8>,
    count: usize,
    codings: &[Vec<EditedCopy>],
    strangers: &[usize],
    report: &SearchReport,
) -> Result<(), AllocError>
    requires { HavePrintedNumbers (codings_of codings.now) }
    ensures { OnOk result (out.new.items ≡ out.old.items ++ carried_noted_text count (codings_of codings.now) strangers.now report.now) }
{
    let mut lines = Vec::new(alloc);
    put_searches(&mut lines, report)?;
    put_all_codings(&mut lines, count, codings, strangers)?;
    put_outcome(&mut lines, report)?;
    put_first(out, &lines)
}
