//! What a copy gives when its reading has stopped.

ghost use Rattle.std.specs.Prelude.{◌≡◌, OnOk, IfOk, IfErr, IfSome};
ghost use Rattle.jls_copy.specs.CopyReads.{CopyReads};
ghost use Rattle.jls_copy.specs.ReadCopy.{ReadCopy};
ghost use Rattle.jls_station.specs.Given.{marked, report_of};
ghost use Rattle.jls_station.specs.InputFaults.{input_fault_of_copy, IsCopyRefused};

use crate::input::{InputFault, ReadStop};
use crate::take_report::TakeReport;
use jls_copy::{CopyFault, CopyReader};
use jls_partial::Partial;
use std::alloc::AllocError;

/// What a copy gave: its readings, under a source if there is one, and what is reported of it beside them.
#[derive(Drop)]
pub(crate) struct CopyGiven {
    pub(crate) partial: Partial,
    pub(crate) report: TakeReport,
}

/// Adds the source to each reading, if there is one.
fn put_source(partial: &mut Partial, source: Option<u32>) -> Result<(), AllocError>
    ensures { OnOk result (partial.new ≡ marked source partial.old) }
{
    match source {
        Some(source) => partial.mark(source),
        None => Ok(()),
    }
}

/// The fault of a copy of which so many bytes were read when its reading stopped so.
fn copy_fault(fault: CopyFault, stop: ReadStop, count: u64) -> InputFault
    ensures { result ≡ input_fault_of_copy fault stop count }
{
    match (fault, stop) {
        (CopyFault::OutOfMemory, _) => InputFault::OutOfMemory,
        (CopyFault::NoPicture(fault, offset), ReadStop::Whole) => InputFault::NoPicture(
            fault, offset,
        ),
        (CopyFault::NoPicture(_, _), stop) => InputFault::Read(stop, count),
    }
}

/// What a reader gives of a copy under this source, where the reading of the copy stopped so.
pub(crate) fn read_of_copy(
    source: Option<u32>,
    reader: CopyReader,
    stop: ReadStop,
) -> Result<CopyGiven, InputFault>
    ensures given { IfOk result (λ given. IfSome reader (λ bytes. (read : ReadCopy) × CopyReads bytes read
        × (given.partial ≡ marked source read.partial) × (given.report ≡ report_of bytes read stop))) }
    ensures refused { IfErr result (λ fault. IfSome reader (λ bytes. IsCopyRefused bytes stop fault)) }
{
    let count = reader.fed();
    let read = reader
        .finish()
        .map_err(|fault| copy_fault(fault, stop, count))?;
    let piece_count = read.piece_count();
    let ended = read.ended();
    let (mut partial, pieces) = read.into_parts();
    let report = TakeReport {
        pieces,
        piece_count,
        ended,
        count,
        stop,
    };
    put_source(&mut partial, source)?;
    Ok(CopyGiven { partial, report })
}
