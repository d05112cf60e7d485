//! Copies that a station takes.

ghost use Rattle.std.specs.Prelude.{◌≤◌, length, IfOk, IfErr, IfSome};
ghost use Rattle.jls_io.specs.Event.{GrewBy};
ghost use Rattle.jls_partial.specs.Partial.{PartialPicture};
ghost use Rattle.jls_station.specs.KnownCopies.{BytesGive, TakesBytes, RefusesBytes};
ghost use Rattle.jls_station.specs.TakingCopies.{IsTakenFor, CopyGives, CopyStops, TakesCopy, RefusesCopy};

use crate::copy_end::{CopyGiven, read_of_copy};
use crate::input::{InputFault, ReadStop};
use crate::intakes::read_copy_on;
use crate::station::Station;
use crate::take_report::TakeReport;
use jls_copy::CopyReader;
use jls_io::Source;
use jls_marker::MarkerFault;
use jls_values::MergeFault;
use std::alloc::Global;
use thiserror::Error;

/// Why a station did not take a copy.
#[derive(Clone, Copy, Debug, PartialEq, Eq, Error)]
pub enum TakeFault {
    /// The copy was read whole, and no frame was taken: the fault that ended it, and its offset.
    #[error("no picture: {0} at offset {1}")]
    NoPicture(MarkerFault, u64),
    /// The device stopped before a frame was taken, when it had given so many bytes.
    #[error("not read on after {1} bytes, before a frame was taken")]
    Read(ReadStop, u64),
    /// The frame of the copy has another shape than the station.
    #[error("the shapes differ")]
    ShapeDiffers,
    /// Memory ran out.
    #[error("out of memory")]
    OutOfMemory,
}

/// Why a station doesn't take a copy that is refused so as an input. As a text none is.
fn take_fault(fault: InputFault) -> TakeFault
    requires { (taken : TakeFault) × IsTakenFor fault taken }
    ensures { IsTakenFor fault result }
{
    match fault {
        InputFault::NoPicture(fault, offset) => TakeFault::NoPicture(fault, offset),
        InputFault::Read(stop, count) => TakeFault::Read(stop, count),
        InputFault::OutOfMemory => TakeFault::OutOfMemory,
        InputFault::Text(_) => unreachable!(),
    }
}

/// Reads a copy from its first byte on, as long as more bytes can change what it gives.
fn read_from_start<S: Source>(
    alloc: Global,
    source: Option<u32>,
    device: &mut S,
) -> Result<CopyGiven, TakeFault>
    ensures given { IfOk result (λ given.
        GrewBy (CopyGives source given.partial given.report) (S.history device.old) (S.history device.new)) }
    ensures refused { IfErr result (λ fault. GrewBy (CopyStops fault) (S.history device.old) (S.history device.new)) }
    ensures known { IfOk result (λ given. IfSome (S.remaining device.old) (BytesGive source given.partial given.report.stop)) }
    ensures known_refused { (held : PartialPicture)
        → IfErr result (λ fault. IfSome (S.remaining device.old) (λ bytes. RefusesBytes source held bytes fault)) }
    ensures known_count { IfOk result (λ given. IfSome (S.remaining device.old) (λ bytes. given.report.found.count ≤ length bytes)) }
{
    let mut reader = CopyReader::new(alloc);
    let stop = read_copy_on(device, &mut reader, 0).map_err(|_| TakeFault::OutOfMemory)?;
    read_of_copy(source, reader, stop).map_err(take_fault)
}

impl Station {
    /// Takes in the readings of a damaged copy, under the number of a source if there is one. It reads the copy whole from the device's
    /// current position on, then checks its shape, and then merges. If the device stops after a frame, the copy ends there, and the
    /// report says how it stopped. Reads have room for at most 4,096 bytes, and there are at most 4,294,967,295 of them. None is made
    /// if no further byte can change what the copy gives.
    ///
    /// At `NoPicture`, `Read` and `ShapeDiffers` nothing has changed. After `OutOfMemory` all that was held is still held, with some or
    /// all of the copy's readings and nothing else. A copy that begins as a text does is read as a copy here.
    pub fn take_copy<S: Source>(
        &mut self,
        source: Option<u32>,
        device: &mut S,
    ) -> Result<TakeReport, TakeFault>
        ensures taken { IfOk result (λ report.
            GrewBy (TakesCopy source self.old self.new report) (S.history device.old) (S.history device.new)) }
        ensures refused { IfErr result (λ fault.
            GrewBy (RefusesCopy source self.old self.new fault) (S.history device.old) (S.history device.new)) }
        // Where the bytes of the source are known.
        ensures known { IfOk result (λ report.
            IfSome (S.remaining device.old) (TakesBytes source self.old self.new report.stop)) }
        ensures known_refused { IfErr result (λ fault.
            IfSome (S.remaining device.old) (λ bytes. RefusesBytes source self.old bytes fault)) }
        ensures known_count { IfOk result (λ report. IfSome (S.remaining device.old) (λ bytes. report.found.count ≤ length bytes)) }
    {
        let given = read_from_start(self.allocator(), source, device)?;
        match self.take(&given.partial) {
            Ok(()) => {}
            Err(MergeFault::ShapeDiffers) => return Err(TakeFault::ShapeDiffers),
            Err(MergeFault::OutOfMemory) => return Err(TakeFault::OutOfMemory),
        }
        let CopyGiven { partial: _, report } = given;
        Ok(report)
    }
}
