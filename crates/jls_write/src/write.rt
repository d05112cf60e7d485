//! Handing out the file, interval by interval.

ghost use Rattle.jls_write.specs.Parts.{scan_from, IsScanFrom};
ghost use Rattle.jls_write.specs.Stops.{StopsIn};
ghost use Rattle.jls_write.specs.WrittenFile as spec;
ghost use Rattle.jls_marker.specs.Scan.{intervals};
ghost use Rattle.jls_write.specs.Options.{OptionsFit};
ghost use Rattle.jls_write.specs.Outcomes.{HandedOut};
ghost use Rattle.jls_values.specs.Params.{AreCodingParameters};
ghost use Rattle.std.specs.Prelude.{◌≡◌, ◌+◌, ◌<◌, ◌^◌, length, IfOk, IfErr, OnOk};

use crate::headers::header_bytes;
use crate::intervals::{before_interval, interval_code};
use crate::options::Options;
use crate::output::{OutputFault, write_part};
use crate::picture::Picture;
use crate::scan_part::{ScanPart, components_of_scan, scan_count};
use jls_io::Sink;
use jls_marker::codes::EOI;
use std::alloc::{AllocError, Global};

/// An interval's code, and what stands before it.
fn marked_interval(
    alloc: Global,
    part: &ScanPart<'_, '_>,
    interval: u32,
) -> Result<(Vec<u8>, Vec<u8>), AllocError>
    requires part { IsScanFrom part.now.picture.now part.now.options part.now.first part.now.count }
    requires interval { interval < intervals (scan_from part.now.picture.now part.now.options part.now.first part.now.count) }
    ensures before { IfOk result (λ both. both.0.items
        ≡ spec.before_interval part.now.picture.now
        (scan_from part.now.picture.now part.now.options part.now.first part.now.count) interval) }
    ensures code { IfOk result (λ both. both.1.items
        ≡ spec.interval_code part.now.picture.now
        (scan_from part.now.picture.now part.now.options part.now.first part.now.count) interval) }
{
    let code = interval_code(alloc, part, interval)?;
    let before = before_interval(alloc, part, interval)?;
    Ok((before, code))
}

/// Hands an interval to a sink with what stands before it, after `before` bytes, and answers how many have gone out then.
fn write_interval<W: Sink>(
    alloc: Global,
    part: &ScanPart<'_, '_>,
    interval: u32,
    before: u64,
    sink: &mut W,
) -> Result<u64, OutputFault>
    requires part { IsScanFrom part.now.picture.now part.now.options part.now.first part.now.count }
    requires interval { interval < intervals (scan_from part.now.picture.now part.now.options part.now.first part.now.count) }
    requires early { before < 2 ^ 62 }
    ensures count { IfOk result (λ count. count ≡ before
        + length (spec.marked_interval part.now.picture.now
        (scan_from part.now.picture.now part.now.options part.now.first part.now.count) interval)) }
    ensures all { OnOk result (HandedOut (W.history sink.old) (W.history sink.new) (W.contents sink.old) (W.contents sink.new)
        (spec.marked_interval part.now.picture.now
        (scan_from part.now.picture.now part.now.options part.now.first part.now.count) interval)) }
    ensures stops { IfErr result (λ fault. StopsIn fault before
        (W.history sink.old) (W.history sink.new) (W.contents sink.old) (W.contents sink.new)
        (spec.marked_interval part.now.picture.now
        (scan_from part.now.picture.now part.now.options part.now.first part.now.count) interval)) }
{
    match marked_interval(alloc, part, interval) {
        Err(_) => Err(OutputFault::OutOfMemory(before)),
        Ok((mark, code)) => {
            let count = write_part(sink, before, &mark)?;
            write_part(sink, count, &code)
        }
    }
}

/// Hands a scan to a sink, after `before` bytes, and answers how many have gone out then.
fn write_scan<W: Sink>(
    alloc: Global,
    part: &ScanPart<'_, '_>,
    before: u64,
    sink: &mut W,
) -> Result<u64, OutputFault>
    requires part { IsScanFrom part.now.picture.now part.now.options part.now.first part.now.count }
    requires early { before < 2 ^ 61 }
    ensures count { IfOk result (λ count. count ≡ before
        + length (spec.scan_bytes part.now.picture.now (scan_from part.now.picture.now part.now.options part.now.first part.now.count))) }
    ensures all { OnOk result (HandedOut (W.history sink.old) (W.history sink.new) (W.contents sink.old) (W.contents sink.new)
        (spec.scan_bytes part.now.picture.now (scan_from part.now.picture.now part.now.options part.now.first part.now.count))) }
    ensures stops { IfErr result (λ fault. StopsIn fault before
        (W.history sink.old) (W.history sink.new) (W.contents sink.old) (W.contents sink.new)
        (spec.scan_bytes part.now.picture.now (scan_from part.now.picture.now part.now.options part.now.first part.now.count))) }
{
    let mut count = before;
    for interval in 0..part.intervals() {
        count = write_interval(alloc, part, interval, count, sink)?;
    }
    Ok(count)
}

/// Hands all scans to a sink, after `before` bytes, and answers how many have gone out then.
fn write_scans<W: Sink>(
    alloc: Global,
    picture: &Picture<'_>,
    options: &Options,
    before: u64,
    sink: &mut W,
) -> Result<u64, OutputFault>
    requires fit { OptionsFit picture.now options.now }
    requires params { AreCodingParameters options.now.params }
    requires early { before < 2 ^ 60 }
    ensures count { IfOk result (λ count. count ≡ before + length (spec.scans_bytes picture.now options.now)) }
    ensures all { OnOk result (HandedOut (W.history sink.old) (W.history sink.new) (W.contents sink.old) (W.contents sink.new)
        (spec.scans_bytes picture.now options.now)) }
    ensures stops { IfErr result (λ fault. StopsIn fault before
        (W.history sink.old) (W.history sink.new) (W.contents sink.old) (W.contents sink.new)
        (spec.scans_bytes picture.now options.now)) }
{
    let components = components_of_scan(picture, options);
    let mut done = before;
    for first in 0..scan_count(picture, options) {
        let part = ScanPart {
            picture,
            options: *options,
            first,
            count: components,
        };
        done = write_scan(alloc, &part, done, sink)?;
    }
    Ok(done)
}

/// Hands the JPEG-LS file of a picture to a sink, where the options fit it (`Options::fits`). Beside the picture it holds the
/// lines and the bytes of one restart interval. `Write` comes where a write fails, and `OutOfMemory` where there is no memory for
/// an interval; both say how many bytes had gone out.
pub fn write_jls<W: Sink>(
    alloc: Global,
    picture: &Picture<'_>,
    options: &Options,
    sink: &mut W,
) -> Result<(), OutputFault>
    requires { OptionsFit picture.now options.now }
    ensures all { OnOk result (HandedOut (W.history sink.old) (W.history sink.new) (W.contents sink.old) (W.contents sink.new)
        (spec.written_file picture.now options.now)) }
    ensures stops { IfErr result (λ fault. StopsIn fault 0
        (W.history sink.old) (W.history sink.new) (W.contents sink.old) (W.contents sink.new)
        (spec.written_file picture.now options.now)) }
{
    match header_bytes(alloc, picture, options) {
        Err(_) => Err(OutputFault::OutOfMemory(0)),
        Ok(header) => {
            let count = write_part(sink, 0, &header)?;
            let count = write_scans(alloc, picture, options, count, sink)?;
            write_part(sink, count, &[0xFF, EOI])?;
            Ok(())
        }
    }
}
