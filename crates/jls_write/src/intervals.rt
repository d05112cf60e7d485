//! The intervals of a scan, each with what stands before it.

ghost use Rattle.jls_write.specs.Parts.{scan_from, IsScanFrom};
ghost use Rattle.jls_write.specs.WrittenFile as spec;
ghost use Rattle.jls_interval.specs.Lines.{IsLine};
ghost use Rattle.jls_marker.specs.Scan.{intervals};
ghost use Rattle.std.specs.Prelude.{◌≡◌, ◌<◌, ◌≤◌, ◌-◌, ◌++◌, map, IfOk, OnOk};
ghost use Rattle.std.specs.List.{flat_map, range_with_len, AllByRecursion};

use crate::scan_part::ScanPart;
use jls_interval::encode_interval;
use jls_marker::codes::RST0;
use jls_marker::{ScanHead, Segment, write_segment};
use std::alloc::{AllocError, Global};

/// Adds the lines of a row.
fn push_row<'a>(
    lines: &mut Vec<&'a [u16]>,
    part: &ScanPart<'a, '_>,
    row: u16,
) -> Result<(), AllocError>
    requires part { IsScanFrom part.now.picture.now part.now.options part.now.first part.now.count }
    requires row { row < part.now.picture.now.shape.height }
    ensures lines { OnOk result (map (λ l. l.now) lines.new.items
        ≡ map (λ l. l.now) lines.old.items ++ spec.row_lines part.now.picture.now (range_with_len part.now.first part.now.count) row) }
    ensures each { OnOk result (
        AllByRecursion (IsLine part.now.options.params part.now.picture.now.shape.width) (map (λ l. l.now) lines.old.items)
        → AllByRecursion (IsLine part.now.options.params part.now.picture.now.shape.width) (map (λ l. l.now) lines.new.items)) }
{
    for component in part.first..part.first + part.count {
        lines.push(part.picture.line(component, row))?;
    }
    Ok(())
}

/// The lines of the rows from one to before another, as the picture lends them.
fn lines_of_rows<'a>(
    alloc: Global,
    part: &ScanPart<'a, '_>,
    first: u16,
    end: u16,
) -> Result<Vec<&'a [u16]>, AllocError>
    requires part { IsScanFrom part.now.picture.now part.now.options part.now.first part.now.count }
    requires order { first ≤ end }
    requires end { end ≤ part.now.picture.now.shape.height }
    ensures lines { IfOk result (λ lines. map (λ l. l.now) lines.items
        ≡ flat_map (spec.row_lines part.now.picture.now (range_with_len part.now.first part.now.count))
        (range_with_len first (end - first))) }
    ensures each { IfOk result (λ lines.
        AllByRecursion (IsLine part.now.options.params part.now.picture.now.shape.width) (map (λ l. l.now) lines.items)) }
{
    let mut lines = Vec::new(alloc);
    for row in first..end {
        push_row(&mut lines, part, row)?;
    }
    Ok(lines)
}

/// The code of an interval.
pub(crate) fn interval_code(
    alloc: Global,
    part: &ScanPart<'_, '_>,
    interval: u32,
) -> Result<Vec<u8>, AllocError>
    requires part { IsScanFrom part.now.picture.now part.now.options part.now.first part.now.count }
    requires interval { interval < intervals (scan_from part.now.picture.now part.now.options part.now.first part.now.count) }
    ensures { IfOk result (λ bytes. bytes.items
        ≡ spec.interval_code part.now.picture.now
        (scan_from part.now.picture.now part.now.options part.now.first part.now.count) interval) }
{
    let (first, end) = part.row_range(interval);
    let lines = lines_of_rows(alloc, part, first, end)?;
    let width = part.picture.shape().width();
    encode_interval(alloc, &part.options.params(), width, part.count, &lines)
}

/// SOS of the scan.
fn scan_header(alloc: Global, part: &ScanPart<'_, '_>) -> Result<Vec<u8>, AllocError>
    requires part { IsScanFrom part.now.picture.now part.now.options part.now.first part.now.count }
    ensures { IfOk result (λ bytes. bytes.items
        ≡ spec.bytes_of (spec.scan_segment part.now.picture.now (range_with_len part.now.first part.now.count))) }
{
    let first = usize::from(part.first);
    let ids = &part.picture.shape().ids()[first..first + usize::from(part.count)];
    let mut bytes = Vec::new(alloc);
    match ScanHead::new(ids, part.count > 1) {
        Err(_) => unreachable!(),
        Ok(head) => write_segment(&mut bytes, &Segment::Scan(head))?,
    }
    Ok(bytes)
}

/// What stands before an interval: SOS before the first, and a restart marker before each other.
pub(crate) fn before_interval(
    alloc: Global,
    part: &ScanPart<'_, '_>,
    interval: u32,
) -> Result<Vec<u8>, AllocError>
    requires part { IsScanFrom part.now.picture.now part.now.options part.now.first part.now.count }
    ensures { IfOk result (λ bytes. bytes.items
        ≡ spec.before_interval part.now.picture.now
        (scan_from part.now.picture.now part.now.options part.now.first part.now.count) interval) }
{
    if interval == 0 {
        return scan_header(alloc, part);
    }
    Vec::from_slice(alloc, &[0xFF, RST0 + ((interval - 1) % 8) as u8])
}
