//! The JPEG-LS file in memory, interval by interval.

ghost use Rattle.jls_write.specs.Parts.{scan_from, IsScanFrom};
ghost use Rattle.jls_write.specs.WrittenFile as spec;
ghost use Rattle.jls_marker.specs.Scan.{intervals};
ghost use Rattle.jls_write.specs.Options.{OptionsFit};
ghost use Rattle.jls_values.specs.Params.{AreCodingParameters};
ghost use Rattle.std.specs.Prelude.{◌≡◌, ◌<◌, ◌++◌, IfOk};

use crate::headers::header_bytes;
use crate::intervals::{before_interval, interval_code};
use crate::options::Options;
use crate::picture::Picture;
use crate::scan_part::{ScanPart, components_of_scan, scan_count};
use jls_marker::codes::EOI;
use std::alloc::{AllocError, Global};

/// The bytes of a file in memory: those of the front, and then those of the back.
#[derive(Drop)]
pub struct FileParts {
    /// The bytes before the code of the last interval.
    pub front: Vec<u8>,
    /// That code, and what follows it.
    pub back: Vec<u8>,
}

/// Bytes, and others after them. The longer of the two stays where it is, or is moved within its memory.
fn joined(front: Vec<u8>, back: Vec<u8>) -> Result<Vec<u8>, AllocError>
    ensures { IfOk result (λ bytes. bytes.items ≡ front.items ++ back.items) }
{
    let mut before = front;
    let mut after = back;
    let count = before.len();
    if count < after.len() {
        after.extend_from_slice(&before)?;
        after.rotate_right(count);
        return Ok(after);
    }
    before.extend_from_slice(&after)?;
    Ok(before)
}

/// The file with an interval more, and with what stands before it.
fn with_interval(
    alloc: Global,
    begun: FileParts,
    part: &ScanPart<'_, '_>,
    interval: u32,
) -> Result<FileParts, AllocError>
    requires part { IsScanFrom part.now.picture.now part.now.options part.now.first part.now.count }
    requires interval { interval < intervals (scan_from part.now.picture.now part.now.options part.now.first part.now.count) }
    ensures { IfOk result (λ file. file.front.items ++ file.back.items
        ≡ (begun.front.items ++ begun.back.items) ++ spec.marked_interval part.now.picture.now
        (scan_from part.now.picture.now part.now.options part.now.first part.now.count) interval) }
{
    let FileParts { front, back } = begun;
    let before = joined(front, back)?;
    let mark = before_interval(alloc, part, interval)?;
    let front = joined(before, mark)?;
    let back = interval_code(alloc, part, interval)?;
    Ok(FileParts { front, back })
}

/// The file with a scan more.
fn with_scan(
    alloc: Global,
    begun: FileParts,
    part: &ScanPart<'_, '_>,
) -> Result<FileParts, AllocError>
    requires { IsScanFrom part.now.picture.now part.now.options part.now.first part.now.count }
    ensures { IfOk result (λ file. file.front.items ++ file.back.items
        ≡ (begun.front.items ++ begun.back.items) ++ spec.scan_bytes part.now.picture.now
        (scan_from part.now.picture.now part.now.options part.now.first part.now.count)) }
{
    let mut file = begun;
    for interval in 0..part.intervals() {
        file = with_interval(alloc, file, part, interval)?;
    }
    Ok(file)
}

/// The file with all scans.
fn with_scans(
    alloc: Global,
    begun: FileParts,
    picture: &Picture<'_>,
    options: &Options,
) -> Result<FileParts, AllocError>
    requires fit { OptionsFit picture.now options.now }
    requires params { AreCodingParameters options.now.params }
    ensures { IfOk result (λ file. file.front.items ++ file.back.items
        ≡ (begun.front.items ++ begun.back.items) ++ spec.scans_bytes picture.now options.now) }
{
    let count = components_of_scan(picture, options);
    let mut file = begun;
    for first in 0..scan_count(picture, options) {
        let part = ScanPart {
            picture,
            options: *options,
            first,
            count,
        };
        file = with_scan(alloc, file, &part)?;
    }
    Ok(file)
}

/// The JPEG-LS file of a picture, where the options fit it (`Options::fits`): the bytes that `write_jls` hands to a sink. The only refusal
/// is out of memory. The code of the last interval stays where it was made, so a file of one interval is in memory once.
pub fn jls_file(
    alloc: Global,
    picture: &Picture<'_>,
    options: &Options,
) -> Result<FileParts, AllocError>
    requires { OptionsFit picture.now options.now }
    ensures { IfOk result (λ file. file.front.items ++ file.back.items ≡ spec.written_file picture.now options.now) }
{
    let begun = FileParts {
        front: header_bytes(alloc, picture, options)?,
        back: Vec::new(alloc),
    };
    let FileParts { front, back } = with_scans(alloc, begun, picture, options)?;
    let mut back = back;
    back.extend_from_slice(&[0xFF, EOI])?;
    Ok(FileParts { front, back })
}
