//! Readers of copies by sample, under the wide profile.

use crate::met::{Met, Stopped, Tally};
use jls_copy::{CopyFault, ProfileReader};
use jls_marker::Profile;
use jls_partial::Partial;
use jls_values::Shape;
use std::alloc::{AllocError, Global};
use std::process::Abort;

/// A copy of 4x3 of three components by sample, as CharLS 2.4.1 wrote it.
const ONE_INTERVAL: &[u8] = &[
    0xFF, 0xD8, 0xFF, 0xF7, 0x00, 0x11, 0x08, 0x00, 0x03, 0x00, 0x04, 0x03, 0x01, 0x11, 0x00, 0x02,
    0x11, 0x00, 0x03, 0x11, 0x00, 0xFF, 0xDA, 0x00, 0x0C, 0x03, 0x01, 0x00, 0x02, 0x00, 0x03, 0x00,
    0x00, 0x02, 0x00, 0x02, 0x02, 0x07, 0x25, 0x2C, 0x38, 0x38, 0x68, 0x00, 0x1F, 0xCF, 0x80, 0x00,
    0x18, 0x0A, 0x6F, 0x00, 0x00, 0x00, 0x0B, 0xE6, 0x9C, 0x87, 0x24, 0x80, 0xFF, 0xD9,
];

/// The same in intervals of two rows: what CharLS wrote of these rows alone, and of the last row alone. It reads both copies alike.
const TWO_INTERVALS: &[u8] = &[
    0xFF, 0xD8, 0xFF, 0xF7, 0x00, 0x11, 0x08, 0x00, 0x03, 0x00, 0x04, 0x03, 0x01, 0x11, 0x00, 0x02,
    0x11, 0x00, 0x03, 0x11, 0x00, 0xFF, 0xDD, 0x00, 0x04, 0x00, 0x02, 0xFF, 0xDA, 0x00, 0x0C, 0x03,
    0x01, 0x00, 0x02, 0x00, 0x03, 0x00, 0x00, 0x02, 0x00, 0x02, 0x02, 0x07, 0x25, 0x2C, 0x38, 0x38,
    0x68, 0x00, 0x1F, 0xCF, 0x80, 0x00, 0x18, 0xFF, 0xD0, 0x00, 0x00, 0x01, 0x6E, 0xEA, 0x20, 0x00,
    0x00, 0x17, 0xC8, 0x95, 0x03, 0x84, 0xFF, 0xD9,
];

/// The lines of each component that it was given.
const LINES: [[&[u16]; 3]; 3] = [
    [&[10, 10, 10, 12], &[0, 0, 0, 0], &[200, 7, 7, 7]],
    [&[20, 20, 20, 20], &[0, 0, 0, 9], &[13, 13, 13, 13]],
    [&[30, 30, 30, 30], &[0, 0, 0, 0], &[1, 255, 255, 0]],
];

/// The partial picture that has the lines of the first rows once, under no source.
fn lines_of(alloc: Global, rows: u16) -> Result<Partial, Stopped> {
    let mut partial = Partial::empty(alloc, Shape::new(8, 4, 3, &[1, 2, 3])?);
    for component in 0..3u8 {
        let lines = LINES[usize::from(component)];
        for line in 0..rows.min(3) {
            partial.insert(component, line, lines[usize::from(line)])?;
        }
    }
    Ok(partial)
}

/// Feeds a slice, of which no test has so many bytes that they could not be counted.
fn feed_slice(reader: &mut ProfileReader, slice: &[u8]) -> Result<(), AllocError> {
    let fed = reader.fed();
    if fed > 1_000_000 || slice.len() > 1_000_000 {
        return Err(AllocError);
    }
    reader.feed(slice)
}

/// A reader that was refused once is refused for good.
fn check_refused(rt: &impl Abort, mut reader: ProfileReader) {
    assert!(rt; feed_slice(&mut reader, &[0xFF, 0xD9]).is_err());
    match reader.finish() {
        Ok(_) => panic!(rt; "a reader that was refused has read a copy"),
        Err(fault) => assert!(rt; fault == CopyFault::OutOfMemory),
    }
}

/// Feeds a whole copy in slices of this size.
fn feed_slices(rt: &impl Abort, alloc: Global, copy: &[u8], size: usize) -> Result<Met, Stopped> {
    let wanted = lines_of(alloc, 3)?;
    let mut reader = ProfileReader::new(alloc, Profile::Wide);
    for slice in copy.chunks(size.max(1)) {
        if feed_slice(&mut reader, slice).is_err() {
            check_refused(rt, reader);
            return Ok(Met::Refused);
        }
    }
    match reader.finish() {
        Ok(read) => assert!(rt; *read.partial() == wanted),
        Err(_) => return Err(Stopped),
    }
    Ok(Met::Done)
}

#[test]
fn feed_by_sample(rt: HostRuntime) {
    let mut tally = Tally::of("ProfileReader::feed, and finish after it");
    for copy in [ONE_INTERVAL, TWO_INTERVALS] {
        for size in [1, 7, 4096] {
            tally.note(&rt, feed_slices(&rt, rt.alloc(), copy, size));
        }
    }
    assert!(rt; tally.is_single());
}

/// What a copy without its last bytes gives: its last piece is read at the end of the input.
fn read_cut(alloc: Global, copy: &[u8]) -> Result<Result<Partial, CopyFault>, Stopped> {
    let mut reader = ProfileReader::new(alloc, Profile::Wide);
    feed_slice(&mut reader, copy)?;
    Ok(match reader.finish() {
        Ok(read) => Ok(read.into_partial()),
        Err(fault) => Err(fault),
    })
}

/// A copy without its last bytes gives the lines of the first rows.
fn finish_one(rt: &impl Abort, alloc: Global, copy: &[u8], rows: u16) -> Result<Met, Stopped> {
    let wanted = lines_of(alloc, rows)?;
    let mut met = Met::Done;
    let mut read = read_cut(alloc, copy)?;
    if let Err(fault) = &read {
        met = Met::Refused;
        assert!(rt; *fault == CopyFault::OutOfMemory);
        read = read_cut(alloc, copy)?;
    }
    match read {
        Ok(partial) => assert!(rt; partial == wanted),
        Err(fault) => panic!(rt; "{fault:?}"),
    }
    Ok(met)
}

/// Copies, how many of their last bytes are wanting, and how many rows still stand whole. CharLS writes row 0 alone in 6 bytes, and rows 0
/// and 1 in 14.
const CUTS: [(&[u8], usize, u16); 5] = [
    (ONE_INTERVAL, 2, 3),
    (ONE_INTERVAL, 3, 2),
    (ONE_INTERVAL, 14, 1),
    (ONE_INTERVAL, 22, 0),
    (TWO_INTERVALS, 2, 3),
];

#[test]
fn finish_by_sample(rt: HostRuntime) {
    let mut tally = Tally::of("ProfileReader::finish");
    for (copy, wanting, rows) in CUTS {
        let copy = &copy[..copy.len().saturating_sub(wanting)];
        tally.note(&rt, finish_one(&rt, rt.alloc(), copy, rows));
    }
    assert!(rt; tally.is_single());
}
