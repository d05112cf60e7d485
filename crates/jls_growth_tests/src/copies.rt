//! Readers of copies, and stations.

ghost use Rattle.std.specs.Prelude.{◌≡◌};

use crate::met::{Met, Stopped, Tally};
use crate::readings::{CASES, Case, check_between};
use crate::ten::{copy_of, lines_of};
use jls_copy::{CopyFault, CopyReader};
use jls_io::Counted;
use jls_partial::Partial;
use jls_station::{InputFault, InputRead, Station, TakeFault, read_input};
use jls_values::{Merge, MergeFault};
use std::alloc::{AllocError, Global};
use std::process::Abort;

/// Feeds a slice, of which no test has so many bytes that they could not be counted.
fn feed_slice(reader: &mut CopyReader, slice: &[u8]) -> Result<(), AllocError> {
    let fed = reader.fed();
    if fed > 1_000_000 || slice.len() > 1_000_000 {
        return Err(AllocError);
    }
    reader.feed(slice)
}

/// A reader that was refused once is refused for good.
fn check_refused(rt: &impl Abort, mut reader: CopyReader) {
    assert!(rt; feed_slice(&mut reader, &[0xFF, 0xD9]).is_err());
    match reader.finish() {
        Ok(_) => panic!(rt; "a reader that was refused has read a copy"),
        Err(fault) => assert!(rt; fault == CopyFault::OutOfMemory),
    }
}

/// Feeds a copy of so many lines in slices of this size.
fn feed_slices(rt: &impl Abort, alloc: Global, height: u16, size: usize) -> Result<Met, Stopped> {
    let copy = copy_of(alloc, height)?;
    let wanted = lines_of(alloc, height)?;
    let mut reader = CopyReader::new(alloc);
    for slice in copy.chunks(size.max(1)) {
        if feed_slice(&mut reader, slice).is_err() {
            check_refused(rt, reader);
            return Ok(Met::Refused);
        }
    }
    match reader.finish() {
        Ok(read) => assert!(rt; *read.partial() == wanted),
        Err(_) => return Err(Stopped),
    }
    Ok(Met::Done)
}

#[test]
fn feed(rt: HostRuntime) {
    let mut tally = Tally::of("CopyReader::feed, and finish after it");
    for (height, size) in [(1, 1), (10, 4096), (60, 7), (60, 4096)] {
        tally.note(&rt, feed_slices(&rt, rt.alloc(), height, size));
    }
    assert!(rt; tally.is_single());
}

/// What a copy without its EOI gives: its last piece is read at the end of the input.
fn read_cut(alloc: Global, copy: &[u8]) -> Result<Result<Partial, CopyFault>, Stopped> {
    let mut reader = CopyReader::new(alloc);
    feed_slice(&mut reader, copy)?;
    Ok(match reader.finish() {
        Ok(read) => Ok(read.into_partial()),
        Err(fault) => Err(fault),
    })
}

fn finish_one(rt: &impl Abort, alloc: Global, height: u16) -> Result<Met, Stopped> {
    let copy = copy_of(alloc, height)?;
    let copy = &copy[..copy.len().saturating_sub(2)];
    let wanted = lines_of(alloc, height)?;
    let mut met = Met::Done;
    let mut read = read_cut(alloc, copy)?;
    if let Err(fault) = &read {
        met = Met::Refused;
        assert!(rt; *fault == CopyFault::OutOfMemory);
        read = read_cut(alloc, copy)?;
    }
    match read {
        Ok(partial) => assert!(rt; partial == wanted),
        Err(fault) => panic!(rt; "{fault:?}"),
    }
    Ok(met)
}

#[test]
fn finish(rt: HostRuntime) {
    let mut tally = Tally::of("CopyReader::finish");
    for height in [1, 10, 60] {
        tally.note(&rt, finish_one(&rt, rt.alloc(), height));
    }
    assert!(rt; tally.is_single());
}

/// A station that holds the old readings takes others, and holds both.
fn take_other(
    rt: &impl Abort,
    alloc: Global,
    old: &Partial,
    other: &Partial,
    union: &Partial,
) -> Result<Met, Stopped> {
    let mut station = Station::new(alloc, old.shape().to_owned());
    station.take(old)?;
    let mut met = Met::Done;
    if let Err(fault) = station.take(other) {
        met = Met::Refused;
        assert!(rt; fault == MergeFault::OutOfMemory);
        check_between(rt, alloc, old, station.partial(), union)?;
        assert!(rt; station.take(other) == Ok(()));
    }
    assert!(rt; *station.partial() == *union);
    Ok(met)
}

/// A station takes a picture.
fn take_one(rt: &impl Abort, alloc: Global, case: &Case<'_>) -> Result<Met, Stopped> {
    let old = case.held().partial(alloc)?;
    let union = case.both().partial(alloc)?;
    let other = case.taken().partial(alloc)?;
    take_other(rt, alloc, &old, &other, &union)
}

#[test]
fn take(rt: HostRuntime) {
    let mut tally = Tally::of("Station::take");
    for case in &CASES {
        tally.note(&rt, take_one(&rt, rt.alloc(), case));
    }
    assert!(rt; tally.is_single());
}

/// The lines that a copy of so many lines gives, under the source 7.
fn marked_lines(alloc: Global, height: u16) -> Result<Partial, Stopped> {
    let mut lines = lines_of(alloc, height)?;
    lines.mark(7)?;
    Ok(lines)
}

/// The lines under no source, and another reading of the first one.
fn other_lines(alloc: Global, height: u16) -> Result<Partial, Stopped> {
    let mut lines = lines_of(alloc, height)?;
    lines.insert(0, 0, &[200])?;
    Ok(lines)
}

/// What a station holds that held these lines, once it has taken the copy under the source 7.
fn with_marked(alloc: Global, height: u16, old: &Partial) -> Result<Partial, Stopped> {
    let mut union = marked_lines(alloc, height)?;
    union.merge(old)?;
    Ok(union)
}

/// Takes a copy under the source 7.
fn take_seven(station: &mut Station, copy: &[u8]) -> Result<(), TakeFault> {
    match station.take_copy(Some(7), &mut Counted::new(copy)) {
        Ok(_) => Ok(()),
        Err(fault) => Err(fault),
    }
}

/// A station that holds the old readings takes a copy, and holds both.
fn take_bytes(
    rt: &impl Abort,
    alloc: Global,
    old: &Partial,
    copy: &[u8],
    union: &Partial,
) -> Result<Met, Stopped> {
    let mut station = Station::new(alloc, old.shape().to_owned());
    station.take(old)?;
    let mut met = Met::Done;
    if let Err(fault) = take_seven(&mut station, copy) {
        met = Met::Refused;
        assert!(rt; fault == TakeFault::OutOfMemory);
        check_between(rt, alloc, old, station.partial(), union)?;
        assert!(rt; take_seven(&mut station, copy) == Ok(()));
    }
    assert!(rt; *station.partial() == *union);
    Ok(met)
}

/// A station that holds other readings of the lines takes a copy.
fn take_copy_of(rt: &impl Abort, alloc: Global, height: u16) -> Result<Met, Stopped> {
    let copy = copy_of(alloc, height)?;
    let old = other_lines(alloc, height)?;
    let union = with_marked(alloc, height, &old)?;
    take_bytes(rt, alloc, &old, &copy, &union)
}

#[test]
fn take_copy(rt: HostRuntime) {
    let mut tally = Tally::of("Station::take_copy");
    for height in [1, 10, 60] {
        tally.note(&rt, take_copy_of(&rt, rt.alloc(), height));
    }
    assert!(rt; tally.is_single());
}

/// What an input gives.
fn given(alloc: Global, bytes: &[u8]) -> Result<InputRead, InputFault> {
    read_input(alloc, Some(7), &mut Counted::new(bytes))
}

/// Reads an input that gives these readings.
fn read_one(
    rt: &impl Abort,
    alloc: Global,
    bytes: &[u8],
    wanted: &Partial,
) -> Result<Met, Stopped> {
    let mut met = Met::Done;
    let mut read = given(alloc, bytes);
    if let Err(fault) = &read {
        met = Met::Refused;
        assert!(rt; matches!(fault, InputFault::OutOfMemory), "{fault:?}");
        read = given(alloc, bytes);
    }
    match read {
        Ok(read) => assert!(rt; *read.partial() == *wanted),
        Err(fault) => panic!(rt; "{fault:?}"),
    }
    Ok(met)
}

/// Reads a text, which no source is added to.
fn read_text(rt: &impl Abort, alloc: Global, case: &Case<'_>) -> Result<Met, Stopped> {
    let text = case.both().under(&[2]).text(alloc)?;
    let wanted = Partial::from_bytes(alloc, &text)?;
    read_one(rt, alloc, &text, &wanted)
}

#[test]
fn read_input_of_texts(rt: HostRuntime) {
    let mut tally = Tally::of("read_input of a text");
    for case in &CASES {
        tally.note(&rt, read_text(&rt, rt.alloc(), case));
    }
    assert!(rt; tally.is_single());
}

/// Reads a copy under the source 7.
fn read_copy(rt: &impl Abort, alloc: Global, height: u16) -> Result<Met, Stopped> {
    let copy = copy_of(alloc, height)?;
    let wanted = marked_lines(alloc, height)?;
    read_one(rt, alloc, &copy, &wanted)
}

#[test]
fn read_input_of_copies(rt: HostRuntime) {
    let mut tally = Tally::of("read_input of a copy");
    for height in [1, 10, 60] {
        tally.note(&rt, read_copy(&rt, rt.alloc(), height));
    }
    assert!(rt; tally.is_single());
}
