//! What is written of a picture: segments, reports and files.

use crate::met::{Met, Stopped, Tally};
use crate::room::Room;
use crate::ten::{copy_of, lines_of};
use jls_io::Counted;
use jls_marker::{Segment, write_segment};
use jls_partial::Partial;
use jls_report::Report;
use jls_values::{Params, Shape};
use jls_write::{Options, OutputFault, Picture, write_jls};
use std::alloc::{AllocError, Global};
use std::fmt::Write;
use std::process::Abort;

/// The segments that set a restart interval of 5 lines, after so many others.
fn write_segments(rt: &impl Abort, alloc: Global, count: usize) -> Result<Met, Stopped> {
    let mut met = Met::Done;
    let mut bytes = Vec::new(alloc);
    for _ in 0..count {
        let before = bytes.len();
        if let Err(AllocError) = write_segment(&mut bytes, &Segment::Restart(5)) {
            met = Met::Refused;
            assert!(rt; bytes.len() == before);
            assert!(rt; write_segment(&mut bytes, &Segment::Restart(5)) == Ok(()));
        }
    }
    let mut segments = 0usize;
    for segment in bytes.chunks(6) {
        assert!(rt; segment == [0xFF, 0xDD, 0, 4, 0, 5].as_slice());
        segments = segments.saturating_add(1);
    }
    assert!(rt; segments == count);
    Ok(met)
}

#[test]
fn segments(rt: HostRuntime) {
    let mut tally = Tally::of("write_segment");
    for count in [1, 500] {
        tally.note(&rt, write_segments(&rt, rt.alloc(), count));
    }
    assert!(rt; tally.is_single());
}

/// Every other line of a picture, from line 1 on, as 3 and as 5: each of these is disputed, and each other one missing.
fn every_other(alloc: Global, height: u16) -> Result<Partial, Stopped> {
    let mut partial = Partial::empty(alloc, Shape::new(8, 1, height, &[1])?);
    for line in 0..height {
        if line % 2 == 1 {
            partial.insert(0, line, &[3])?;
            partial.insert(0, line, &[5])?;
        }
    }
    Ok(partial)
}

/// The text of its report.
fn report_text(alloc: Global, height: u16) -> Result<String, Stopped> {
    let mut text = String::new(alloc);
    let disputed = height / 2;
    let missing = height - disputed;
    write!(text, "picture 1x{height}, 8 bits, components 1\n")?;
    write!(text, "settled 0, missing {missing}, disputed {disputed}\n")?;
    for line in 0..height {
        if line % 2 == 1 {
            write!(text, "disputed 1 {line} 2\n")?;
        } else {
            write!(text, "missing 1 {line}-{line}\n")?;
        }
    }
    Ok(text)
}

fn report_one(rt: &impl Abort, alloc: Global, height: u16) -> Result<Met, Stopped> {
    let partial = every_other(alloc, height)?;
    let text = report_text(alloc, height)?;
    let mut met = Met::Done;
    let mut report = Report::of(alloc, &partial);
    if report.is_err() {
        met = Met::Refused;
        report = Report::of(alloc, &partial);
    }
    assert!(rt; report?.to_text(alloc)?.as_slice() == text.as_bytes());
    Ok(met)
}

#[test]
fn report(rt: HostRuntime) {
    let mut tally = Tally::of("Report::of");
    for height in [1, 200] {
        tally.note(&rt, report_one(&rt, rt.alloc(), height));
    }
    assert!(rt; tally.is_single());
}

fn print_one(rt: &impl Abort, alloc: Global, height: u16) -> Result<Met, Stopped> {
    let report = Report::of(alloc, &every_other(alloc, height)?)?;
    let wanted = report_text(alloc, height)?;
    let mut met = Met::Done;
    let mut text = report.to_text(alloc);
    if text.is_err() {
        met = Met::Refused;
        text = report.to_text(alloc);
    }
    assert!(rt; text?.as_slice() == wanted.as_bytes());
    Ok(met)
}

#[test]
fn to_text(rt: HostRuntime) {
    let mut tally = Tally::of("Report::to_text");
    for height in [1, 200] {
        tally.note(&rt, print_one(&rt, rt.alloc(), height));
    }
    assert!(rt; tally.is_single());
}

/// What goes out of the file of a picture, with a restart interval for each line, and the count that a refusal tells.
fn written(
    rt: &impl Abort,
    alloc: Global,
    partial: &Partial,
) -> Result<(Option<u64>, Room), Stopped> {
    let mut room = Room::of(alloc, 10_000)?;
    let params = match Params::new(8, 0, 0, 0, 0, 0) {
        Ok(params) => params,
        Err(_) => return Err(Stopped),
    };
    let options = Options::new(false, 1, params);
    let picture = Picture::of(partial).expect(rt, "a line is not settled");
    assert!(rt; options.fits(&picture));
    match write_jls(alloc, &picture, &options, &mut Counted::new(&mut room)) {
        Ok(()) => Ok((None, room)),
        Err(OutputFault::OutOfMemory(count)) => Ok((Some(count), room)),
        Err(OutputFault::Write(_)) => panic!(rt; "no write fails"),
    }
}

/// Exactly the first `count` bytes have gone out where memory runs out, and all of them else.
fn write_file(rt: &impl Abort, alloc: Global, height: u16) -> Result<Met, Stopped> {
    let file = copy_of(alloc, height)?;
    let partial = lines_of(alloc, height)?;
    let mut met = Met::Done;
    let (mut refused, mut room) = written(rt, alloc, &partial)?;
    if let Some(count) = refused {
        met = Met::Refused;
        assert!(rt; Some(room.held()) == file.get(..count as usize));
        let again = written(rt, alloc, &partial)?;
        refused = again.0;
        room = again.1;
    }
    assert!(rt; refused == None);
    assert!(rt; room.held() == file.as_slice());
    Ok(met)
}

#[test]
fn write_jls_of_lines(rt: HostRuntime) {
    let mut tally = Tally::of("write_jls");
    for height in [1, 10, 60] {
        tally.note(&rt, write_file(&rt, rt.alloc(), height));
    }
    assert!(rt; tally.is_single());
}
