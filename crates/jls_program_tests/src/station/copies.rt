//! Damaged copies as inputs, from sources that give so many bytes a read at most, and that end or fail after the last one.

use jls_io::Counted;
use jls_partial::Partial;
use jls_station::{Station, TakeReport, read_input};
use jls_values::Shape;
use std::alloc::Global;
use std::fmt::Write;
use std::io;
use std::io::Read;
use std::process::Abort;
use std::test::Fail;

/// A copy of ten lines of one sample, 0 to 9, each in an interval of its own.
pub const TEN: &str =
    "FF D8 FF F7 00 0B 08 00 0A 00 01 01 01 11 00 FF DD 00 04 00 01 FF DA 00 08 01 01 00 00 00 00 80 FF D0 50 FF D1 \
     70 FF D2 28 FF D3 38 FF D4 14 FF D5 1C FF D6 0A FF D7 0E FF D0 05 FF D9";

/// The bytes that a source gives; what is read of them where the source then ends, and where it then fails. Of a copy that is the line,
/// the sample of each reading; the number of faulty pieces; the end of the copy; the number of bytes that were read; and how the reading
/// stopped.
const COPIES: [(&str, &str, &str); 8] = [
    // Whole.
    (
        TEN,
        "0=0 1=1 2=2 3=3 4=4 5=5 6=6 7=7 8=8 9=9 | 0 Eoi(59) 61 Whole",
        "0=0 1=1 2=2 3=3 4=4 5=5 6=6 7=7 8=8 9=9 | 0 Eoi(59) 61 Whole",
    ),
    // Seven markers lost.
    (
        "FF D8 FF F7 00 0B 08 00 0A 00 01 01 01 11 00 FF DD 00 04 00 01 FF DA 00 08 01 01 00 00 00 00 80 FF D7 0E FF D0 05 FF D9",
        "0=0 8=8 9=9 | 0 Eoi(38) 40 Whole",
        "0=0 8=8 9=9 | 0 Eoi(38) 40 Whole",
    ),
    // Cut after FF.
    (
        "FF D8 FF F7 00 0B 08 00 0A 00 01 01 01 11 00 FF DD 00 04 00 01 FF DA 00 08 01 01 00 00 00 00 80 FF D0 50 FF D1 70 FF D2 28 \
         FF D3 38 FF",
        "0=0 1=1 2=2 3=3 4=4 | 0 Input(45) 45 Whole",
        "0=0 1=1 2=2 3=3 4=4 | 0 Input(45) 45 Failed",
    ),
    // A scan that is not lossless.
    (
        "FF D8 FF F7 00 0B 08 00 0A 00 01 01 01 11 00 FF DD 00 04 00 01 FF DA 00 08 01 01 00 01 00 00",
        "| 0 Header(Lossy, 21) 31 Whole",
        "| 0 Header(Lossy, 21) 31 Whole",
    ),
    // No byte.
    ("", "NoPicture(Ended, 0)", "Read(Failed, 0)"),
    // A byte that begins no marker.
    ("00", "NoPicture(NoSoi, 0)", "NoPicture(NoSoi, 0)"),
    // No frame before the end of the image.
    (
        "FF D8 FF D9",
        "NoPicture(NoFrame, 2)",
        "NoPicture(NoFrame, 2)",
    ),
    // Cut in the frame.
    (
        "FF D8 FF F7 00 0B 08",
        "NoPicture(Ended, 7)",
        "Read(Failed, 7)",
    ),
];

/// A stream that gives so many of its bytes a read at most, and fails after the last one if it is broken.
#[derive(Clone, Copy)]
struct Slices<'a> {
    bytes: &'a [u8],
    most: usize,
    broken: bool,
}

impl<'a> Read for Slices<'a> {
    fn read(&mut self, buf: &mut [u8]) -> io::Result<usize> {
        if self.broken && self.bytes.is_empty() {
            return Err(io::Error::from(io::ErrorKind::Interrupted));
        }
        if self.most < buf.len() {
            return self.bytes.read(&mut buf[..self.most]);
        }
        self.bytes.read(buf)
    }
}

/// The bytes that hexadecimal digits spell.
pub fn bytes_of(alloc: Global, text: &str) -> Result<Vec<u8>, Fail> {
    let mut bytes = Vec::new(alloc);
    for digits in text.split_whitespace() {
        bytes.push(u8::from_str_radix(digits, 16)?)?;
    }
    Ok(bytes)
}

/// The first sample of each reading of a line.
fn put_line(out: &mut String, partial: &Partial, line: u16) -> Result<(), Fail> {
    let shape = partial.shape();
    if shape.ids().is_empty() || line >= shape.height() {
        return Ok(());
    }
    for i in 0..partial.count(0, line) {
        if let Some(sample) = partial.reading(0, line, i).first() {
            write!(out, "{line}={sample} ")?;
        }
    }
    Ok(())
}

/// The lines of a partial picture of one component, each with the first sample of each reading. Behind them stands what was reported, if
/// there is a report: the pieces, where the copy ended, how many bytes were read, and what stopped that.
pub fn text_of(
    alloc: Global,
    partial: &Partial,
    report: Option<&TakeReport>,
) -> Result<String, Fail> {
    let mut out = String::new(alloc);
    for line in 0..partial.shape().height() {
        put_line(&mut out, partial, line)?;
    }
    if let Some(report) = report {
        let pieces = report.piece_count();
        let ended = report.ended();
        let count = report.count();
        let stop = report.stop();
        write!(out, "| {pieces} {ended:?} {count} {stop:?}")?;
    }
    Ok(out)
}

/// What is read of an input.
fn read_so(alloc: Global, slices: Slices<'_>) -> Result<String, Fail> {
    match read_input(alloc, None, &mut Counted::new(slices)) {
        Ok(read) => text_of(alloc, read.partial(), read.copy()),
        Err(fault) => Ok(format!(in alloc; "{fault:?}")?),
    }
}

/// What a station for pictures of this height takes.
fn taken_so(alloc: Global, height: u16, slices: Slices<'_>) -> Result<String, Fail> {
    let shape = match Shape::new(8, 1, height, &[1]) {
        Ok(shape) => shape,
        Err(_) => return Err(Fail::from("no shape")),
    };
    let mut station = Station::new(alloc, shape);
    match station.take_copy(None, &mut Counted::new(slices)) {
        Ok(report) => text_of(alloc, station.partial(), Some(&report)),
        Err(fault) => Ok(format!(in alloc; "{fault:?}")?),
    }
}

/// What is read of a source, and taken of it, is this.
fn check_slices(
    rt: &impl Abort,
    alloc: Global,
    slices: Slices<'_>,
    wanted: &str,
) -> Result<(), Fail> {
    let most = slices.most;
    assert!(rt;
        read_so(alloc, slices)?.as_str() == wanted,
        "{wanted} in reads of {most}"
    );
    assert!(rt;
        taken_so(alloc, 10, slices)?.as_str() == wanted,
        "{wanted} in reads of {most}"
    );
    Ok(())
}

#[test]
fn copies_in_reads_of_every_size(rt: HostRuntime) -> Result<(), Fail> {
    for &(text, ending, failing) in &COPIES {
        let bytes = bytes_of(rt.alloc(), text)?;
        for (broken, wanted) in [(false, ending), (true, failing)] {
            for most in [1usize, 7, 4096] {
                let slices = Slices {
                    bytes: &bytes,
                    most,
                    broken,
                };
                check_slices(&rt, rt.alloc(), slices, wanted)?;
            }
        }
    }
    Ok(())
}

#[test]
fn a_copy_of_another_shape(rt: HostRuntime) -> Result<(), Fail> {
    let alloc = rt.alloc();
    let bytes = bytes_of(alloc, TEN)?;
    let slices = Slices {
        bytes: &bytes,
        most: 7,
        broken: false,
    };
    assert!(rt; taken_so(alloc, 9, slices)?.as_str() == "ShapeDiffers");
    Ok(())
}
