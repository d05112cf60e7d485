//! Whole copies, read in slices of several sizes.

use crate::known::{FOUR_LINES, INTERVALS, TEN_LINES, copies};
use jls_copy::{CopyFault, CopyRead, CopyReader};
use std::alloc::Global;
use std::fmt::Write;
use std::process::Abort;
use std::test::Fail;

/// The bytes that hexadecimal digits spell.
pub fn bytes_of(alloc: Global, text: &str) -> Result<Vec<u8>, Fail> {
    let mut bytes = Vec::new(alloc);
    for digits in text.split_whitespace() {
        bytes.push(u8::from_str_radix(digits, 16)?)?;
    }
    Ok(bytes)
}

/// Feeds a piece, of which no test has so many bytes that they could not be counted.
pub fn feed_piece(reader: &mut CopyReader, piece: &[u8]) -> Result<(), CopyFault> {
    let fed = reader.fed();
    if fed > 1_000_000 || piece.len() > 1_000_000 {
        return Err(CopyFault::OutOfMemory);
    }
    match reader.feed(piece) {
        Ok(()) => Ok(()),
        Err(_) => Err(CopyFault::OutOfMemory),
    }
}

/// The sizes of slices; 0 stands for slices that end after each byte 0xFF.
const SIZES: [usize; 6] = [0, 1, 2, 3, 7, 4096];

/// Feeds a copy in slices that end after each byte 0xFF.
fn feed_to_each_ff(reader: &mut CopyReader, bytes: &[u8]) -> Result<(), CopyFault> {
    let mut start = 0;
    for place in 0..bytes.len() {
        if bytes[place] == 0xFF {
            feed_piece(reader, &bytes[start..place + 1])?;
            start = place + 1;
        }
    }
    feed_piece(reader, &bytes[start..])
}

/// Feeds a copy in slices of this size.
fn feed_in_pieces(reader: &mut CopyReader, bytes: &[u8], size: usize) -> Result<(), CopyFault> {
    if size == 0 {
        return feed_to_each_ff(reader, bytes);
    }
    for piece in bytes.chunks(size) {
        feed_piece(reader, piece)?;
    }
    Ok(())
}

/// What a reader says of a copy that comes in slices of this size.
pub fn read_in_pieces(alloc: Global, bytes: &[u8], size: usize) -> Result<CopyRead, CopyFault> {
    let mut reader = CopyReader::new(alloc);
    feed_in_pieces(&mut reader, bytes, size)?;
    reader.finish()
}

/// The readings of one line.
fn put_line(out: &mut String, read: &CopyRead, component: u8, line: u16) -> Result<(), Fail> {
    let partial = read.partial();
    let shape = partial.shape();
    if usize::from(component) >= shape.ids().len() || line >= shape.height() {
        return Ok(());
    }
    for i in 0..partial.count(component, line) {
        write!(
            out,
            "{component}.{line}={:?} ",
            partial.reading(component, line, i)
        )?;
    }
    Ok(())
}

fn put_lines(out: &mut String, read: &CopyRead) -> Result<(), Fail> {
    let shape = read.partial().shape();
    for component in 0..shape.ids().len() as u8 {
        for line in 0..shape.height() {
            put_line(out, read, component, line)?;
        }
    }
    Ok(())
}

/// The records of the faulty pieces.
fn put_pieces(out: &mut String, read: &CopyRead) -> Result<(), Fail> {
    for piece in read.pieces() {
        write!(
            out,
            "{} {} {} {:?}; ",
            piece.scan, piece.interval, piece.offset, piece.kind
        )?;
    }
    Ok(())
}

fn put_all(out: &mut String, read: &CopyRead) -> Result<(), Fail> {
    put_lines(out, read)?;
    write!(out, "| ")?;
    put_pieces(out, read)?;
    write!(out, "{} {:?}", read.piece_count(), read.ended())?;
    Ok(())
}

fn text_of(alloc: Global, read: &CopyRead) -> Result<String, Fail> {
    let mut out = String::new(alloc);
    put_all(&mut out, read)?;
    Ok(out)
}

/// What a copy gave, as a text: its readings, the records of its faulty pieces, and its end; or why it gave nothing.
pub fn reported(alloc: Global, read: Result<CopyRead, CopyFault>) -> Result<String, Fail> {
    match read {
        Ok(read) => text_of(alloc, &read),
        Err(fault) => Ok(format!(in alloc; "{fault:?}")?),
    }
}

/// Whether a copy gives this, in slices of this size.
fn gives(alloc: Global, bytes: &[u8], size: usize, wanted: &str) -> Result<bool, Fail> {
    let read = reported(alloc, read_in_pieces(alloc, bytes, size))?;
    Ok(read.as_str() == wanted)
}

/// Makes sure that a copy gives this, in slices of every size.
pub fn check_copy(rt: &impl Abort, alloc: Global, bytes: &[u8], wanted: &str) -> Result<(), Fail> {
    for &size in &SIZES {
        assert!(rt;
            gives(alloc, bytes, size, wanted)?,
            "in slices of {size}: {wanted}"
        );
    }
    Ok(())
}

/// Feeds a copy that has 100,000 fill bytes between these parts.
fn feed_with_fill(reader: &mut CopyReader, prefix: &[u8], back: &[u8]) -> Result<(), CopyFault> {
    let fill = [0xFF; 1000];
    feed_piece(reader, prefix)?;
    for _ in 0..100 {
        feed_piece(reader, &fill)?;
    }
    feed_piece(reader, back)
}

/// What a reader says of such a copy.
fn read_with_fill(alloc: Global, prefix: &[u8], back: &[u8]) -> Result<CopyRead, CopyFault> {
    let mut reader = CopyReader::new(alloc);
    feed_with_fill(&mut reader, prefix, back)?;
    reader.finish()
}

/// Copies, how many of their bytes stand before the fill, and what they give: the fill stands before the frame header, before EOI, and
/// before a segment whose length is 1.
const FILLED: [(&str, usize, &str); 3] = [
    (
        FOUR_LINES,
        2,
        "0.0=[0, 0, 90, 74] 0.1=[68, 50, 43, 205] 0.2=[64, 145, 145, 145] 0.3=[100, 145, 145, 145] | 0 Eoi(100055)",
    ),
    (
        FOUR_LINES,
        55,
        "0.0=[0, 0, 90, 74] 0.1=[68, 50, 43, 205] 0.2=[64, 145, 145, 145] 0.3=[100, 145, 145, 145] | 0 Eoi(100055)",
    ),
    (
        "FF D8 FF F7 00 0B 08 00 01 00 01 01 01 11 00 FF E0 00 01",
        15,
        "| 0 Header(Length, 100015)",
    ),
];

/// What a copy gives that has the fill after so many bytes.
fn filled(alloc: Global, text: &str, count: usize) -> Result<String, Fail> {
    let bytes = bytes_of(alloc, text)?;
    let (prefix, back) = bytes.split_at(count.min(bytes.len()));
    reported(alloc, read_with_fill(alloc, prefix, back))
}

#[test]
fn many_fill_bytes(rt: HostRuntime) -> Result<(), Fail> {
    for &(text, count, wanted) in &FILLED {
        assert!(rt;
            filled(rt.alloc(), text, count)?.as_str() == wanted,
            "after {count} bytes"
        );
    }
    Ok(())
}

#[test]
fn copies_in_pieces_of_every_size(rt: HostRuntime) -> Result<(), Fail> {
    let alloc = rt.alloc();
    for &(text, wanted) in copies() {
        let bytes = bytes_of(alloc, text)?;
        check_copy(&rt, alloc, &bytes, wanted)?;
    }
    Ok(())
}

#[test]
fn intervals_as_copies(rt: HostRuntime) -> Result<(), Fail> {
    let alloc = rt.alloc();
    for &(frame, data, wanted) in &INTERVALS {
        let bytes = interval_of(alloc, frame, data)?;
        check_copy(&rt, alloc, &bytes, wanted)?;
    }
    Ok(())
}

/// The copy of one component with this precision, height and width, and this scan data.
fn interval_of(alloc: Global, frame: &str, data: &str) -> Result<Vec<u8>, Fail> {
    let text = format!(in alloc;
        "FF D8 FF F7 00 0B {frame} 01 01 11 00 FF DA 00 08 01 01 00 00 00 00 {data} FF D9"
    )?;
    bytes_of(alloc, &text)
}

/// The first `end` bytes of the copy of ten lines with a restart interval each.
#[test]
fn copies_cut_anywhere(rt: HostRuntime) -> Result<(), Fail> {
    let whole = bytes_of(rt.alloc(), TEN_LINES)?;
    for end in 0..=61usize {
        check_prefix(&rt, rt.alloc(), &whole, end)?;
    }
    Ok(())
}

fn check_prefix(rt: &impl Abort, alloc: Global, whole: &[u8], end: usize) -> Result<(), Fail> {
    let wanted = read_of_prefix(alloc, end)?;
    check_copy(rt, alloc, &whole[..end.min(whole.len())], &wanted)
}

/// What these bytes give.
fn read_of_prefix(alloc: Global, end: usize) -> Result<String, Fail> {
    Ok(match end {
        0..=14 => format!(in alloc; "NoPicture(Ended, {end})")?,
        15 | 21 => format!(in alloc; "| 0 Input({end})")?,
        16..=30 => format!(in alloc; "| 0 Header(Ended, {end})")?,
        _ => lines_and_end(alloc, end)?,
    })
}

/// What these bytes give, of which some are scan data: a line for each interval that is whole, and a record of one that has no byte yet.
fn lines_and_end(alloc: Global, end: usize) -> Result<String, Fail> {
    let mut out = String::new(alloc);
    let data = if end > 31 { end - 31 } else { 0 };
    put_whole_lines(&mut out, data)?;
    put_end(&mut out, data, end)?;
    Ok(out)
}

fn put_whole_lines(out: &mut String, data: usize) -> Result<(), Fail> {
    for line in 0..10usize {
        if 3 * line < data {
            write!(out, "0.{line}=[{line}] ")?;
        }
    }
    Ok(())
}

fn put_end(out: &mut String, data: usize, end: usize) -> Result<(), Fail> {
    if end == 61 {
        write!(out, "| 0 Eoi(59)")?;
    } else if data % 3 == 0 {
        write!(out, "| 0 {} {end} Broken; 1 Input({end})", data / 3)?;
    } else {
        write!(out, "| 0 Input({end})")?;
    }
    Ok(())
}

/// A scan of one sample.
const SCAN: [u8; 11] = [0xFF, 0xDA, 0, 8, 1, 1, 0, 0, 0, 0, 0x80];

#[test]
fn seventeen_scans(rt: HostRuntime) -> Result<(), Fail> {
    let alloc = rt.alloc();
    let mut bytes = bytes_of(alloc, "FF D8 FF F7 00 0B 08 00 01 00 01 01 01 11 00")?;
    for _ in 0..17u8 {
        bytes.extend_from_slice(&SCAN)?;
    }
    check_copy(&rt, alloc, &bytes, "0.0=[0] | 0 Header(TooManyScans, 191)")
}

/// What the copy of four lines gives, of which the input ends after so many bytes of the scan data: 30 bytes and EOI.
fn read_of_cut(alloc: Global, left: usize) -> Result<String, Fail> {
    let lines = match left {
        0..6 => "",
        6..17 => "0.0=[0, 0, 90, 74] ",
        17..26 => "0.0=[0, 0, 90, 74] 0.1=[68, 50, 43, 205] ",
        26..30 => "0.0=[0, 0, 90, 74] 0.1=[68, 50, 43, 205] 0.2=[64, 145, 145, 145] ",
        _ =>
            "0.0=[0, 0, 90, 74] 0.1=[68, 50, 43, 205] 0.2=[64, 145, 145, 145] 0.3=[100, 145, 145, 145] ",
    };
    let record = if left < 30 { "0 0 25 Broken; 1" } else { "0" };
    let end = left.saturating_add(25);
    Ok(format!(in alloc; "{lines}| {record} Input({end})")?)
}

/// Whether it does, in slices of five bytes.
fn is_read_cut(alloc: Global, whole: &[u8], left: usize) -> Result<bool, Fail> {
    let wanted = read_of_cut(alloc, left)?;
    let bytes = &whole[..left.saturating_add(25).min(whole.len())];
    gives(alloc, bytes, 5, &wanted)
}

#[test]
fn cut_copies(rt: HostRuntime) -> Result<(), Fail> {
    let whole = bytes_of(rt.alloc(), FOUR_LINES)?;
    for left in 0..=31usize {
        assert!(rt;
            is_read_cut(rt.alloc(), &whole, left)?,
            "{left} bytes of scan data"
        );
    }
    Ok(())
}
