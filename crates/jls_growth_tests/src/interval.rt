//! Intervals, both ways.

ghost use Rattle.std.specs.Prelude.{◌*◌, ◌^◌, ◌≤◌};

use crate::four::{FOUR_LINES, FOUR_LINES_CODE};
use crate::met::{Met, Stopped, Tally};
use jls_interval::{
    CutEnd, FinishedLines, IntervalDecoder, PieceFault, decode_interval, encode_interval, fits,
};
use jls_values::Params;
use std::alloc::{AllocError, Global};
use std::process::Abort;

/// The lines of an interval of 8 bits and one component, and the bytes that they are written as.
#[derive(Clone, Copy)]
struct Interval {
    width: u16,
    rows: u32,
    lines: &'static [&'static [u16]],
    piece: &'static [u8],
}

/// A line of one zero.
const ZERO: &[u16] = &[0];

/// One sample; four lines; 200 lines of one zero, each of which is a one: 15 ones are FF 7F.
const INTERVALS: [Interval; 3] = [
    Interval {
        width: 1,
        rows: 1,
        lines: &[&[3]],
        piece: &[0x28],
    },
    Interval {
        width: 4,
        rows: 4,
        lines: FOUR_LINES,
        piece: FOUR_LINES_CODE,
    },
    Interval {
        width: 1,
        rows: 200,
        lines: &[ZERO; 200],
        piece: &[
            0xFF, 0x7F, 0xFF, 0x7F, 0xFF, 0x7F, 0xFF, 0x7F, 0xFF, 0x7F, 0xFF, 0x7F, 0xFF, 0x7F,
            0xFF, 0x7F, 0xFF, 0x7F, 0xFF, 0x7F, 0xFF, 0x7F, 0xFF, 0x7F, 0xFF, 0x7F, 0xF8,
        ],
    },
];

/// The parameters of 8 bits.
fn params() -> Result<Params, Stopped> {
    match Params::new(8, 0, 0, 0, 0, 0) {
        Ok(params) => Ok(params),
        Err(_) => Err(Stopped),
    }
}

fn are_lines(read: &[Vec<u16>], lines: &[&[u16]]) -> bool {
    if read.len() != lines.len() {
        return false;
    }
    for (line, wanted) in read.iter().zip(lines.iter()) {
        if line.as_slice() != *wanted {
            return false;
        }
    }
    true
}

impl Interval {
    /// A decoder of no byte.
    fn decoder(&self, alloc: Global) -> Result<IntervalDecoder, Stopped> {
        let params = params()?;
        let (width, rows) = (self.width.max(1), self.rows.max(1).min(4096));
        Ok(IntervalDecoder::new(alloc, &params, width, 1, rows))
    }

    /// What the whole piece reads as.
    fn decoded(&self, alloc: Global) -> Result<Result<Vec<Vec<u16>>, PieceFault>, Stopped> {
        let params = params()?;
        let (width, rows) = (self.width.max(1), self.rows.max(1).min(4096));
        Ok(decode_interval(alloc, &params, width, 1, rows, self.piece))
    }
}

fn encode_one(rt: &impl Abort, alloc: Global, interval: &Interval) -> Result<Met, Stopped> {
    let params = params()?;
    let &Interval { width, lines, .. } = interval;
    if !fits(&params, width, 1, lines) {
        return Err(Stopped);
    }
    let mut met = Met::Done;
    let mut bytes = encode_interval(alloc, &params, width, 1, lines);
    if bytes.is_err() {
        met = Met::Refused;
        bytes = encode_interval(alloc, &params, width, 1, lines);
    }
    assert!(rt; bytes?.as_slice() == interval.piece);
    Ok(met)
}

#[test]
fn encode(rt: HostRuntime) {
    let mut tally = Tally::of("encode_interval");
    for interval in &INTERVALS {
        tally.note(&rt, encode_one(&rt, rt.alloc(), interval));
    }
    assert!(rt; tally.is_single());
}

fn decode_one(rt: &impl Abort, alloc: Global, interval: &Interval) -> Result<Met, Stopped> {
    let mut met = Met::Done;
    let mut read = interval.decoded(alloc)?;
    if let Err(fault) = &read {
        met = Met::Refused;
        assert!(rt; *fault == PieceFault::OutOfMemory);
        read = interval.decoded(alloc)?;
    }
    match read {
        Ok(lines) => assert!(rt; are_lines(&lines, interval.lines)),
        Err(fault) => panic!(rt; "{fault:?}"),
    }
    Ok(met)
}

#[test]
fn decode(rt: HostRuntime) {
    let mut tally = Tally::of("decode_interval");
    for interval in &INTERVALS {
        tally.note(&rt, decode_one(&rt, rt.alloc(), interval));
    }
    assert!(rt; tally.is_single());
}

/// A decoder that was refused once is refused for good: the answer is out of memory, whatever it is asked.
fn check_refused(rt: &impl Abort, mut decoder: IntervalDecoder) {
    assert!(rt; decoder.push(0).is_err());
    assert!(rt; decoder.push_all(&[0, 0, 0]).is_err());
    match decoder.finish() {
        Ok(_) => panic!(rt; "a decoder that was refused has lines"),
        Err(fault) => assert!(rt; fault == PieceFault::OutOfMemory),
    }
}

/// Compares lines that no clone shares with those of the interval. That takes no memory, since they are few.
fn check_vecs(rt: &impl Abort, lines: FinishedLines, interval: &Interval) {
    match lines.into_vecs() {
        Ok(lines) => assert!(rt; are_lines(&lines, interval.lines)),
        Err(AllocError) => panic!(rt; "no line is shared"),
    }
}

/// Asks a decoder for its lines that took the whole piece.
fn check_lines(rt: &impl Abort, decoder: IntervalDecoder, interval: &Interval) {
    match decoder.finish() {
        Ok(lines) => check_vecs(rt, lines, interval),
        Err(fault) => panic!(rt; "{fault:?}"),
    }
}

/// Pushes a piece in slices of this size.
fn push_slices(
    rt: &impl Abort,
    alloc: Global,
    interval: &Interval,
    size: usize,
) -> Result<Met, Stopped> {
    let mut decoder = interval.decoder(alloc)?;
    for slice in interval.piece.chunks(size.max(1)) {
        if decoder.push_all(slice).is_err() {
            check_refused(rt, decoder);
            return Ok(Met::Refused);
        }
    }
    check_lines(rt, decoder, interval);
    Ok(Met::Done)
}

#[test]
fn push_all(rt: HostRuntime) {
    let mut tally = Tally::of("IntervalDecoder::push_all, and finish after it");
    for interval in &INTERVALS {
        for size in [2, 4096] {
            tally.note(&rt, push_slices(&rt, rt.alloc(), interval, size));
        }
    }
    assert!(rt; tally.is_single());
}

/// Pushes a piece byte by byte.
fn push_bytes(rt: &impl Abort, alloc: Global, interval: &Interval) -> Result<Met, Stopped> {
    let mut decoder = interval.decoder(alloc)?;
    for byte in interval.piece {
        if decoder.push(*byte).is_err() {
            check_refused(rt, decoder);
            return Ok(Met::Refused);
        }
    }
    check_lines(rt, decoder, interval);
    Ok(Met::Done)
}

#[test]
fn push(rt: HostRuntime) {
    let mut tally = Tally::of("IntervalDecoder::push, and finish after it");
    for interval in &INTERVALS {
        tally.note(&rt, push_bytes(&rt, rt.alloc(), interval));
    }
    assert!(rt; tally.is_single());
}

/// Pushes a piece byte by byte, and asks for what stands whole where the input ends after it.
fn cut_one(rt: &impl Abort, alloc: Global, interval: &Interval) -> Result<Met, Stopped> {
    let mut decoder = interval.decoder(alloc)?;
    for byte in interval.piece {
        if decoder.push(*byte).is_err() {
            assert!(rt; decoder.push(*byte).is_err());
            assert!(rt; decoder.finish_cut().is_err());
            return Ok(Met::Refused);
        }
    }
    match decoder.finish_cut() {
        Ok(CutEnd::Whole(lines)) => check_vecs(rt, lines, interval),
        Ok(CutEnd::Head(_, fault)) => panic!(rt; "{fault:?}"),
        Err(AllocError) => panic!(rt; "no memory is taken"),
    }
    Ok(Met::Done)
}

#[test]
fn finish_cut(rt: HostRuntime) {
    let mut tally = Tally::of("IntervalDecoder::finish_cut, after a push");
    for interval in &INTERVALS {
        tally.note(&rt, cut_one(&rt, rt.alloc(), interval));
    }
    assert!(rt; tally.is_single());
}
