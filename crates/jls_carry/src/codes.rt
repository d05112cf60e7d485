//! The codes of first lines that were written last. Lines whose code begins one of these are not coded again.

use crate::claims::CopyState;
use crate::code::{CODES_TO_FILL_BYTE, FirstCode, front_of};
use crate::interval::Interval;
use crate::picture::Picture;
use jls_interval::Front;
use std::alloc::{AllocError, Global};

/// First lines of an interval, in its code.
#[derive(Drop)]
struct Written {
    /// The readings of the lines.
    readings: Vec<usize>,
    /// Their code, with blank lines behind them.
    front: Front,
}

/// For each copy, for each of its pieces: the code that was written last.
#[derive(Drop)]
pub(crate) struct Codes {
    alloc: Global,
    written: Vec<Vec<Option<Written>>>,
}

/// A piece of a copy, by their indices.
#[derive(Clone, Copy)]
pub(crate) struct PieceIndex {
    pub(crate) copy: usize,
    pub(crate) piece: usize,
}

/// Writes these readings of the first lines of an interval, as far as they have a code. Blank lines behind them fill the last byte. `None`
/// comes where they can't be coded there.
fn write(
    alloc: Global,
    picture: &Picture,
    interval: &Interval,
    readings: &[usize],
) -> Result<Option<Front>, AllocError> {
    let blank = vec![in alloc; 0u16; usize::from(interval.width)]?;
    let mut lines: Vec<&[u16]> = Vec::new(alloc);
    let count = interval.coded_lines(readings.len());
    for (line, reading) in readings.iter().take(count).enumerate() {
        lines.push(picture.samples(interval.place(line), *reading))?;
    }
    for _ in 0..interval.lines_to_fill(count, CODES_TO_FILL_BYTE) {
        lines.push(&blank)?;
    }
    front_of(alloc, interval, &lines)
}

/// The code of these readings of the first lines of an interval; `None` where they can't be coded there.
pub(crate) fn code_of(
    alloc: Global,
    picture: &Picture,
    interval: &Interval,
    readings: &[usize],
) -> Result<Option<FirstCode>, AllocError> {
    match write(alloc, picture, interval, readings)? {
        None => Ok(None),
        Some(front) => FirstCode::of(alloc, &front, interval.coded_lines(readings.len())),
    }
}

impl Codes {
    /// None yet, of these copies.
    pub(crate) fn new(alloc: Global, copies: &[CopyState<'_>]) -> Result<Codes, AllocError> {
        let mut written = Vec::new(alloc);
        for copy in copies {
            let mut codes = Vec::new(alloc);
            for _ in 0..copy.pieces.len() {
                codes.push(None)?;
            }
            written.push(codes)?;
        }
        Ok(Codes { alloc, written })
    }

    /// The code of these readings, if it begins the one that was written last of this piece.
    fn known(
        &self,
        index: PieceIndex,
        interval: &Interval,
        readings: &[usize],
    ) -> Result<Option<FirstCode>, AllocError> {
        let Some(Some(Some(written))) = self
            .written
            .get(index.copy)
            .map(|pieces| pieces.get(index.piece))
        else {
            return Ok(None);
        };
        if !written.readings.starts_with(readings) {
            return Ok(None);
        }
        let count = interval.coded_lines(readings.len());
        FirstCode::of(self.alloc, &written.front, count)
    }

    /// The code of these readings of the first lines of an interval, which a piece holds; `None` where they can't be coded there.
    pub(crate) fn code_of(
        &mut self,
        picture: &Picture,
        index: PieceIndex,
        interval: &Interval,
        readings: &[usize],
    ) -> Result<Option<FirstCode>, AllocError> {
        let known = self.known(index, interval, readings)?;
        if known.is_some() {
            return Ok(known);
        }
        let Some(front) = write(self.alloc, picture, interval, readings)? else {
            return Ok(None);
        };
        let code = FirstCode::of(self.alloc, &front, interval.coded_lines(readings.len()))?;
        let readings = Vec::from_slice(self.alloc, readings)?;
        if let Some(pieces) = self.written.get_mut(index.copy) {
            if let Some(slot) = pieces.get_mut(index.piece) {
                *slot = Some(Written { readings, front });
            }
        }
        Ok(code)
    }
}
