//! First lines of a piece, as copies say them, in the piece's code: where the piece has other bytes.

use crate::between::reading_by;
use crate::claims::{CopyState, bytes_of};
use crate::coded::Coded;
use crate::codes::code_of;
use crate::interval::Interval;
use crate::picture::Picture;
use crate::pieces::Piece;
use crate::runs::has_news;
use crate::shifts::Shift;
use std::alloc::{AllocError, Global};

/// How many bytes of a piece with flipped bits are wrong at most.
pub(crate) const MOST_FLIPPED: usize = 2;

/// First lines of a piece, in its code.
#[derive(Drop)]
pub(crate) struct CodedLines {
    pub(crate) readings: Vec<usize>,
    pub(crate) code: Coded,
    /// Where the piece has these bytes.
    pub(crate) shift: Shift,
    /// Whether they are all its lines, and its bytes end with them.
    pub(crate) is_whole: bool,
}

/// Where a piece and a code part.
#[derive(Clone, Copy)]
pub(crate) struct Gap {
    /// How many bytes differ up to where both have the same bytes again.
    pub(crate) wrong: usize,
    /// How many lines of the code end before they part once more.
    pub(crate) confirmed: usize,
}

/// What a copy says of each line of the picture, but of so many first lines of one of its pieces alone.
pub(crate) fn said_in(
    alloc: Global,
    copy: &CopyState<'_>,
    index: usize,
    piece: &Piece,
    count: usize,
) -> Result<Vec<Option<usize>>, AllocError> {
    let mut said: Vec<Option<usize>> = vec![in alloc; None; copy.claims.len()]?;
    for line in 0..piece.interval.line_count().min(count) {
        let place = piece.interval.place(line);
        if let Some(slot) = said.get_mut(place) {
            *slot = reading_by(copy, index, place);
        }
    }
    Ok(said)
}

/// The readings of the first lines of an interval: what is settled, and else what is said. They end before the first that isn't, or that
/// can't be coded there.
fn first_readings(
    alloc: Global,
    picture: &Picture,
    interval: &Interval,
    said: &[Option<usize>],
) -> Result<Vec<usize>, AllocError> {
    let mut readings = Vec::new(alloc);
    for line in 0..interval.line_count() {
        let place = interval.place(line);
        let own = said.get(place).copied().flatten();
        let Some(reading) = picture.settled(place).or(own) else {
            break;
        };
        if !picture.is_at_most(place, reading, interval.params.maxval()) {
            break;
        }
        readings.push(reading)?;
    }
    Ok(readings)
}

/// The first lines of a piece in its code: what is settled, and else what is said. `None` comes where they have none.
pub(crate) fn coded_lines(
    alloc: Global,
    picture: &Picture,
    copy: &CopyState<'_>,
    index: usize,
    piece: &Piece,
    said: &[Option<usize>],
) -> Result<Option<CodedLines>, AllocError> {
    let readings = first_readings(alloc, picture, &piece.interval, said)?;
    let shift = copy.progress.get(index).map(|progress| progress.shift);
    let (Some(shift), Some(code)) = (shift, code_of(alloc, picture, &piece.interval, &readings)?)
    else {
        return Ok(None);
    };
    let is_whole = readings.len() == piece.interval.line_count();
    let code = Coded::of(code, is_whole, bytes_of(copy.bytes, piece))?;
    Ok(Some(CodedLines {
        readings,
        code,
        shift,
        is_whole: is_whole && piece.ends,
    }))
}

impl CodedLines {
    /// Where the code of a line begins.
    pub(crate) fn begin_of(&self, line: usize) -> usize {
        self.code.ends.begin_of(line)
    }

    /// Whether a piece has another byte at a place of the code.
    pub(crate) fn is_wrong(&self, own: &[u8], at: usize) -> bool {
        let byte = self.shift.in_copy(at).and_then(|place| own.get(place));
        byte.copied() != self.code.bytes.get(at).copied()
    }

    /// The first place from this one on at which a piece has another byte, or the end of the code.
    pub(crate) fn same_to(&self, own: &[u8], begin: usize) -> usize {
        for at in begin..self.code.bytes.len() {
            if self.is_wrong(own, at) {
                return at;
            }
        }
        self.code.bytes.len()
    }

    /// How many bytes of a piece are wrong between two places of the code.
    pub(crate) fn count_wrong(&self, own: &[u8], begin: usize, end: usize) -> usize {
        let mut count = 0usize;
        for at in begin..end.min(self.code.bytes.len()) {
            if self.is_wrong(own, at) {
                count = count.saturating_add(1);
            }
        }
        count
    }

    /// Whether the code is that of all lines, and a piece ends with it.
    pub(crate) fn ends_alike(&self, own: &[u8]) -> bool {
        self.is_whole && self.shift.in_copy(self.code.bytes.len()) == Some(own.len())
    }

    /// Whether a piece has all bytes of the code from a line on, and ends with it.
    pub(crate) fn closes_from(&self, own: &[u8], line: usize) -> bool {
        self.ends_alike(own) && self.same_to(own, self.begin_of(line)) == self.code.bytes.len()
    }

    /// The first gap of a piece from a line on; `None` where both don't have the same bytes again behind it.
    pub(crate) fn gap_from(&self, own: &[u8], line: usize) -> Option<Gap> {
        let end = self.code.bytes.len();
        let mut at = self.same_to(own, self.begin_of(line));
        for wrong in 1..MOST_FLIPPED + 2 {
            if at >= end {
                return None;
            }
            let same = at.saturating_add(1);
            at = self.same_to(own, same);
            let is_end = at >= end && self.ends_alike(own);
            if is_end || has_news(&self.code.bytes, same, at) {
                return Some(Gap {
                    wrong,
                    confirmed: self.code.lines_before(at),
                });
            }
        }
        None
    }
}
