//! The mended file of a copy: its own bytes, and the code of known lines in place of what differs from it. A piece whose lines are not all
//! known can end it, since its first lines count only at the end of a file.

use crate::claims::{CopyState, bytes_of};
use crate::code::{FirstCode, read_lines};
use crate::codes::{Codes, PieceIndex};
use crate::interval::Interval;
use crate::picture::Picture;
use crate::pieces::Piece;
use jls_marker::codes::{EOI, RST0};
use std::alloc::{AllocError, Global};

/// A copy that is mended.
#[derive(Drop)]
struct Mending<'m, 'c> {
    alloc: Global,
    picture: &'m Picture,
    copy: &'m CopyState<'c>,
    /// The mended file so far.
    bytes: Vec<u8>,
    /// How many bytes of the copy it stands for.
    taken: usize,
    /// Where the pieces in hand begin in it, which have their bytes in common.
    region: usize,
    /// Whether a line of these pieces is unknown, so that the copy's own bytes stand from there on.
    is_stopped: bool,
    /// How many lines are known so far.
    known: usize,
    /// The piece at whose last known line the file is cut, if it is.
    cut: Option<usize>,
    /// Whether it was cut.
    is_cut: bool,
}

/// The settled readings of the first lines of an interval, as far as they can be coded there.
fn settled_readings(
    alloc: Global,
    picture: &Picture,
    interval: &Interval,
) -> Result<Vec<usize>, AllocError> {
    let mut readings = Vec::new(alloc);
    for line in 0..interval.line_count() {
        let place = interval.place(line);
        let Some(reading) = picture.settled(place) else {
            break;
        };
        if !picture.is_at_most(place, reading, interval.params.maxval()) {
            break;
        }
        readings.push(reading)?;
    }
    Ok(readings)
}

/// Whether a copy has all lines of a piece from this one on, be it in a dispute.
fn has_all_from(picture: &Picture, copy: &CopyState<'_>, piece: &Piece, line: usize) -> bool {
    (line..piece.interval.line_count()).all(|line| {
        picture
            .own(piece.interval.place(line), copy.number)
            .is_some()
    })
}

/// The code of the first lines of a piece, and then what its copy has. That goes on from where the code has moved to in it, or else from an
/// offset in its own bytes.
fn with_own_bytes(
    alloc: Global,
    copy: &CopyState<'_>,
    index: usize,
    piece: &Piece,
    code: &FirstCode,
    offset: usize,
) -> Result<Vec<u8>, AllocError> {
    let from = match copy.progress.get(index) {
        Some(progress) if !code.bytes.is_empty() => progress.shift.in_copy(code.bytes.len()),
        _ => Some(offset),
    };
    let own = bytes_of(copy.bytes, piece);
    let rest = from.and_then(|from| own.get(from..)).unwrap_or(&[]);
    code.followed_by(alloc, rest)
}

/// Whether a piece reads to its end where its first lines have these readings, and its copy's own bytes stand behind them. A copy can have
/// a reading of each line behind them, and the piece be faulty all the same. A line can come from another place of it.
fn closes_behind(
    alloc: Global,
    picture: &Picture,
    codes: &mut Codes,
    copy: &CopyState<'_>,
    index: usize,
    piece: &Piece,
    readings: &[usize],
) -> Result<bool, AllocError> {
    let line = readings.len();
    let closes = copy
        .claim(piece.interval.place(line))
        .is_some_and(|claim| claim.closes && claim.piece == index);
    if closes || !has_all_from(picture, copy, piece, line) {
        return Ok(closes);
    }
    let number = PieceIndex {
        copy: copy.number,
        piece: index,
    };
    let Some(code) = codes.code_of(picture, number, &piece.interval, readings)? else {
        return Ok(true);
    };
    let bytes = with_own_bytes(alloc, copy, index, piece, &code, 0)?;
    Ok(read_lines(alloc, piece, &bytes)?.closes)
}

/// The piece at whose last known line the mended file is best cut. More lines stand whole in it than in all pieces that read.
fn best_cut(
    alloc: Global,
    picture: &Picture,
    codes: &mut Codes,
    copy: &CopyState<'_>,
) -> Result<Option<usize>, AllocError> {
    let mut whole = 0usize;
    let mut cut = None;
    let mut most = 0usize;
    for (index, piece) in copy.pieces.iter().enumerate() {
        let readings = settled_readings(alloc, picture, &piece.interval)?;
        let known = readings.len();
        if known == piece.interval.line_count()
            || closes_behind(alloc, picture, codes, copy, index, piece, &readings)?
        {
            whole = whole.saturating_add(piece.interval.line_count());
        } else if known > 0 && whole.saturating_add(known) > most {
            cut = Some(index);
            most = whole.saturating_add(known);
        }
    }
    Ok(if most > whole { cut } else { None })
}

impl Mending<'_, '_> {
    /// Appends bytes of the copy, up to an offset.
    fn take_to(&mut self, end: usize) -> Result<(), AllocError> {
        if let Some(own) = self.copy.bytes.get(self.taken..end) {
            self.bytes.extend_from_slice(own)?;
        }
        self.taken = self.taken.max(end);
        Ok(())
    }

    /// Appends a piece all of whose lines are known.
    fn add_whole(&mut self, code: &FirstCode, own: &[u8]) -> Result<(), AllocError> {
        self.bytes.extend_from_slice(&code.bytes)?;
        if let Some(byte) = code.last_byte(own) {
            self.bytes.push(byte)?;
        }
        Ok(())
    }

    /// Appends the code of the first lines of a piece, and then what its copy has, unless the file is cut there.
    fn add_begin(
        &mut self,
        index: usize,
        piece: &Piece,
        code: &FirstCode,
    ) -> Result<(), AllocError> {
        if self.cut == Some(index) {
            self.is_cut = true;
            return self.bytes.extend_from_slice(&code.bytes);
        }
        let offset = self.bytes.len().saturating_sub(self.region);
        let all = with_own_bytes(self.alloc, self.copy, index, piece, code, offset)?;
        self.bytes.extend_from_slice(&all)
    }

    /// Appends a piece. `is_last` says whether it is the last of those that have their bytes in common.
    fn add(
        &mut self,
        codes: &mut Codes,
        index: usize,
        piece: &Piece,
        is_last: bool,
    ) -> Result<(), AllocError> {
        if self.is_cut {
            return Ok(());
        }
        if piece.begins {
            self.take_to(piece.start)?;
            self.region = self.bytes.len();
            self.is_stopped = false;
        } else {
            if self.is_stopped {
                return Ok(());
            }
            let mark = piece.number.wrapping_add(7) % 8;
            self.bytes.push(0xFF)?;
            self.bytes.push(RST0.saturating_add(mark as u8))?;
        }
        let interval = &piece.interval;
        let readings = settled_readings(self.alloc, self.picture, interval)?;
        let own = bytes_of(self.copy.bytes, piece);
        let number = PieceIndex {
            copy: self.copy.number,
            piece: index,
        };
        match codes.code_of(self.picture, number, interval, &readings)? {
            None => self.bytes.extend_from_slice(own)?,
            Some(code) => {
                if readings.len() == interval.line_count() {
                    self.known = self.known.saturating_add(readings.len());
                    self.add_whole(&code, if is_last { own } else { &[] })?;
                    if is_last {
                        self.taken = piece.end;
                    }
                    return Ok(());
                }
                self.add_begin(index, piece, &code)?;
            }
        }
        self.is_stopped = true;
        self.taken = piece.end;
        Ok(())
    }
}

/// The mended file of a copy. It has the copy's headers, markers and other segments, and the markers between pieces that were lost. It is
/// cut at the last known line of a piece, if more lines stand whole in it then. EOI is added behind a file that lacks it, if all lines of
/// the picture are known and stand in it.
pub(crate) fn mended_file<'m>(
    alloc: Global,
    picture: &'m Picture,
    codes: &mut Codes,
    copy: &'m CopyState<'_>,
    has_eoi: bool,
) -> Result<Vec<u8>, AllocError> {
    let mut mending = Mending {
        alloc,
        picture,
        copy,
        bytes: Vec::new(alloc),
        taken: 0,
        region: 0,
        is_stopped: false,
        known: 0,
        cut: best_cut(alloc, picture, codes, copy)?,
        is_cut: false,
    };
    for (index, piece) in copy.pieces.iter().enumerate() {
        let next = copy.pieces.get(index.saturating_add(1));
        let is_last = next.is_none_or(|next| next.begins);
        mending.add(codes, index, piece, is_last)?;
    }
    if !mending.is_cut {
        mending.take_to(copy.bytes.len())?;
    }
    if !has_eoi && mending.known == picture.len() {
        mending.bytes.push(0xFF)?;
        mending.bytes.push(EOI)?;
    }
    let Mending { bytes, .. } = mending;
    Ok(bytes)
}
