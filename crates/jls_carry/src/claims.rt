//! What each copy says by itself: the lines that its pieces give behind those that are known.

use crate::code::{Begun, FirstCode, ReadLines, read_lines_on};
use crate::codes::{Codes, PieceIndex};
use crate::interval::Interval;
use crate::picture::Picture;
use crate::pieces::{Layout, Piece};
use crate::shifts::{NEAR, Shift, shifts_at_end};
use std::alloc::{AllocError, Global};

/// No shift is sought where a copy has so many bytes before the end of a code.
const ALIKE_AT_END: usize = 12;

/// What a copy says of a line.
#[derive(Clone, Copy)]
pub(crate) struct Claim {
    /// The index of the reading.
    pub(crate) reading: usize,
    /// The index of the piece that gave it.
    pub(crate) piece: usize,
    /// Whether that piece closes: its bytes end with its lines.
    pub(crate) closes: bool,
}

/// How far a piece was read.
#[derive(Drop)]
pub(crate) struct Progress {
    /// The readings of its first lines that were known.
    taken: Option<Vec<usize>>,
    /// The shift behind them.
    pub(crate) shift: Shift,
    /// The readings of these lines, and a decoder that was given the bytes that their code fills.
    known: Option<Known>,
}

/// Whether a piece was read behind these readings of its first lines.
fn is_taken(progress: &Progress, readings: &[usize]) -> bool {
    match &progress.taken {
        Some(taken) => *taken.as_slice() == *readings,
        None => false,
    }
}

/// First lines of a piece that are known.
#[derive(Drop)]
struct Known {
    readings: Vec<usize>,
    begun: Begun,
}

impl Known {
    /// The decoder, if these readings begin with its own.
    fn into_begun(self, readings: &[usize]) -> Option<Begun> {
        let Known {
            readings: before,
            begun,
        } = self;
        if readings.starts_with(&before) {
            Some(begun)
        } else {
            None
        }
    }
}

/// Who says something: a copy, a witness, or a splice of copies.
#[derive(Clone, Copy)]
pub(crate) struct Speaker {
    pub(crate) number: usize,
    /// The number of its coding.
    pub(crate) coding: usize,
    /// Whether each of its bytes is one of other copies of its coding. It is a splice of these, or is one of them over again.
    pub(crate) is_echo: bool,
}

impl Speaker {
    /// Whether one of two has bytes of the other, or both can have bytes of one copy.
    pub(crate) fn is_related(self, other: Speaker) -> bool {
        self.coding == other.coding && (self.is_echo || other.is_echo)
    }
}

/// A copy, and what it says.
#[derive(Drop)]
pub(crate) struct CopyState<'a> {
    pub(crate) number: usize,
    pub(crate) speaker: Speaker,
    pub(crate) bytes: &'a [u8],
    /// Whether it ends with EOI; `None` where no headers are believed of it.
    pub(crate) has_eoi: Option<bool>,
    pub(crate) pieces: Vec<Piece>,
    pub(crate) progress: Vec<Progress>,
    /// For each line of the picture.
    pub(crate) claims: Vec<Option<Claim>>,
}

/// The lines that a piece gives if its bytes go on at a shift.
#[derive(Drop)]
struct Attempt {
    read: ReadLines,
    shift: Shift,
}

impl Attempt {
    /// Whether it gives more than another: it closes, or has more lines.
    fn is_better(&self, other: &Attempt) -> bool {
        if self.read.closes != other.read.closes {
            return self.read.closes;
        }
        self.read.lines.len() > other.read.lines.len()
    }
}

/// The bytes of a piece.
pub(crate) fn bytes_of<'a>(copy: &'a [u8], piece: &Piece) -> &'a [u8] {
    copy.get(piece.start..piece.end).unwrap_or(&[])
}

/// The readings with which a copy goes on at the first lines of an interval. They end before the first that it lacks or that can't be
/// coded there.
pub(crate) fn own_readings(
    alloc: Global,
    picture: &Picture,
    copy: usize,
    interval: &Interval,
) -> Result<Vec<usize>, AllocError> {
    let mut readings = Vec::new(alloc);
    for line in 0..interval.line_count() {
        let place = interval.place(line);
        let Some(reading) = picture.own(place, copy) else {
            break;
        };
        if !picture.is_at_most(place, reading, interval.params.maxval()) {
            break;
        }
        readings.push(reading)?;
    }
    Ok(readings)
}

/// Whether a copy has the last bytes of a code at their place.
fn agrees_at_end(code: &[u8], copy: &[u8]) -> bool {
    let begin = code.len().saturating_sub(ALIKE_AT_END);
    match (code.get(begin..), copy.get(begin..code.len())) {
        (Some(last), Some(own)) => *last == *own,
        _ => false,
    }
}

/// The shifts to be tried behind the code of the known lines of a piece. Where the copy surely goes on at one, no other is tried: at a
/// wrong one it can have more lines, as these are garbage.
fn shifts_to_try(
    alloc: Global,
    piece: &Piece,
    code: &[u8],
    bytes: &[u8],
) -> Result<Vec<Shift>, AllocError> {
    if !piece.begins {
        return Ok(shifts_at_end(alloc, code, bytes, usize::MAX)?.shifts);
    }
    let mut shifts = Vec::new(alloc);
    if !code.is_empty() && !agrees_at_end(code, bytes) {
        let found = shifts_at_end(alloc, code, bytes, NEAR)?;
        if found.are_sure {
            return Ok(found.shifts);
        }
        shifts = found.shifts;
    }
    if !shifts.contains(&Shift::NONE) {
        shifts.push(Shift::NONE)?;
    }
    Ok(shifts)
}

/// A decoder that was given the bytes that the code of readings fills. It goes on from one that was given those of the first of them.
fn begun_on(
    alloc: Global,
    interval: &Interval,
    known: Option<Known>,
    readings: &[usize],
    code: &FirstCode,
) -> Result<Begun, AllocError> {
    let before = match known {
        Some(known) => known.into_begun(readings),
        None => None,
    };
    let mut begun = match before {
        Some(begun) => begun,
        None => Begun::new(alloc, interval),
    };
    begun.go_to_end(&code.bytes)?;
    Ok(begun)
}

/// The best that a piece gives, over the shifts to be tried; `None` where there is none to be tried. The decoder was given the bytes that
/// the code of the known lines fills.
fn best_attempt(
    alloc: Global,
    piece: &Piece,
    begun: &Begun,
    code: &FirstCode,
    bytes: &[u8],
) -> Result<Option<Attempt>, AllocError> {
    let mut best: Option<Attempt> = None;
    for shift in shifts_to_try(alloc, piece, &code.bytes, bytes)? {
        let rest = match shift.in_copy(code.bytes.len()) {
            None => bytes,
            Some(place) => bytes.get(place..).unwrap_or(&[]),
        };
        let all = code.followed_by(alloc, rest)?;
        let attempt = Attempt {
            read: read_lines_on(begun, piece, &all)?,
            shift,
        };
        let is_better = match &best {
            None => true,
            Some(best) => attempt.is_better(best),
        };
        if is_better {
            best = Some(attempt);
        }
    }
    Ok(best)
}

impl<'a> CopyState<'a> {
    /// A copy that has said nothing, of a picture of so many lines.
    pub(crate) fn new(
        alloc: Global,
        speaker: Speaker,
        bytes: &'a [u8],
        layout: Option<Layout>,
        lines: usize,
    ) -> Result<CopyState<'a>, AllocError> {
        let (pieces, has_eoi) = match layout {
            None => (Vec::new(alloc), None),
            Some(layout) => {
                let Layout {
                    pieces,
                    has_eoi,
                    ..
                } = layout;
                (pieces, Some(has_eoi))
            }
        };
        let mut progress = Vec::new(alloc);
        for _ in 0..pieces.len() {
            progress.push(Progress {
                taken: None,
                shift: Shift::NONE,
                known: None,
            })?;
        }
        Ok(CopyState {
            number: speaker.number,
            speaker,
            bytes,
            has_eoi,
            pieces,
            progress,
            claims: vec![in alloc; None; lines]?,
        })
    }

    /// What it says of a line.
    pub(crate) fn claim(&self, place: usize) -> Option<Claim> {
        self.claims.get(place).copied().flatten()
    }

    /// Whether it says two lines in one piece. If the first of them is wrong, the second says nothing.
    pub(crate) fn has_in_one_piece(&self, first: usize, second: usize) -> bool {
        match (self.claim(first), self.claim(second)) {
            (Some(first), Some(second)) => first.piece == second.piece,
            _ => false,
        }
    }

    fn set_claim(&mut self, place: usize, claim: Option<Claim>) {
        if let Some(slot) = self.claims.get_mut(place) {
            *slot = claim;
        }
    }

    /// Claims known readings of the first lines of a piece.
    fn claim_known(&mut self, index: usize, piece: &Piece, readings: &[usize]) {
        for (line, reading) in readings.iter().enumerate() {
            let claim = Claim {
                reading: *reading,
                piece: index,
                closes: false,
            };
            self.set_claim(piece.interval.place(line), Some(claim));
        }
    }

    /// Claims the lines that a piece gives, and nothing of those behind them.
    fn claim_lines(
        &mut self,
        picture: &mut Picture,
        index: usize,
        piece: &Piece,
        read: ReadLines,
    ) -> Result<(), AllocError> {
        let ReadLines { lines, closes } = read;
        let count = lines.len();
        for (line, samples) in lines.into_iter().enumerate() {
            let place = piece.interval.place(line);
            let reading = picture.note(place, samples)?;
            let claim = Claim {
                reading,
                piece: index,
                closes,
            };
            self.set_claim(place, Some(claim));
        }
        for line in count..piece.interval.line_count() {
            self.set_claim(piece.interval.place(line), None);
        }
        Ok(())
    }

    /// Reads a piece on from what is known, if that isn't what was known before.
    fn read_piece(
        &mut self,
        alloc: Global,
        picture: &mut Picture,
        codes: &mut Codes,
        index: usize,
        piece: &Piece,
    ) -> Result<(), AllocError> {
        let readings = own_readings(alloc, picture, self.number, &piece.interval)?;
        let Some(progress) = self.progress.get_mut(index) else {
            return Ok(());
        };
        if is_taken(progress, &readings) {
            return Ok(());
        }
        progress.taken = Some(Vec::from_slice(alloc, &readings)?);
        if readings.len() == piece.interval.line_count() {
            self.claim_known(index, piece, &readings);
            return Ok(());
        }
        let number = PieceIndex {
            copy: self.number,
            piece: index,
        };
        let Some(code) = codes.code_of(picture, number, &piece.interval, &readings)? else {
            return Ok(());
        };
        let known = progress.known.take();
        let begun = begun_on(alloc, &piece.interval, known, &readings, &code)?;
        let bytes = bytes_of(self.bytes, piece);
        let best = best_attempt(alloc, piece, &begun, &code, bytes)?;
        progress.known = Some(Known { readings, begun });
        if let Some(attempt) = best {
            progress.shift = attempt.shift;
            self.claim_lines(picture, index, piece, attempt.read)?;
        }
        Ok(())
    }

    /// Reads each piece on from what is known.
    pub(crate) fn read_on(
        &mut self,
        alloc: Global,
        picture: &mut Picture,
        codes: &mut Codes,
    ) -> Result<(), AllocError> {
        for index in 0..self.pieces.len() {
            if let Some(piece) = self.pieces.get(index).copied() {
                self.read_piece(alloc, picture, codes, index, &piece)?;
            }
        }
        Ok(())
    }
}
