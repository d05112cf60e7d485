//! Lines that a copy reads between others that are settled.
//!
//! A zeroed sector often covers a restart marker. Then no run has the last lines of the interval before it, and no copy's bytes confirm
//! them. But a copy of other intervals may have read on over them in one piece. If a line were wrong there, those behind it would be too,
//! since they are coded against it.

use crate::claims::CopyState;
use crate::picture::Picture;
use crate::pieces::Piece;
use crate::tested::Tested;
use std::alloc::{AllocError, Global};

/// How many rows behind such lines have to be settled as the copy says.
const ROWS_BEHIND: usize = 2;

/// The reading of a line by a piece of a copy.
pub(crate) fn reading_by(copy: &CopyState<'_>, index: usize, place: usize) -> Option<usize> {
    let claim = copy.claim(place)?;
    if claim.piece == index {
        Some(claim.reading)
    } else {
        None
    }
}

/// How many of the first lines of a piece are settled.
fn count_settled(picture: &Picture, piece: &Piece) -> usize {
    let count = piece.interval.line_count();
    for line in 0..count {
        if picture.settled(piece.interval.place(line)).is_none() {
            return line;
        }
    }
    count
}

/// The line behind the open ones that follow the first settled lines of a piece. Others among them can be settled, as those of another
/// component. `None` comes unless the copy reads all of these in this piece, says what is settled, and does so in enough lines behind them.
fn end_of_open(
    picture: &Picture,
    copy: &CopyState<'_>,
    index: usize,
    piece: &Piece,
    first: usize,
) -> Option<usize> {
    let wanted = usize::from(piece.interval.components).saturating_mul(ROWS_BEHIND);
    let mut end = None;
    for line in first..piece.interval.line_count() {
        let place = piece.interval.place(line);
        let reading = reading_by(copy, index, place)?;
        if picture.is_open(place) {
            end = Some(line.saturating_add(1));
            continue;
        }
        if picture.settled(place) != Some(reading) {
            return None;
        }
        if let Some(end) = end {
            if line.saturating_sub(end).saturating_add(1) >= wanted {
                return Some(end);
            }
        }
    }
    None
}

/// Whether some copy says otherwise of a line, and nobody has tested that.
pub(crate) fn is_held_back(
    copies: &[CopyState<'_>],
    tested: &Tested,
    place: usize,
    reading: usize,
) -> bool {
    for copy in copies {
        if let Some(claim) = copy.claim(place) {
            if claim.reading != reading && !tested.has(copy.number, place) {
                return true;
            }
        }
    }
    false
}

/// Whether another copy, of another coding, says of a line what this reading is.
fn is_said_elsewhere(
    copies: &[CopyState<'_>],
    copy: &CopyState<'_>,
    piece: &Piece,
    place: usize,
    reading: usize,
) -> bool {
    for other in copies {
        if other.number == copy.number {
            continue;
        }
        let Some(claim) = other.claim(place) else {
            continue;
        };
        if claim.reading != reading {
            continue;
        }
        if let Some(others) = other.pieces.get(claim.piece) {
            if !others.interval.is_coded_as(&piece.interval) {
                return true;
            }
        }
    }
    false
}

/// Whether a copy reads on from a line in the same piece. Each of the rows behind the line has to be settled so, or said so by a copy of
/// another coding.
fn reads_on(
    picture: &Picture,
    copies: &[CopyState<'_>],
    copy: &CopyState<'_>,
    place: usize,
) -> bool {
    let Some(claim) = copy.claim(place) else {
        return false;
    };
    let Some(piece) = copy.pieces.get(claim.piece) else {
        return false;
    };
    let Some(line) = piece.interval.line_at(place) else {
        return false;
    };
    let wanted = usize::from(piece.interval.components).saturating_mul(ROWS_BEHIND);
    let behind = line.saturating_add(wanted);
    if behind >= piece.interval.line_count() {
        return false;
    }
    for next in line.saturating_add(1)..behind.saturating_add(1) {
        let place = piece.interval.place(next);
        let Some(reading) = reading_by(copy, claim.piece, place) else {
            return false;
        };
        if picture.settled(place) != Some(reading)
            && !is_said_elsewhere(copies, copy, piece, place, reading)
        {
            return false;
        }
    }
    true
}

/// Whether some copy says otherwise of a line, and reads on from it as others do. Then it is not the reading.
pub(crate) fn is_refuted(
    picture: &Picture,
    copies: &[CopyState<'_>],
    place: usize,
    reading: usize,
) -> bool {
    for copy in copies {
        if let Some(claim) = copy.claim(place) {
            if claim.reading != reading && reads_on(picture, copies, copy, place) {
                return true;
            }
        }
    }
    false
}

/// What is proposed for a line.
#[derive(Clone, Copy)]
enum Proposal {
    Nothing,
    Reading(usize),
    /// Two copies propose different readings.
    Conflict,
}

/// Whether some copy says otherwise of an open line than a piece, and nobody has tested that.
fn is_line_held_back(
    picture: &Picture,
    copies: &[CopyState<'_>],
    tested: &Tested,
    copy: &CopyState<'_>,
    index: usize,
    place: usize,
) -> bool {
    match reading_by(copy, index, place) {
        Some(reading) => picture.is_open(place) && is_held_back(copies, tested, place, reading),
        None => true,
    }
}

/// Proposes the open lines that a piece reads between settled ones, all of them or none.
fn propose(
    proposals: &mut [Proposal],
    picture: &Picture,
    copies: &[CopyState<'_>],
    tested: &Tested,
    copy: &CopyState<'_>,
    index: usize,
    piece: &Piece,
) {
    let first = count_settled(picture, piece);
    let Some(end) = end_of_open(picture, copy, index, piece, first) else {
        return;
    };
    for line in first..end {
        if is_line_held_back(
            picture,
            copies,
            tested,
            copy,
            index,
            piece.interval.place(line),
        ) {
            return;
        }
    }
    for line in first..end {
        let place = piece.interval.place(line);
        let Some(reading) = reading_by(copy, index, place) else {
            return;
        };
        if !picture.is_open(place) {
            continue;
        }
        if let Some(proposal) = proposals.get_mut(place) {
            *proposal = match *proposal {
                Proposal::Nothing => Proposal::Reading(reading),
                Proposal::Reading(other) if other == reading => Proposal::Reading(other),
                _ => Proposal::Conflict,
            };
        }
    }
}

/// Settles lines that a copy reads between settled ones of the same piece, if no other copy proposes another reading. Answers whether one
/// was settled.
pub(crate) fn settle_between(
    alloc: Global,
    picture: &mut Picture,
    copies: &[CopyState<'_>],
    tested: &Tested,
) -> Result<bool, AllocError> {
    let mut proposals = vec![in alloc; Proposal::Nothing; picture.len()]?;
    for copy in copies {
        for (index, piece) in copy.pieces.iter().enumerate() {
            propose(&mut proposals, picture, copies, tested, copy, index, piece);
        }
    }
    let mut is_any = false;
    for (place, proposal) in proposals.iter().enumerate() {
        if let Proposal::Reading(reading) = proposal {
            picture.settle(place, *reading);
            is_any = true;
        }
    }
    Ok(is_any)
}
