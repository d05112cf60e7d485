//! Weighing: a piece that closes can have a flipped bit all the same, and another copy then says otherwise.
//!
//! One flipped bit is one wrong byte. The lines that it changes have another code in the other coding, since they change the contexts of
//! all that follows. So many bytes of the other copy would be wrong, if they were true. Where both ways are few, nothing is told.

use crate::between::reading_by;
use crate::claims::{CopyState, bytes_of};
use crate::coded_lines::{Gap, MOST_FLIPPED, coded_lines, said_in};
use crate::picture::Picture;
use crate::pieces::Piece;
use std::alloc::{AllocError, Global};

/// How many bytes of the other copy are wrong at least, if that piece is true.
const LEAST_OTHERWISE: usize = 8;

/// And how many times as many as are flipped.
const TIMES_AS_MANY: usize = 4;

/// How many pieces are weighed against another copy in a round.
const MOST_WEIGHED: usize = 64;

/// A line, and the reading of it that is taken.
#[derive(Clone, Copy)]
struct Taken {
    place: usize,
    reading: usize,
}

/// What a copy says of each line of the picture.
fn said_by(alloc: Global, copy: &CopyState<'_>) -> Result<Vec<Option<usize>>, AllocError> {
    let mut said = Vec::new(alloc);
    for claim in copy.claims.iter() {
        said.push(claim.map(|claim| claim.reading))?;
    }
    Ok(said)
}

/// The first line of a piece that is not settled, and of which another copy says otherwise.
fn first_denied(
    picture: &Picture,
    copy: &CopyState<'_>,
    index: usize,
    piece: &Piece,
    other: &CopyState<'_>,
) -> Option<usize> {
    for line in 0..piece.interval.line_count() {
        let place = piece.interval.place(line);
        if let (None, Some(reading), Some(claim)) = (
            picture.settled(place),
            reading_by(copy, index, place),
            other.claim(place),
        ) {
            if claim.reading != reading {
                return Some(line);
            }
        }
    }
    None
}

/// Whether a piece has all bytes of its lines from one of them on, and ends with them.
fn stands(
    alloc: Global,
    picture: &Picture,
    copy: &CopyState<'_>,
    index: usize,
    piece: &Piece,
    line: usize,
) -> Result<bool, AllocError> {
    let said = said_in(alloc, copy, index, piece, usize::MAX)?;
    match coded_lines(alloc, picture, copy, index, piece, &said)? {
        Some(lines) => Ok(lines.closes_from(bytes_of(copy.bytes, piece), line)),
        None => Ok(false),
    }
}

/// How many bytes of the piece in which a copy says a line are wrong from there on, if what is said is true. They are counted as far as the
/// copy's own lines are its bytes. `None` comes where that can't be told.
fn count_otherwise(
    alloc: Global,
    picture: &Picture,
    copy: &CopyState<'_>,
    place: usize,
    said: &[Option<usize>],
) -> Result<Option<usize>, AllocError> {
    let Some(claim) = copy.claim(place) else {
        return Ok(None);
    };
    let Some(piece) = copy.pieces.get(claim.piece).copied() else {
        return Ok(None);
    };
    let Some(line) = piece.interval.line_at(place) else {
        return Ok(None);
    };
    let own = said_in(alloc, copy, claim.piece, &piece, usize::MAX)?;
    let (Some(itself), Some(otherwise)) = (
        coded_lines(alloc, picture, copy, claim.piece, &piece, &own)?,
        coded_lines(alloc, picture, copy, claim.piece, &piece, said)?,
    ) else {
        return Ok(None);
    };
    if line >= otherwise.readings.len() {
        return Ok(None);
    }
    let bytes = bytes_of(copy.bytes, &piece);
    let begin = otherwise.begin_of(line);
    let end = itself.same_to(bytes, begin);
    Ok(Some(otherwise.count_wrong(bytes, begin, end)))
}

/// Whether so many wrong bytes are flipped bits, where so many others would be wrong otherwise.
fn are_flipped(wrong: usize, otherwise: usize) -> bool {
    wrong <= MOST_FLIPPED
        && otherwise >= LEAST_OTHERWISE
        && otherwise >= wrong.saturating_mul(TIMES_AS_MANY)
}

/// Whether a piece closes, and flipped bits of it are the gap at a line, since many bytes of the other copy would be wrong otherwise.
fn is_outweighed(
    alloc: Global,
    picture: &Picture,
    copy: &CopyState<'_>,
    index: usize,
    piece: &Piece,
    other: &CopyState<'_>,
    line: usize,
    gap: Gap,
) -> Result<bool, AllocError> {
    if line >= gap.confirmed || !stands(alloc, picture, copy, index, piece, line)? {
        return Ok(false);
    }
    let said = said_in(alloc, copy, index, piece, gap.confirmed)?;
    let place = piece.interval.place(line);
    let otherwise = count_otherwise(alloc, picture, other, place, &said)?;
    Ok(otherwise.is_some_and(|otherwise| are_flipped(gap.wrong, otherwise)))
}

/// The lines of a piece from one to another that aren't settled, with these readings of its first lines.
fn open_lines(
    alloc: Global,
    picture: &Picture,
    piece: &Piece,
    readings: &[usize],
    first: usize,
    end: usize,
) -> Result<Vec<Taken>, AllocError> {
    let mut taken = Vec::new(alloc);
    for line in first..end {
        let place = piece.interval.place(line);
        if let (None, Some(reading)) = (picture.settled(place), readings.get(line).copied()) {
            taken.push(Taken { place, reading })?;
        }
    }
    Ok(taken)
}

/// The lines of a piece as another copy says them, if the piece has flipped bits. They go up to where both part again.
fn outweighing(
    alloc: Global,
    picture: &Picture,
    copy: &CopyState<'_>,
    index: usize,
    piece: &Piece,
    other: &CopyState<'_>,
    first: usize,
) -> Result<Vec<Taken>, AllocError> {
    let said = said_by(alloc, other)?;
    let Some(lines) = coded_lines(alloc, picture, copy, index, piece, &said)? else {
        return Ok(Vec::new(alloc));
    };
    let Some(gap) = lines.gap_from(bytes_of(copy.bytes, piece), first) else {
        return Ok(Vec::new(alloc));
    };
    if !is_outweighed(alloc, picture, copy, index, piece, other, first, gap)? {
        return Ok(Vec::new(alloc));
    }
    open_lines(alloc, picture, piece, &lines.readings, first, gap.confirmed)
}

/// The first of these lines of which a piece says otherwise, as a line of the piece.
fn first_otherwise(
    copy: &CopyState<'_>,
    index: usize,
    piece: &Piece,
    taken: &[Taken],
) -> Option<usize> {
    for line in taken {
        if let Some(reading) = reading_by(copy, index, line.place) {
            if reading != line.reading {
                return piece.interval.line_at(line.place);
            }
        }
    }
    None
}

/// Whether a copy says otherwise of some of these lines, in a piece that closes.
fn denies(
    alloc: Global,
    picture: &Picture,
    copy: &CopyState<'_>,
    taken: &[Taken],
) -> Result<bool, AllocError> {
    for (index, piece) in copy.pieces.iter().enumerate() {
        let Some(line) = first_otherwise(copy, index, piece, taken) else {
            continue;
        };
        let closes = copy
            .claim(piece.interval.place(line))
            .is_some_and(|claim| claim.closes);
        if closes || stands(alloc, picture, copy, index, piece, line)? {
            return Ok(true);
        }
    }
    Ok(false)
}

/// Whether a third copy says otherwise of some of these lines, in a piece that closes. A copy that has bytes of others doesn't count.
fn has_third(
    alloc: Global,
    picture: &Picture,
    copies: &[CopyState<'_>],
    number: usize,
    taken: &[Taken],
) -> Result<bool, AllocError> {
    for copy in copies {
        if copy.number != number && !copy.speaker.is_echo && denies(alloc, picture, copy, taken)? {
            return Ok(true);
        }
    }
    Ok(false)
}

/// Whether two copies can be weighed: they are of different codings, and each has bytes of its own.
fn can_be_weighed(copy: &CopyState<'_>, other: &CopyState<'_>) -> bool {
    copy.speaker.coding != other.speaker.coding && !copy.speaker.is_echo && !other.speaker.is_echo
}

/// The lines of the first piece of a copy that has flipped bits, as another copy says them. Pieces are weighed as long as `left` allows it.
fn outweighed(
    alloc: Global,
    picture: &Picture,
    copies: &[CopyState<'_>],
    copy: &CopyState<'_>,
    other: &CopyState<'_>,
    left: &mut usize,
) -> Result<Vec<Taken>, AllocError> {
    for (index, piece) in copy.pieces.iter().enumerate() {
        let Some(first) = first_denied(picture, copy, index, piece, other) else {
            continue;
        };
        if *left == 0 {
            break;
        }
        *left = left.saturating_sub(1);
        let taken = outweighing(alloc, picture, copy, index, piece, other, first)?;
        if !taken.is_empty() && !has_third(alloc, picture, copies, copy.number, &taken)? {
            return Ok(taken);
        }
    }
    Ok(Vec::new(alloc))
}

/// Settles lines of a piece with flipped bits as another copy says them. Answers whether one was settled.
pub(crate) fn settle_weighed(
    alloc: Global,
    picture: &mut Picture,
    copies: &[CopyState<'_>],
) -> Result<bool, AllocError> {
    let mut left = MOST_WEIGHED;
    for copy in copies {
        for other in copies {
            if !can_be_weighed(copy, other) {
                continue;
            }
            let taken = outweighed(alloc, picture, copies, copy, other, &mut left)?;
            if !taken.is_empty() {
                for line in taken.iter() {
                    picture.settle(line.place, line.reading);
                }
                return Ok(true);
            }
        }
    }
    Ok(false)
}
