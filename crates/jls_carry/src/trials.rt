//! Trials: a line that one copy says is supposed to be true, and another copy reads on behind it.
//!
//! Two copies can be damaged on lines that touch. Then the one is damaged where the other says the line before its own damage. Nothing
//! confirms that line, and neither copy goes on. But if it is true, the damaged copy goes on behind it with its own bytes, and gives lines
//! that the other confirms behind its damage.

use crate::between::is_held_back;
use crate::chains::Chain;
use crate::claims::{CopyState, bytes_of};
use crate::code::{Begun, FirstCode, ReadLines, read_lines_on};
use crate::coded::Coded;
use crate::codes::code_of;
use crate::picture::Picture;
use crate::pieces::Piece;
use crate::shifts::Shift;
use crate::tested::Tested;
use std::alloc::{AllocError, Global};

/// Of how many rows a copy is believed in a trial.
const ROWS_TRIED: usize = 2;

/// By how many bytes more or fewer a copy can go on behind the supposed lines.
const NEAR: usize = 64;

/// The lines of the picture that aren't settled, as a trial says them.
#[derive(Drop)]
struct Supposed {
    /// For each line of the picture.
    readings: Vec<Option<usize>>,
    /// How many of them the copy says that is believed.
    believed: usize,
}

/// The first line of a piece that isn't settled, and so many behind it.
#[derive(Clone, Copy)]
struct Tried {
    first: usize,
    end: usize,
}

/// The first line of a piece that isn't settled.
fn first_unsettled(picture: &Picture, piece: &Piece) -> usize {
    let count = piece.interval.line_count();
    (0..count)
        .find(|line| picture.settled(piece.interval.place(*line)).is_none())
        .unwrap_or(count)
}

/// Whether a copy says these lines of a chain, and nobody has another reading of one that is neither compared nor disputed.
fn can_be_supposed(
    picture: &Picture,
    copies: &[CopyState<'_>],
    tested: &Tested,
    giver: &CopyState<'_>,
    chain: &Chain,
    tried: Tried,
) -> bool {
    (tried.first..tried.end).all(|line| {
        let place = chain.piece.interval.place(line);
        match (giver.claim(place), chain.readings.get(line)) {
            (Some(claim), Some(reading)) => {
                claim.reading == *reading
                    && (picture.is_disputed(place)
                        || !is_held_back(copies, tested, place, *reading))
            }
            _ => false,
        }
    })
}

/// Whether a line is disputed of which a piece says something that reads to its end. A flipped bit can stand in that piece.
fn has_closed_dispute(picture: &Picture, copies: &[CopyState<'_>]) -> bool {
    (0..picture.len()).any(|place| {
        picture.is_disputed(place)
            && copies
                .iter()
                .any(|copy| copy.claim(place).is_some_and(|claim| claim.closes))
    })
}

/// Whether a copy says each of these lines of a piece, if one of them is disputed. Then its own reading of that can be right too.
fn has_other_way(
    picture: &Picture,
    copy: &CopyState<'_>,
    piece: &Piece,
    first: usize,
    end: usize,
) -> bool {
    (first..end).any(|line| picture.is_disputed(piece.interval.place(line)))
        && (first..end).all(|line| copy.claim(piece.interval.place(line)).is_some())
}

/// The most lines that a copy's own bytes give behind the code of supposed ones, at a place near where it is thought to go on. Lines of a
/// piece that closes count more.
fn best_reading(
    alloc: Global,
    piece: &Piece,
    code: &FirstCode,
    bytes: &[u8],
    shift: Shift,
) -> Result<Option<ReadLines>, AllocError> {
    let Some(middle) = shift.in_copy(code.bytes.len()) else {
        return Ok(None);
    };
    let mut begun = Begun::new(alloc, &piece.interval);
    begun.go_to_end(&code.bytes)?;
    let mut best: Option<ReadLines> = None;
    for place in middle.saturating_sub(NEAR)..middle.saturating_add(NEAR + 1) {
        let Some(rest) = bytes.get(place..) else {
            break;
        };
        if !code.goes_on_with(rest) {
            continue;
        }
        let all = code.followed_by(alloc, rest)?;
        let read = read_lines_on(&begun, piece, &all)?;
        let is_better = match &best {
            None => true,
            Some(best) => {
                (read.closes && !best.closes)
                    || (read.closes == best.closes && read.lines.len() > best.lines.len())
            }
        };
        if is_better {
            best = Some(read);
        }
    }
    Ok(best)
}

/// Notes the lines of a trial that aren't settled.
fn suppose(
    alloc: Global,
    picture: &mut Picture,
    piece: &Piece,
    read: ReadLines,
    believed: usize,
) -> Result<Supposed, AllocError> {
    let mut readings: Vec<Option<usize>> = vec![in alloc; None; picture.len()]?;
    for (line, samples) in read.lines.into_iter().enumerate() {
        let place = piece.interval.place(line);
        if picture.settled(place).is_none() {
            let reading = picture.note(place, samples)?;
            if let Some(slot) = readings.get_mut(place) {
                *slot = Some(reading);
            }
        }
    }
    Ok(Supposed { readings, believed })
}

/// How many lines of a piece of the copy that is believed its bytes confirm, if a trial is right. They have to confirm lines behind its own
/// damage, which the other copy gave; else it is none.
fn count_confirmed(
    alloc: Global,
    picture: &Picture,
    copy: &CopyState<'_>,
    piece: &Piece,
    supposed: &Supposed,
) -> Result<usize, AllocError> {
    let mut readings = Vec::new(alloc);
    let mut fresh = None;
    let mut own = 0usize;
    for line in 0..piece.interval.line_count() {
        let place = piece.interval.place(line);
        let tried = supposed.readings.get(place).copied().flatten();
        let Some(reading) = picture.settled(place).or(tried) else {
            break;
        };
        if !picture.is_at_most(place, reading, piece.interval.params.maxval()) {
            return Ok(0);
        }
        if picture.settled(place).is_none() && fresh.is_none() {
            fresh = Some(line);
        }
        if own == line
            && copy
                .claim(place)
                .is_some_and(|claim| claim.reading == reading)
        {
            own = line.saturating_add(1);
        }
        readings.push(reading)?;
    }
    let Some(fresh) = fresh else {
        return Ok(0);
    };
    let Some(code) = code_of(alloc, picture, &piece.interval, &readings)? else {
        return Ok(0);
    };
    let bytes = bytes_of(copy.bytes, piece);
    let components = usize::from(piece.interval.components);
    let begin = code.ends.begin_of(fresh);
    let coded = Coded::of(code, readings.len() == piece.interval.line_count(), bytes)?;
    let runs = coded.runs(alloc, bytes, components, begin, false)?.runs;
    let confirmed = coded.count_confirmed(&runs, bytes, begin);
    let wanted = own.max(fresh.saturating_add(supposed.believed));
    if confirmed >= wanted.saturating_add(components) {
        Ok(confirmed)
    } else {
        Ok(0)
    }
}

/// Settles the first lines of a piece as a trial says. Answers whether one was settled.
fn settle_supposed(
    picture: &mut Picture,
    piece: &Piece,
    supposed: &Supposed,
    count: usize,
) -> bool {
    let mut is_any = false;
    for line in 0..count {
        let place = piece.interval.place(line);
        if let (None, Some(Some(reading))) = (
            picture.settled(place),
            supposed.readings.get(place).copied(),
        ) {
            picture.settle(place, reading);
            is_any = true;
        }
    }
    is_any
}

/// Tries lines of a chain. Answers whether one was settled.
fn try_lines(
    alloc: Global,
    picture: &mut Picture,
    giver: &CopyState<'_>,
    taker: &CopyState<'_>,
    chain: &Chain,
    tried: Tried,
) -> Result<bool, AllocError> {
    let piece = &chain.piece;
    let readings = chain.readings.get(..tried.end).unwrap_or(&[]);
    let index = taker.pieces.iter().position(|other| other.start == piece.start
        && other.number == piece.number);
    let shift = index
        .and_then(|index| taker.progress.get(index))
        .map(|progress| progress.shift);
    let (Some(shift), Some(code)) = (shift, code_of(alloc, picture, &piece.interval, readings)?)
    else {
        return Ok(false);
    };
    let bytes = bytes_of(taker.bytes, piece);
    let Some(read) = best_reading(alloc, piece, &code, bytes, shift)? else {
        return Ok(false);
    };
    let believed = tried.end.saturating_sub(tried.first);
    let supposed = suppose(alloc, picture, piece, read, believed)?;
    for other in giver.pieces.iter() {
        let count = count_confirmed(alloc, picture, giver, other, &supposed)?;
        let first = first_unsettled(picture, other);
        if has_other_way(picture, taker, other, first, count) {
            continue;
        }
        if settle_supposed(picture, other, &supposed, count) {
            return Ok(true);
        }
    }
    Ok(false)
}

/// Settles lines that a copy says before its damage, and those that another one gives behind them, up to a run of the first behind that
/// damage. Answers whether one was settled.
pub(crate) fn settle_tried(
    alloc: Global,
    picture: &mut Picture,
    copies: &[CopyState<'_>],
    tested: &Tested,
    chains: &[Chain],
) -> Result<bool, AllocError> {
    if has_closed_dispute(picture, copies) {
        return Ok(false);
    }
    for chain in chains {
        let (Some(giver), Some(taker)) = (copies.get(chain.giver), copies.get(chain.taker)) else {
            continue;
        };
        if chain.is_twin {
            continue;
        }
        let first = first_unsettled(picture, &chain.piece);
        for rows in 0..ROWS_TRIED {
            let lines = usize::from(chain.piece.interval.components).saturating_mul(rows);
            let end = first.saturating_add(lines).saturating_add(1);
            let tried = Tried { first, end };
            if end <= chain.readings.len()
                && can_be_supposed(picture, copies, tested, giver, chain, tried)
                && try_lines(alloc, picture, giver, taker, chain, tried)?
            {
                return Ok(true);
            }
        }
    }
    Ok(false)
}
