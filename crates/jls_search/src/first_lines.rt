//! Whether two copies are of one picture in two codings, as their first lines tell. It only advises: no contract speaks of it.
//!
//! From some byte on their scan data differ. If the rows behind that byte are the same nevertheless, they were coded in two ways. Damage of
//! one coding would change them.

use jls_copy::{PieceInHand, WideReader};
use std::alloc::{AllocError, Global};

/// How many rows have to be the same.
const ROWS: usize = 3;

/// How many bytes more are read at each attempt, at least.
const FEWEST_BYTES: usize = 64;

/// Which part of the bytes read before these are at least.
const SHARE: usize = 4;

/// How many attempts there are.
const MOST_ATTEMPTS: usize = 64;

/// A copy, and where its scan data begin.
pub(crate) type Begun<'a> = (&'a [u8], usize);

/// How many bytes two stretches begin with alike.
fn count_alike(first: &[u8], second: &[u8]) -> usize {
    let pairs = first.iter().zip(second);
    pairs.take_while(|(one, other)| **one == **other).count()
}

/// How many whole rows of an interval a piece has.
fn count_rows(piece: &PieceInHand) -> usize {
    let components = piece.plan.components().len();
    piece.lines.len().checked_div(components).unwrap_or(0)
}

/// A reader that was fed so many of these bytes, if no piece of them is broken.
fn reader_after(
    alloc: Global,
    bytes: &[u8],
    count: usize,
) -> Result<Option<WideReader>, AllocError> {
    let Some(begin) = bytes.get(..count) else {
        return Ok(None);
    };
    let mut reader = WideReader::new(alloc);
    reader.feed(begin)?;
    if reader.is_done() || reader.has_faulty_piece() || reader.is_piece_broken() {
        return Ok(None);
    }
    Ok(Some(reader))
}

/// How many whole rows so many bytes of a copy have. `None` comes if a piece of them is broken.
fn rows_in(alloc: Global, bytes: &[u8], count: usize) -> Result<Option<usize>, AllocError> {
    let Some(reader) = reader_after(alloc, bytes, count)? else {
        return Ok(None);
    };
    match reader.piece_in_hand()? {
        Some(piece) => Ok(Some(count_rows(&piece))),
        None => Ok(Some(0)),
    }
}

/// The first lines of a copy, with enough whole rows behind so many bytes, and how many rows these bytes have. `None` comes if it hasn't so
/// many in one piece.
fn first_rows(
    alloc: Global,
    bytes: &[u8],
    count: usize,
) -> Result<Option<(PieceInHand, usize)>, AllocError> {
    let Some(known) = rows_in(alloc, bytes, count)? else {
        return Ok(None);
    };
    let mut fed = count;
    for _ in 0..MOST_ATTEMPTS {
        if fed >= bytes.len() {
            break;
        }
        fed = fed
            .saturating_add(FEWEST_BYTES.max(fed / SHARE))
            .min(bytes.len());
        let Some(reader) = reader_after(alloc, bytes, fed)? else {
            return Ok(None);
        };
        if let Some(piece) = reader.piece_in_hand()? {
            if count_rows(&piece) > known.saturating_add(ROWS) {
                return Ok(Some((piece, known)));
            }
        }
    }
    Ok(None)
}

/// The line of a component in a row, counted from the first row of a piece, if it has that.
fn line_of(piece: &PieceInHand, component: u8, row: usize) -> Option<&Vec<u16>> {
    let components = piece.plan.components();
    let turn = components.iter().position(|other| *other == component)?;
    let line = row.checked_mul(components.len())?.checked_add(turn)?;
    piece.lines.get(line)
}

/// Whether both pieces are of the same rows and have these rows alike, of one component at least.
fn have_same_rows(first: &PieceInHand, second: &PieceInHand, from: usize) -> bool {
    if first.interval != 0 || second.interval != 0 || first.plan.width() != second.plan.width() {
        return false;
    }
    for component in first.plan.components() {
        let alike = (from..from.saturating_add(ROWS)).all(|row| {
            match (
                line_of(first, *component, row),
                line_of(second, *component, row),
            ) {
                (Some(line), Some(other)) => line.as_slice() == other.as_slice(),
                _ => false,
            }
        });
        if alike {
            return true;
        }
    }
    false
}

/// Whether two copies have the same rows behind the first byte in which their scan data differ. `Err` comes where memory is refused.
pub(crate) fn are_two_codings(
    alloc: Global,
    first: Begun<'_>,
    second: Begun<'_>,
) -> Result<bool, AllocError> {
    let (Some(data), Some(other)) = (first.0.get(first.1..), second.0.get(second.1..)) else {
        return Ok(false);
    };
    if first.1 == 0 || second.1 == 0 {
        return Ok(false);
    }
    let alike = count_alike(data, other);
    let Some((piece, known)) = first_rows(alloc, first.0, first.1.saturating_add(alike))? else {
        return Ok(false);
    };
    let Some((against, known_there)) = first_rows(alloc, second.0, second.1.saturating_add(alike))?
    else {
        return Ok(false);
    };
    Ok(have_same_rows(&piece, &against, known.max(known_there)))
}
