//! Rivals: copies that read to their ends, and say otherwise than what is settled.
//!
//! A flipped bit can change one line of a copy, and nothing behind it. In the code of another copy that line can differ in one byte, as if
//! it were wrong there. Which of the two is damaged shows only by how many bytes of all copies are wrong, if one of them is true.

use crate::claims::{CopyState, bytes_of};
use crate::code::read_lines;
use crate::codes::Codes;
use crate::codings::{CodedCopies, MendedCodings, mend_codings};
use crate::edits::Edit;
use crate::picture::Picture;
use std::alloc::{AllocError, Global};

/// Whether a copy gives each line of the picture in pieces that close.
pub(crate) fn reads_whole(copy: &CopyState<'_>) -> bool {
    copy.claims
        .iter()
        .all(|claim| claim.is_some_and(|claim| claim.closes))
}

/// The picture that a copy gives by itself, of so many lines; `None` where a piece doesn't close.
fn own_picture(
    alloc: Global,
    copy: &CopyState<'_>,
    lines: usize,
) -> Result<Option<Picture>, AllocError> {
    let mut picture = Picture::new(alloc, lines)?;
    for piece in copy.pieces.iter() {
        let read = read_lines(alloc, piece, bytes_of(copy.bytes, piece))?;
        if !read.closes {
            return Ok(None);
        }
        for (line, samples) in read.lines.into_iter().enumerate() {
            let place = piece.interval.place(line);
            let reading = picture.note(place, samples)?;
            picture.settle(place, reading);
        }
    }
    Ok(Some(picture))
}

/// The samples of a line, if it is settled.
fn settled_samples(picture: &Picture, place: usize) -> Option<&[u16]> {
    let reading = picture.settled(place)?;
    Some(picture.samples(place, reading))
}

/// Whether each line of two pictures is settled, and some line isn't the same.
fn are_two(picture: &Picture, other: &Picture) -> bool {
    let mut are_same = true;
    for place in 0..picture.len() {
        match (
            settled_samples(picture, place),
            settled_samples(other, place),
        ) {
            (Some(samples), Some(others)) => are_same = are_same && *samples == *others,
            _ => return false,
        }
    }
    !are_same
}

/// Whether a copy's coding can say each line of a picture.
fn can_say(picture: &Picture, copy: &CopyState<'_>) -> bool {
    copy.pieces.iter().all(|piece| {
        let interval = &piece.interval;
        (0..interval.line_count()).all(|line| {
            let place = interval.place(line);
            picture.settled(place).is_some_and(|reading| {
                picture.is_at_most(place, reading, interval.params.maxval())
            })
        })
    })
}

/// How many bytes these edits change.
fn count_changed(edits: &[Edit]) -> usize {
    let mut count = 0usize;
    for edit in edits {
        count = count.saturating_add(edit.count.max(edit.bytes.len()));
    }
    count
}

/// How many bytes of all copies are wrong, if the mended files are true. A copy that has the bytes of others counts for none of its own.
fn count_wrong(mended: &MendedCodings, states: &[CopyState<'_>]) -> usize {
    let mut count = 0usize;
    for coding in mended.codings.iter() {
        for (number, edits) in coding.copies.iter().zip(coding.edits.iter()) {
            let is_own = states
                .get(*number)
                .is_some_and(|state| !state.speaker.is_echo);
            if is_own {
                count = count.saturating_add(count_changed(edits));
            }
        }
    }
    count
}

/// Whether a copy differs from its mended file.
fn is_edited(mended: &MendedCodings, number: usize) -> bool {
    mended.codings.iter().any(|coding| {
        coding
            .copies
            .iter()
            .zip(coding.edits.iter())
            .any(|(copy, edits)| *copy == number && !edits.is_empty())
    })
}

/// Whether a copy says otherwise than the mended files, and no more bytes of all copies are wrong if it is true than if these are.
fn is_rival(
    alloc: Global,
    picture: &Picture,
    mended: &MendedCodings,
    copy: &CopyState<'_>,
    states: &[CopyState<'_>],
    coded: CodedCopies<'_>,
) -> Result<bool, AllocError> {
    let Some(own) = own_picture(alloc, copy, picture.len())? else {
        return Ok(false);
    };
    if !are_two(picture, &own) || !states.iter().all(|state| can_say(&own, state)) {
        return Ok(false);
    }
    let mut codes = Codes::new(alloc, states)?;
    let other = mend_codings(alloc, &own, &mut codes, states, coded)?;
    Ok(other.strangers.is_empty() && count_wrong(&other, states) <= count_wrong(mended, states))
}

/// Whether some copy is a rival of the mended files. `whole` tells which copies read to their ends before anything was known.
pub(crate) fn has_rival(
    alloc: Global,
    picture: &Picture,
    mended: &MendedCodings,
    states: &[CopyState<'_>],
    whole: &[bool],
    coded: CodedCopies<'_>,
) -> Result<bool, AllocError> {
    for (state, is_whole) in states.iter().zip(whole) {
        if *is_whole
            && !state.speaker.is_echo
            && is_edited(mended, state.number)
            && is_rival(alloc, picture, mended, state, states, coded)?
        {
            return Ok(true);
        }
    }
    Ok(false)
}
