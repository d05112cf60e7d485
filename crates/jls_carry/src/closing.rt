//! Pieces that close by themselves: they count where nothing else goes on.

use crate::between::is_refuted;
use crate::chains::Chain;
use crate::claims::{CopyState, bytes_of};
use crate::code::read_lines;
use crate::codes::code_of;
use crate::interval::Interval;
use crate::picture::Picture;
use crate::pieces::Piece;
use crate::runs::{FIRM, Run, add_runs};
use crate::settling::Links;
use crate::shifts::shifts_of;
use std::alloc::{AllocError, Global};

/// How many mixed pieces are tried for a chain.
const MOST_MIXED: usize = 16;

/// A reading of the line at a place.
#[derive(Clone, Copy)]
struct Closed {
    place: usize,
    reading: usize,
}

/// Where the code that a copy says goes on with the bytes of another, of the same coding: behind each stretch in which they agree.
fn runs_to_mix(alloc: Global, code: &[u8], bytes: &[u8]) -> Result<Vec<Run>, AllocError> {
    let mut runs = Vec::new(alloc);
    for shift in shifts_of(alloc, code, bytes, code.len())? {
        add_runs(&mut runs, code, bytes, shift)?;
    }
    Ok(runs)
}

/// Adds the lines of pieces that close, of which one copy has the first bytes, and another of the same coding has the others.
fn add_mixed(
    alloc: Global,
    picture: &mut Picture,
    taker: &CopyState<'_>,
    chain: &Chain,
    closed: &mut Vec<Closed>,
) -> Result<(), AllocError> {
    let interval = &chain.piece.interval;
    let bytes = bytes_of(taker.bytes, &chain.piece);
    let Some(code) = code_of(alloc, picture, interval, &chain.readings)? else {
        return Ok(());
    };
    let fresh = code.ends.begin_of(chain.fresh);
    for run in runs_to_mix(alloc, &code.bytes, bytes)?
        .iter()
        .filter(|run| run.end > fresh)
        .take(MOST_MIXED)
    {
        let place = run.begin.saturating_add(FIRM / 2);
        let Some(rest) = run.shift.in_copy(place).and_then(|from| bytes.get(from..)) else {
            continue;
        };
        let mut all = Vec::from_slice(alloc, code.bytes.get(..place).unwrap_or(&[]))?;
        all.extend_from_slice(rest)?;
        let read = read_lines(alloc, &chain.piece, &all)?;
        if read.closes && are_as_settled(picture, interval, &read.lines) {
            for (line, samples) in read.lines.into_iter().enumerate() {
                let place = interval.place(line);
                if picture.is_open(place) {
                    let reading = picture.note(place, samples)?;
                    closed.push(Closed { place, reading })?;
                }
            }
        }
    }
    Ok(())
}

/// Whether lines that a piece gives are those that are settled, and none of them is disputed.
fn are_as_settled(picture: &Picture, interval: &Interval, lines: &[Vec<u16>]) -> bool {
    lines.iter().enumerate().all(|(line, samples)| {
        let place = interval.place(line);
        match picture.settled(place) {
            None => !picture.is_disputed(place),
            Some(reading) => *picture.samples(place, reading) == *samples.as_slice(),
        }
    })
}

/// Whether a piece of a copy says otherwise of a line that is settled, or has a line that is disputed.
fn is_doubtful(picture: &Picture, copy: &CopyState<'_>, index: usize, piece: &Piece) -> bool {
    (0..piece.interval.line_count()).any(|line| {
        let place = piece.interval.place(line);
        copy.claim(place).is_some_and(|claim| {
            claim.piece == index
                && match picture.settled(place) {
                    None => picture.is_disputed(place),
                    Some(reading) => reading != claim.reading,
                }
        })
    })
}

/// For each piece of a copy whether it says otherwise of a line that is settled, or has a line that is disputed.
fn which_are_doubtful(
    alloc: Global,
    picture: &Picture,
    copy: &CopyState<'_>,
) -> Result<Vec<bool>, AllocError> {
    let mut all = Vec::new(alloc);
    for (index, piece) in copy.pieces.iter().enumerate() {
        all.push(is_doubtful(picture, copy, index, piece))?;
    }
    Ok(all)
}

/// Adds the lines that a copy has from pieces that close, say what is settled, and have no disputed line.
fn add_closed(
    alloc: Global,
    picture: &Picture,
    copy: &CopyState<'_>,
    closed: &mut Vec<Closed>,
) -> Result<(), AllocError> {
    let doubtful = which_are_doubtful(alloc, picture, copy)?;
    for (place, claim) in copy.claims.iter().enumerate() {
        if let Some(claim) = claim {
            let is_doubtful = doubtful.get(claim.piece).copied().unwrap_or(false);
            if claim.closes && !is_doubtful && picture.is_open(place) {
                closed.push(Closed {
                    place,
                    reading: claim.reading,
                })?;
            }
        }
    }
    Ok(())
}

/// Settles the lines of pieces that close in copies that agree with another somewhere, if all such pieces say the same of them. Answers
/// whether one was settled.
pub(crate) fn settle_closed(
    alloc: Global,
    picture: &mut Picture,
    copies: &[CopyState<'_>],
    chains: &[Chain],
    links: &[Links],
) -> Result<bool, AllocError> {
    let is_linked = |copy: usize| links.get(copy).is_some_and(|links| links.with_any);
    let mut closed = Vec::new(alloc);
    for chain in chains {
        if chain.is_twin && is_linked(chain.giver) && is_linked(chain.taker) {
            if let Some(taker) = copies.get(chain.taker) {
                add_mixed(alloc, picture, taker, chain, &mut closed)?;
            }
        }
    }
    for copy in copies {
        if is_linked(copy.number) {
            add_closed(alloc, picture, copy, &mut closed)?;
        }
    }
    let mut only: Vec<Option<usize>> = vec![in alloc; None; picture.len()]?;
    let mut conflicts = vec![in alloc; false; picture.len()]?;
    for found in closed.iter() {
        if let (Some(slot), Some(is_conflict)) = (
            only.get_mut(found.place),
            conflicts.get_mut(found.place),
        ) {
            match *slot {
                Some(reading) if reading != found.reading => *is_conflict = true,
                _ => *slot = Some(found.reading),
            }
        }
    }
    let mut is_any = false;
    for (place, (slot, is_conflict)) in only.iter().zip(conflicts.iter()).enumerate() {
        let (Some(reading), false) = (slot, is_conflict) else {
            continue;
        };
        if !is_refuted(picture, copies, place, *reading) {
            picture.settle(place, *reading);
            is_any = true;
        }
    }
    Ok(is_any)
}

/// Whether pieces of two copies in different codings close, and say two things of a line.
fn close_otherwise(copy: &CopyState<'_>, other: &CopyState<'_>, place: usize) -> bool {
    let (Some(claim), Some(others)) = (copy.claim(place), other.claim(place)) else {
        return false;
    };
    copy.speaker.coding != other.speaker.coding
        && claim.closes
        && others.closes
        && claim.reading != others.reading
}

/// Whether pieces that close in copies of different codings say several things of a line that is open.
pub(crate) fn has_contradiction(picture: &Picture, copies: &[CopyState<'_>]) -> bool {
    (0..picture.len()).any(|place| {
        picture.is_open(place)
            && copies.iter().any(|copy| {
                copies
                    .iter()
                    .any(|other| close_otherwise(copy, other, place))
            })
    })
}
