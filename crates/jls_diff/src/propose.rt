//! A search for the parts of some copies. What it proposes is checked, so no contract speaks of it.

use crate::inside::add_shifted;
use crate::lengths::{Lengths, lengths_to_step};
use crate::merging::merged;
use crate::part::Part;
use crate::seeds::Seeds;
use crate::steps::{common_prefix_len, prefix, rest_of};
use crate::stretches::{Before, Stretch, add_stretches, has_mark};
use std::alloc::{AllocError, Global};

/// What all copies have alike at the start, as it stands before a stretch.
fn before_stretch(rests: &[&[u8]]) -> Before {
    let same = common_prefix_len(rests);
    let first = rests.first();
    Before {
        same,
        apart: same,
        begins_group: first.is_some_and(|first| has_mark(prefix(first, same))),
    }
}

/// Adds the stretches up to where the copies are in step again. Answers how many bytes each copy has up to the end of the last.
fn add_next(
    alloc: Global,
    seeds: &mut Option<Seeds>,
    stretches: &mut Vec<Stretch>,
    rests: &[&[u8]],
    before: Before,
) -> Result<Lengths, AllocError> {
    let lengths = lengths_to_step(alloc, seeds, rests)?;
    match &lengths {
        Lengths::Equal(count) => {
            let end = add_stretches(alloc, stretches, rests, *count, before)?;
            return Ok(Lengths::Equal(end));
        }
        Lengths::Each(counts) => add_shifted(alloc, stretches, rests, counts, before)?,
    }
    Ok(lengths)
}

/// The stretches in which the copies differ, in order. Without seeds they are without a shift.
fn stretches_of(
    alloc: Global,
    mut seeds: Option<Seeds>,
    copies: &[&[u8]],
) -> Result<Vec<Stretch>, AllocError> {
    let mut stretches = Vec::new(alloc);
    let mut rests = Vec::from_slice(alloc, copies)?;
    for _ in 0..u64::MAX {
        let before = before_stretch(&rests);
        for rest in rests.iter_mut() {
            *rest = rest_of(rest, before.same);
        }
        if rests.iter().all(|rest| rest.is_empty()) {
            break;
        }
        let lengths = add_next(alloc, &mut seeds, &mut stretches, &rests, before)?;
        for (copy, rest) in rests.iter_mut().enumerate() {
            *rest = rest_of(rest, lengths.of(copy));
        }
    }
    merged(alloc, copies.len(), stretches)
}

/// Whether all copies have one length.
fn have_one_length(copies: &[&[u8]]) -> bool {
    let Some(first) = copies.first() else {
        return true;
    };
    copies.iter().all(|copy| copy.len() == first.len())
}

/// How many bytes so many copies have together in some stretches.
fn size(stretches: &[Stretch], copies: usize) -> usize {
    let mut size = 0usize;
    for stretch in stretches {
        size = size.saturating_add(stretch.lengths.sum(copies));
    }
    size
}

/// The stretches that are proposed. Where all copies have one length they are without a shift, unless shifts leave less than one byte in
/// 2N of theirs, of N copies. If nothing was lost or added, shifts leave about one in N: what stands in the damage of one copy stands in
/// no other.
fn best_stretches(alloc: Global, copies: &[&[u8]]) -> Result<Vec<Stretch>, AllocError> {
    let seeds = Seeds::new(alloc)?;
    let shifted = stretches_of(alloc, Some(seeds), copies)?;
    if !have_one_length(copies) {
        return Ok(shifted);
    }
    let straight = stretches_of(alloc, None, copies)?;
    let most = size(&shifted, copies.len())
        .saturating_mul(copies.len())
        .saturating_mul(2);
    if size(&straight, copies.len()) > most {
        return Ok(shifted);
    }
    Ok(straight)
}

/// Parts of some copies, as far as a search finds them.
pub(crate) fn proposed<'a>(
    alloc: Global,
    copies: &[&'a [u8]],
) -> Result<Vec<Part<'a>>, AllocError> {
    let stretches = best_stretches(alloc, copies)?;
    let mut rests = Vec::from_slice(alloc, copies)?;
    let mut parts = Vec::new(alloc);
    for stretch in stretches.iter() {
        if let Some(first) = rests.first() {
            if stretch.same > 0 {
                parts.push(Part::Same(prefix(first, stretch.same)))?;
            }
        }
        let mut ways = Vec::new(alloc);
        for (copy, rest) in rests.iter_mut().enumerate() {
            let following = rest_of(rest, stretch.same);
            ways.push(prefix(following, stretch.lengths.of(copy)))?;
            *rest = rest_of(following, stretch.lengths.of(copy));
        }
        parts.push(Part::Differ(ways))?;
    }
    if let Some(first) = rests.first() {
        if !first.is_empty() {
            parts.push(Part::Same(first))?;
        }
    }
    Ok(parts)
}
