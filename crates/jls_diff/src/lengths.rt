//! How many bytes each copy has in a stretch.

use crate::seeds::{SEED, Seeds};
use crate::steps::{in_step, shortest};
use std::alloc::{AllocError, Global};

/// How far a stretch without a shift is taken as it is, with no search for a shift.
const NEAR: usize = 64;

/// How many bytes each copy has in a stretch.
#[derive(Drop)]
pub(crate) enum Lengths {
    /// So many each: without a shift.
    Equal(usize),
    /// So many, in the order of the copies.
    Each(Vec<usize>),
}

impl Lengths {
    /// How many the copy has.
    pub(crate) fn of(&self, copy: usize) -> usize {
        match self {
            Lengths::Equal(count) => *count,
            Lengths::Each(counts) => counts.get(copy).copied().unwrap_or(0),
        }
    }

    /// How many so many copies have together.
    pub(crate) fn sum(&self, copies: usize) -> usize {
        let mut sum = 0usize;
        for copy in 0..copies {
            sum = sum.saturating_add(self.of(copy));
        }
        sum
    }
}

/// How many bytes each has before all agree again, with a shift of some; `None` where that is found nowhere, or there are no seeds.
fn shifted(
    alloc: Global,
    seeds: &mut Option<Seeds>,
    rests: &[&[u8]],
) -> Result<Option<Vec<usize>>, AllocError> {
    let mut counts = Vec::new(alloc);
    let (Some(seeds), Some(first)) = (seeds.as_mut(), rests.first()) else {
        return Ok(None);
    };
    let mut furthest = 0usize;
    for rest in rests {
        let Some((here, there)) = seeds.resumption(first, rest) else {
            return Ok(None);
        };
        furthest = furthest.max(here);
        counts.push(
            there
                .saturating_sub(here)
                .wrapping_sub(here.saturating_sub(there)),
        )?;
    }
    for count in counts.iter_mut() {
        *count = count.wrapping_add(furthest);
    }
    Ok(Some(counts))
}

/// Whether all counts are equal.
fn are_equal(counts: &[usize]) -> bool {
    let Some(first) = counts.first() else {
        return true;
    };
    for count in counts {
        if *count != *first {
            return false;
        }
    }
    true
}

/// All that is left of each.
fn all_left(alloc: Global, rests: &[&[u8]]) -> Result<Vec<usize>, AllocError> {
    let mut counts = Vec::new(alloc);
    for rest in rests {
        counts.push(rest.len())?;
    }
    Ok(counts)
}

/// How many bytes each has before all are in step again, where they differ at once. Where they are never in step again, it is as many as
/// the shortest has, and all that is left where that is nothing. Without seeds no shift is looked for.
pub(crate) fn lengths_to_step(
    alloc: Global,
    seeds: &mut Option<Seeds>,
    rests: &[&[u8]],
) -> Result<Lengths, AllocError> {
    if let Some(count) = in_step(rests, SEED, NEAR + SEED) {
        return Ok(Lengths::Equal(count));
    }
    if let Some(counts) = shifted(alloc, seeds, rests)? {
        if !are_equal(&counts) {
            return Ok(Lengths::Each(counts));
        }
    }
    if let Some(count) = in_step(rests, SEED, usize::MAX) {
        return Ok(Lengths::Equal(count));
    }
    let count = shortest(rests);
    if count > 0 {
        return Ok(Lengths::Equal(count));
    }
    Ok(Lengths::Each(all_left(alloc, rests)?))
}
