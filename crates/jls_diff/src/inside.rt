//! Stretches inside one in which some copies have other lengths: those of the same length are aligned with each other.

use crate::lengths::Lengths;
use crate::steps::prefix;
use crate::stretches::{Before, Stretch, add_stretches};
use std::alloc::{AllocError, Global};

/// How many of the copies have this length.
fn count_of(lengths: &[usize], length: usize) -> usize {
    lengths.iter().filter(|other| **other == length).count()
}

/// The length that most copies have, the first such; `None` where there is no copy.
fn common_length(lengths: &[usize]) -> Option<usize> {
    let mut common = None;
    let mut most = 0usize;
    for length in lengths {
        let count = count_of(lengths, *length);
        if count > most {
            most = count;
            common = Some(*length);
        }
    }
    common
}

/// What the copies of this length have, of those whose lengths these are.
fn aligned<'a>(
    alloc: Global,
    rests: &[&'a [u8]],
    lengths: &[usize],
    common: usize,
) -> Result<Vec<&'a [u8]>, AllocError> {
    let mut out = Vec::new(alloc);
    for (rest, length) in rests.iter().zip(lengths) {
        if *length == common {
            out.push(prefix(rest, common))?;
        }
    }
    Ok(out)
}

/// Where a copy of another length is cut, if those of the common one are cut there: what it has less or more stands before it.
fn cut_of(length: usize, common: usize, cut: usize) -> usize {
    length.saturating_sub(common.saturating_sub(cut))
}

/// How many bytes each copy has from one cut to the next; from the start where the first cut is 0.
fn between_cuts(
    alloc: Global,
    lengths: &[usize],
    common: usize,
    cuts: (usize, usize),
) -> Result<Vec<usize>, AllocError> {
    let (start, end) = cuts;
    let mut counts = Vec::new(alloc);
    for length in lengths {
        let from = if start == 0 {
            0
        } else {
            cut_of(*length, common, start)
        };
        counts.push(cut_of(*length, common, end).saturating_sub(from))?;
    }
    Ok(counts)
}

/// Where stretches of aligned copies are cut: in the middle between each two, and at the end. Each cut stands beside how many bytes agree
/// around the cut before.
fn cuts_between(
    alloc: Global,
    inner: &[Stretch],
    common: usize,
) -> Result<Vec<(usize, usize)>, AllocError> {
    let mut cuts = Vec::new(alloc);
    let mut end = 0usize;
    let mut agreed = 0usize;
    for (place, stretch) in inner.iter().enumerate() {
        if place > 0 {
            cuts.push((end.saturating_add(stretch.same / 2), agreed))?;
            agreed = stretch.apart;
        }
        end = end
            .saturating_add(stretch.same)
            .saturating_add(stretch.lengths.of(0));
    }
    cuts.push((common, agreed))?;
    Ok(cuts)
}

/// Adds a stretch in which copies have these lengths, after what stands before it. Where most have one length, they part it.
pub(crate) fn add_shifted(
    alloc: Global,
    stretches: &mut Vec<Stretch>,
    rests: &[&[u8]],
    lengths: &[usize],
    before: Before,
) -> Result<(), AllocError> {
    let common = common_length(lengths).unwrap_or(0);
    let copies = aligned(alloc, rests, lengths, common)?;
    let none = Before {
        same: 0,
        apart: 0,
        begins_group: false,
    };
    let mut inner = Vec::new(alloc);
    let _ = add_stretches(alloc, &mut inner, &copies, common, none)?;
    let mut start = 0usize;
    let mut in_prefix = before;
    for (cut, agreed) in cuts_between(alloc, &inner, common)? {
        let counts = between_cuts(alloc, lengths, common, (start, cut))?;
        stretches.push(Stretch {
            same: in_prefix.same,
            apart: if start == 0 { in_prefix.apart } else { agreed },
            lengths: Lengths::Each(counts),
            begins_group: in_prefix.begins_group,
        })?;
        in_prefix = none;
        start = cut;
    }
    Ok(())
}
