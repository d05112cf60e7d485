//! Stretches of one group, where they are too many.

use crate::lengths::Lengths;
use crate::stretches::{FIRM, Stretch};
use std::alloc::{AllocError, Global};

/// How many stretches of one group stay apart, however near they are.
const MOST_APART: usize = 11;

/// How many sizes of gaps are distinguished: up to `FIRM`, which stands for all that are larger.
const SIZES: usize = 9;

/// Which gaps of a group part its stretches: the larger ones, and so many of this size. Firm ones always do.
#[derive(Clone, Copy)]
struct Parting {
    size: usize,
    left: usize,
}

/// The gaps of one group, counted by size.
#[derive(Drop)]
struct Gaps {
    counts: [usize; SIZES],
}

impl Gaps {
    /// None.
    fn new() -> Gaps {
        Gaps { counts: [0; SIZES] }
    }

    /// Counts the gap before a stretch.
    fn count(&mut self, gap: usize) {
        if let Some(count) = self.counts.get_mut(gap.min(FIRM)) {
            *count = count.saturating_add(1);
        }
    }

    /// Which of them part.
    fn parting(&self) -> Parting {
        let mut left = MOST_APART - 1;
        for (size, count) in self.counts.iter().enumerate().rev() {
            if *count > left {
                return Parting { size, left };
            }
            left = left.saturating_sub(*count);
        }
        Parting {
            size: 0,
            left: usize::MAX,
        }
    }
}

/// Which gaps part, group by group.
fn partings(alloc: Global, stretches: &[Stretch]) -> Result<Vec<Parting>, AllocError> {
    let mut partings = Vec::new(alloc);
    let mut gaps = Gaps::new();
    for (place, stretch) in stretches.iter().enumerate() {
        if stretch.begins_group {
            partings.push(gaps.parting())?;
            gaps = Gaps::new();
        } else if place > 0 {
            gaps.count(stretch.apart);
        }
    }
    partings.push(gaps.parting())?;
    Ok(partings)
}

impl Parting {
    /// Whether the gap parts; one of its size is used up.
    fn parts(&mut self, gap: usize) -> bool {
        if gap >= FIRM {
            return true;
        }
        if gap != self.size {
            return gap > self.size;
        }
        if self.left == 0 {
            return false;
        }
        self.left -= 1;
        true
    }
}

/// How many bytes each of so many copies has in two stretches and between them.
fn joined(
    alloc: Global,
    copies: usize,
    before: &Lengths,
    stretch: &Stretch,
) -> Result<Lengths, AllocError> {
    if let (Lengths::Equal(first), Lengths::Equal(second)) = (before, &stretch.lengths) {
        let count = first.saturating_add(stretch.same).saturating_add(*second);
        return Ok(Lengths::Equal(count));
    }
    let mut counts = Vec::new(alloc);
    for copy in 0..copies {
        let count = before.of(copy).saturating_add(stretch.same);
        counts.push(count.saturating_add(stretch.lengths.of(copy)))?;
    }
    Ok(Lengths::Each(counts))
}

/// Joins the nearest stretches of so many copies where a group has too many.
pub(crate) fn merged(
    alloc: Global,
    copies: usize,
    stretches: Vec<Stretch>,
) -> Result<Vec<Stretch>, AllocError> {
    let partings = partings(alloc, &stretches)?;
    let mut group = 0usize;
    let mut parting = partings.first().copied();
    let mut out: Vec<Stretch> = Vec::new(alloc);
    for stretch in stretches {
        let mut is_apart = true;
        if stretch.begins_group {
            group = group.saturating_add(1);
            parting = partings.get(group).copied();
        } else if let Some(gaps) = parting.as_mut() {
            is_apart = out.is_empty() || gaps.parts(stretch.apart);
        }
        if !is_apart {
            if let Some(last) = out.last_mut() {
                last.lengths = joined(alloc, copies, &last.lengths, &stretch)?;
                continue;
            }
        }
        out.push(stretch)?;
    }
    Ok(out)
}
