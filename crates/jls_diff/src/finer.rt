//! Parts cut finer, for copies whose damaged places touch. What is proposed here is checked, so no contract speaks of it.

use crate::part::Part;
use crate::parts::Parts;
use crate::steps::{agree_at, prefix, rest_of, shortest};
use std::alloc::{AllocError, Global};

/// Parts with fewer agreeing bytes between them are one stretch: in noise single bytes agree by chance.
const NEAR: usize = 8;

/// How long a stretch is at most that is not cut at sectors, but at single bytes.
const SHORT: usize = 16;

/// How many bytes in a row that differ are cut from each other. More are one place, as a rule, and all their combinations would be many.
const FEW: usize = 4;

/// The size of a sector of a disk. Longer stretches are cut at its multiples.
const SECTOR: usize = 512;

/// Where long stretches are cut.
#[derive(Clone, Copy)]
pub(crate) enum CutPlaces<'c> {
    /// At multiples of a sector.
    Sectors,
    /// At these offsets, in any order.
    Offsets(&'c [usize]),
}

/// Parts that are cut so far, and what follows them.
#[derive(Drop)]
struct Cutting<'a, 'c> {
    alloc: Global,
    places: CutPlaces<'c>,
    parts: Vec<Part<'a>>,
    /// What each copy has after these parts.
    rests: Vec<&'a [u8]>,
    /// Where that begins in the first copy.
    offset: usize,
    /// How long the stretch in hand is, which has one length in all copies.
    open: usize,
    /// How many bytes after it all copies have alike.
    same: usize,
}

/// How many bytes of so many come before the first in which copies agree or differ, as is asked.
fn length_until(rests: &[&[u8]], most: usize, agrees: bool) -> usize {
    for at in 0..most {
        if agree_at(rests, at) == agrees {
            return at;
        }
    }
    most
}

/// How many bytes of so many make the next piece of a short stretch: all that copies have alike, one byte in which they differ, or all of
/// these in a row, where there are more than a few.
fn next_step(rests: &[&[u8]], most: usize) -> usize {
    let alike = length_until(rests, most, false);
    if alike > 0 {
        return alike;
    }
    let different = length_until(rests, most, true);
    if different > FEW { different } else { 1 }
}

/// How many bytes there are from an offset to the next place after it at which a long stretch is cut; `usize::MAX`, if there is none.
fn to_next_place(places: CutPlaces<'_>, offset: usize) -> usize {
    match places {
        CutPlaces::Sectors => SECTOR - offset % SECTOR,
        CutPlaces::Offsets(offsets) => {
            let mut least = usize::MAX;
            for place in offsets {
                if *place > offset {
                    least = least.min(*place - offset);
                }
            }
            least
        }
    }
}

/// Whether all have the same bytes.
fn are_alike(ways: &[&[u8]]) -> bool {
    let Some(first) = ways.first() else {
        return true;
    };
    ways.iter().all(|way| way == first)
}

/// How long all ways are, if they have one length.
fn common_length(ways: &[&[u8]]) -> Option<usize> {
    let length = shortest(ways);
    if ways.iter().all(|way| way.len() == length) {
        Some(length)
    } else {
        None
    }
}

impl<'a> Cutting<'a, '_> {
    /// Adds the next bytes of all copies, so many of each, as a part.
    fn add(&mut self, count: usize) -> Result<(), AllocError> {
        let mut ways = Vec::new(self.alloc);
        for rest in self.rests.iter_mut() {
            ways.push(prefix(rest, count))?;
            *rest = rest_of(rest, count);
        }
        self.offset = self.offset.saturating_add(count);
        match ways.first() {
            Some(first) if are_alike(&ways) => self.parts.push(Part::Same(first))?,
            _ => self.parts.push(Part::Differ(ways))?,
        }
        Ok(())
    }

    /// Cuts the stretch in hand, and adds what all copies have alike after it.
    fn close(&mut self) -> Result<(), AllocError> {
        let length = self.open;
        let mut left = length;
        for _ in 0..length {
            if left == 0 {
                break;
            }
            let count = if length <= SHORT {
                next_step(&self.rests, left)
            } else {
                to_next_place(self.places, self.offset).min(left)
            };
            self.add(count)?;
            left = left.saturating_sub(count);
        }
        if self.same > 0 {
            self.add(self.same)?;
        }
        self.open = 0;
        self.same = 0;
        Ok(())
    }

    /// Takes in bytes that all copies have alike.
    fn take_same(&mut self, count: usize) -> Result<(), AllocError> {
        self.same = self.same.saturating_add(count);
        if self.open == 0 || self.same >= NEAR {
            self.close()?;
        }
        Ok(())
    }

    /// Takes in a part in which copies differ. If its ways have several lengths, it stays as it is.
    fn take_differ(&mut self, ways: &[&'a [u8]]) -> Result<(), AllocError> {
        if let Some(length) = common_length(ways) {
            self.open = self.open.saturating_add(self.same).saturating_add(length);
            self.same = 0;
            return Ok(());
        }
        self.close()?;
        for (rest, way) in self.rests.iter_mut().zip(ways) {
            *rest = rest_of(rest, way.len());
        }
        let first = ways.first().map(|way| way.len()).unwrap_or(0);
        self.offset = self.offset.saturating_add(first);
        self.parts
            .push(Part::Differ(Vec::from_slice(self.alloc, ways)?))?;
        Ok(())
    }
}

/// The parts of these copies, from parts that are coarser. Those that are near each other are joined, and each stretch is cut at each byte
/// if it is short, and at these places if not.
pub(crate) fn cut_finer<'a>(
    alloc: Global,
    copies: &[&'a [u8]],
    parts: &Parts<'a>,
    places: CutPlaces<'_>,
) -> Result<Vec<Part<'a>>, AllocError> {
    let mut cutting = Cutting {
        alloc,
        places,
        parts: Vec::new(alloc),
        rests: Vec::from_slice(alloc, copies)?,
        offset: 0,
        open: 0,
        same: 0,
    };
    for part in parts.list() {
        match part {
            Part::Same(bytes) => cutting.take_same(bytes.len())?,
            Part::Differ(ways) => cutting.take_differ(ways)?,
        }
    }
    cutting.close()?;
    let Cutting { parts, .. } = cutting;
    Ok(parts)
}
