//! Stretches in which copies differ.

use crate::border::is_sos_or_restart;
use crate::lengths::Lengths;
use crate::steps::agree_at;
use crate::zeros::ZeroRuns;
use std::alloc::{AllocError, Global};

/// How long a stretch is at most where one agreeing byte parts two.
const FINE: usize = 4096;

/// How many agreeing bytes part two stretches in any case.
pub(crate) const FIRM: usize = 8;

/// A stretch in which copies differ.
#[derive(Drop)]
pub(crate) struct Stretch {
    /// How many bytes before it all copies have alike.
    pub(crate) same: usize,
    /// How firmly it is parted from the stretch before: so many bytes agree, or `FIRM`.
    pub(crate) apart: usize,
    /// How many bytes each copy has in it.
    pub(crate) lengths: Lengths,
    /// Whether a group begins with it: a restart marker or the marker of a scan header stands in the bytes before it.
    pub(crate) begins_group: bool,
}

/// Whether a restart marker or the marker of a scan header stands there (T.81 B.1.1.3).
pub(crate) fn has_mark(bytes: &[u8]) -> bool {
    let mut before = 0u8;
    for byte in bytes {
        if before == 0xFF && is_sos_or_restart(*byte) {
            return true;
        }
        before = *byte;
    }
    false
}

/// The stretch in hand: what stands before it, where it is, and which copies have zeros there.
#[derive(Clone, Copy)]
struct Open {
    before: Before,
    start: usize,
    end: usize,
    zeros: u64,
    is_steady: bool,
}

/// What stands before a stretch.
#[derive(Clone, Copy)]
pub(crate) struct Before {
    /// How many bytes all copies have alike there.
    pub(crate) same: usize,
    /// How firmly they part.
    pub(crate) apart: usize,
    /// Whether a group begins after it.
    pub(crate) begins_group: bool,
}

impl Open {
    /// Passes a place where these copies have zeros.
    fn pass(&mut self, zeros: Option<u64>) {
        if zeros.unwrap_or(self.zeros) != self.zeros {
            self.is_steady = false;
        }
    }

    /// Whether a difference there belongs to it: too little agrees between, or zeros have stood in the same copies from there to here.
    fn goes_on(&self, at: usize, zeros: u64, gap: usize) -> bool {
        zeros == self.zeros && (at.saturating_sub(self.end) < gap || (zeros != 0 && self.is_steady))
    }

    /// What stands between it and a difference after it.
    fn between(&self, rests: &[&[u8]], at: usize, zeros: u64) -> Before {
        let same = at.saturating_sub(self.end);
        let bytes = rests.first().and_then(|rest| rest.get(self.end..at));
        Before {
            same,
            apart: if zeros != self.zeros { FIRM } else { same },
            begins_group: bytes.is_some_and(|bytes| has_mark(bytes)),
        }
    }

    /// As a stretch.
    fn stretch(&self) -> Stretch {
        Stretch {
            same: self.before.same,
            apart: self.before.apart,
            lengths: Lengths::Equal(self.end.saturating_sub(self.start)),
            begins_group: self.before.begins_group,
        }
    }
}

/// Adds the stretches in so many bytes of each copy, without a shift, after what stands before them. Answers where the last one ends.
pub(crate) fn add_stretches(
    alloc: Global,
    stretches: &mut Vec<Stretch>,
    rests: &[&[u8]],
    count: usize,
    before: Before,
) -> Result<usize, AllocError> {
    let gap = if count > FINE { FIRM } else { 1 };
    let mut runs = ZeroRuns::new(alloc, rests.len())?;
    let mut open: Option<Open> = None;
    for at in 0..count {
        let zeros = runs.at(rests, at);
        if let Some(held) = open.as_mut() {
            held.pass(zeros);
        }
        if agree_at(rests, at) {
            continue;
        }
        let zeros = zeros.unwrap_or(0);
        let next = next_open(stretches, rests, open, (at, zeros, gap))?;
        open = Some(next.unwrap_or(Open {
            before: Before {
                same: at.saturating_add(before.same),
                ..before
            },
            start: at,
            end: at.saturating_add(1),
            zeros,
            is_steady: true,
        }));
    }
    let Some(last) = open else {
        return Ok(0);
    };
    stretches.push(last.stretch())?;
    Ok(last.end)
}

/// The stretch in hand after one more difference: the one before, which it belongs to, or a new one, and then the one before is added.
/// `None` where there was none.
fn next_open(
    stretches: &mut Vec<Stretch>,
    rests: &[&[u8]],
    open: Option<Open>,
    difference: (usize, u64, usize),
) -> Result<Option<Open>, AllocError> {
    let (at, zeros, gap) = difference;
    let Some(held) = open else {
        return Ok(None);
    };
    let end = at.saturating_add(1);
    if held.goes_on(at, zeros, gap) {
        return Ok(Some(Open { end, ..held }));
    }
    stretches.push(held.stretch())?;
    Ok(Some(Open {
        before: held.between(rests, at, zeros),
        start: at,
        end,
        zeros,
        is_steady: true,
    }))
}
