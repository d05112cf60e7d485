//! Lines in the code of a copy, and where the copy has the same bytes.

use crate::code::{FirstBits, FirstCode};
use crate::line_ends::LineEnds;
use crate::runs::{Run, add_runs, is_hint, is_short_hint};
use crate::shifts::{Shift, shifts_of};
use std::alloc::{AllocError, Global};

/// How many rows behind a line bytes speak for it.
const ROWS_NEAR: usize = 2;

/// Lines in the code of a copy.
#[derive(Drop)]
pub(crate) struct Coded {
    pub(crate) bytes: Vec<u8>,
    pub(crate) ends: LineEnds,
    /// The bits of the last line behind these bytes, if there are any.
    more: Option<FirstBits>,
    /// Whether they are all lines of their interval, with the byte that ends them.
    is_whole: bool,
}

/// Where a code and a copy have the same bytes, in order.
#[derive(Drop)]
pub(crate) struct Runs {
    /// Stretches with whole lines in them. What stands behind a flipped bit up to both ends is one, however short it is.
    pub(crate) runs: Vec<Run>,
    /// These, and long stretches in which no whole line is.
    pub(crate) with_hints: Vec<Run>,
    /// These, and shorter ones.
    pub(crate) with_short_hints: Vec<Run>,
    /// All stretches.
    pub(crate) all: Vec<Run>,
}

/// Whether the first of these bytes differ by one bit, and the others are the same.
fn begin_with_flip(bytes: &[u8], others: &[u8]) -> bool {
    match (bytes, others) {
        ([byte, rest @ ..], [other, others @ ..]) => {
            (*byte ^ *other).count_ones() == 1 && *rest == *others
        }
        _ => false,
    }
}

impl Coded {
    /// All lines of a piece, or the first of them. The byte that ends a whole piece is the copy's own, if it can be.
    pub(crate) fn of(code: FirstCode, is_whole: bool, own: &[u8]) -> Result<Coded, AllocError> {
        let last = if is_whole { code.last_byte(own) } else { None };
        let FirstCode {
            mut bytes,
            mut ends,
            more,
        } = code;
        if let Some(byte) = last {
            bytes.push(byte)?;
            ends = ends.with_byte();
        }
        Ok(Coded {
            bytes,
            ends,
            more,
            is_whole,
        })
    }

    /// How many lines end before a place.
    pub(crate) fn lines_before(&self, place: usize) -> usize {
        if self.is_whole && place >= self.bytes.len() {
            self.ends.count()
        } else {
            self.ends.count_below(place)
        }
    }

    /// Whether a copy goes on with the last bits of the code where a run ends that has all its bytes.
    fn ends_alike(&self, run: &Run, own: &[u8]) -> bool {
        if run.end < self.bytes.len() {
            return false;
        }
        let Some(bits) = self.more else {
            return true;
        };
        run.shift
            .in_copy(run.end)
            .and_then(|place| own.get(place))
            .is_some_and(|byte| bits.begin(*byte))
    }

    /// How many lines end up to the end of a run: also the last one, if the copy has its last bits too.
    fn lines_to(&self, run: &Run, own: &[u8]) -> usize {
        if self.ends_alike(run, own) {
            self.ends.count()
        } else {
            self.lines_before(run.end)
        }
    }

    /// Whether a run has whole lines in it: one of each component. The last bits of the last one can stand in the byte behind the run.
    fn has_lines(&self, run: &Run, components: usize) -> bool {
        let begun = self.ends.count_below(run.begin);
        let count = self
            .ends
            .count_below(run.end.saturating_add(1))
            .saturating_sub(begun);
        count > components || (count == components && run.begin == 0)
    }

    /// What stands behind a flipped bit of a copy, if this whole code and the copy end alike behind it. A run ends at that bit.
    fn ending(&self, bytes: &[u8], runs: &[Run]) -> Option<Run> {
        if !self.is_whole {
            return None;
        }
        runs.iter().find_map(|run| {
            let code = self.bytes.get(run.end..)?;
            let own = bytes.get(run.shift.in_copy(run.end)?..)?;
            if begin_with_flip(code, own) {
                Some(Run {
                    begin: run.end.saturating_add(1),
                    end: self.bytes.len(),
                    shift: run.shift,
                })
            } else {
                None
            }
        })
    }

    /// The runs of the code and a copy, and the hints. The code of known lines ends at `known`.
    pub(crate) fn runs(
        &self,
        alloc: Global,
        bytes: &[u8],
        components: usize,
        known: usize,
        is_twin: bool,
    ) -> Result<Runs, AllocError> {
        let shifts = if is_twin {
            vec![in alloc; Shift::NONE]?
        } else {
            shifts_of(alloc, &self.bytes, bytes, known)?
        };
        let mut all = Vec::new(alloc);
        for shift in shifts {
            add_runs(&mut all, &self.bytes, bytes, shift)?;
        }
        let mut runs: Vec<Run> = Vec::new(alloc);
        let mut with_hints: Vec<Run> = Vec::new(alloc);
        let mut with_short_hints: Vec<Run> = Vec::new(alloc);
        all.sort_by_key(|run| (run.begin, run.end))?;
        for run in all.iter().copied() {
            let has_lines = self.has_lines(&run, components) && (!is_twin || run.begin == 0);
            if has_lines {
                runs.push(run)?;
            }
            if has_lines || (!is_twin && is_hint(&self.bytes, &run)) {
                with_hints.push(run)?;
            }
            if has_lines || (!is_twin && is_short_hint(&self.bytes, &run)) {
                with_short_hints.push(run)?;
            }
        }
        if let (false, Some(ending)) = (is_twin, self.ending(bytes, &runs)) {
            runs.push(ending)?;
            with_hints.push(ending)?;
            with_short_hints.push(ending)?;
        }
        runs.sort_by_key(|run| (run.begin, run.end))?;
        with_hints.sort_by_key(|run| (run.begin, run.end))?;
        with_short_hints.sort_by_key(|run| (run.begin, run.end))?;
        Ok(Runs {
            runs,
            with_hints,
            with_short_hints,
            all,
        })
    }

    /// The first line that the copy denies, from one on that it doesn't confirm. Where both have the same bytes again behind a gap near it,
    /// this is the line in which they part again.
    pub(crate) fn first_denied(&self, all: &[Run], line: usize, components: usize) -> usize {
        let from = self.ends.begin_of(line);
        let near = self
            .ends
            .begin_of(line.saturating_add(components.saturating_mul(ROWS_NEAR)));
        let mut gap = from;
        for run in all {
            if run.begin <= gap {
                gap = gap.max(run.end);
            } else if run.begin < near {
                return self.lines_before(run.end).max(line);
            } else {
                break;
            }
        }
        line
    }

    /// How many lines runs of a copy confirm, of which nothing is decided from a byte on. Only one gap is passed: what the copy gives
    /// behind that gap is to be heard first.
    pub(crate) fn count_confirmed(&self, runs: &[Run], own: &[u8], fresh: usize) -> usize {
        let mut first = None;
        for run in runs {
            if run.end <= fresh {
                continue;
            }
            if first.is_some() || run.begin > fresh {
                return self.lines_to(run, own);
            }
            first = Some(run);
        }
        match first {
            None => 0,
            Some(run) => self.lines_to(run, own),
        }
    }
}
