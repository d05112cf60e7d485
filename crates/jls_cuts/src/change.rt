//! Where the lines of a copy cease to save bits: about where its bytes cease to be true.

ghost use Rattle.std.specs.Prelude.{◌≡◌, ◌<◌, ◌≤◌, length};
ghost use Rattle.jls_diff.specs.PartsOf.{part_of, parts_of};

use crate::saving::{Measured, Saved};
use crate::stretch::Stretch;
use std::alloc::AllocError;

/// By how much less than the mean a sample may save at first, in parts of a bit: a tenth of one. Wrong lines save far less.
const STRICT: i64 = 26;

/// The same for a second look, which passes more of what varies: a fifth of a bit.
pub(crate) const WIDE: i64 = 51;

/// So many bytes of a copy are read at most: each line costs a look at all lines before it.
const MOST_BYTES: usize = 1 << 17;

/// The line up to which a copy saves most.
#[derive(Clone, Copy)]
pub(crate) struct Peak {
    /// The byte of the stretch at which the line ends.
    at: usize,
    /// The byte at which the next one ends.
    next: Option<usize>,
    /// How many parts of a bit are saved up to it beyond the least.
    pub(crate) height: i64,
    /// How many are saved so far.
    sum: i64,
    /// What the lines up to the peak save.
    pub(crate) mean: Saved,
    /// What all lines save so far.
    all: Saved,
}

/// Where a copy ceases to save.
#[derive(Clone, Copy)]
pub(crate) struct Change {
    pub(crate) strict: Peak,
    wide: Peak,
    /// How many bytes were read.
    pub(crate) bytes: usize,
    /// Whether the reader died in the stretch.
    is_dead: bool,
}

impl Peak {
    /// That of lines after others that saved so much.
    fn new(mean: Saved) -> Peak {
        Peak {
            at: 0,
            next: None,
            height: 0,
            sum: 0,
            mean,
            all: mean,
        }
    }

    /// Adds what lines save that end at a byte.
    fn add(&mut self, saved: Saved, at: usize, by: i64) {
        if self.next.is_none() {
            self.next = Some(at);
        }
        self.sum = self.sum.saturating_add(saved.beyond(self.mean.less(by)));
        self.all = self.all.and(saved);
        if self.sum > self.height {
            self.height = self.sum;
            self.at = at;
            self.mean = self.all;
            self.next = None;
        }
    }

    /// How far bytes are from those of the line after the peak.
    fn distance(self, from: usize, end: usize) -> usize {
        let next = self.next.unwrap_or(self.at);
        self.at.saturating_sub(end).max(from.saturating_sub(next))
    }
}

impl Change {
    /// How far bytes are from where a copy ceases to save.
    pub(crate) fn distance(self, from: usize, end: usize) -> usize {
        self.strict
            .distance(from, end)
            .min(self.wide.distance(from, end))
    }

    /// The last byte at which it may cease to.
    pub(crate) fn last(self) -> usize {
        let strict = self.strict.next.unwrap_or(self.strict.at);
        strict.max(self.wide.next.unwrap_or(self.wide.at))
    }

    /// Whether the copy saves up to the last bytes that were read.
    pub(crate) fn goes_on(self, loss: i64) -> bool {
        !self.is_dead && self.wide.height.saturating_sub(self.wide.sum) <= loss
    }
}

/// Where a copy ceases to save.
pub(crate) fn change_of(
    stretch: Stretch<'_, '_>,
    from: &Measured,
    copy: usize,
) -> Result<Change, AllocError> {
    let mut run = from.try_clone()?;
    let mut change = Change {
        strict: Peak::new(from.last),
        wide: Peak::new(from.last),
        bytes: 0,
        is_dead: false,
    };
    for at in 0..stretch.length.min(MOST_BYTES) {
        let end = at.saturating_add(1);
        if let Some(saved) = run.feed(stretch.way_between(copy, at, end))? {
            change.strict.add(saved, end, STRICT);
            change.wide.add(saved, end, WIDE);
        }
        change.bytes = end;
        if run.is_dead() {
            change.is_dead = true;
            break;
        }
    }
    Ok(change)
}
