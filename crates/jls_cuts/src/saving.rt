//! How many bits fewer the lines of a reader would cost in a code that learns, line by line.

ghost use Rattle.std.specs.Prelude.{◌≡◌, ◌<◌, ◌≤◌, length};

use crate::feeding::is_dead;
use crate::pace::Pace;
use jls_copy::{PieceInHand, WideReader};
use jls_search::{LearningCode, PARTS_OF_BIT, feed_any};
use std::alloc::AllocError;

/// How many parts of a bit a byte has.
const PARTS_OF_BYTE: u64 = 8 * PARTS_OF_BIT;

/// How many parts a part of a bit is divided into, where bits are shared out among samples.
const FINER: u64 = 256;

/// The first mean goes over so many samples, or a line more: fewer vary much, and more are of another place of the picture.
const SAMPLES_OF_MEAN: u64 = 3000;

/// By how many eighths a sample may save less than the mean: what it saves varies as the picture does.
const EIGHTHS: i64 = 6;

/// Some lines, and what they save, in parts of a bit.
#[derive(Clone, Copy)]
pub(crate) struct Saved {
    pub(crate) parts: i64,
    pub(crate) samples: i64,
}

/// What the lines of a reader cost, so far as they were counted.
#[derive(Clone, Copy)]
struct Gauge {
    /// What the code has learned.
    code: LearningCode,
    /// The offset of the piece whose lines were counted last.
    piece: u64,
    /// How many of its lines were counted.
    lines: usize,
    /// How many samples were read up to the end of the last line that was counted.
    samples: u64,
    /// About how many parts of a bit they took.
    bits: u64,
    /// How many samples are read from one end of a line to the next, or by sample of a row.
    at_once: u64,
}

/// A reader, and what its lines save.
#[derive(Drop)]
pub(crate) struct Measured {
    pub(crate) reader: WideReader,
    gauge: Gauge,
    /// What its last lines saved.
    pub(crate) last: Saved,
}

/// A number with a sign.
fn signed(number: u64) -> i64 {
    i64::try_from(number).unwrap_or(i64::MAX)
}

/// The line so many before this one, or no samples.
fn line_before(lines: &[Vec<u16>], place: usize, count: usize) -> &[u16] {
    let Some(before) = place.checked_sub(count) else {
        return &[];
    };
    match lines.get(before) {
        Some(line) => line,
        None => &[],
    }
}

/// How many samples of a piece are read from one end of a line to the next, or by sample of a row.
fn samples_at_once(piece: &PieceInHand) -> u64 {
    let width = u64::from(piece.plan.width());
    if piece.plan.by_sample() {
        return width.saturating_mul(piece.plan.components().len() as u64);
    }
    width
}

/// What `samples` samples have of these bits, which `all` samples have.
fn share_of(bits: u64, all: u64, samples: u64) -> u64 {
    let share = bits.saturating_mul(FINER).checked_div(all).unwrap_or(0);
    share.saturating_mul(samples) / FINER
}

impl Saved {
    /// What each sample may save at least: the mean, less so much, or less most of it.
    pub(crate) fn less(self, by: i64) -> i64 {
        let mean = self.parts.checked_div(self.samples).unwrap_or(0);
        let most = mean.saturating_mul(EIGHTHS) / 8;
        mean.saturating_sub(by.max(most))
    }

    /// What is saved beyond so much a sample.
    pub(crate) fn beyond(self, least: i64) -> i64 {
        self.parts
            .saturating_sub(least.saturating_mul(self.samples))
    }

    /// What both these lines and those save.
    pub(crate) fn and(self, more: Saved) -> Saved {
        Saved {
            parts: self.parts.saturating_add(more.parts),
            samples: self.samples.saturating_add(more.samples),
        }
    }

    /// What no lines save.
    pub(crate) fn none() -> Saved {
        Saved {
            parts: 0,
            samples: 0,
        }
    }
}

impl Gauge {
    /// What the lines of a piece from this place on cost.
    fn cost_from(&mut self, piece: &PieceInHand, from: usize, end: usize) -> u64 {
        let components = piece.plan.components().len();
        let lines = &piece.lines;
        let mut cost: u64 = 0;
        for place in from..end.min(lines.len()) {
            let line = line_before(lines, place, 0);
            let above = line_before(lines, place, components);
            let two_above = line_before(lines, place, components.saturating_mul(2));
            cost = cost.saturating_add(self.code.cost_of_line(line, above, two_above));
        }
        cost
    }

    /// Counts lines of a piece whose code took, with that of the samples after them, so many parts of a bit.
    fn count(&mut self, piece: &PieceInHand, read: u64, parts: u64) -> Option<Saved> {
        let from = if piece.offset == self.piece {
            self.lines
        } else {
            0
        };
        let width = u64::from(piece.plan.width());
        let counted = (piece.lines.len().saturating_sub(from) as u64).saturating_mul(width);
        if counted == 0 {
            return None;
        }
        let cost = self.cost_from(piece, from, piece.lines.len());
        let took = share_of(parts, read.saturating_sub(self.samples), counted);
        self.piece = piece.offset;
        self.lines = piece.lines.len();
        self.samples = self.samples.saturating_add(counted);
        self.bits = self.bits.saturating_add(took);
        self.at_once = samples_at_once(piece);
        Some(Saved {
            parts: signed(took).saturating_sub(signed(cost)),
            samples: signed(counted),
        })
    }

    /// Counts the lines of a reader that were not counted yet, if there are some.
    fn look(&mut self, reader: &WideReader) -> Result<Option<Saved>, AllocError> {
        let read = reader.samples_read();
        if read < self.samples.saturating_add(self.at_once) {
            return Ok(None);
        }
        let Some(piece) = reader.piece_in_hand()? else {
            return Ok(None);
        };
        let parts = reader
            .fed()
            .saturating_mul(PARTS_OF_BYTE)
            .saturating_sub(self.bits);
        Ok(self.count(&piece, read, parts))
    }
}

impl Measured {
    /// A reader whose piece in hand has some lines, and what they save.
    pub(crate) fn new(from: &WideReader, pace: Pace) -> Result<Option<Measured>, AllocError> {
        let Some(piece) = from.piece_in_hand()? else {
            return Ok(None);
        };
        let width = u64::from(piece.plan.width());
        let read = from.samples_read();
        let begun = read.checked_rem(samples_at_once(&piece)).unwrap_or(0);
        let mut gauge = Gauge {
            code: LearningCode::new(),
            piece: piece.offset,
            lines: piece.lines.len(),
            samples: read.saturating_sub(begun),
            bits: 0,
            at_once: samples_at_once(&piece),
        };
        let few = SAMPLES_OF_MEAN
            .checked_div(width)
            .unwrap_or(0)
            .saturating_add(1);
        let last = usize::try_from(few)
            .unwrap_or(usize::MAX)
            .min(piece.lines.len());
        let first = piece.lines.len().saturating_sub(last);
        let _ = gauge.cost_from(&piece, 0, first);
        let cost = gauge.cost_from(&piece, first, piece.lines.len());
        let (bytes, samples) = pace.since(from);
        let bits = bytes.saturating_mul(PARTS_OF_BYTE);
        let of = width.saturating_mul(last as u64);
        let took = share_of(bits, samples, of);
        gauge.bits = from
            .fed()
            .saturating_mul(PARTS_OF_BYTE)
            .saturating_sub(share_of(bits, samples, begun));
        Ok(Some(Measured {
            reader: from.try_clone()?,
            gauge,
            last: Saved {
                parts: signed(took).saturating_sub(signed(cost)),
                samples: signed(of),
            },
        }))
    }

    /// A second reader that was fed the same bytes, and what its lines save.
    pub(crate) fn try_clone(&self) -> Result<Measured, AllocError> {
        Ok(Measured {
            reader: self.reader.try_clone()?,
            gauge: self.gauge,
            last: self.last,
        })
    }

    /// Feeds the reader. The answer is what lines save that were read whole by it.
    pub(crate) fn feed(&mut self, bytes: &[u8]) -> Result<Option<Saved>, AllocError> {
        feed_any(&mut self.reader, bytes)?;
        self.gauge.look(&self.reader)
    }

    /// Whether it is known that no file without a fault begins with the bytes fed.
    pub(crate) fn is_dead(&self) -> bool {
        is_dead(&self.reader)
    }
}
