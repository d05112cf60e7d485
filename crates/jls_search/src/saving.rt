//! How many bits fewer the lines of a path would cost in a code that learns, so far as they were read. No contract speaks of it.

use crate::learning_code::{LearningCode, PARTS_OF_BIT};
use jls_copy::{PieceInHand, WideReader};
use jls_marker::ScanPlan;
use std::alloc::AllocError;

/// How many bits a byte has.
const BITS_OF_BYTE: u64 = 8;

/// How many parts a part of a bit is divided into, where bits are shared out among samples.
const FINER: u64 = 256;

/// What is known of the lines of a path that were counted so far.
#[derive(Clone, Copy)]
pub struct Saving {
    /// What the code has learned.
    code: LearningCode,
    /// The offset of the piece whose lines were counted last.
    piece: u64,
    /// How many of its lines were counted.
    lines: usize,
    /// How many samples were read up to the end of the last whole line, or by sample of the last whole row.
    samples: u64,
    /// About how many bits they took, in parts of a bit.
    bits: u64,
    /// How many bits they took more than they cost in the code, in parts of a bit.
    saved: i64,
}

/// The line so many before this one, or no samples.
fn line_before(lines: &[Vec<u16>], place: usize, count: usize) -> &[u16] {
    let Some(before) = place.checked_sub(count) else {
        return &[];
    };
    match lines.get(before) {
        Some(line) => line,
        None => &[],
    }
}

/// What bits are for each sample, if so many samples have so many parts of a bit.
fn share_of(bits: u64, samples: u64) -> u64 {
    bits.saturating_mul(FINER).checked_div(samples).unwrap_or(0)
}

/// The parts of a bit that so many samples have.
fn bits_of(share: u64, samples: u64) -> u64 {
    share.saturating_mul(samples) / FINER
}

/// How many samples lines are read by: those of a line, or by sample those of a row.
fn samples_at_once(plan: &ScanPlan) -> u64 {
    let width = u64::from(plan.width());
    if plan.by_sample() {
        return width.saturating_mul(plan.components().len() as u64);
    }
    width
}

/// A number with a sign.
fn signed(number: u64) -> i64 {
    i64::try_from(number).unwrap_or(i64::MAX)
}

impl Saving {
    /// That of a path of which nothing was counted.
    pub(crate) fn new() -> Saving {
        Saving {
            code: LearningCode::new(),
            piece: 0,
            lines: 0,
            samples: 0,
            bits: 0,
            saved: 0,
        }
    }

    /// How many bits are saved.
    pub(crate) fn bits(&self) -> i64 {
        self.saved.checked_div(signed(PARTS_OF_BIT)).unwrap_or(0)
    }

    /// What the lines from this place on cost, where so many components take turns.
    fn cost_from(&mut self, lines: &[Vec<u16>], from: usize, components: usize) -> u64 {
        let mut cost: u64 = 0;
        for place in from..lines.len() {
            let line = line_before(lines, place, 0);
            let above = line_before(lines, place, components);
            let two_above = line_before(lines, place, components.saturating_mul(2));
            cost = cost.saturating_add(self.code.cost_of_line(line, above, two_above));
        }
        cost
    }

    /// Counts the lines of a piece that were not counted yet. So many bytes were fed, and so many samples read.
    fn count(&mut self, piece: &PieceInHand, fed: u64, read: u64) {
        let width = u64::from(piece.plan.width());
        let from = if piece.offset == self.piece {
            self.lines
        } else {
            0
        };
        let cost = self.cost_from(&piece.lines, from, piece.plan.components().len());
        let counted = (piece.lines.len().saturating_sub(from) as u64).saturating_mul(width);
        let begun = read.checked_rem(samples_at_once(&piece.plan)).unwrap_or(0);
        let whole = read.saturating_sub(begun);
        let bits = fed
            .saturating_mul(BITS_OF_BYTE)
            .saturating_mul(PARTS_OF_BIT)
            .saturating_sub(self.bits);
        let share = share_of(bits, read.saturating_sub(self.samples));
        let took = bits_of(share, counted);
        self.saved = self
            .saved
            .saturating_add(signed(took))
            .saturating_sub(signed(cost));
        self.bits = self
            .bits
            .saturating_add(bits_of(share, whole.saturating_sub(self.samples)));
        self.samples = whole;
        self.piece = piece.offset;
        self.lines = piece.lines.len();
    }
}

/// That of a path of which nothing was counted, in a search that lets paths go. In another nothing is counted.
pub(crate) fn first_saving(lets_go: bool) -> Option<Saving> {
    if lets_go {
        return Some(Saving::new());
    }
    None
}

/// What is saved on a path whose reader this is, if it is counted. It goes on from another path. The only refusal is out of memory.
pub(crate) fn saving_on(
    from: &Option<Saving>,
    reader: &WideReader,
) -> Result<Option<Saving>, AllocError> {
    let Some(saving) = from else {
        return Ok(None);
    };
    let mut saving = *saving;
    if let Some(piece) = reader.piece_in_hand()? {
        saving.count(&piece, reader.fed(), reader.samples_read());
    }
    Ok(Some(saving))
}
