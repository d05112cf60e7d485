//! The code of first rows of an interval by sample (ITU-T T.87, A.3 to A.7, ILV 2).
//!
//! The page of `jls_pixel` says what differs from an interval by line. No contract speaks of this code, as of all that is proposed here.

ghost use Rattle.std.specs.Prelude.{◌≡◌, ◌≤◌, ◌+◌};
ghost use Rattle.jls_values.specs.Params.{AreCodingParameters};
ghost use Rattle.jls_context.specs.Errors.{IsError};

use crate::interval::Interval;
use jls_bits::{BitPlace, BitWriter, write_golomb};
use jls_context::{Cells, Mode, Neighbours};
use jls_interval::Front;
use jls_values::Params;
use std::alloc::{AllocError, Global};

/// J by RUNindex: a full block of a run has 2^J pixels (A.7.1).
const RUN_ORDERS: [u8; 32] = [
    0, 0, 0, 0, 1, 1, 1, 1, 2, 2, 2, 2, 3, 3, 3, 3, 4, 4, 5, 5, 6, 6, 7, 7, 8, 9, 10, 11, 12, 13,
    14, 15,
];

/// The last of these.
const LAST_ORDER: u8 = 15;

/// The greatest number of a context (A.3.4).
const LAST_CONTEXT: u16 = 364;

/// First rows of a picture: their lines, row by row, and in a row by component.
#[derive(Clone, Copy)]
struct Rows<'r> {
    lines: &'r [&'r [u16]],
    components: usize,
    width: usize,
}

impl Rows<'_> {
    /// The sample in a column of the line so many rows above another; 0 where there is none.
    fn sample(&self, line: usize, up: usize, x: usize) -> u16 {
        let Some(line) = line.checked_sub(up.saturating_mul(self.components)) else {
            return 0;
        };
        match self.lines.get(line) {
            None => 0,
            Some(samples) => samples.get(x).copied().unwrap_or(0),
        }
    }

    /// The samples round one (A.2, A.3.1).
    fn neighbours(&self, line: usize, x: usize) -> Neighbours {
        let rb = self.sample(line, 1, x);
        let next = x.saturating_add(1);
        let rd = if next < self.width {
            self.sample(line, 1, next)
        } else {
            rb
        };
        match x.checked_sub(1) {
            None => Neighbours {
                ra: rb,
                rb,
                rc: self.sample(line, 2, 0),
                rd,
            },
            Some(before) => Neighbours {
                ra: self.sample(line, 0, before),
                rb,
                rc: self.sample(line, 1, before),
                rd,
            },
        }
    }

    /// How many pixels of a row from a column on are that before the column.
    fn run_length(&self, first: usize, x: usize) -> usize {
        let mut count = 0usize;
        for column in x..self.width {
            let is_same = (0..self.components).all(|component| {
                let line = first.saturating_add(component);
                self.sample(line, 0, column) == self.neighbours(line, x).ra
            });
            if !is_same {
                break;
            }
            count = count.saturating_add(1);
        }
        count
    }
}

/// Writes rows.
#[derive(Drop)]
struct PixelWriter {
    writer: BitWriter,
    cells: Cells,
    /// The bits of an escaped number.
    qbpp: u8,
    limit: u8,
    maxval: u16,
    /// RUNindex.
    run_index: u8,
    ghost in_range: { AreCodingParameters cells.parameters },
    ghost maxval_is: { maxval ≡ cells.parameters.maxval },
    ghost qbpp_is: { qbpp ≡ Rattle.jls_values.specs.Params.qbpp cells.parameters },
    ghost qbpp_at_least: { 1 ≤ qbpp },
    ghost qbpp_at_most: { qbpp ≤ 16 },
    ghost limit_at_least: { qbpp + 2 ≤ limit },
    ghost limit_at_most: { limit ≤ 64 },
}

impl PixelWriter {
    fn new(alloc: Global, params: &Params) -> PixelWriter {
        PixelWriter {
            writer: BitWriter::new(alloc),
            cells: Cells::new(params),
            qbpp: params.qbpp(),
            limit: params.limit(),
            maxval: params.maxval(),
            run_index: 0,
        }
    }

    /// The error of a sample against its prediction, with SIGN (A.4.4, A.4.5).
    fn error(&self, negative: bool, sample: u16, predicted: u16) -> i32
        ensures { IsError self.now.cells.parameters result }
    {
        let difference = i32::from(sample.min(self.maxval)) - i32::from(predicted.min(self.maxval));
        self.cells
            .reduce(if negative { -difference } else { difference })
    }

    /// J.
    fn run_order(&self) -> u8
        ensures { result ≤ 15 }
    {
        let index = usize::from(self.run_index);
        let order = RUN_ORDERS.get(index).copied().unwrap_or(LAST_ORDER);
        order.min(LAST_ORDER)
    }

    /// Writes a sample of a pixel in regular mode (A.4, A.5).
    fn write_regular(&mut self, near: Neighbours, sample: u16) -> Result<(), AllocError> {
        let Neighbours { ra, rb, rc, rd } = near;
        let (context, negative) = match self.cells.mode(ra, rb, rc, rd) {
            Mode::Run => (0, false),
            Mode::Regular { cell, negative } => (cell.min(LAST_CONTEXT), negative),
        };
        let predicted = self.cells.predict(context, negative, ra, rb, rc);
        let error = self.error(negative, sample, predicted);
        let (k, mapped) = self.cells.regular_code(context, error);
        write_golomb(&mut self.writer, mapped, k, self.limit, self.qbpp)?;
        self.cells.update_regular(context, error);
        Ok(())
    }

    /// Writes a sample of the pixel that interrupts a run (A.7.2). RItype is 0.
    fn write_interrupting(&mut self, near: Neighbours, sample: u16) -> Result<(), AllocError> {
        let error = self.error(near.rb < near.ra, sample, near.rb);
        let (k, mapped) = self.cells.run_code(false, error);
        let used = self.run_order().saturating_add(1);
        let limit = self.limit.saturating_sub(used).max(self.qbpp + 2);
        write_golomb(&mut self.writer, mapped, k, limit, self.qbpp)?;
        self.cells.update_run(false, error);
        Ok(())
    }

    /// Writes a one for each full block of a run, and answers how many pixels are left (A.7.1).
    fn write_blocks(&mut self, count: usize) -> Result<usize, AllocError> {
        let mut left = count;
        for _ in 0..count {
            let block = 1usize << self.run_order();
            if left < block {
                break;
            }
            self.writer.push_bit(true)?;
            left = left.saturating_sub(block);
            self.run_index = self.run_index.saturating_add(1).min(31);
        }
        Ok(left)
    }

    /// Writes a run of so many pixels from a column on, and the pixel that interrupts it, if the row goes on. Answers the next column.
    fn write_run(&mut self, rows: Rows<'_>, first: usize, x: usize) -> Result<usize, AllocError> {
        let count = rows.run_length(first, x);
        let left = self.write_blocks(count)?;
        let end = x.saturating_add(count);
        if end >= rows.width {
            if left > 0 {
                self.writer.push_bit(true)?;
            }
            return Ok(end);
        }
        self.writer.push_bit(false)?;
        self.write_left(left)?;
        for component in 0..rows.components {
            let line = first.saturating_add(component);
            self.write_interrupting(rows.neighbours(line, end), rows.sample(line, 0, end))?;
        }
        self.run_index = self.run_index.saturating_sub(1);
        Ok(end.saturating_add(1))
    }

    /// Writes in J bits how many pixels of an interrupted run its full blocks leave.
    fn write_left(&mut self, left: usize) -> Result<(), AllocError> {
        let order = self.run_order();
        for place in 0..order {
            let bit = left >> (order - 1 - place) & 1;
            self.writer.push_bit(bit == 1)?;
        }
        Ok(())
    }

    /// Where the code so far ends.
    fn end(&mut self) -> Result<BitPlace, AllocError> {
        self.writer.place()
    }

    /// Whether a run begins in a column: all gradients of all components are 0 (A.3.2).
    fn begins_run(&self, rows: Rows<'_>, first: usize, x: usize) -> bool {
        (0..rows.components).all(|component| {
            let Neighbours { ra, rb, rc, rd } = rows.neighbours(first.saturating_add(component), x);
            matches!(self.cells.mode(ra, rb, rc, rd), Mode::Run)
        })
    }

    /// Writes the row whose first line this is.
    fn write_row(&mut self, rows: Rows<'_>, first: usize) -> Result<(), AllocError> {
        let mut x = 0usize;
        for _ in 0..rows.width {
            if x >= rows.width {
                break;
            }
            if self.begins_run(rows, first, x) {
                x = self.write_run(rows, first, x)?;
                continue;
            }
            for component in 0..rows.components {
                let line = first.saturating_add(component);
                self.write_regular(rows.neighbours(line, x), rows.sample(line, 0, x))?;
            }
            x = x.saturating_add(1);
        }
        Ok(())
    }
}

/// The front of first rows of an interval by sample. The lines of a row end at one place.
pub(crate) fn pixel_front(
    alloc: Global,
    interval: &Interval,
    lines: &[&[u16]],
) -> Result<Front, AllocError> {
    let rows = Rows {
        lines,
        components: usize::from(interval.components),
        width: usize::from(interval.width),
    };
    let mut pixels = PixelWriter::new(alloc, &interval.params);
    let mut ends = Vec::new(alloc);
    for row in 0..lines.len() / rows.components {
        pixels.write_row(rows, row.saturating_mul(rows.components))?;
        let end = pixels.end()?;
        for _ in 0..rows.components {
            ends.push(end)?;
        }
    }
    let PixelWriter { writer, .. } = pixels;
    Ok(Front {
        bytes: writer.into_front()?,
        ends,
    })
}
