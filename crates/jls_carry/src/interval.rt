//! A restart interval of a scan: which lines stand in it, and how they are coded.

ghost use Rattle.std.specs.Prelude.{◌*◌, ◌^◌, ◌≤◌};
ghost use Rattle.jls_values.specs.Params.{AreCodingParameters};

use jls_marker::ScanPlan;
use jls_piece::PlannedPiece;
use jls_values::Params;

/// A restart interval. Its lines are in order row by row, and in a row by component (T.87 B.2).
#[derive(Clone, Copy)]
pub(crate) struct Interval {
    pub(crate) params: Params,
    /// Samples in a line.
    pub(crate) width: u16,
    /// How many components take turns.
    pub(crate) components: u8,
    /// How many lines each of them has.
    pub(crate) rows: u16,
    /// The row of the picture with which it begins.
    pub(crate) first_row: u16,
    /// The components as indices in the frame, in the order in which they take turns.
    turns: [u8; 4],
    /// How many components the frame has.
    in_frame: u8,
    /// Whether the samples of a pixel follow one another, so that all lines of a row have one code.
    pub(crate) by_sample: bool,
    ghost in_range: { AreCodingParameters params },
    ghost width_at_least: { 1 ≤ width },
    ghost components_at_least: { 1 ≤ components },
    ghost components_at_most: { components ≤ 4 },
    ghost rows_at_least: { 1 ≤ rows },
    ghost samples: { width * components * rows ≤ 2 ^ 28 },
}

/// The components of a scan, as an array.
fn turns_of(components: &[u8]) -> [u8; 4] {
    let mut turns = [0u8; 4];
    for (turn, component) in turns.iter_mut().zip(components) {
        *turn = *component;
    }
    turns
}

impl Interval {
    /// The interval of this number of a scan, in a frame of so many components. `None` comes for a number beyond the last.
    pub(crate) fn of(plan: &ScanPlan, number: u32, in_frame: u8) -> Option<Interval> {
        if number >= plan.intervals() {
            return None;
        }
        let (first_row, rows) = plan.rows(number);
        let params = plan.params();
        let _maxval = params.maxval();
        Some(Interval {
            params,
            width: plan.width(),
            components: plan.components().len() as u8,
            rows,
            first_row,
            turns: turns_of(plan.components()),
            in_frame,
            by_sample: plan.by_sample(),
        })
    }

    /// What its pieces are read as.
    pub(crate) fn planned(&self) -> PlannedPiece {
        PlannedPiece {
            params: self.params,
            width: self.width,
            components: self.components,
            rows: u32::from(self.rows),
            by_sample: self.by_sample,
        }
    }

    /// How many lines it has.
    pub(crate) fn line_count(&self) -> usize {
        usize::from(self.rows) * usize::from(self.components)
    }

    /// How many of so many first lines have a code of their own: by sample only those of whole rows.
    pub(crate) fn coded_lines(&self, count: usize) -> usize {
        if self.by_sample {
            count.saturating_sub(count % usize::from(self.components))
        } else {
            count
        }
    }

    /// How many lines follow so many, up to whole rows, if at least this many codes follow: those of lines, or by sample of rows.
    pub(crate) fn lines_to_fill(&self, count: usize, codes: usize) -> usize {
        let components = usize::from(self.components);
        let least = if self.by_sample {
            codes.saturating_mul(components)
        } else {
            codes
        };
        let over = count.saturating_add(least) % components;
        if over == 0 {
            least
        } else {
            least.saturating_add(components).saturating_sub(over)
        }
    }

    /// The place in the picture of a line of the interval. Places of lines count row by row, and in a row by component of the frame.
    pub(crate) fn place(&self, line: usize) -> usize {
        let components = usize::from(self.components);
        let row = usize::from(self.first_row).saturating_add(line / components);
        let turn = self.turns.get(line % components).copied().unwrap_or(0);
        row.saturating_mul(usize::from(self.in_frame))
            .saturating_add(usize::from(turn))
    }

    /// The line of the interval that stands at a place of the picture.
    pub(crate) fn line_at(&self, place: usize) -> Option<usize> {
        let in_frame = usize::from(self.in_frame);
        let row = place.checked_div(in_frame)?;
        let component = place.checked_rem(in_frame)?;
        let row = row.checked_sub(usize::from(self.first_row))?;
        let components = usize::from(self.components);
        for turn in 0..components {
            let line = row.saturating_mul(components).saturating_add(turn);
            if self.turns.get(turn).map(|turn| usize::from(*turn)) == Some(component)
                && line < self.line_count()
            {
                return Some(line);
            }
        }
        None
    }

    /// Whether a line of this interval has the same code in the other one, as far as both go. They have to begin with the same row, and to
    /// have the same components, interleaved alike, and the same parameters. The precision has no part in the code.
    pub(crate) fn is_coded_as(&self, other: &Interval) -> bool {
        self.first_row == other.first_row
            && self.by_sample == other.by_sample
            && self.components == other.components
            && self.turns == other.turns
            && self.params.maxval() == other.params.maxval()
            && self.params.t1() == other.params.t1()
            && self.params.t2() == other.params.t2()
            && self.params.t3() == other.params.t3()
            && self.params.reset() == other.params.reset()
    }
}
