//! The report as a value.

ghost use Rattle.jls_report.specs.Report.{report_of, AreOfShape};
ghost use Rattle.std.specs.Prelude.{◌≡◌, IfOk};

use crate::counting::{Counts, count_lines};
use crate::entry::ReportEntry;
use crate::ranges::find_entries;
use jls_partial::Partial;
use jls_values::Shape;
use std::alloc::{AllocError, Global};
use std::marker::Model;

/// How much is known of a picture. It has the shape, and the numbers of settled, missing and disputed lines over all components. It has an
/// entry for each longest range of missing lines and for each disputed line.
#[derive(Drop)]
pub struct Report {
    shape: Shape,
    counts: Counts,
    entries: Vec<ReportEntry>,
}

impl Model for Report {
    ghost use Rattle.jls_report.specs.Report.{PictureReport, AreOfShape};

    ghost Value = { PictureReport };

    ghost view = { λ r. record {
      shape = r.shape;
      settled = r.counts.settled;
      missing = r.counts.missing;
      disputed = r.counts.disputed;
      entries = r.entries.items;
    } };

    ghost invariant = { λ r. AreOfShape r.shape r.entries.items };
}

impl Report {
    /// The report of a partial picture. It walks over all lines of the shape.
    pub fn of(alloc: Global, partial: &Partial) -> Result<Report, AllocError>
        ensures { IfOk result (λ report. report ≡ report_of partial.now) }
    {
        let entries = find_entries(alloc, partial)?;
        Ok(Report {
            shape: partial.shape().to_owned(),
            counts: count_lines(partial),
            entries,
        })
    }

    /// The shape of the picture.
    pub fn shape(&self) -> &Shape
        ensures { result.now ≡ self.now.shape }
    {
        &self.shape
    }

    /// How many lines have one reading.
    pub fn settled(&self) -> u32
        ensures { result ≡ self.now.settled }
    {
        self.counts.settled
    }

    /// How many lines have no reading.
    pub fn missing(&self) -> u32
        ensures { result ≡ self.now.missing }
    {
        self.counts.missing
    }

    /// How many lines have several readings.
    pub fn disputed(&self) -> u32
        ensures { result ≡ self.now.disputed }
    {
        self.counts.disputed
    }

    /// The longest ranges of missing lines and the disputed lines, by component in the order of the frame, and then by
    /// line. Each is of a component of the shape.
    pub fn entries(&self) -> &[ReportEntry]
        ensures value { result.now ≡ self.now.entries }
        ensures of_shape { AreOfShape self.now.shape self.now.entries }
    {
        &self.entries
    }
}
