//! What is known of a picture.

ghost use Rattle.jls_partial.specs.Status.{IsSettled};
ghost use Rattle.jls_write.specs.Picture.{picture_of};
ghost use Rattle.jls_write.specs.Unsettled.{NamesFirstUnsettled};
ghost use Rattle.jls_report.specs.Report.{report_of};
ghost use Rattle.jls_report.specs.ReportText.{report_text};
ghost use Rattle.std.specs.Prelude.{◌≡◌, IfOk, IfErr, OnOk};

use jls_partial::Partial;
use jls_report::Report;
use jls_station::Station;
use jls_write::{Picture, PictureFault};
use std::alloc::{AllocError, Global};

/// The lines that the program prints of a partial picture. The only refusal is want of memory.
pub fn report(alloc: Global, partial: &Partial) -> Result<Vec<u8>, AllocError>
    ensures { IfOk result (λ lines. lines.items ≡ report_text (report_of partial.now)) }
{
    let report = Report::of(alloc, partial)?;
    report.to_text(alloc)
}

/// The picture of which a station holds each line once, lent from it. The only refusal is `Unsettled`, which names the first line that
/// is missing or disputed.
pub fn settled_picture(station: &Station) -> Result<Picture<'_>, PictureFault>
    ensures settled { OnOk result (IsSettled station.now) }
    ensures picture { IfOk result (λ picture. picture ≡ picture_of station.now) }
    ensures unsettled { IfErr result (λ fault. NamesFirstUnsettled station.now fault) }
{
    Picture::of(station.partial())
}
