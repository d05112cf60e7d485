//! Callers that write the picture of a station, and its report.

ghost use Rattle.std.specs.Prelude.{◌≡◌, ℕ, List, Ok, OnOk, IfOk, IfErr, IsErrOf};
ghost use Rattle.std.specs.List.{AllByRecursion};
ghost use Rattle.jls_callers.specs.StationFaults.{IsBeforeWriting, IsUntouched};
ghost use Rattle.jls_callers.specs.declared.writing.StationFault.TheVariants as StationFault;
ghost use Rattle.jls_io.specs.Event.{GrewBy};
ghost use Rattle.jls_io.specs.Writing.{Wrote};
ghost use Rattle.jls_partial.specs.Status.{IsSettled};
ghost use Rattle.jls_write.specs.Options.{OptionsFit};
ghost use Rattle.jls_write.specs.Outcomes.{HandedOut, HandedPrefix, StoppedBy};
ghost use Rattle.jls_write.specs.Picture.{WholePicture, picture_of};
ghost use Rattle.jls_write.specs.Pnm.{pnm};
ghost use Rattle.jls_write.specs.Stops.{StopsIn};
ghost use Rattle.jls_write.specs.Unsettled.{NamesFirstUnsettled};
ghost use Rattle.jls_write.specs.WholePictures.{IsPicture};
ghost use Rattle.jls_write.specs.WrittenFile.{written_file};
ghost use Rattle.jls_write.specs.declared.output.OutputFault.{OutputFault};
ghost use Rattle.jls_write.specs.declared.picture.PictureFault.{PictureFault};
ghost use Rattle.jls_report.specs.Report.{report_of};
ghost use Rattle.jls_report.specs.ReportText.{report_text};
ghost use Rattle.jls_headline.specs.Collected.{CollectedFrom};
ghost use Rattle.jls_headline.specs.Damaged.{Damaged, EachLineSurvives};
ghost use Rattle.jls_headline.specs.ReadsAs.{ReadsAsOnly};
ghost use Rattle.jls_headline.specs.Sources.{SourcedCopy, copies_of};

use jls_headline::same_copies_give_the_picture;
use jls_io::Sink;
use jls_report::Report;
use jls_station::Station;
use jls_write::{Options, OutputFault, Picture, PictureFault, write_jls, write_pnm};
use std::alloc::{AllocError, Global};
use thiserror::Error;

/// Why the picture of a station wasn't written whole.
#[derive(Clone, Copy, Debug, PartialEq, Eq, Error)]
pub enum StationFault {
    /// A line isn't settled. This names the first one. Nothing was written.
    #[error("{0}")]
    Unsettled(PictureFault),
    /// The options don't fit the picture. Nothing was written.
    #[error("the options don't fit the picture")]
    Unfit,
    /// A write failed, or there was no memory.
    #[error("{0}")]
    Output(OutputFault),
}

/// Writes the picture of a station as JPEG-LS, if each line is settled and the options fit. If it answers Ok, the sink took all of it.
pub fn write_station<W: Sink>(
    alloc: Global,
    station: &Station,
    options: &Options,
    sink: &mut W,
) -> Result<(), StationFault>
    // Where this holds of two stations and equal options, the clause `writes` of the law says that both sinks took the same bytes.
    ensures all { OnOk result (HandedOut (W.history sink.old) (W.history sink.new) (W.contents sink.old) (W.contents sink.new)
        (written_file (picture_of station.now) options.now)) }
    ensures damaged { (pic : WholePicture) (copies : List SourcedCopy) → IsPicture pic → CollectedFrom station.now copies
        → AllByRecursion (Damaged pic) (copies_of copies) → EachLineSurvives pic (copies_of copies)
        → OnOk result ((bytes : List ℕ) × GrewBy (Wrote bytes) (W.history sink.old) (W.history sink.new) × ReadsAsOnly bytes pic) }
    ensures unsettled { (fault : PictureFault) → IsErrOf result (StationFault.Unsettled fault) → NamesFirstUnsettled station.now fault }
    ensures each_unsettled { (IsSettled station.now → ⊥) → (fault : PictureFault) × IsErrOf result (StationFault.Unsettled fault) }
    ensures unfit { IsErrOf result StationFault.Unfit
        → IsSettled station.now × (OptionsFit (picture_of station.now) options.now → ⊥) }
    ensures each_unfit { IsSettled station.now → (OptionsFit (picture_of station.now) options.now → ⊥)
        → IsErrOf result StationFault.Unfit }
    ensures stops { (fault : OutputFault) → IsErrOf result (StationFault.Output fault) → StopsIn fault 0
        (W.history sink.old) (W.history sink.new) (W.contents sink.old) (W.contents sink.new)
        (written_file (picture_of station.now) options.now) }
    ensures kept { IfErr result (λ fault. IsBeforeWriting fault
        → IsUntouched (W.history sink.old) (W.history sink.new) (W.contents sink.old) (W.contents sink.new)) }
{
    same_copies_give_the_picture();
    let _ri = options.restart_interval();
    let params = options.params();
    let _precision = params.precision();
    let picture = match station_picture(station) {
        Ok(picture) => picture,
        Err(fault) => return Err(StationFault::Unsettled(fault)),
    };
    if !options.fits(&picture) {
        return Err(StationFault::Unfit);
    }
    match write_jls(alloc, &picture, options, sink) {
        Ok(()) => Ok(()),
        Err(fault) => Err(StationFault::Output(fault)),
    }
}

/// The picture of a station, if each line is settled.
pub fn station_picture(station: &Station) -> Result<Picture<'_>, PictureFault>
    ensures damaged { (pic : WholePicture) (copies : List SourcedCopy) → IsPicture pic → CollectedFrom station.now copies
        → AllByRecursion (Damaged pic) (copies_of copies) → EachLineSurvives pic (copies_of copies) → result ≡ Ok pic }
    // Whatever the station came from.
    ensures settled { OnOk result (IsSettled station.now) }
    ensures picture { IfOk result (λ picture. picture ≡ picture_of station.now) }
    ensures unsettled { IfErr result (λ fault. NamesFirstUnsettled station.now fault) }
{
    same_copies_give_the_picture();
    let held = station.partial();
    Picture::of(held)
}

/// Writes the picture of a station as PNM, if each line is settled. If it answers Ok, the sink took all of it. It takes no memory, so it is
/// refused only where a line isn't settled or a write failed.
pub fn write_station_pnm<W: Sink>(station: &Station, sink: &mut W) -> Result<(), StationFault>
    // Where this holds of two stations, the clause `writes` of the law says that both sinks took the same bytes.
    ensures all { OnOk result (HandedOut (W.history sink.old) (W.history sink.new) (W.contents sink.old) (W.contents sink.new)
        (pnm (picture_of station.now))) }
    ensures unsettled { (fault : PictureFault) → IsErrOf result (StationFault.Unsettled fault) → NamesFirstUnsettled station.now fault }
    ensures each_unsettled { (IsSettled station.now → ⊥) → (fault : PictureFault) × IsErrOf result (StationFault.Unsettled fault) }
    ensures no_options { IsErrOf result StationFault.Unfit → ⊥ }
    ensures stops { (fault : OutputFault) → IsErrOf result (StationFault.Output fault) → StoppedBy fault 0
        (HandedPrefix (W.history sink.old) (W.history sink.new) (W.contents sink.old) (W.contents sink.new)
        (pnm (picture_of station.now))) }
    ensures kept { IfErr result (λ fault. IsBeforeWriting fault
        → IsUntouched (W.history sink.old) (W.history sink.new) (W.contents sink.old) (W.contents sink.new)) }
{
    let picture = match station_picture(station) {
        Ok(picture) => picture,
        Err(fault) => return Err(StationFault::Unsettled(fault)),
    };
    match write_pnm(&picture, sink) {
        Ok(()) => Ok(()),
        Err(fault) => Err(StationFault::Output(fault)),
    }
}

/// The text of the report of a station.
pub fn station_report(alloc: Global, station: &Station) -> Result<Vec<u8>, AllocError>
    // Where this holds of two stations, the clause `writes` of the law says that both texts are the same.
    ensures { IfOk result (λ text. text.items ≡ report_text (report_of station.now)) }
{
    let report = Report::of(alloc, station.partial())?;
    report.to_text(alloc)
}
