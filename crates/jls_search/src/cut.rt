//! The cut file, which a station takes after the copies and the splices.

ghost use Rattle.std.specs.Prelude.{◌≡◌, ◌<◌, ◌≤◌, ◌-◌, ◌^◌, ◌∷◌, ◌++◌, [], length, Some, IfOk, IfSome, IfNone};
ghost use Rattle.std.specs.List.{AllByRecursion};
ghost use Rattle.jls_partial.specs.Partial.{nothing_known};
ghost use Rattle.jls_copy.specs.CopyReads.{CopyReadsUnder};
ghost use Rattle.jls_diff.specs.PartsOf.{bytes_of, parts_of};
ghost use Rattle.jls_search.specs.Choices.{IsPath, IsWhole, prefix_of};
ghost use Rattle.jls_search.specs.Search.{IsKeptReader, IsShort, lists_of};
ghost use Rattle.jls_search.specs.Files.{AreVerdicts, files_taken, splices_found};
ghost use Rattle.jls_search.specs.Reading.{HasTakenFiles};
ghost use Rattle.jls_search.specs.Shapes.{HasNoFrame, HasFrameOfShape};
ghost use Rattle.jls_search.specs.Stations.{TakesFiles};
ghost use Rattle.jls_search.specs.Cuts.{TakesCut, TakesNoCut};
ghost use Rattle.jls_marker.specs.SegmentLaws.{AreBytes};
ghost use Rattle.jls_marker.specs.declared.profile.Profile.TheVariants.{Wide};

use crate::feeding::feed_prefix;
use crate::file::take_read;
use crate::files::Files;
use crate::reading_files::{FilesRead, read_files};
use crate::seen::verdicts_of;
use crate::settling::{HeldFiles, station_of};
use crate::shape_rule::first_faultless;
use jls_copy::{CopyFault, CopyRead, WideReader};
use jls_diff::Parts;
use jls_station::Station;
use std::alloc::{AllocError, Global};

/// What is read of the cut file; `None` where it has no frame.
fn read_cut(alloc: Global, parts: &Parts<'_>, cut: &[usize]) -> Result<Option<CopyRead>, AllocError>
    requires path { IsPath parts.now cut.now }
    requires few { length (prefix_of parts.now cut.now) ≤ 2 ^ 63 - 1 }
    ensures bytes { IfOk result (λ _. AreBytes (prefix_of parts.now cut.now)) }
    ensures some { IfOk result (λ found. IfSome found (λ read. CopyReadsUnder Wide (prefix_of parts.now cut.now) read)) }
    ensures none { IfOk result (λ found. IfNone found (HasNoFrame (prefix_of parts.now cut.now))) }
{
    let mut reader = WideReader::new(alloc);
    feed_prefix(&mut reader, parts, cut)?;
    match reader.finish() {
        Ok(read) => Ok(Some(read)),
        Err(CopyFault::NoPicture(_, _)) => Ok(None),
        Err(CopyFault::OutOfMemory) => Err(AllocError),
    }
}

/// A station that took the files and then the cut file; `None` where that has no frame. The station before is the one that took the files
/// as they were read, if there is one.
fn take_cut(
    alloc: Global,
    source: Option<u32>,
    files: &Files<'_, '_>,
    before: Option<Station>,
    cut: &[usize],
) -> Result<Option<Station>, AllocError>
    requires whole { AllByRecursion (IsWhole files.now.parts.now) (lists_of files.now.splices.now) }
    requires short { IsShort files.now.parts.now }
    requires taken { HasTakenFiles source (files_taken files.now) before }
    requires cut { IsPath files.now.parts.now cut.now }
    ensures some { IfOk result (λ found. IfSome found (λ station. HasFrameOfShape station.shape (prefix_of files.now.parts.now cut.now)
        × TakesFiles source (files_taken files.now ++ prefix_of files.now.parts.now cut.now ∷ [])
        (nothing_known station.shape) station)) }
    ensures none { IfOk result (λ found. IfNone found (HasNoFrame (prefix_of files.now.parts.now cut.now))) }
{
    let Some(read) = read_cut(alloc, files.parts, cut)? else {
        return Ok(None);
    };
    let shape = read.partial().shape().to_owned();
    let mut station = station_of(alloc, source, files, before, shape)?;
    take_read(&mut station, source, read)?;
    Ok(Some(station))
}

/// A station that took the copies, the splices and then the cut file, each under the source if there is one. Its shape is the cut file's.
/// With it come the verdict on each copy and splice, and these choices.
///
/// The cut file is what the choices make of the first parts. It is read as a file that ends there.
///
/// `None` comes where some copy or splice has no fault, and where the cut file has no frame. `Err` comes where memory is refused.
pub fn settle_with_cut(
    alloc: Global,
    source: Option<u32>,
    files: &Files<'_, '_>,
    cut: Vec<usize>,
) -> Result<Option<HeldFiles>, AllocError>
    requires some_copy { 0 < length files.now.copies.now }
    requires whole { AllByRecursion (IsWhole files.now.parts.now) (lists_of files.now.splices.now) }
    requires short { IsShort files.now.parts.now }
    requires reader { IfSome files.now.reader.now (IsKeptReader files.now.parts.now) }
    requires cut { IsPath files.now.parts.now cut.items }
    ensures taken { IfOk result (λ found. IfSome found (λ taken. TakesCut source (bytes_of files.now.copies.now)
        (splices_found files.now) (prefix_of files.now.parts.now cut.items) taken.station)) }
    ensures cut { IfOk result (λ found. IfSome found (λ taken. taken.cut ≡ Some cut)) }
    ensures verdicts { IfOk result (λ found. IfSome found (λ taken. AreVerdicts (files_taken files.now) taken.faultless.items)) }
    ensures nothing { IfOk result (λ found. IfNone found (TakesNoCut (bytes_of files.now.copies.now)
        (splices_found files.now) (prefix_of files.now.parts.now cut.items))) }
{
    let FilesRead { seen, station } = read_files(alloc, source, files)?;
    match first_faultless(&seen) {
        Some(_) => return Ok(None),
        None => {}
    }
    let Some(station) = take_cut(alloc, source, files, station, &cut)? else {
        return Ok(None);
    };
    let faultless = verdicts_of(alloc, &seen)?;
    Ok(Some(HeldFiles {
        station,
        faultless,
        cut: Some(cut),
    }))
}
