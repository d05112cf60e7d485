//! What comes of the files taken.

ghost use Rattle.std.specs.Prelude.{◌≡◌, ◌<◌, length, IfOk, IfSome};
ghost use Rattle.std.specs.List.{AllByRecursion};
ghost use Rattle.jls_partial.specs.Partial.{nothing_known};
ghost use Rattle.jls_diff.specs.PartsOf.{bytes_of, parts_of};
ghost use Rattle.jls_search.specs.Choices.{IsWhole};
ghost use Rattle.jls_search.specs.Search.{IsKeptReader, IsShort, lists_of};
ghost use Rattle.jls_search.specs.Files.{files_taken, splices_found};
ghost use Rattle.jls_search.specs.Reading.{HasTakenFiles};
ghost use Rattle.jls_search.specs.Settling.{HasNoCut, HasVerdicts, SettlesFiles};
ghost use Rattle.jls_search.specs.Stations.{TakesFiles};

use crate::files::Files;
use crate::reading_files::{FilesRead, read_files};
use crate::seen::verdicts_of;
use crate::shape_found::ShapeFound;
use crate::shape_rule::find_shape;
use crate::taking::take_files;
use jls_marker::MarkerFault;
use jls_station::Station;
use jls_values::Shape;
use std::alloc::{AllocError, Global};

/// A station that took files, the verdict on each of these, and the cut file that it took after them.
#[derive(Drop)]
pub struct HeldFiles {
    /// The station.
    pub station: Station,
    /// Whether each file has no fault: the copies, in their order, and then the splices.
    pub faultless: Vec<bool>,
    /// The choices of the cut file, if it took that too.
    pub cut: Option<Vec<usize>>,
}

/// What comes of the files taken: their station, or why there is none.
#[derive(Drop)]
pub enum Settled {
    /// A station of the shape that is taken, which took the files, and the verdict on each.
    Held(HeldFiles),
    /// Two files without a fault differ in shape: the copy to name, by its number. The first copy's is 0.
    Differ(usize),
    /// No file is without a fault, and no copy has a frame: the fault of the first copy, and its offset.
    NoFrame(MarkerFault, u64),
}

/// The station of this shape that took the files: the one that took them as they were read, if it has the shape. Otherwise they are
/// read again.
pub(crate) fn station_of(
    alloc: Global,
    source: Option<u32>,
    files: &Files<'_, '_>,
    first: Option<Station>,
    shape: Shape,
) -> Result<Station, AllocError>
    requires whole { AllByRecursion (IsWhole files.now.parts.now) (lists_of files.now.splices.now) }
    requires short { IsShort files.now.parts.now }
    requires taken { HasTakenFiles source (files_taken files.now) first }
    ensures shape { IfOk result (λ station. station.shape ≡ shape) }
    ensures readings { IfOk result (λ station. TakesFiles source (files_taken files.now) (nothing_known shape) station) }
{
    if let Some(station) = first {
        if *station.partial().shape() == shape {
            return Ok(station);
        }
    }
    take_files(alloc, shape, source, files)
}

/// What comes of the files taken, which are the copies and then the splices. Each file that has no fault has the shape that is taken. Where
/// there is no such file it is that of the first copy with a frame. A station of it takes all files, under the source if there is one. Each
/// file is decoded once, unless the first frame has another shape: then each is decoded twice. What the reader that comes with the files
/// was fed is not decoded the first time. `Err` comes where memory is refused.
pub fn settle_files(
    alloc: Global,
    source: Option<u32>,
    files: &Files<'_, '_>,
) -> Result<Settled, AllocError>
    requires some_copy { 0 < length files.now.copies.now }
    requires whole { AllByRecursion (IsWhole files.now.parts.now) (lists_of files.now.splices.now) }
    requires short { IsShort files.now.parts.now }
    requires reader { IfSome files.now.reader.now (IsKeptReader files.now.parts.now) }
    ensures settled { IfOk result (λ settled.
        SettlesFiles source (bytes_of files.now.copies.now) (splices_found files.now) settled) }
    ensures verdicts { IfOk result (λ settled. HasVerdicts (files_taken files.now) settled) }
    ensures uncut { IfOk result HasNoCut }
{
    let FilesRead { seen, station } = read_files(alloc, source, files)?;
    match find_shape(&seen, files) {
        ShapeFound::Taken(shape) => {
            let station = station_of(alloc, source, files, station, shape)?;
            let faultless = verdicts_of(alloc, &seen)?;
            Ok(Settled::Held(HeldFiles {
                station,
                faultless,
                cut: None,
            }))
        }
        ShapeFound::Differ(copy) => Ok(Settled::Differ(copy)),
        ShapeFound::NoFrame(fault, offset) => Ok(Settled::NoFrame(fault, offset)),
    }
}
