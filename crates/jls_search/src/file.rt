//! One file, taken by a station.

ghost use Rattle.std.specs.Prelude.{◌≡◌, ◌-◌, ◌^◌, ◌≤◌, ◌∷◌, [], ℕ, List, length, OnOk, IfSome};
ghost use Rattle.jls_copy.specs.CopyReads.{CopyReadsUnder};
ghost use Rattle.jls_diff.specs.PartsOf.{parts_of};
ghost use Rattle.jls_search.specs.Choices.{IsPath, prefix_of};
ghost use Rattle.jls_station.specs.Given.{marked};
ghost use Rattle.jls_marker.specs.SegmentLaws.{AreBytes};
ghost use Rattle.jls_marker.specs.declared.profile.Profile.TheVariants.{Wide};
ghost use Rattle.jls_search.specs.Stations.{TakesFiles};

use crate::feeding::feed_prefix;
use jls_copy::{CopyFault, CopyRead, WideReader};
use jls_diff::Parts;
use jls_partial::Partial;
use jls_station::Station;
use jls_values::MergeFault;
use std::alloc::{AllocError, Global};

/// Adds the source to each reading, if there is one.
fn put_source(partial: &mut Partial, source: Option<u32>) -> Result<(), AllocError>
    ensures { OnOk result (partial.new ≡ marked source partial.old) }
{
    match source {
        Some(source) => partial.mark(source),
        None => Ok(()),
    }
}

/// Takes in what was read of a file, under the source if there is one. A file of another shape gives nothing.
pub(crate) fn take_read(
    station: &mut Station,
    source: Option<u32>,
    read: CopyRead,
) -> Result<(), AllocError>
    ensures { OnOk result ((file : List ℕ) → AreBytes file → CopyReadsUnder Wide file read
        → TakesFiles source (file ∷ []) station.old station.new) }
{
    let mut partial = read.into_partial();
    put_source(&mut partial, source)?;
    match station.take(&partial) {
        Ok(()) => Ok(()),
        Err(MergeFault::ShapeDiffers) => Ok(()),
        Err(MergeFault::OutOfMemory) => Err(AllocError),
    }
}

/// Takes in what a reader gives of a file. A file without a frame gives nothing.
fn take_fed(
    station: &mut Station,
    source: Option<u32>,
    reader: WideReader,
) -> Result<(), AllocError>
    ensures { OnOk result (IfSome reader (λ file. AreBytes file → TakesFiles source (file ∷ []) station.old station.new)) }
{
    match reader.finish() {
        Ok(read) => take_read(station, source, read),
        Err(CopyFault::NoPicture(_, _)) => Ok(()),
        Err(CopyFault::OutOfMemory) => Err(AllocError),
    }
}

/// Takes in what a copy gives.
pub(crate) fn take_copy(
    alloc: Global,
    station: &mut Station,
    source: Option<u32>,
    copy: &[u8],
) -> Result<(), AllocError>
    ensures { OnOk result (TakesFiles source (copy.now ∷ []) station.old station.new) }
{
    let mut reader = WideReader::new(alloc);
    reader.feed(copy)?;
    take_fed(station, source, reader)
}

/// Takes in what the splice of these choices gives, which is read part by part.
pub(crate) fn take_splice(
    alloc: Global,
    station: &mut Station,
    source: Option<u32>,
    parts: &Parts<'_>,
    choices: &[usize],
) -> Result<(), AllocError>
    requires path { IsPath parts.now choices.now }
    requires few { length (prefix_of parts.now choices.now) ≤ 2 ^ 63 - 1 }
    ensures { OnOk result (TakesFiles source (prefix_of parts.now choices.now ∷ []) station.old station.new) }
{
    let mut reader = WideReader::new(alloc);
    feed_prefix(&mut reader, parts, choices)?;
    take_fed(station, source, reader)
}
