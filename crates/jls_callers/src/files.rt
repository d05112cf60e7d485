//! Callers that read files under a profile, for a station.

ghost use Rattle.std.specs.Prelude.{◌≡◌, ◌↔◌, ◌++◌, ◌∷◌, [], List, false, IfOk, IfErr, IsErrOf, OnOk};
ghost use Rattle.jls_copy.specs.CopyReads.{CopyGivesNoneUnder};
ghost use Rattle.jls_marker.specs.declared.profile.Profile.{Profile};
ghost use Rattle.jls_headline.specs.Sources.{SourcedCopy, sourced_copy};
ghost use Rattle.jls_headline.specs.TookFiles.{IsReadUnder, TookFiles};
ghost use Rattle.jls_partial.specs.Partial.{has_same_shape, nothing_known, union};
ghost use Rattle.jls_values.specs.Join.{IsBetween};
ghost use Rattle.jls_values.specs.declared.merge.MergeFault.TheVariants.{OutOfMemory, ShapeDiffers};

use jls_copy::{CopyFault, ProfileReader};
use jls_marker::Profile;
use jls_partial::Partial;
use jls_station::Station;
use jls_values::{MergeFault, Shape};
use std::alloc::Global;

/// A station for files of this shape, which took none yet.
pub fn station_without_files(alloc: Global, shape: Shape) -> Station
    ensures none_taken { (profile : Profile) → TookFiles profile result [] [] }
    ensures holds_nothing { result ≡ nothing_known shape }
{
    Station::new(alloc, shape)
}

/// Reads a file that stands in memory under the profile, and under a source if there is one.
pub fn read_under(
    alloc: Global,
    profile: Profile,
    source: Option<u32>,
    bytes: &[u8],
) -> Result<Partial, CopyFault>
    ensures read { IfOk result (λ partial. IsReadUnder profile (sourced_copy source bytes.now) partial) }
    ensures none { IfErr result (λ fault. CopyGivesNoneUnder profile bytes.now fault) }
{
    let mut reader = ProfileReader::new(alloc, profile);
    match reader.feed(bytes) {
        Ok(()) => {}
        Err(_) => return Err(CopyFault::OutOfMemory),
    }
    let read = reader.finish()?;
    let mut partial = read.into_partial();
    match source {
        None => Ok(partial),
        Some(number) => match partial.mark(number) {
            Ok(()) => Ok(partial),
            Err(_) => Err(CopyFault::OutOfMemory),
        },
    }
}

/// A station takes what was read of a file. After `OutOfMemory` the same call can be made again.
pub fn take_read(station: &mut Station, partial: &Partial) -> Result<(), MergeFault>
    ensures taken { (profile : Profile) (files over : List SourcedCopy) (file : SourcedCopy) → TookFiles profile station.old files over
        → IsReadUnder profile file partial.now
        → OnOk result (TookFiles profile station.new (files ++ file ∷ []) over) }
    ensures refused { (profile : Profile) (files over : List SourcedCopy) → TookFiles profile station.old files over
        → IsErrOf result ShapeDiffers → TookFiles profile station.new files over }
    ensures ran_out { (profile : Profile) (files over : List SourcedCopy) (file : SourcedCopy) → TookFiles profile station.old files over
        → IsReadUnder profile file partial.now
        → IsErrOf result OutOfMemory → TookFiles profile station.new files (over ++ file ∷ []) }
    // Whatever the station and the partial picture came from.
    ensures ok { OnOk result (station.new ≡ union station.old partial.now) }
    ensures shape_differs { IsErrOf result ShapeDiffers ↔ (has_same_shape station.old partial.now ≡ false) }
    ensures unchanged { IsErrOf result ShapeDiffers → station.new ≡ station.old }
    ensures between { IsErrOf result OutOfMemory → IsBetween union station.old station.new (union station.old partial.now) }
{
    station.take(partial)
}
