//! Files that are taken under a shape that is known.

ghost use Rattle.std.specs.Prelude.{◌≡◌, OnOk, IfOk};
ghost use Rattle.std.specs.List.{AllByRecursion};
ghost use Rattle.jls_partial.specs.Partial.{nothing_known};
ghost use Rattle.jls_diff.specs.PartsOf.{bytes_of, parts_of};
ghost use Rattle.jls_search.specs.Choices.{IsWhole};
ghost use Rattle.jls_search.specs.Search.{IsShort, files_of, lists_of};
ghost use Rattle.jls_search.specs.Files.{files_taken};
ghost use Rattle.jls_search.specs.Stations.{TakesFiles};

use crate::file::{take_copy, take_splice};
use crate::files::Files;
use jls_diff::Parts;
use jls_station::Station;
use jls_values::Shape;
use std::alloc::{AllocError, Global};

/// Takes in what the copies give, in turn.
fn take_copies(
    alloc: Global,
    station: &mut Station,
    source: Option<u32>,
    copies: &[&[u8]],
) -> Result<(), AllocError>
    ensures { OnOk result (TakesFiles source (bytes_of copies.now) station.old station.new) }
{
    for copy in copies {
        take_copy(alloc, station, source, copy)?;
    }
    Ok(())
}

/// Takes in what the splices give, in turn.
fn take_splices(
    alloc: Global,
    station: &mut Station,
    source: Option<u32>,
    parts: &Parts<'_>,
    splices: &[Vec<usize>],
) -> Result<(), AllocError>
    requires whole { AllByRecursion (IsWhole parts.now) (lists_of splices.now) }
    requires short { IsShort parts.now }
    ensures { OnOk result (TakesFiles source (files_of parts.now (lists_of splices.now)) station.old station.new) }
{
    for choices in splices {
        take_splice(alloc, station, source, parts, choices)?;
    }
    Ok(())
}

/// A station of this shape that took the copies and then the splices, each under the number of the source if there is one. A file of
/// another shape, or without a frame, gives nothing.
pub(crate) fn take_files(
    alloc: Global,
    shape: Shape,
    source: Option<u32>,
    files: &Files<'_, '_>,
) -> Result<Station, AllocError>
    requires whole { AllByRecursion (IsWhole files.now.parts.now) (lists_of files.now.splices.now) }
    requires short { IsShort files.now.parts.now }
    ensures shape { IfOk result (λ station. station.shape ≡ shape) }
    ensures readings { IfOk result (λ station. TakesFiles source (files_taken files.now) (nothing_known shape) station) }
{
    let mut station = Station::new(alloc, shape);
    take_copies(alloc, &mut station, source, files.copies)?;
    take_splices(alloc, &mut station, source, files.parts, files.splices)?;
    Ok(station)
}
