//! Callers of stations that take copies and partial pictures.

ghost use Rattle.std.specs.Prelude.{◌≡◌, ◌↔◌, ◌++◌, ◌∷◌, ◌⊎◌, [], List, false, OnOk, IfOk, IfErr, IfSome, IsErrOf};
ghost use Rattle.jls_io.specs.Event.{GrewBy, bytes_given};
ghost use Rattle.jls_values.specs.Join.{IsBetween};
ghost use Rattle.jls_values.specs.declared.merge.MergeFault.TheVariants.{ShapeDiffers, OutOfMemory};
ghost use Rattle.jls_station.specs.declared.take_copy.TakeFault.TheVariants as TakeFault;
ghost use Rattle.jls_partial.specs.Partial.{PartialPicture, has_same_shape, nothing_known, union};
ghost use Rattle.jls_station.specs.Given.{CopyReport};
ghost use Rattle.jls_station.specs.KnownCopies.{RefusesBytes};
ghost use Rattle.jls_station.specs.TakingCopies.{CopyGives, RefusesCopy, TakesCopy};
ghost use Rattle.jls_headline.specs.Collected.{Knowledge, Collected};
ghost use Rattle.jls_headline.specs.Sources.{SourcedCopy, sourced_copy};

use jls_io::Source;
use jls_station::{Station, TakeFault, TakeReport};
use jls_values::{MergeFault, Shape};
use std::alloc::Global;

/// A new station takes its first copy.
pub fn take_first<S: Source>(
    alloc: Global,
    shape: Shape,
    source: Option<u32>,
    first: &mut S,
) -> Result<Station, TakeFault>
    ensures taken { (known : Knowledge)
        → IfOk result (λ station. GrewBy (λ reads. Collected known station (sourced_copy source (bytes_given reads) ∷ []) [])
        (S.history first.old) (S.history first.new)) }
    ensures refused { IfErr result (λ fault. GrewBy
        (λ reads. (held : PartialPicture) × RefusesCopy source (nothing_known shape) held fault reads)
        (S.history first.old) (S.history first.new)) }
    ensures known_refused { IfErr result (λ fault.
        IfSome (S.remaining first.old) (λ bytes. RefusesBytes source (nothing_known shape) bytes fault)) }
{
    let mut station = Station::new(alloc, shape);
    station.take_copy(source, first)?;
    Ok(station)
}

/// A station takes one copy more.
pub fn take_next<S: Source>(
    station: &mut Station,
    source: Option<u32>,
    device: &mut S,
) -> Result<TakeReport, TakeFault>
    ensures taken { (known : Knowledge) (copies over : List SourcedCopy) → Collected known station.old copies over
        → IfOk result (λ _. GrewBy
        (λ reads. Collected known station.new (copies ++ sourced_copy source (bytes_given reads) ∷ []) over)
        (S.history device.old) (S.history device.new)) }
    ensures refused { (known : Knowledge) (copies over : List SourcedCopy) → Collected known station.old copies over
        → IfErr result (λ fault. (fault ≡ TakeFault.OutOfMemory → ⊥) → Collected known station.new copies over) }
    ensures ran_out { (known : Knowledge) (copies over : List SourcedCopy) → Collected known station.old copies over
        → IfErr result (λ fault. fault ≡ TakeFault.OutOfMemory → GrewBy
        (λ reads. Collected known station.new copies (over ++ sourced_copy source (bytes_given reads) ∷ []))
        (S.history device.old) (S.history device.new)) }
    // If memory ran out, the reads gave a whole copy, or the history goes on as if the call had not been made.
    ensures ran_out_early { (known : Knowledge) (copies over : List SourcedCopy) → Collected known station.old copies over
        → IfErr result (λ fault. fault ≡ TakeFault.OutOfMemory → GrewBy
        (λ reads. Collected known station.new copies over
        ⊎ ((p : PartialPicture) × (report : CopyReport) × CopyGives source p report reads))
        (S.history device.old) (S.history device.new)) }
    // Whatever the station came from.
    ensures takes { IfOk result (λ report.
        GrewBy (TakesCopy source station.old station.new report) (S.history device.old) (S.history device.new)) }
    ensures refuses { IfErr result (λ fault.
        GrewBy (RefusesCopy source station.old station.new fault) (S.history device.old) (S.history device.new)) }
    ensures known_refused { IfErr result (λ fault.
        IfSome (S.remaining device.old) (λ bytes. RefusesBytes source station.old bytes fault)) }
{
    station.take_copy(source, device)
}

/// A station takes what another holds.
pub fn take_other(station: &mut Station, other: &Station) -> Result<(), MergeFault>
    ensures taken { (known : Knowledge) (copies over more further : List SourcedCopy) → Collected known station.old copies over
        → Collected known other.now more further
        → OnOk result (Collected known station.new (copies ++ more) (over ++ further)) }
    ensures refused { (known : Knowledge) (copies over : List SourcedCopy) → Collected known station.old copies over
        → IsErrOf result ShapeDiffers → Collected known station.new copies over }
    ensures ran_out { (known : Knowledge) (copies over more further : List SourcedCopy) → Collected known station.old copies over
        → Collected known other.now more further
        → IsErrOf result OutOfMemory → Collected known station.new copies (over ++ (more ++ further)) }
    // Whatever the two came from.
    ensures ok { OnOk result (station.new ≡ union station.old other.now) }
    ensures shape_differs { IsErrOf result ShapeDiffers ↔ (has_same_shape station.old other.now ≡ false) }
    ensures unchanged { IsErrOf result ShapeDiffers → station.new ≡ station.old }
    ensures between { IsErrOf result OutOfMemory → IsBetween union station.old station.new (union station.old other.now) }
{
    station.take(other.partial())
}
