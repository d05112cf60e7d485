//! Partial pictures that are joined.

ghost use Rattle.jls_partial.specs.Partial.{has_same_shape, union};
ghost use Rattle.jls_partial.specs.TextMerging.{MergesText, RefusesText};
ghost use Rattle.jls_values.specs.declared.merge.MergeFault.TheVariants.{ShapeDiffers};
ghost use Rattle.std.specs.Prelude.{◌≡◌, ◌↔◌, false, IfOk, IfErr, IsErrOf};

use jls_partial::{MergeTextFault, Partial};
use jls_station::Station;
use jls_values::MergeFault;
use std::alloc::Global;

/// A station that holds what either of two partial pictures holds. `ShapeDiffers` comes exactly where their shapes differ, and
/// `OutOfMemory` where memory runs out.
pub fn join(alloc: Global, first: Partial, second: &Partial) -> Result<Station, MergeFault>
    ensures joined { IfOk result (λ station. station ≡ union first second.now) }
    ensures shape_differs { IsErrOf result ShapeDiffers ↔ (has_same_shape first second.now ≡ false) }
{
    let mut station = Station::holding(alloc, first);
    station.take(second)?;
    Ok(station)
}

/// A station that holds what either a partial picture or a text holds. If the bytes are no text, their first fault is answered, and it
/// comes before `ShapeDiffers`. `Text(OutOfMemory)` comes if memory runs out, and then nothing is said of the text.
pub fn join_text(alloc: Global, held: Partial, bytes: &[u8]) -> Result<Station, MergeTextFault>
    ensures joined { IfOk result (λ station. MergesText held bytes.now station) }
    ensures refused { IfErr result (λ fault. RefusesText held bytes.now fault) }
{
    let mut station = Station::holding(alloc, held);
    station.take_text(bytes)?;
    Ok(station)
}
