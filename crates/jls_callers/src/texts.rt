//! Callers that hand on what a station holds as its text.

ghost use Rattle.std.specs.Prelude.{◌≡◌, ◌++◌, ℕ, List, OnOk, OnErr, IfOk, IfErr, IsErrOf};
ghost use Rattle.jls_values.specs.Join.{IsBetween};
ghost use Rattle.jls_partial.specs.Merging.{TakesPrefix};
ghost use Rattle.jls_partial.specs.Partial.{union};
ghost use Rattle.jls_partial.specs.Text.{IsTextOf, text};
ghost use Rattle.jls_partial.specs.TextMerging.{MergesText, RefusesText, HasOtherHead};
ghost use Rattle.jls_partial.specs.TextPrefix.{text_prefix};
ghost use Rattle.jls_partial.specs.declared.text_fault.TextFault.TheVariants.{OutOfMemory};
ghost use Rattle.jls_partial.specs.declared.text_merging.MergeTextFault.TheVariants.{ShapeDiffers};
ghost use Rattle.jls_headline.specs.Collected.{Knowledge, Collected};
ghost use Rattle.jls_headline.specs.Sources.{SourcedCopy};

use jls_headline::cut_texts_are_held;
use jls_partial::{MergeTextFault, Partial, TextFault};
use jls_station::Station;
use std::alloc::{AllocError, Global};

/// The text of what a station holds, as `to_bytes` makes it.
pub fn text_of(alloc: Global, station: &Station) -> Result<Vec<u8>, AllocError>
    ensures is_text { IfOk result (λ bytes. IsTextOf bytes.items station.now) }
    ensures bytes { IfOk result (λ bytes. bytes.items ≡ text station.now) }
{
    let partial = station.partial();
    let _ids = partial.shape().ids();
    partial.to_bytes(alloc)
}

/// A station again, from the text of another.
pub fn read_back(alloc: Global, other: &Station, bytes: &[u8]) -> Result<Station, TextFault>
    requires { IsTextOf bytes.now other.now }
    ensures collected { (known : Knowledge) (copies over : List SourcedCopy) → Collected known other.now copies over
        → IfOk result (λ station. Collected known station copies over) }
    ensures same { IfOk result (λ station. station ≡ other.now) }
    ensures refused { IfErr result (λ fault. fault ≡ OutOfMemory) }
{
    let _other = other.partial();
    let partial = Partial::from_bytes(alloc, bytes)?;
    Ok(Station::holding(alloc, partial))
}

/// A station takes the text of what another holds.
pub fn take_its_text(
    station: &mut Station,
    other: &Station,
    bytes: &[u8],
) -> Result<(), MergeTextFault>
    requires { IsTextOf bytes.now other.now }
    ensures taken { (known : Knowledge) (copies over more further : List SourcedCopy) → Collected known station.old copies over
        → Collected known other.now more further
        → OnOk result (Collected known station.new (copies ++ more) (over ++ further)) }
    ensures ran_out { (known : Knowledge) (copies over more further : List SourcedCopy) → Collected known station.old copies over
        → Collected known other.now more further
        → OnErr result (Collected known station.new copies (over ++ (more ++ further))) }
    // Whatever the two came from.
    ensures ok { OnOk result (MergesText station.old bytes.now station.new) }
    ensures refused { IfErr result (λ fault. RefusesText station.old bytes.now fault) }
    ensures unchanged { IsErrOf result ShapeDiffers → station.new ≡ station.old }
    ensures between { OnErr result (IsBetween union station.old station.new (union station.old other.now)) }
{
    let _other = other.partial();
    station.take_text(bytes)
}

/// A station is given a text that was cut short. If it refuses that, its history goes on.
pub fn take_cut_text(
    station: &mut Station,
    other: &Station,
    prefix: &[u8],
) -> Result<(), MergeTextFault>
    ensures collected { (known : Knowledge) (following : List ℕ) (copies over more further : List SourcedCopy)
        → IsTextOf (prefix.now ++ following) other.now
        → Collected known station.old copies over → Collected known other.now more further
        → OnErr result (Collected known station.new copies (over ++ (more ++ further))) }
    // Whatever the two came from.
    ensures ok { OnOk result (MergesText station.old prefix.now station.new) }
    ensures refused { IfErr result (λ fault. RefusesText station.old prefix.now fault) }
    ensures unchanged { IsErrOf result ShapeDiffers → station.new ≡ station.old }
    ensures prefix { OnErr result (TakesPrefix station.old station.new (text_prefix prefix.now)) }
{
    cut_texts_are_held();
    let _other = other.partial();
    station.take_text(prefix)
}

/// A station refuses a text of another shape, whatever text it is.
pub fn take_text_of_another_shape(station: &mut Station, text: &[u8]) -> Result<(), MergeTextFault>
    ensures collected { (known : Knowledge) (copies over : List SourcedCopy) → Collected known station.old copies over
        → IsErrOf result ShapeDiffers → Collected known station.new copies over }
    // Whatever the station came from.
    ensures ok { OnOk result (MergesText station.old text.now station.new) }
    ensures refused { IfErr result (λ fault. RefusesText station.old text.now fault) }
    ensures unchanged { IsErrOf result ShapeDiffers → station.new ≡ station.old }
    ensures other_head { HasOtherHead station.old text.now → station.new ≡ station.old }
{
    station.take_text(text)
}
