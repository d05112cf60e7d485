//! Callers of which the bytes that they read are known. What they say is said of these bytes. Of reads it is said only where a call is
//! refused.

ghost use Rattle.std.specs.Prelude.{◌≡◌, ◌++◌, ℕ, List, None, Some, true, false, length, IfOk, IfErr, OnOk, OnErr, IsErrOf};
ghost use Rattle.jls_copy.specs.CopyReads.{CopyReads, CopyGivesNone};
ghost use Rattle.jls_copy.specs.ReadCopy.{ReadCopy};
ghost use Rattle.jls_copy.specs.declared.reader.CopyFault.TheVariants as CopyFault;
ghost use Rattle.jls_io.specs.Event.{GrewBy};
ghost use Rattle.jls_marker.specs.declared.fault.MarkerFault.{MarkerFault};
ghost use Rattle.jls_partial.specs.Partial.{PartialPicture, has_same_shape, union};
ghost use Rattle.jls_partial.specs.Merging.{TakesPrefix};
ghost use Rattle.jls_partial.specs.Text.{IsTextOf};
ghost use Rattle.jls_partial.specs.TextMerging.{MergesText, RefusesText, HasOtherHead};
ghost use Rattle.jls_partial.specs.TextPrefix.{text_prefix};
ghost use Rattle.jls_partial.specs.declared.text_fault.TextFault.{TextFault};
ghost use Rattle.jls_partial.specs.declared.text_merging.MergeTextFault.TheVariants as MergeTextFault;
ghost use Rattle.jls_station.specs.Given.{marked};
ghost use Rattle.jls_station.specs.Inputs.{ReadsRefuse};
ghost use Rattle.jls_station.specs.KnownCopies.{BytesGive, TakesBytes};
ghost use Rattle.jls_station.specs.Texts.{is_text, IsNoText};
ghost use Rattle.jls_station.specs.TakingCopies.{RefusesCopy};
ghost use Rattle.jls_station.specs.declared.input.InputFault.TheVariants as InputFault;
ghost use Rattle.jls_station.specs.declared.input.ReadStop.{ReadStop};
ghost use Rattle.jls_station.specs.declared.input.ReadStop.TheVariants.{Whole};
ghost use Rattle.jls_station.specs.declared.take_copy.TakeFault.TheVariants as TakeFault;

use jls_copy::{copies_have_one_course, final_ends_stay};
use jls_io::Source;
use jls_partial::MergeTextFault;
use jls_station::{InputFault, InputRead, Station, TakeFault, TakeReport, read_input};
use std::alloc::Global;

/// A station takes a copy of known bytes. If the reading stopped as whole, the station has all that these bytes give.
pub fn take_known<S: Source>(
    station: &mut Station,
    source: Option<u32>,
    device: &mut S,
) -> Result<TakeReport, TakeFault>
    ensures taken { (bytes : List ℕ) → S.remaining device.old ≡ Some bytes → IfOk result (λ report. report.stop ≡ Whole
        → (read : ReadCopy) × CopyReads bytes read × (has_same_shape station.old read.partial ≡ true)
        × (station.new ≡ union station.old (marked source read.partial))) }
    ensures no_picture { (bytes : List ℕ) (f : MarkerFault) (offset : ℕ) → S.remaining device.old ≡ Some bytes
        → IsErrOf result (TakeFault.NoPicture f offset) → CopyGivesNone bytes (CopyFault.NoPicture f offset) }
    ensures not_read { (bytes : List ℕ) (stop : ReadStop) (count : ℕ) → S.remaining device.old ≡ Some bytes
        → IsErrOf result (TakeFault.Read stop count)
        → (prefix following : List ℕ) × (bytes ≡ prefix ++ following) × (count ≡ length prefix) × (stop ≡ Whole → ⊥) }
    ensures other_shape { (bytes : List ℕ) → S.remaining device.old ≡ Some bytes → IsErrOf result TakeFault.ShapeDiffers
        → (prefix following : List ℕ) × (read : ReadCopy) × (bytes ≡ prefix ++ following) × CopyReads prefix read
        × (has_same_shape station.old read.partial ≡ false) }
    ensures some { (bytes : List ℕ) → S.remaining device.old ≡ Some bytes
        → IfOk result (λ report. TakesBytes source station.old station.new report.stop bytes) }
    ensures unchanged { IfErr result (λ fault. (fault ≡ TakeFault.OutOfMemory → ⊥) → station.new ≡ station.old) }
    ensures refused { IfErr result (λ fault.
        GrewBy (RefusesCopy source station.old station.new fault) (S.history device.old) (S.history device.new)) }
{
    copies_have_one_course();
    final_ends_stay();
    station.take_copy(source, device)
}

/// Reads an input of known bytes: the text of a partial picture, or a copy. If the reading of a copy stopped as whole, all that its bytes
/// give was read.
pub fn read_known<S: Source>(
    alloc: Global,
    source: Option<u32>,
    device: &mut S,
) -> Result<InputRead, InputFault>
    ensures text { (bytes : List ℕ) → S.remaining device.old ≡ Some bytes
        → IfOk result (λ given. given.copy ≡ None → IsTextOf bytes given.partial) }
    ensures copy { (bytes : List ℕ) → S.remaining device.old ≡ Some bytes
        → IfOk result (λ given. (given.copy ≡ None → ⊥) → given.stop ≡ Whole
        → (read : ReadCopy) × CopyReads bytes read × (given.partial ≡ marked source read.partial)) }
    ensures some { (bytes : List ℕ) → S.remaining device.old ≡ Some bytes
        → IfOk result (λ given. (given.copy ≡ None → ⊥) → BytesGive source given.partial given.stop bytes) }
    ensures bad_text { (bytes : List ℕ) (f : TextFault) → S.remaining device.old ≡ Some bytes
        → IsErrOf result (InputFault.Text f) → (is_text bytes ≡ true) × IsNoText bytes f }
    ensures no_picture { (bytes : List ℕ) (f : MarkerFault) (offset : ℕ) → S.remaining device.old ≡ Some bytes
        → IsErrOf result (InputFault.NoPicture f offset)
        → (is_text bytes ≡ false) × CopyGivesNone bytes (CopyFault.NoPicture f offset) }
    ensures not_read { (bytes : List ℕ) (stop : ReadStop) (count : ℕ) → S.remaining device.old ≡ Some bytes
        → IsErrOf result (InputFault.Read stop count)
        → (prefix following : List ℕ) × (bytes ≡ prefix ++ following) × (count ≡ length prefix) × (stop ≡ Whole → ⊥) }
    ensures refused { IfErr result (λ fault. GrewBy (ReadsRefuse fault) (S.history device.old) (S.history device.new)) }
{
    copies_have_one_course();
    final_ends_stay();
    read_input(alloc, source, device)
}

/// A station takes bytes as a text only if they are one of its shape.
pub fn take_any_text(station: &mut Station, bytes: &[u8]) -> Result<(), MergeTextFault>
    ensures taken { OnOk result ((said : PartialPicture) × IsTextOf bytes.now said × (station.new ≡ union station.old said)) }
    ensures ok { OnOk result (MergesText station.old bytes.now station.new) }
    ensures refused { IfErr result (λ fault. RefusesText station.old bytes.now fault) }
    ensures unchanged { IsErrOf result MergeTextFault.ShapeDiffers → station.new ≡ station.old }
    ensures other_head { HasOtherHead station.old bytes.now → station.new ≡ station.old }
    ensures prefix { OnErr result (TakesPrefix station.old station.new (text_prefix bytes.now)) }
{
    station.take_text(bytes)
}
