//! Callers that read a source of known bytes in whose history growth no read failed.

ghost use Rattle.std.specs.Prelude.{◌≡◌, ◌≤◌, ◌<◌, ◌++◌, ◌⊎◌, ℕ, List, None, Some, true, false, length, IfOk, IfErr, IsErrOf};
ghost use Rattle.std.specs.List.{list_any};
ghost use Rattle.jls_copy.specs.CopyReads.{CopyReads, CopyGivesNone};
ghost use Rattle.jls_copy.specs.ReadCopy.{ReadCopy};
ghost use Rattle.jls_copy.specs.declared.reader.CopyFault.TheVariants as CopyFault;
ghost use Rattle.jls_io.specs.Event.{GrewBy, is_failed_read};
ghost use Rattle.jls_marker.specs.declared.fault.MarkerFault.{MarkerFault};
ghost use Rattle.jls_partial.specs.Partial.{has_same_shape, union};
ghost use Rattle.jls_partial.specs.declared.text_fault.TextFault.{TextFault};
ghost use Rattle.jls_station.specs.Given.{marked};
ghost use Rattle.jls_station.specs.Inputs.{ReadsGive, ReadsRefuse};
ghost use Rattle.jls_station.specs.TakingCopies.{RefusesCopy, TakesCopy};
ghost use Rattle.jls_station.specs.Texts.{is_text, IsNoText};
ghost use Rattle.jls_station.specs.declared.input.InputFault.TheVariants as InputFault;
ghost use Rattle.jls_station.specs.declared.input.ReadStop.{ReadStop};
ghost use Rattle.jls_station.specs.declared.input.ReadStop.TheVariants.{Whole, Turns};
ghost use Rattle.jls_station.specs.declared.take_copy.TakeFault.TheVariants as TakeFault;

use jls_copy::{copies_have_one_course, final_ends_stay};
use jls_io::Source;
use jls_station::{InputFault, InputRead, Station, TakeFault, TakeReport, read_input};
use std::alloc::Global;

/// A station takes a copy. If no read failed, the reading stopped as whole, or all 4,294,967,295 reads were made and gave at least as many
/// bytes. So a copy of fewer known bytes is read whole if it is taken, and it is not refused as `Read`.
pub fn take_unfailed<S: Source>(
    station: &mut Station,
    source: Option<u32>,
    device: &mut S,
) -> Result<TakeReport, TakeFault>
    ensures stops { IfOk result (λ report. GrewBy (λ reads. list_any is_failed_read reads ≡ false
        → (report.stop ≡ Whole) ⊎ ((report.stop ≡ Turns) × (length reads ≡ 4294967295) × (4294967295 ≤ report.found.count)))
        (S.history device.old) (S.history device.new)) }
    ensures whole { (bytes : List ℕ) → S.remaining device.old ≡ Some bytes → length bytes < 4294967295 → IfOk result (λ report. GrewBy
        (λ reads. list_any is_failed_read reads ≡ false → (report.stop ≡ Whole)
        × (read : ReadCopy) × CopyReads bytes read × (has_same_shape station.old read.partial ≡ true)
        × (station.new ≡ union station.old (marked source read.partial))) (S.history device.old) (S.history device.new)) }
    ensures no_picture { (bytes : List ℕ) (f : MarkerFault) (offset : ℕ) → S.remaining device.old ≡ Some bytes
        → IsErrOf result (TakeFault.NoPicture f offset) → CopyGivesNone bytes (CopyFault.NoPicture f offset) }
    ensures other_shape { (bytes : List ℕ) → S.remaining device.old ≡ Some bytes → IsErrOf result TakeFault.ShapeDiffers
        → (prefix following : List ℕ) × (read : ReadCopy) × (bytes ≡ prefix ++ following) × CopyReads prefix read
        × (has_same_shape station.old read.partial ≡ false) }
    ensures not_read { (bytes : List ℕ) (stop : ReadStop) (count : ℕ) → S.remaining device.old ≡ Some bytes
        → IsErrOf result (TakeFault.Read stop count) → GrewBy (λ reads. list_any is_failed_read reads ≡ false
        → (stop ≡ Turns) × (4294967295 ≤ length bytes)) (S.history device.old) (S.history device.new) }
    // Whether the bytes are known or not.
    ensures takes { IfOk result (λ report.
        GrewBy (TakesCopy source station.old station.new report) (S.history device.old) (S.history device.new)) }
    ensures refused { IfErr result (λ fault.
        GrewBy (RefusesCopy source station.old station.new fault) (S.history device.old) (S.history device.new)) }
{
    copies_have_one_course();
    final_ends_stay();
    station.take_copy(source, device)
}

/// Reads an input of known bytes. It is refused for the fault that these bytes have, for want of memory, or if reads failed. Else it is
/// refused only if all 4,294,967,295 reads were made, so that the bytes are at least as many. If no read failed, fewer bytes are read
/// whole. If they are a copy, the partial picture is what they give.
pub fn read_unfailed<S: Source>(
    alloc: Global,
    source: Option<u32>,
    device: &mut S,
) -> Result<InputRead, InputFault>
    ensures stops { IfOk result (λ given. GrewBy (λ reads. list_any is_failed_read reads ≡ false
        → (given.stop ≡ Whole) ⊎ ((given.stop ≡ Turns) × (length reads ≡ 4294967295))) (S.history device.old) (S.history device.new)) }
    ensures whole { (bytes : List ℕ) → S.remaining device.old ≡ Some bytes → length bytes < 4294967295 → IfOk result (λ given. GrewBy
        (λ reads. list_any is_failed_read reads ≡ false → (given.stop ≡ Whole) × ((given.copy ≡ None → ⊥)
        → (read : ReadCopy) × CopyReads bytes read × (given.partial ≡ marked source read.partial)))
        (S.history device.old) (S.history device.new)) }
    ensures bad_text { (bytes : List ℕ) (f : TextFault) → S.remaining device.old ≡ Some bytes
        → IsErrOf result (InputFault.Text f) → (is_text bytes ≡ true) × IsNoText bytes f }
    ensures no_picture { (bytes : List ℕ) (f : MarkerFault) (offset : ℕ) → S.remaining device.old ≡ Some bytes
        → IsErrOf result (InputFault.NoPicture f offset)
        → (is_text bytes ≡ false) × CopyGivesNone bytes (CopyFault.NoPicture f offset) }
    ensures not_read { (bytes : List ℕ) (stop : ReadStop) (count : ℕ) → S.remaining device.old ≡ Some bytes
        → IsErrOf result (InputFault.Read stop count) → GrewBy (λ reads. list_any is_failed_read reads ≡ false
        → (stop ≡ Turns) × (4294967295 ≤ length bytes)) (S.history device.old) (S.history device.new) }
    // Whether the bytes are known or not.
    ensures gives { IfOk result (λ given. GrewBy (ReadsGive source given) (S.history device.old) (S.history device.new)) }
    ensures refused { IfErr result (λ fault. GrewBy (ReadsRefuse fault) (S.history device.old) (S.history device.new)) }
{
    copies_have_one_course();
    final_ends_stay();
    read_input(alloc, source, device)
}
