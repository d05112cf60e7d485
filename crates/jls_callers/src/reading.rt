//! Callers that read a copy, or an input.

ghost use Rattle.std.specs.Prelude.{◌≡◌, ◌∷◌, [], List, None, IfOk, IfErr, IfSome};
ghost use Rattle.jls_copy.specs.CopyReads.{CopyGivesNone};
ghost use Rattle.jls_io.specs.Event.{GrewBy, bytes_given};
ghost use Rattle.jls_partial.specs.Partial.{PartialPicture};
ghost use Rattle.jls_partial.specs.Text.{IsTextOf};
ghost use Rattle.jls_station.specs.Inputs.{ReadsGive, ReadsRefuse};
ghost use Rattle.jls_station.specs.KnownInputs.{RefusesInput};
ghost use Rattle.jls_headline.specs.Collected.{Knowledge, Collected};
ghost use Rattle.jls_headline.specs.Sources.{SourcedCopy, sourced_copy};

use jls_copy::{CopyFault, CopyReader};
use jls_io::Source;
use jls_partial::Partial;
use jls_station::{InputFault, InputRead, read_input};
use std::alloc::Global;

/// Reads a copy that stands in memory, under a source if there is one. `OutOfMemory` comes also if the copy has more than 2^61 bytes.
pub fn read_in_memory(
    alloc: Global,
    source: Option<u32>,
    bytes: &[u8],
) -> Result<Partial, CopyFault>
    ensures read { (known : Knowledge) → IfOk result (λ partial. Collected known partial (sourced_copy source bytes.now ∷ []) []) }
    ensures none { IfErr result (λ fault. CopyGivesNone bytes.now fault) }
{
    if bytes.len() > 1 << 61 {
        return Err(CopyFault::OutOfMemory);
    }
    let mut reader = CopyReader::new(alloc);
    match reader.feed(bytes) {
        Ok(()) => {}
        Err(_) => return Err(CopyFault::OutOfMemory),
    }
    let read = reader.finish()?;
    let mut partial = read.into_partial();
    match source {
        None => Ok(partial),
        Some(number) => match partial.mark(number) {
            Ok(()) => Ok(partial),
            Err(_) => Err(CopyFault::OutOfMemory),
        },
    }
}

/// Reads an input: a copy, or the text of something that calls collected.
pub fn read_any<S: Source>(
    alloc: Global,
    source: Option<u32>,
    device: &mut S,
) -> Result<InputRead, InputFault>
    ensures copy { (known : Knowledge) → IfOk result (λ given. (given.copy ≡ None → ⊥) → GrewBy
        (λ reads. Collected known given.partial (sourced_copy source (bytes_given reads) ∷ []) [])
        (S.history device.old) (S.history device.new)) }
    ensures text { (known : Knowledge) (p : PartialPicture) (copies over : List SourcedCopy) → Collected known p copies over
        → IfOk result (λ given. GrewBy
        (λ reads. IsTextOf (bytes_given reads) p → Collected known given.partial copies over)
        (S.history device.old) (S.history device.new)) }
    // Whatever the input is.
    ensures gives { IfOk result (λ given. GrewBy (ReadsGive source given) (S.history device.old) (S.history device.new)) }
    ensures refused { IfErr result (λ fault. GrewBy (ReadsRefuse fault) (S.history device.old) (S.history device.new)) }
    ensures known_refused { IfErr result (λ fault. IfSome (S.remaining device.old) (λ bytes. RefusesInput bytes fault)) }
{
    read_input(alloc, source, device)
}
