//! What inputs are read into: a text, and a copy as long as more bytes can change what it gives.

ghost use Rattle.std.specs.Prelude.{◌≡◌, ◌≤◌, ◌<◌, ◌*◌, ◌↔◌, ℕ, List, Option, Some, None, true, length};
ghost use Rattle.std.specs.Prelude.{IsTrue, IfOk, OnErr, IfSome, IsSomeAnd};
ghost use Rattle.std.specs.Prelude.{if◌then◌else◌};
ghost use Rattle.std.specs.Io.KnownBytes.{Consumes, IsAtEnd};
ghost use Rattle.jls_io.specs.Event.{History, GrewBy};
ghost use Rattle.jls_station.specs.Inputs.{IsEnough, IsCopyDone};
ghost use Rattle.jls_station.specs.KnownCopies.{IsPrefixOf};
ghost use Rattle.jls_station.specs.Reading.{ReadSoFar, IsRead, IsReadInPart};
ghost use Rattle.jls_station.specs.Texts.{is_text};
ghost use Rattle.jls_station.specs.declared.input.ReadStop.TheVariants.{Whole};

use crate::input::ReadStop;
use crate::reading::{Intake, read_on};
use jls_copy::{CopyReader, copies_have_one_course};
use jls_io::Source;
use std::alloc::AllocError;

/// A text, which is read to its end.
struct TextIntake;

impl Intake for TextIntake {
    type Held = Vec<u8>;

    ghost fed = { λ text. if is_text text.items then Some text.items else None };

    ghost IsEnough = { IsEnough };

    fn is_enough(_text: &Vec<u8>) -> bool {
        false
    }

    fn put(text: &mut Vec<u8>, bytes: &[u8]) -> Result<(), AllocError> {
        text.extend_from_slice(bytes)
    }
}

/// A copy, which is read as long as more bytes can change what it gives.
struct CopyIntake;

impl Intake for CopyIntake {
    type Held = CopyReader;

    ghost fed = { λ reader. reader };

    ghost IsEnough = { IsCopyDone };

    fn is_enough(reader: &CopyReader) -> bool {
        copies_have_one_course();
        reader.is_done()
    }

    fn put(reader: &mut CopyReader, bytes: &[u8]) -> Result<(), AllocError> {
        reader.feed(bytes)
    }
}

/// Reads a text on, of which the first read gave these bytes, and adds what the reads give. It goes to the end, or as far as the source
/// goes. In the clauses `before` is what the device had done, or what it had left to give, before the first read.
pub(crate) fn read_text_on<S: Source>(
    device: &mut S,
    bytes: &mut Vec<u8>,
) -> Result<ReadStop, AllocError>
    requires text { is_text bytes.old.items ≡ true }
    requires few { length bytes.old.items ≤ 4096 }
    ensures text { IfOk result (λ stop. is_text bytes.new.items ≡ true) }
    ensures read { (before : History) → GrewBy (ReadSoFar IsEnough 1 bytes.old.items) before (S.history device.old)
        → IfOk result (λ stop. GrewBy (λ reads. IsRead IsEnough reads bytes.new.items stop) before (S.history device.new)) }
    ensures refused { (before : History) → GrewBy (ReadSoFar IsEnough 1 bytes.old.items) before (S.history device.old)
        → OnErr result (GrewBy (IsReadInPart IsEnough) before (S.history device.new)) }
    ensures known { (before : Option (List ℕ)) → Consumes before (S.remaining device.old) bytes.old.items
        → IfOk result (λ stop. Consumes before (S.remaining device.new) bytes.new.items) }
    ensures end { IfOk result (λ stop. stop ≡ Whole → IsAtEnd (S.remaining device.new)) }
{
    read_on::<S, TextIntake>(device, bytes, 1)
}

/// Reads the rest of a copy, after `made` reads have fed the reader. It stops when the reader is done, and when the source ends, fails or
/// has used up its reads. `Err` comes if memory is refused.
pub(crate) fn read_copy_on<S: Source>(
    device: &mut S,
    reader: &mut CopyReader,
    made: u64,
) -> Result<ReadStop, AllocError>
    requires made_few { made ≤ 1 }
    requires fed_few { IsSomeAnd reader.old (λ fed. length fed ≤ 4096 * made) }
    ensures begins { (fed : List ℕ) → reader.old ≡ Some fed → 0 < length fed
        → IfOk result (λ stop. IsSomeAnd reader.new (λ bytes. is_text bytes ≡ is_text fed)) }
    ensures read { (before : History) (fed : List ℕ) → reader.old ≡ Some fed
        → GrewBy (ReadSoFar IsCopyDone made fed) before (S.history device.old)
        → IfOk result (λ stop. IsSomeAnd reader.new (λ bytes. GrewBy (λ reads. IsRead IsCopyDone reads bytes stop) before
        (S.history device.new))) }
    ensures refused { (before : History) (fed : List ℕ) → reader.old ≡ Some fed
        → GrewBy (ReadSoFar IsCopyDone made fed) before (S.history device.old)
        → OnErr result (GrewBy (IsReadInPart IsCopyDone) before (S.history device.new)) }
    ensures known { (before : Option (List ℕ)) (fed : List ℕ) → reader.old ≡ Some fed
        → Consumes before (S.remaining device.old) fed
        → IfOk result (λ stop. IsSomeAnd reader.new (λ prefix. IfSome before (λ bytes. IsPrefixOf bytes prefix stop))) }
{
    read_on::<S, CopyIntake>(device, reader, made)
}
