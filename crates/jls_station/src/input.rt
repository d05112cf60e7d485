//! Inputs of the program: partial pictures as texts, and damaged copies.

ghost use Rattle.std.specs.Prelude.{◌≡◌, ◌↔◌, ◌<◌, ◌≤◌, ℕ, IsTrue, List, Option, None, Some, true, false, length, IfOk, IfErr, IfSome};
ghost use Rattle.std.specs.Prelude.{OnOk, MatchOption};
ghost use Rattle.std.specs.Io.KnownBytes.{Consumes};
ghost use Rattle.jls_io.specs.Event.{History, GrewBy};
ghost use Rattle.jls_station.specs.Forms.{IsForm, IsAllOf, IsCountedIn, IsGivenBy};
ghost use Rattle.jls_station.specs.Given.{given_by_text, given_of};
ghost use Rattle.jls_station.specs.Inputs.{IsEnough, IsCopyDone, ReadsGive, ReadsRefuse};
ghost use Rattle.jls_station.specs.InputFaults.{input_fault_of};
ghost use Rattle.jls_station.specs.KnownCopies.{BytesGive};
ghost use Rattle.jls_station.specs.KnownInputs.{CountsWithin, RefusesInput};
ghost use Rattle.jls_station.specs.Reading.{IsRead, ReadSoFar};
ghost use Rattle.jls_station.specs.Texts.{is_text, IsTextOf};
ghost use Rattle.jls_station.specs.declared.input.InputFault.TheVariants.{OutOfMemory};
ghost use Rattle.jls_station.specs.declared.input.ReadStop.TheVariants.{Whole};

use crate::copy_end::{CopyGiven, read_of_copy};
use crate::intakes::{read_copy_on, read_text_on};
use crate::reading::prefix;
use crate::take_report::TakeReport;
use jls_copy::{CopyReader, copies_have_one_course};
use jls_io::Source;
use jls_marker::MarkerFault;
use jls_partial::{Partial, TextFault};
use std::alloc::{AllocError, Global};
use std::marker::Model;
use thiserror::Error;

/// How the reading of an input stopped.
#[derive(Clone, Copy, Debug, PartialEq, Eq)]
pub enum ReadStop {
    /// At the end of the input, or at that of a copy, after which no byte changes what it gives.
    Whole,
    /// A read failed.
    Failed,
    /// The last of 4,294,967,295 reads, of at most 4,096 bytes each, was made before the end.
    Turns,
}

/// Why an input is refused.
#[derive(Clone, Copy, Debug, PartialEq, Eq, Error)]
pub enum InputFault {
    /// It begins as a text, and is not the text of a partial picture. This is its first fault.
    #[error("{0}")]
    Text(TextFault),
    /// It is a copy that was read whole and in which no frame was taken: the fault that ended it, and its offset.
    #[error("no picture: {0} at offset {1}")]
    NoPicture(MarkerFault, u64),
    /// The device stopped before its end, after it had given this many bytes. The input is a text, or a copy in which no frame was taken.
    #[error("not read on after {1} bytes, before its end or a frame")]
    Read(ReadStop, u64),
    /// Memory ran out for it.
    #[error("out of memory")]
    OutOfMemory,
}

impl From<AllocError> for InputFault {
    ghost from_gives = { λ _ fault. fault ≡ OutOfMemory };

    fn from(_error: AllocError) -> InputFault {
        InputFault::OutOfMemory
    }
}

/// What was read of an input. Clauses see it as what the input gave.
#[derive(Drop)]
pub struct InputRead {
    partial: Partial,
    copy: Option<TakeReport>,
}

impl Model for InputRead {
    ghost use Rattle.jls_partial.specs.Partial.{coded_partial};
    ghost use Rattle.jls_station.specs.Given.{Given};
    ghost use Rattle.std.specs.Coded.{codes};

    ghost Value = { Given };

    ghost coded = { Prim.hlevel (codes, coded_partial) };

    ghost use Rattle.jls_station.specs.Given.{given_of};

    ghost view = { λ r. given_of r.partial r.copy };
}

impl InputRead {
    fn of_text(partial: Partial) -> InputRead
        ensures { result ≡ given_by_text partial }
    {
        InputRead {
            partial,
            copy: None,
        }
    }

    fn of_copy(partial: Partial, report: TakeReport) -> InputRead
        ensures { result ≡ given_of partial (Some report) }
    {
        InputRead {
            partial,
            copy: Some(report),
        }
    }

    /// The partial picture.
    pub fn partial(&self) -> &Partial
        ensures { result.now ≡ self.now.partial }
    {
        &self.partial
    }

    /// The partial picture alone.
    pub fn into_partial(self) -> Partial
        ensures { result ≡ self.partial }
    {
        let Self { partial, .. } = self;
        partial
    }

    /// The report of a copy. There is none of a text.
    pub fn copy(&self) -> Option<&TakeReport>
        ensures { MatchOption result (self.now.copy ≡ None) (λ report. (self.now.copy ≡ Some report.now.found)
            × (self.now.stop ≡ report.now.stop)) }
    {
        self.copy.as_ref()
    }

    /// Whether the input was read whole (`ReadStop::Whole`), as every text is.
    pub fn is_whole(&self) -> bool
        ensures { IsTrue result ↔ (self.now.stop ≡ Whole) }
    {
        matches!(self.stop(), ReadStop::Whole)
    }

    /// How the reading of the input stopped: `Whole` for each text.
    pub fn stop(&self) -> ReadStop
        ensures { result ≡ self.now.stop }
    {
        match &self.copy {
            Some(report) => report.stop(),
            None => ReadStop::Whole,
        }
    }
}

/// The first byte of each text, and of no copy.
const FIRST_OF_TEXT: u8 = 0x4A;

/// Why an input is refused whose text has a fault.
#[tactic(auto, using(crate::proofs::OneInput::other_input_fault))]
pub fn input_fault(fault: TextFault) -> InputFault
    ensures { result ≡ input_fault_of fault }
{
    match fault {
        TextFault::OutOfMemory => InputFault::OutOfMemory,
        fault => InputFault::Text(fault),
    }
}

/// Reads a text to its end, whose first read gave these bytes, into the room of `text`.
/// In the clauses `before` is what the device had done, or what it had left to give, before the first read.
fn read_text<S: Source>(device: &mut S, first: &[u8], text: &mut Vec<u8>) -> Result<(), InputFault>
    requires text { is_text first.now ≡ true }
    requires few { length first.now ≤ 4096 }
    ensures text { OnOk result (is_text text.new.items ≡ true) }
    ensures read { (before : History) → GrewBy (ReadSoFar IsEnough 1 first.now) before (S.history device.old)
        → OnOk result (GrewBy (λ reads. IsRead IsEnough reads text.new.items Whole) before (S.history device.new)) }
    ensures refused { (before : History) → GrewBy (ReadSoFar IsEnough 1 first.now) before (S.history device.old)
        → IfErr result (λ fault. GrewBy (ReadsRefuse fault) before (S.history device.new)) }
    ensures known { (before : Option (List ℕ)) → Consumes before (S.remaining device.old) first.now
        → OnOk result (IfSome before (λ bytes. bytes ≡ text.new.items)) }
    ensures known_refused { (before : Option (List ℕ)) → Consumes before (S.remaining device.old) first.now
        → IfErr result (λ fault. IfSome before (λ bytes. RefusesInput bytes fault)) }
{
    text.clear();
    text.extend_from_slice(first)?;
    let stop = read_text_on(device, text)?;
    match stop {
        ReadStop::Whole => Ok(()),
        stop => Err(InputFault::Read(stop, text.len() as u64)),
    }
}

/// Reads a copy, whose first read gave these bytes, at least one.
fn read_copy<S: Source>(
    alloc: Global,
    source: Option<u32>,
    device: &mut S,
    first: &[u8],
) -> Result<InputRead, InputFault>
    requires some { 0 < length first.now }
    requires few { length first.now ≤ 4096 }
    requires no_text { is_text first.now ≡ false }
    ensures given { (before : History) → GrewBy (ReadSoFar IsCopyDone 1 first.now) before (S.history device.old)
        → IfOk result (λ given. GrewBy (ReadsGive source given) before (S.history device.new)) }
    ensures refused { (before : History) → GrewBy (ReadSoFar IsCopyDone 1 first.now) before (S.history device.old)
        → IfErr result (λ fault. GrewBy (ReadsRefuse fault) before (S.history device.new)) }
    ensures copy { IfOk result (λ given. given.copy ≡ None → ⊥) }
    ensures known { (before : Option (List ℕ)) → Consumes before (S.remaining device.old) first.now
        → IfOk result (λ given. IfSome before (BytesGive source given.partial given.stop)) }
    ensures known_refused { (before : Option (List ℕ)) → Consumes before (S.remaining device.old) first.now
        → IfErr result (λ fault. IfSome before (λ bytes. RefusesInput bytes fault)) }
    ensures known_count { (before : Option (List ℕ)) → Consumes before (S.remaining device.old) first.now
        → IfOk result (λ given. IfSome before (CountsWithin given)) }
{
    let mut reader = CopyReader::new(alloc);
    reader.feed(first)?;
    let stop = read_copy_on(device, &mut reader, 1)?;
    let given = read_of_copy(source, reader, stop)?;
    let CopyGiven { partial, report } = given;
    Ok(InputRead::of_copy(partial, report))
}

/// What is read of an input.
#[derive(Drop)]
pub enum InputForm {
    /// A text: its bytes stand in the room of texts, and are not judged yet.
    Text,
    /// What a copy gives.
    Copy(InputRead),
}

/// Reads an input as `read_input` does, but does not read a text as a partial picture. The bytes of a text go into `text`, which grows as
/// needed.
pub fn read_form<S: Source>(
    alloc: Global,
    source: Option<u32>,
    device: &mut S,
    text: &mut Vec<u8>,
) -> Result<InputForm, InputFault>
    ensures form { IfOk result (λ form. GrewBy (IsForm source text.new.items form) (S.history device.old) (S.history device.new)) }
    ensures refused { IfErr result (λ fault. GrewBy (ReadsRefuse fault) (S.history device.old) (S.history device.new)) }
    ensures known { IfOk result (λ form. IsAllOf (S.remaining device.old) text.new.items form) }
    ensures known_copy { IfOk result (λ form. IfSome (S.remaining device.old) (IsGivenBy source form)) }
    ensures known_refused { IfErr result (λ fault. IfSome (S.remaining device.old) (λ bytes. RefusesInput bytes fault)) }
    ensures known_count { IfOk result (λ form. IfSome (S.remaining device.old) (IsCountedIn form)) }
{
    copies_have_one_course();
    let mut chunk = [0u8; 4096];
    let count = device
        .read_some(&mut chunk)
        .map_err(|_| InputFault::Read(ReadStop::Failed, 0))?;
    if count == 0 {
        return Err(InputFault::NoPicture(MarkerFault::Ended, 0));
    }
    let first = prefix(&chunk, count);
    if first[0] == FIRST_OF_TEXT {
        read_text(device, first, text)?;
        Ok(InputForm::Text)
    } else {
        let read = read_copy(alloc, source, device, first)?;
        Ok(InputForm::Copy(read))
    }
}

/// What a device gives, from its current position on: a copy under the number of a source if there is one. An input whose first
/// byte is 4A is the text of a partial picture, and is read to its end. Every other input is a damaged copy, the empty one too, and
/// is read as long as more bytes can change what it gives. Reads have room for at most 4,096 bytes, and there are at most
/// 4,294,967,295 of them.
///
/// A copy in which a frame was taken is refused only if memory runs out. What was read before the device stopped is kept, and the report
/// tells why it stopped. A text is refused as `Read` if the device stopped before its end, whatever the bytes are.
pub fn read_input<S: Source>(
    alloc: Global,
    source: Option<u32>,
    device: &mut S,
) -> Result<InputRead, InputFault>
    ensures given { IfOk result (λ given. GrewBy (ReadsGive source given) (S.history device.old) (S.history device.new)) }
    ensures refused { IfErr result (λ fault. GrewBy (ReadsRefuse fault) (S.history device.old) (S.history device.new)) }
    ensures known { IfOk result (λ given. given.copy ≡ None → IfSome (S.remaining device.old) (λ bytes. IsTextOf bytes given.partial)) }
    ensures known_copy { IfOk result (λ given. (given.copy ≡ None → ⊥)
        → IfSome (S.remaining device.old) (BytesGive source given.partial given.stop)) }
    ensures known_refused { IfErr result (λ fault. IfSome (S.remaining device.old) (λ bytes. RefusesInput bytes fault)) }
    ensures known_count { IfOk result (λ given. IfSome (S.remaining device.old) (CountsWithin given)) }
{
    let mut text = Vec::new(alloc);
    let form = read_form(alloc, source, device, &mut text)?;
    match form {
        InputForm::Text => {
            let partial = Partial::from_bytes(alloc, &text).map_err(input_fault)?;
            Ok(InputRead::of_text(partial))
        }
        InputForm::Copy(read) => Ok(read),
    }
}
