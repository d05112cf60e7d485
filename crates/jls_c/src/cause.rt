//! Why nothing was mended, as a caller is reported.

ghost use Rattle.jls_c.specs.Causes as reported;
ghost use Rattle.std.specs.Prelude.{◌≡◌, ◌≢◌, [], ◌∷◌, Contains};

use crate::answer::{NOT_MENDED, OUT_OF_MEMORY};
use crate::text::{fault_number, fault_offset};
use jls_cli::Cause;
use jls_mend::MendRefusal;
use jls_partial::TextFault;
use jls_station::InputFault;

/// What came of a mending. `bytes` counts those of all outputs and of the lines, `lines` those of the lines alone, and `outputs` the
/// outputs. The picture is promised if `is_promised` is 1, and each copy was read to its end if `is_whole` is 1. `cause` is not 0 if
/// nothing was mended: its `fault` is at `offset`, in bytes, of `copy`, from 0 on, if `has_copy` is 1. If `has_list` is 1, it showed at
/// `list`, from 0 on. That is no list of bad places by `line`, from 1 on, if this isn't 0.
#[repr(C)]
#[derive(Clone, Copy)]
pub struct JlsMendInfo {
    pub bytes: u64,
    pub outputs: u64,
    pub lines: u64,
    pub copy: u64,
    pub offset: u64,
    pub has_copy: u8,
    pub cause: u8,
    pub fault: u8,
    pub has_file: u8,
    pub is_promised: u8,
    pub is_whole: u8,
    pub has_list: u8,
    pub list: u64,
    pub line: u64,
}

/// The number of a cause.
fn cause_number(cause: Cause) -> u8
    ensures { result ≡ reported.cause_number cause }
{
    match cause {
        Cause::NotOpened => 1,
        Cause::Input(_) => 2,
        Cause::PartialPicture => 3,
        Cause::NoPicture(_, _) => 4,
        Cause::NotRead => 5,
        Cause::ShapeDiffers => 6,
        Cause::Unsettled { .. } => 7,
        Cause::TooLarge => 8,
        Cause::NoList(_) => 9,
        Cause::NotCreated | Cause::NotWritten(_) => 0,
        Cause::FileNotCreated(_) | Cause::FileNotWritten(_, _) | Cause::OutOfMemory => 0,
    }
}

/// The number of the fault that a cause has, or 0.
fn cause_fault(cause: Cause) -> u8
    ensures { result ≡ reported.cause_fault cause }
{
    match cause {
        Cause::Input(InputFault::Text(fault)) => fault_number(fault),
        Cause::Input(InputFault::NoPicture(fault, _)) | Cause::NoPicture(fault, _) =>
            fault.number(),
        _ => 0,
    }
}

/// Where the fault of a cause is, or 0.
fn cause_offset(cause: Cause) -> u64
    ensures { result ≡ reported.cause_offset cause }
{
    match cause {
        Cause::Input(InputFault::Text(fault)) => fault_offset(fault),
        Cause::Input(InputFault::NoPicture(_, offset) | InputFault::Read(_, offset)) => offset,
        Cause::NoPicture(_, offset) => offset,
        _ => 0,
    }
}

/// The line of a list that is none, or 0.
fn cause_line(cause: Cause) -> u64
    ensures { result ≡ reported.cause_line cause }
{
    match cause {
        Cause::NoList(line) => line,
        _ => 0,
    }
}

/// Whether there is a place, and which, or 0.
fn place_of(place: Option<usize>) -> (u8, u64)
    ensures has { result.0 ≡ reported.has_place place }
    ensures at { result.1 ≡ reported.place_at place }
{
    match place {
        None => (0, 0),
        Some(place) => (1, place as u64),
    }
}

/// What is answered for a cause.
fn mend_answer(cause: Cause) -> u32
    ensures answer { result ≡ reported.mend_answer cause }
    ensures known { Contains (NOT_MENDED ∷ OUT_OF_MEMORY ∷ []) result }
{
    match cause {
        Cause::Input(InputFault::Text(TextFault::OutOfMemory) | InputFault::OutOfMemory) =>
            OUT_OF_MEMORY,
        Cause::NotCreated | Cause::NotWritten(_) => OUT_OF_MEMORY,
        Cause::FileNotCreated(_) | Cause::FileNotWritten(_, _) | Cause::OutOfMemory =>
            OUT_OF_MEMORY,
        _ => NOT_MENDED,
    }
}

/// What is reported of a refusal.
fn stopped_info(refusal: MendRefusal) -> JlsMendInfo
    ensures { result ≡ reported.stopped_info refusal }
{
    let (has_copy, copy) = place_of(refusal.copy);
    let (has_list, list) = place_of(refusal.list);
    JlsMendInfo {
        bytes: 0,
        outputs: 0,
        lines: 0,
        copy,
        offset: cause_offset(refusal.cause),
        has_copy,
        cause: cause_number(refusal.cause),
        fault: cause_fault(refusal.cause),
        has_file: 0,
        is_promised: 0,
        is_whole: 0,
        has_list,
        list,
        line: cause_line(refusal.cause),
    }
}

/// Tells why nothing was mended, and answers this. After want of memory nothing is reported.
pub(crate) fn refuse_mending(refusal: MendRefusal, info: &mut JlsMendInfo) -> u32
    ensures known { Contains (NOT_MENDED ∷ OUT_OF_MEMORY ∷ []) result }
    ensures answer { result ≡ reported.mend_answer refusal.cause }
    ensures not_mended { result ≡ NOT_MENDED → info.new ≡ reported.stopped_info refusal }
    ensures kept { result ≢ NOT_MENDED → info.new ≡ info.old }
{
    let answer = mend_answer(refusal.cause);
    if answer == NOT_MENDED {
        *info = stopped_info(refusal);
    }
    answer
}
