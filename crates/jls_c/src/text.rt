//! Partial pictures as bytes in a buffer.

ghost use Rattle.jls_c.specs.PartialAnswers.{IsTextPut, IsTextLonger, HasNoPartial};
ghost use Rattle.jls_c.specs.TextFaults as reported;
ghost use Rattle.jls_partial.specs.Text.{IsPartial, text};
ghost use Rattle.jls_partial.specs.TextReading.{Fails, read_text};
ghost use Rattle.std.specs.Prelude.{◌≡◌, ◌≢◌, ◌≤◌, length, IfOk, List, ℕ};

use crate::answer::{DONE, OUT_OF_MEMORY, SHORT_ROOM};
use crate::info::{JlsInfo, info_of_fault};
use jls_partial::{Partial, TextFault};
use std::alloc::{AllocError, Global};

/// The text of a partial picture, which has one.
fn text_of(alloc: Global, partial: &Partial) -> Result<Vec<u8>, AllocError>
    ensures text { IfOk result (λ bytes. bytes.items ≡ text partial.now) }
    ensures is_partial { IsPartial partial.now }
{
    let _precision = partial.shape().precision();
    partial.to_bytes(alloc)
}

/// Puts the text of a partial picture into a buffer, and tells what is reported of it, with how many bytes the text has.
pub(crate) fn put_text(
    alloc: Global,
    partial: &Partial,
    reported: JlsInfo,
    info: &mut JlsInfo,
    out: &mut [u8],
) -> u32
    ensures known { result ≤ 3 }
    ensures done { result ≡ DONE → IsTextPut partial.now reported info.new out.old out.new }
    ensures short_room { result ≡ SHORT_ROOM → IsTextLonger partial.now reported info.new (length out.old) }
    ensures answers { result ≢ 2 }
    ensures out_of_memory { result ≡ OUT_OF_MEMORY → info.new ≡ info.old }
    ensures kept { result ≢ DONE → out.new ≡ out.old }
{
    let Ok(text) = text_of(alloc, partial) else {
        return OUT_OF_MEMORY;
    };
    let count = text.len();
    *info = reported;
    info.bytes = count as u64;
    if count > out.len() {
        return SHORT_ROOM;
    }
    out[..count].copy_from_slice(&text);
    DONE
}

/// The number of a fault.
pub(crate) fn fault_number(fault: TextFault) -> u8
    ensures { result ≡ reported.text_fault_number fault }
{
    match fault {
        TextFault::Magic(_) => 20,
        TextFault::BadShape(_) => 21,
        TextFault::Truncated(_) => 22,
        TextFault::Place(_) => 23,
        TextFault::Count(_) => 24,
        TextFault::Order(_) => 25,
        TextFault::Sample(_) => 26,
        TextFault::Trailing(_) => 27,
        TextFault::OutOfMemory => 0,
    }
}

/// Where a fault is.
pub(crate) fn fault_offset(fault: TextFault) -> u64
    ensures { result ≡ reported.text_fault_offset fault }
{
    match fault {
        TextFault::Magic(offset) => offset,
        TextFault::BadShape(offset) => offset,
        TextFault::Truncated(offset) => offset,
        TextFault::Place(offset) => offset,
        TextFault::Count(offset) => offset,
        TextFault::Order(offset) => offset,
        TextFault::Sample(offset) => offset,
        TextFault::Trailing(offset) => offset,
        TextFault::OutOfMemory => 0,
    }
}

/// Tells why bytes are no partial picture, and answers this number. After want of memory nothing is reported.
#[tactic(auto, using(crate::proofs::Texts::no_partial))]
pub(crate) fn refuse_text(fault: TextFault, number: u32, info: &mut JlsInfo) -> u32
    requires { 4 ≤ number }
    ensures answers { result ≡ reported.text_answer fault number }
    ensures none { result ≡ number → (bytes : List ℕ) → Fails fault (read_text bytes) → HasNoPartial bytes info.new }
    ensures out_of_memory { result ≢ number → info.new ≡ info.old }
{
    match fault {
        TextFault::OutOfMemory => OUT_OF_MEMORY,
        fault => {
            *info = info_of_fault(fault_number(fault), fault_offset(fault));
            number
        }
    }
}
