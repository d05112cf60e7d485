//! Files without a fault, and prefixes that no such file begins with.

ghost use Rattle.std.specs.Prelude.{◌≡◌, ℕ, List, ◌<◌, ◌↔◌, true, false, IsTrue, IfOk, IfSome};
ghost use Rattle.std.specs.List.{AllByRecursion};
ghost use Rattle.jls_copy.specs.CopyReads.{CopyReadsUnder};
ghost use Rattle.jls_marker.specs.declared.profile.Profile.TheVariants.{Wide};
ghost use Rattle.jls_search.specs.Faultless.{EndsWell, IsFaultless, IsSought, IsDead, IsAnswerWithoutFrame};

use crate::ceiling::is_read_within;
use crate::lines::is_each_line_read;
use jls_copy::{
    CopyFault, CopyRead, End, WideReader, final_ends_stay_under, prefixes_stay_broken_under,
    records_are_of_faulty_pieces_under,
};
use std::alloc::AllocError;

/// Whether no fault of the headers ended the file.
fn ends_well(end: End) -> bool
    ensures { IsTrue result ↔ EndsWell end }
{
    match end {
        End::Eoi(_) => true,
        End::Input(_) => true,
        End::Header(_, _) => false,
    }
}

/// Whether what was read is a file without a fault. No fault of the headers ended it, no piece of it is faulty, and each line of its frame
/// is read.
pub fn is_read_faultless(read: &CopyRead) -> bool
    ensures faultless { result ≡ true → (file : List ℕ) → CopyReadsUnder Wide file read.now → IsFaultless file }
    ensures faulty { result ≡ false
        → (file : List ℕ) → CopyReadsUnder Wide file read.now → AllByRecursion (λ b. b < 256) file → IsFaultless file → ⊥ }
    ensures ends { result ≡ true → EndsWell read.now.ended }
{
    records_are_of_faulty_pieces_under();
    if read.piece_count() != 0 {
        return false;
    }
    let well_ended = ends_well(read.ended());
    if !well_ended {
        return false;
    }
    is_each_line_read(read.partial())
}

/// The answer where no frame was taken. The only refusal is out of memory.
fn without_frame(fault: CopyFault) -> Result<bool, AllocError>
    ensures { IfOk result (λ answer. IsAnswerWithoutFrame fault answer) }
{
    match fault {
        CopyFault::NoPicture(_, _) => Ok(false),
        CopyFault::OutOfMemory => Err(AllocError),
    }
}

/// Whether what was fed is a file without a fault, if it ends here. The only refusal is out of memory.
pub fn is_faultless(reader: WideReader) -> Result<bool, AllocError>
    ensures faultless { IfOk result (λ answer. answer ≡ true → IfSome reader (λ bytes. IsFaultless bytes)) }
    ensures faulty { IfOk result
        (λ answer. answer ≡ false → IfSome reader (λ bytes. AllByRecursion (λ b. b < 256) bytes → IsFaultless bytes → ⊥)) }
{
    is_sought(None, reader)
}

/// Whether what was read is a file without a fault, whose samples are at most the ceiling, if there is one.
fn is_read_sought(ceiling: Option<u16>, read: &CopyRead) -> bool
    ensures sought { result ≡ true → (file : List ℕ) → CopyReadsUnder Wide file read.now → IsSought ceiling file }
    ensures unsought { result ≡ false
        → (file : List ℕ) → CopyReadsUnder Wide file read.now → AllByRecursion (λ b. b < 256) file → IsSought ceiling file → ⊥ }
{
    let _shape = read.partial().shape();
    let faultless = is_read_faultless(read);
    if !faultless {
        return false;
    }
    is_read_within(ceiling, read.partial())
}

/// Whether what was fed is a file that is sought, if it ends here. Such a file has no fault, and its samples are at most the ceiling, if
/// there is one. The only refusal is out of memory.
pub fn is_sought(ceiling: Option<u16>, reader: WideReader) -> Result<bool, AllocError>
    ensures sought { IfOk result (λ answer. answer ≡ true → IfSome reader (λ bytes. IsSought ceiling bytes)) }
    ensures unsought { IfOk result
        (λ answer. answer ≡ false → IfSome reader (λ bytes. AllByRecursion (λ b. b < 256) bytes → IsSought ceiling bytes → ⊥)) }
{
    match reader.finish() {
        Ok(read) => Ok(is_read_sought(ceiling, &read)),
        Err(fault) => without_frame(fault),
    }
}

/// Whether what was fed is a file with a fault, if it ends here.
fn has_fault(reader: WideReader) -> Result<bool, AllocError>
    ensures { IfOk result
        (λ answer. answer ≡ true → IfSome reader (λ bytes. AllByRecursion (λ b. b < 256) bytes → IsFaultless bytes → ⊥)) }
{
    let faultless = is_faultless(reader)?;
    if faultless {
        return Ok(false);
    }
    Ok(true)
}

/// Whether it is known that no file without a fault begins with the bytes fed, whatever comes. A piece that a marker closed is faulty, or
/// the piece in hand is broken. `false` says nothing.
pub(crate) fn is_broken(reader: &WideReader) -> bool
    ensures { result ≡ true → IfSome reader.now (λ prefix. IsDead IsFaultless prefix) }
{
    prefixes_stay_broken_under();
    let faulty = reader.has_faulty_piece();
    if faulty {
        return true;
    }
    let broken = reader.is_piece_broken();
    if broken {
        return true;
    }
    false
}

/// Whether it is known that no file without a fault begins with the bytes fed. A piece that a marker closed is faulty, or the piece in hand
/// is broken, or the copy has ended and has a fault. `false` says nothing. The only refusal is out of memory.
pub fn is_dead(reader: WideReader) -> Result<bool, AllocError>
    ensures { IfOk result (λ dead. dead ≡ true → IfSome reader (λ prefix. IsDead IsFaultless prefix)) }
{
    final_ends_stay_under();
    let already = is_broken(&reader);
    if already {
        return Ok(true);
    }
    let done = reader.is_done();
    if done {
        return has_fault(reader);
    }
    Ok(false)
}

/// Whether it is known that no file without a fault begins with the bytes fed, as `is_dead` tells it. The reader goes on.
pub(crate) fn is_found_dead(reader: &WideReader) -> Result<bool, AllocError>
    ensures { IfOk result (λ dead. dead ≡ true → IfSome reader.now (λ prefix. IsDead IsFaultless prefix)) }
{
    if !reader.is_done() {
        return Ok(is_broken(reader));
    }
    let clone = reader.try_clone()?;
    is_dead(clone)
}
