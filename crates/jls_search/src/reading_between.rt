//! Whether files read between two offsets.

ghost use Rattle.std.specs.Prelude.{◌≡◌, ◌<◌, ℕ, List, ◌↔◌, true, false, Some, None, IsTrue, IfOk, IfSome};
ghost use Rattle.std.specs.List.{AllByRecursion, Contains};
ghost use Rattle.jls_copy.specs.CopyReads.{CopyReadsUnder};
ghost use Rattle.jls_copy.specs.declared.piece.PieceRecord.{PieceRecord as Record};
ghost use Rattle.jls_marker.specs.declared.profile.Profile.TheVariants.{Wide};
ghost use Rattle.jls_search.specs.OfGroups.{HasManyFaults};
ghost use Rattle.jls_search.specs.ReadsBetween.{IsOffsetBetween, Reaches, ReadsBetween};

use jls_copy::{
    CopyFault, CopyRead, End, PieceRecord, WideReader, records_are_of_faulty_pieces_under,
};
use std::alloc::AllocError;

/// Whether an offset is the first of these or after it, and before the second, if there is one.
fn is_between(from: u64, to: Option<u64>, offset: u64) -> bool
    ensures { IsTrue result ↔ IsOffsetBetween from to offset }
{
    match to {
        Some(to) => from <= offset && offset < to,
        None => from <= offset,
    }
}

/// Whether one of the records is of a piece that begins there.
fn has_record_between(records: &[PieceRecord], from: u64, to: Option<u64>) -> bool
    ensures none { result ≡ false → AllByRecursion (λ reported. IsOffsetBetween from to reported.offset → ⊥) records.now }
    ensures some { result ≡ true → (reported : Record) × Contains records.now reported × IsOffsetBetween from to reported.offset }
{
    for reported in records {
        if is_between(from, to, reported.offset) {
            return true;
        }
    }
    false
}

/// Whether a file that ends so reaches over what stands there.
fn reaches(from: u64, to: Option<u64>, end: End) -> bool
    ensures { IsTrue result ↔ Reaches from to end }
{
    match end {
        End::Eoi(offset) => from <= offset,
        End::Input(offset) => from <= offset,
        End::Header(_, offset) => match to {
            Some(to) => to <= offset,
            None => false,
        },
    }
}

/// Whether what was read is a file that reads between two offsets. `None` comes where it has more than 4,096 faulty pieces.
fn told_between(read: &CopyRead, from: u64, to: Option<u64>) -> Option<bool>
    ensures reads { result ≡ Some true → (file : List ℕ) → CopyReadsUnder Wide file read.now → ReadsBetween from to file }
    ensures unread { result ≡ Some false → (file : List ℕ) → CopyReadsUnder Wide file read.now → AllByRecursion (λ b. b < 256) file
        → ReadsBetween from to file → ⊥ }
    ensures many { result ≡ None → (file : List ℕ) → CopyReadsUnder Wide file read.now → HasManyFaults file }
{
    records_are_of_faulty_pieces_under();
    let records = read.pieces();
    if read.piece_count() != records.len() as u64 {
        return None;
    }
    if has_record_between(records, from, to) {
        return Some(false);
    }
    Some(reaches(from, to, read.ended()))
}

/// Whether what was read is a file that reads between two offsets. No piece is faulty that begins at the first or after it, and before the
/// second. Without a second one it goes to the file's end. `false` comes too where the file has more than 4,096 faulty pieces.
pub(crate) fn reads_between(read: &CopyRead, from: u64, to: Option<u64>) -> bool
    ensures reads { result ≡ true → (file : List ℕ) → CopyReadsUnder Wide file read.now → ReadsBetween from to file }
    ensures unread { result ≡ false → (file : List ℕ) → CopyReadsUnder Wide file read.now → AllByRecursion (λ b. b < 256) file
        → ReadsBetween from to file → HasManyFaults file }
{
    match told_between(read, from, to) {
        Some(answer) => answer,
        None => false,
    }
}

/// Whether what was fed reads between two offsets, if it ends here. `None` comes where it has more than 4,096 faulty pieces. The only
/// refusal is out of memory.
pub(crate) fn told_by(
    reader: WideReader,
    from: u64,
    to: Option<u64>,
) -> Result<Option<bool>, AllocError>
    ensures reads { IfOk result (λ told. told ≡ Some true → IfSome reader (λ file. ReadsBetween from to file)) }
    ensures unread { IfOk result (λ told. told ≡ Some false → IfSome reader (λ file. AllByRecursion (λ b. b < 256) file
        → ReadsBetween from to file → ⊥)) }
    ensures many { IfOk result (λ told. told ≡ None → IfSome reader (λ file. HasManyFaults file)) }
{
    match reader.finish() {
        Ok(read) => Ok(told_between(&read, from, to)),
        Err(CopyFault::NoPicture(_, _)) => Ok(Some(false)),
        Err(CopyFault::OutOfMemory) => Err(AllocError),
    }
}

/// Whether what was fed reads between two offsets, if it ends here. `false` comes too where it has more than 4,096 faulty pieces. The only
/// refusal is out of memory.
pub(crate) fn is_read_between(
    reader: WideReader,
    from: u64,
    to: Option<u64>,
) -> Result<bool, AllocError>
    ensures reads { IfOk result (λ answer. answer ≡ true → IfSome reader (λ file. ReadsBetween from to file)) }
    ensures unread { IfOk result (λ answer. answer ≡ false → IfSome reader (λ file. AllByRecursion (λ b. b < 256) file
        → ReadsBetween from to file → HasManyFaults file)) }
{
    match told_by(reader, from, to)? {
        Some(answer) => Ok(answer),
        None => Ok(false),
    }
}
