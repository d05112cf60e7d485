//! The pieces of a mended file, each with first lines of its interval.

ghost use Rattle.std.specs.Prelude.{◌≡◌, ◌≢◌, ◌<◌, ◌++◌, false, All, List, ℕ, take, [], Some, None, IfOk, IfSome, OnOk};
ghost use Rattle.std.specs.List.{AllByRecursion};
ghost use Rattle.jls_held.specs.Mending.{file_of};
ghost use Rattle.jls_held.specs.FilePieces.{IsPieceOf, IsTold, HasNoRecord};

use crate::mending::MendedCopy;
use jls_copy::{
    CopyFault, CopyRead, PieceInHand, PieceRecord, WideReader, next_cut, prefixes_go_on_under,
    records_are_of_faulty_pieces_under,
};
use std::alloc::{AllocError, Global};

/// Whether the last of these pieces begins at this offset.
fn is_last(told: &[PieceInHand], offset: u64) -> bool {
    match told.last() {
        Some(last) => last.offset == offset,
        None => false,
    }
}

/// Keeps the piece in hand, in place of what was kept of it before. A piece that is broken whatever follows is passed by, since it would be
/// left out in the end.
fn note(reader: &WideReader, told: &mut Vec<PieceInHand>) -> Result<(), AllocError>
    ensures { OnOk result (IfSome reader.now (λ fed. (more : List ℕ) → All (IsTold (fed ++ more)) told.old.items
        → All (IsTold (fed ++ more)) told.new.items)) }
{
    if reader.is_piece_broken() {
        return Ok(());
    }
    let Some(piece) = reader.piece_in_hand()? else {
        return Ok(());
    };
    if is_last(told, piece.offset) {
        let _ = told.pop();
    }
    told.push(piece)?;
    Ok(())
}

/// Feeds a file to a new reader, and keeps each piece that is in hand before a place where scan data can be cut.
fn read_pieces(
    bytes: &[u8],
    reader: &mut WideReader,
    told: &mut Vec<PieceInHand>,
) -> Result<(), AllocError>
    requires reader { reader.old ≡ Some [] }
    requires told { told.old.items ≡ [] }
    ensures reader { OnOk result (reader.new ≡ Some bytes.now) }
    ensures told { OnOk result (All (IsTold bytes.now) told.new.items) }
    ensures bytes { AllByRecursion (λ b. b < 256) bytes.now }
{
    let mut at = 0;
    while let Some(cut) = next_cut(bytes, at + 1) {
        reader.feed(&bytes[at..cut])?;
        note(reader, told)?;
        at = cut;
    }
    reader.feed(&bytes[at..])
}

/// Whether a record has this offset.
fn is_recorded(records: &[PieceRecord], offset: u64) -> bool
    ensures { result ≡ false → All (λ r. r.offset ≢ offset) records.now }
{
    for record in records {
        if record.offset == offset {
            return true;
        }
    }
    false
}

/// The pieces that have no record, so that they read as lines. There are none if the copy has more records than are kept.
fn without_record(
    alloc: Global,
    read: &CopyRead,
    told: Vec<PieceInHand>,
) -> Result<Vec<PieceInHand>, AllocError>
    ensures none { IfOk result (λ kept. All (HasNoRecord read.now) kept.items) }
    ensures told { IfOk result (λ kept. (bytes : List ℕ) → All (IsTold bytes) told.items → All (IsTold bytes) kept.items) }
{
    let mut kept = Vec::new(alloc);
    if read.piece_count() != read.pieces().len() as u64 {
        return Ok(kept);
    }
    for piece in told {
        if !is_recorded(read.pieces(), piece.offset) {
            kept.push(piece)?;
        }
    }
    Ok(kept)
}

/// The pieces of a mended file that read as lines. If the file's end cuts off the last piece, it comes with the lines that stand whole in
/// it. A reader has each piece in hand before its end, so that none is decoded twice.
pub(crate) fn file_pieces(alloc: Global, file: &MendedCopy) -> Result<Vec<PieceInHand>, AllocError>
    ensures { IfOk result (λ pieces. All (IsPieceOf (file_of file.now)) pieces.items) }
{
    prefixes_go_on_under();
    records_are_of_faulty_pieces_under();
    let mut reader = WideReader::new(alloc);
    let mut told = Vec::new(alloc);
    read_pieces(&file.bytes, &mut reader, &mut told)?;
    let last = reader.piece_in_hand()?;
    let read = match reader.finish() {
        Ok(read) => read,
        Err(CopyFault::OutOfMemory) => return Err(AllocError),
        Err(CopyFault::NoPicture(_, _)) => return Ok(Vec::new(alloc)),
    };
    let mut pieces = without_record(alloc, &read, told)?;
    if let Some(piece) = last {
        pieces.push(piece)?;
    }
    Ok(pieces)
}
