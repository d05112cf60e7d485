//! Checking a copy.

ghost use Rattle.jls_c.specs.Answers as answers;
ghost use Rattle.jls_c.specs.Answers.{BeginsWith, IsChecked, HasNoPicture, IsCheckedUnder, HasNoPictureUnder};
ghost use Rattle.jls_c.specs.Info as reported;
ghost use Rattle.std.specs.Prelude.{◌≡◌, ◌≢◌, ◌≤◌, [], ◌∷◌, length, map, take, Contains, IfOk};

use crate::answer::{DONE, NO_PICTURE, OUT_OF_MEMORY};
use crate::info::{JlsInfo, JlsPiece, info_of, piece_of, refuse};
use crate::read::{read_copy, read_copy_under};
use crate::statuses::statuses_of;
use jls_copy::{CopyRead, PieceRecord};
use jls_marker::Profile;
use std::alloc::{AllocError, Global};

/// The first records, and at most so many.
#[tactic(auto, using(crate::proofs::Rows::take_whole))]
fn prefix(records: &[PieceRecord], most: usize) -> &[PieceRecord]
    ensures { result.now ≡ take most records.now }
{
    if records.len() <= most {
        records
    } else {
        &records[..most]
    }
}

/// What is reported of these records.
fn pieces_of(alloc: Global, records: &[PieceRecord]) -> Result<Vec<JlsPiece>, AllocError>
    ensures { IfOk result (λ pieces. pieces.items ≡ map reported.piece_of records.now) }
{
    let mut pieces = Vec::new(alloc);
    for record in records {
        pieces.push(piece_of(*record))?;
    }
    Ok(pieces)
}

/// Tells what was read.
#[tactic(auto, using(crate::proofs::Rows::prefix_put, crate::proofs::Rows::few_taken))]
fn tell(alloc: Global, read: &CopyRead, info: &mut JlsInfo, pieces: &mut [JlsPiece]) -> u32
    ensures known { result ≤ 1 }
    ensures info { result ≡ DONE → info.new ≡ reported.info_of read.now }
    ensures pieces { result ≡ DONE
        → BeginsWith (map reported.piece_of (take (length pieces.old) read.now.pieces)) pieces.old pieces.new }
    ensures out_of_memory { result ≡ OUT_OF_MEMORY → info.new ≡ info.old }
    ensures pieces_kept { result ≢ DONE → pieces.new ≡ pieces.old }
{
    let Ok(statuses) = statuses_of(alloc, read.partial()) else {
        return OUT_OF_MEMORY;
    };
    let Ok(first) = pieces_of(alloc, prefix(read.pieces(), pieces.len())) else {
        return OUT_OF_MEMORY;
    };
    *info = info_of(read, &statuses);
    let count = first.len();
    pieces[..count].copy_from_slice(&first);
    DONE
}

/// Tells what a copy says of its picture, how many of its lines it gives, and how it ended. `pieces` takes the records of the first faulty
/// pieces, as many as there is room for, and at most 4,096. At `NO_PICTURE` `info` says why there is none. At any answer but `DONE` no
/// piece is written, and at `OUT_OF_MEMORY` nothing at all.
#[tactic(auto, using(crate::proofs::Reported::checked, crate::proofs::Reported::refusals, crate::proofs::Known::of_check))]
#[unsafe(no_mangle)]
pub extern "C" fn jls_check(
    alloc: Global,
    copy: &[u8],
    info: &mut JlsInfo,
    pieces: &mut [JlsPiece],
) -> u32
    ensures answers { Contains (DONE ∷ NO_PICTURE ∷ OUT_OF_MEMORY ∷ []) result }
    ensures done { result ≡ DONE → IsChecked copy.now info.new pieces.old pieces.new }
    ensures no_picture { result ≡ NO_PICTURE → HasNoPicture copy.now info.new }
    ensures out_of_memory { result ≡ OUT_OF_MEMORY → info.new ≡ info.old }
    ensures pieces_kept { result ≢ DONE → pieces.new ≡ pieces.old }
{
    match read_copy(alloc, copy, Profile::Strict) {
        Ok(read) => tell(alloc, &read, info, pieces),
        Err(fault) => refuse(fault, info),
    }
}

/// Tells of a copy what `jls_check` tells, under a profile: the strict one where this number is 0, and otherwise the wide one.
#[tactic(auto, using(crate::proofs::Reported::checked, crate::proofs::Reported::refusals, crate::proofs::Known::of_check))]
#[unsafe(no_mangle)]
pub extern "C" fn jls_check_under(
    alloc: Global,
    copy: &[u8],
    profile: u32,
    info: &mut JlsInfo,
    pieces: &mut [JlsPiece],
) -> u32
    ensures answers { Contains (DONE ∷ NO_PICTURE ∷ OUT_OF_MEMORY ∷ []) result }
    ensures done { result ≡ DONE → IsCheckedUnder (answers.profile_of profile) copy.now info.new pieces.old pieces.new }
    ensures no_picture { result ≡ NO_PICTURE → HasNoPictureUnder (answers.profile_of profile) copy.now info.new }
    ensures out_of_memory { result ≡ OUT_OF_MEMORY → info.new ≡ info.old }
    ensures pieces_kept { result ≢ DONE → pieces.new ≡ pieces.old }
{
    match read_copy_under(alloc, copy, profile) {
        Ok(read) => tell(alloc, &read, info, pieces),
        Err(fault) => refuse(fault, info),
    }
}
