//! Judges which proposals of edited copies make one file, and which lines the mended files hold.

ghost use Rattle.std.specs.Prelude.{◌≡◌, length, map, IfOk, MatchBool, MatchOption};
ghost use Rattle.jls_values.specs.OrderedSet as set;
ghost use Rattle.jls_held.specs.Edits.{AreEdits, held_by_either};
ghost use Rattle.jls_held.specs.MendedFiles.{MendedFile};
ghost use Rattle.jls_held.specs.Mending.{edits_of, file_of};
ghost use Rattle.jls_held.specs.HeldPictures.{AreReadingsHeld, HasLinesBefore};
ghost use Rattle.jls_held.specs.Judging.{AreMendedOf, AreTaken, FitsCopy, IsMendedOf};
ghost use Rattle.jls_held.specs.Judging.{bytes_of, coding_of, codings_of, edited_copy_of, made_of};

use crate::holding::held_lines;
use crate::mending::{CopyEdit, MendedCopy, mended_copy};
use jls_partial::Partial;
use jls_values::Shape;
use std::alloc::{AllocError, Global};

/// A copy by its place among the copies, from 0, and edits of it.
#[derive(Drop)]
pub struct EditedCopy {
    pub number: usize,
    pub edits: Vec<CopyEdit>,
}

/// Mended files, and the lines that they hold. The file at each place is mended of the edited copies at this place of `codings`.
#[derive(Drop)]
pub struct Judged {
    pub codings: Vec<Vec<EditedCopy>>,
    pub files: Vec<MendedCopy>,
    pub held: Partial,
}

/// Whether the edits are in order and inside a copy of this length.
fn are_edits(length: usize, edits: &[CopyEdit]) -> bool
    ensures { MatchBool result (AreEdits 0 length (edits_of edits.now)) (AreEdits 0 length (edits_of edits.now) → ⊥) }
{
    let mut at = 0;
    for edit in edits {
        if edit.offset < at || length < edit.offset || length - edit.offset < edit.count {
            return false;
        }
        at = edit.offset + edit.count;
    }
    true
}

/// What its edits make of the copy, if the copy is there and the edits are in order and inside it.
fn made_of(
    alloc: Global,
    copies: &[&[u8]],
    edited: &EditedCopy,
) -> Result<Option<MendedCopy>, AllocError>
    ensures { IfOk result (λ answer. MatchOption answer (FitsCopy (bytes_of copies.now) (edited_copy_of edited.now) → ⊥)
        (λ made. FitsCopy (bytes_of copies.now) (edited_copy_of edited.now)
        × (file_of made ≡ made_of (bytes_of copies.now) (edited_copy_of edited.now)))) }
{
    if edited.number >= copies.len() {
        return Ok(None);
    }
    let copy = copies[edited.number];
    if !are_edits(copy.len(), &edited.edits) {
        return Ok(None);
    }
    let made = mended_copy(alloc, copy, &edited.edits)?;
    Ok(Some(made))
}

/// Marks as held also the bytes that another copy has.
fn hold_of_either(held: &mut Vec<bool>, others: &[bool])
    requires { length held.old.items ≡ length others.now }
    ensures { held.new.items ≡ held_by_either held.old.items others.now }
{
    for i in 0..others.len() {
        if others[i] {
            held[i] = true;
        }
    }
}

/// The file that is mended of these copies, if all of their edits make the same bytes.
fn mended_of(
    alloc: Global,
    copies: &[&[u8]],
    coding: &[EditedCopy],
) -> Result<Option<MendedCopy>, AllocError>
    ensures { IfOk result (λ answer. MatchOption answer
        ((f : MendedFile) → IsMendedOf (bytes_of copies.now) (coding_of coding.now) f → ⊥)
        (λ file. IsMendedOf (bytes_of copies.now) (coding_of coding.now) (file_of file))) }
{
    let Some((first, others)) = coding.split_first() else {
        return Ok(None);
    };
    let Some(mut file) = made_of(alloc, copies, first)? else {
        return Ok(None);
    };
    for edited in others {
        let Some(other) = made_of(alloc, copies, edited)? else {
            return Ok(None);
        };
        if other.bytes != file.bytes {
            return Ok(None);
        }
        hold_of_either(&mut file.held, &other.held);
    }
    Ok(Some(file))
}

/// Judges proposals of edited copies. A proposal is taken if it has one copy or more, and all of them make the same bytes. Each number has
/// to be that of a copy, whose edits are in order and inside it. Any other proposal is left out.
///
/// The answer has the proposals that are taken, the file that each makes, and the lines that these files hold (`held_lines`). The only
/// refusal is out of memory.
pub fn judge(
    alloc: Global,
    shape: Shape,
    copies: &[&[u8]],
    proposals: Vec<Vec<EditedCopy>>,
) -> Result<Judged, AllocError>
    ensures shape { IfOk result (λ j. j.held.shape ≡ shape) }
    ensures marks { IfOk result (λ j. j.held.marks ≡ set.empty) }
    ensures taken { IfOk result (λ j. AreTaken (bytes_of copies.now) (codings_of proposals.items) (codings_of j.codings.items)) }
    ensures mended { IfOk result (λ j. AreMendedOf (bytes_of copies.now) (codings_of j.codings.items) (map file_of j.files.items)) }
    ensures held { IfOk result (λ j. AreReadingsHeld (map file_of j.files.items) j.held) }
    ensures before { IfOk result (λ j. HasLinesBefore (map file_of j.files.items) j.held) }
{
    let mut codings = Vec::new(alloc);
    let mut files = Vec::new(alloc);
    for proposal in proposals {
        if let Some(file) = mended_of(alloc, copies, &proposal)? {
            codings.push(proposal)?;
            files.push(file)?;
        }
    }
    let held = held_lines(alloc, shape, &files)?;
    Ok(Judged {
        codings,
        files,
        held,
    })
}
