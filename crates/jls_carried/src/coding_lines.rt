//! The lines of copies in several codings.

ghost use Rattle.std.specs.Prelude.{◌≡◌, ◌++◌, ◌+◌, ◌<◌, ◌^◌, OnOk, decimal, map, nat_eq, take};
ghost use Rattle.std.specs.List.{AllByRecursion, flat_map, list_any};
ghost use Rattle.jls_held.specs.Judging.{coding_of, codings_of, edited_copy_of};
ghost use Rattle.jls_held.specs.Mending.{edit_of, edits_of};
ghost use Rattle.jls_carried.specs.CodingLines.{coding_line, coding_lines, coding_lines_from, copy_lines, edit_line};
ghost use Rattle.jls_carried.specs.CodingLines.{HasPrintedNumber, HavePrintedNumbers, listed_number, more_edits_line};
ghost use Rattle.jls_carried.specs.CodingLines.{unlisted_end, unlisted_line, unlisted_lines};
ghost use Rattle.jls_carried.specs.CodingLines as spec;

use jls_held::{CopyEdit, EditedCopy};
use jls_report::put_number;
use std::alloc::AllocError;

/// How many edits of a copy have a line.
const MOST_LINES: usize = 4096;

/// Appends a space and the number of each of these copies.
#[tactic(auto, using(crate::proofs::MappedLists::text_one_more, crate::proofs::MappedLists::mapped_at))]
fn put_copies(out: &mut Vec<u8>, copies: &[EditedCopy]) -> Result<(), AllocError>
    requires { AllByRecursion HasPrintedNumber (coding_of copies.now) }
    ensures { OnOk result (out.new.items ≡ out.old.items ++ flat_map listed_number (coding_of copies.now)) }
{
    for copy in copies {
        out.extend_from_slice(b" ")?;
        put_number(out, copy.number as u64 + 1)?;
    }
    Ok(())
}

/// Appends the line of a coding of this number.
fn put_coding(out: &mut Vec<u8>, number: usize, copies: &[EditedCopy]) -> Result<(), AllocError>
    requires { AllByRecursion HasPrintedNumber (coding_of copies.now) }
    ensures { OnOk result (out.new.items ≡ out.old.items ++ coding_line number (coding_of copies.now)) }
{
    out.extend_from_slice(b"coding ")?;
    put_number(out, number as u64)?;
    out.extend_from_slice(b", copies")?;
    put_copies(out, copies)?;
    out.extend_from_slice(b"\n")?;
    Ok(())
}

/// Appends the line of each coding. Their numbers begin at 1.
fn put_codings(out: &mut Vec<u8>, codings: &[Vec<EditedCopy>]) -> Result<(), AllocError>
    requires { HavePrintedNumbers (codings_of codings.now) }
    ensures { OnOk result (out.new.items ≡ out.old.items ++ coding_lines_from 1 (codings_of codings.now)) }
{
    for place in 0..codings.len() {
        put_coding(out, place + 1, &codings[place])?;
    }
    Ok(())
}

/// Whether the copy of this number is one of these.
#[tactic(auto, using(crate::proofs::MappedLists::none_so_far, crate::proofs::MappedLists::found_at))]
fn is_among(copies: &[EditedCopy], number: usize) -> bool
    ensures { result ≡ list_any (λ e. nat_eq e.number number) (coding_of copies.now) }
{
    for copy in copies {
        if copy.number == number {
            return true;
        }
    }
    false
}

/// Whether the copy of this number is in one of the codings.
#[tactic(auto, using(crate::proofs::MappedLists::none_so_far, crate::proofs::MappedLists::found_at))]
fn is_listed(codings: &[Vec<EditedCopy>], number: usize) -> bool
    ensures { result ≡ spec.is_listed (codings_of codings.now) number }
{
    for copies in codings {
        if is_among(copies, number) {
            return true;
        }
    }
    false
}

/// Whether a copy is one of these that agree with no other.
#[tactic(auto, using(crate::proofs::MappedLists::one_more_isnt, crate::proofs::MappedLists::is_found_at))]
fn is_stranger(strangers: &[usize], number: usize) -> bool
    ensures { result ≡ spec.is_stranger strangers.now number }
{
    for stranger in strangers {
        if *stranger == number {
            return true;
        }
    }
    false
}

/// Appends the end of the line of a copy that is in none of the codings.
fn put_unlisted_end(out: &mut Vec<u8>, strangers: &[usize], number: usize) -> Result<(), AllocError>
    ensures { OnOk result (out.new.items ≡ out.old.items ++ unlisted_end strangers.now number) }
{
    if is_stranger(strangers, number) {
        out.extend_from_slice(b" agrees with no other\n")?;
    } else {
        out.extend_from_slice(b" left out\n")?;
    }
    Ok(())
}

/// Appends the line of a copy that is in none of the codings.
fn put_unlisted(
    out: &mut Vec<u8>,
    codings: &[Vec<EditedCopy>],
    strangers: &[usize],
    number: usize,
) -> Result<(), AllocError>
    requires { number + 1 < 2 ^ 64 }
    ensures { OnOk result (out.new.items ≡ out.old.items ++ unlisted_line (codings_of codings.now) strangers.now number) }
{
    if is_listed(codings, number) {
        return Ok(());
    }
    out.extend_from_slice(b"copy ")?;
    put_number(out, number as u64 + 1)?;
    put_unlisted_end(out, strangers, number)
}

/// Appends the lines of those of so many copies that are in none of the codings.
fn put_all_unlisted(
    out: &mut Vec<u8>,
    count: usize,
    codings: &[Vec<EditedCopy>],
    strangers: &[usize],
) -> Result<(), AllocError>
    ensures { OnOk result (out.new.items ≡ out.old.items ++ unlisted_lines count (codings_of codings.now) strangers.now) }
{
    for number in 0..count {
        put_unlisted(out, codings, strangers, number)?;
    }
    Ok(())
}

/// Appends the line of an edit of the copy that has this number, from 0.
fn put_edit(out: &mut Vec<u8>, number: usize, edit: &CopyEdit) -> Result<(), AllocError>
    requires { number + 1 < 2 ^ 64 }
    ensures { OnOk result (out.new.items ≡ out.old.items ++ edit_line number (edit_of edit.now)) }
{
    out.extend_from_slice(b"copy ")?;
    put_number(out, number as u64 + 1)?;
    out.extend_from_slice(b" differs ")?;
    put_number(out, edit.offset as u64)?;
    out.extend_from_slice(b" ")?;
    put_number(out, edit.count as u64)?;
    out.extend_from_slice(b" ")?;
    put_number(out, edit.bytes.len() as u64)?;
    out.extend_from_slice(b"\n")?;
    Ok(())
}

/// Appends the line of each of these edits.
#[tactic(auto, using(crate::proofs::MappedLists::text_one_more, crate::proofs::MappedLists::mapped_at))]
fn put_edits(out: &mut Vec<u8>, number: usize, edits: &[CopyEdit]) -> Result<(), AllocError>
    requires { number + 1 < 2 ^ 64 }
    ensures { OnOk result (out.new.items ≡ out.old.items ++ flat_map (edit_line number) (edits_of edits.now)) }
{
    for edit in edits {
        put_edit(out, number, edit)?;
    }
    Ok(())
}

/// Appends how many edits of a copy have no line, if there are such.
fn put_more(out: &mut Vec<u8>, number: usize, count: usize) -> Result<(), AllocError>
    requires { number + 1 < 2 ^ 64 }
    ensures { OnOk result (out.new.items ≡ out.old.items ++ more_edits_line number count) }
{
    if count > MOST_LINES {
        out.extend_from_slice(b"copy ")?;
        put_number(out, number as u64 + 1)?;
        out.extend_from_slice(b" differs more ")?;
        put_number(out, (count - MOST_LINES) as u64)?;
        out.extend_from_slice(b"\n")?;
    }
    Ok(())
}

/// The first of these edits, each of which has a line.
fn first_ones(edits: &[CopyEdit]) -> &[CopyEdit]
    ensures { result.now ≡ take 4096 edits.now }
{
    if edits.len() > MOST_LINES {
        &edits[..MOST_LINES]
    } else {
        edits
    }
}

/// Appends the lines of a copy: its first edits, and how many more there are.
fn put_copy(out: &mut Vec<u8>, copy: &EditedCopy) -> Result<(), AllocError>
    requires { HasPrintedNumber (edited_copy_of copy.now) }
    ensures { OnOk result (out.new.items ≡ out.old.items ++ copy_lines (edited_copy_of copy.now)) }
{
    put_edits(out, copy.number, first_ones(&copy.edits))?;
    put_more(out, copy.number, copy.edits.len())
}

/// Appends the lines of the copies of a coding.
#[tactic(auto, using(crate::proofs::MappedLists::text_one_more, crate::proofs::MappedLists::mapped_at))]
fn put_each_copy(out: &mut Vec<u8>, copies: &[EditedCopy]) -> Result<(), AllocError>
    requires { AllByRecursion HasPrintedNumber (coding_of copies.now) }
    ensures { OnOk result (out.new.items ≡ out.old.items ++ flat_map copy_lines (coding_of copies.now)) }
{
    for copy in copies {
        put_copy(out, copy)?;
    }
    Ok(())
}

/// Appends the lines of the copies of all codings.
#[tactic(auto, using(crate::proofs::MappedLists::text_one_more, crate::proofs::MappedLists::mapped_at))]
fn put_all_copies(out: &mut Vec<u8>, codings: &[Vec<EditedCopy>]) -> Result<(), AllocError>
    requires { HavePrintedNumbers (codings_of codings.now) }
    ensures { OnOk result (out.new.items ≡ out.old.items ++ flat_map (flat_map copy_lines) (codings_of codings.now)) }
{
    for copies in codings {
        put_each_copy(out, copies)?;
    }
    Ok(())
}

/// Appends all lines of codings of `count` copies, in ASCII. They say which copies each coding has, which are in none, and then the edits
/// of the copies. Each ends with a newline. Codings and copies count from 1. Strangers are copies that agree with no other, by their
/// indices. `Err` comes where memory is refused, and says nothing of what was appended.
pub fn put_all_codings(
    out: &mut Vec<u8>,
    count: usize,
    codings: &[Vec<EditedCopy>],
    strangers: &[usize],
) -> Result<(), AllocError>
    requires { HavePrintedNumbers (codings_of codings.now) }
    ensures { OnOk result (out.new.items ≡ out.old.items ++ coding_lines count (codings_of codings.now) strangers.now) }
{
    put_codings(out, codings)?;
    put_all_unlisted(out, count, codings, strangers)?;
    put_all_copies(out, codings)
}

/// Whether each edit of these copies has a line.
#[tactic(auto, using(crate::proofs::MappedLists::all_so_far, crate::proofs::MappedLists::fails_at))]
fn has_each_a_line(copies: &[EditedCopy]) -> bool
    ensures { result ≡ spec.has_each_a_line (coding_of copies.now) }
{
    for copy in copies {
        if copy.edits.len() > MOST_LINES {
            return false;
        }
    }
    true
}

/// Whether each edit of the copies of these codings has a line: no copy has more than 4,096.
#[tactic(auto, using(crate::proofs::MappedLists::all_so_far, crate::proofs::MappedLists::fails_at))]
pub fn are_all_printed(codings: &[Vec<EditedCopy>]) -> bool
    ensures { result ≡ spec.are_all_printed (codings_of codings.now) }
{
    for copies in codings {
        if !has_each_a_line(copies) {
            return false;
        }
    }
    true
}
