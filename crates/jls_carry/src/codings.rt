//! The mended files of codings.

use crate::claims::CopyState;
use crate::codes::Codes;
use crate::edits::{Edit, edits_between};
use crate::mending::mended_file;
use crate::picture::Picture;
use crate::strangers::{agrees, speaks};
use std::alloc::{AllocError, Global};

/// The mended file of a coding.
#[derive(Drop)]
pub struct MendedCoding {
    /// The copies that are of this coding, by their indices.
    pub copies: Vec<usize>,
    /// The file. It has the headers of the first of them whose headers read.
    pub bytes: Vec<u8>,
    /// For each of these copies the edits that make the file of it, in order.
    pub edits: Vec<Vec<Edit>>,
}

/// Copies as they were given, and what is believed of each.
#[derive(Clone, Copy)]
pub(crate) struct CodedCopies<'a> {
    pub(crate) copies: &'a [&'a [u8]],
    /// The number of its coding.
    pub(crate) codings: &'a [usize],
    /// Whether its own headers say what those of its coding do.
    pub(crate) are_own: &'a [bool],
}

/// The mended file of a coding of which these are the copies. Those that don't agree with it are left out. They are strangers, if they have
/// scan data. Edits are of copies as they were given, also where these are read with headers that they lost.
fn mended_coding(
    alloc: Global,
    copies_given: &[&[u8]],
    states: &[CopyState<'_>],
    numbers: &[usize],
    bytes: Vec<u8>,
    strangers: &mut Vec<usize>,
) -> Result<MendedCoding, AllocError> {
    let mut copies = Vec::new(alloc);
    let mut edits = Vec::new(alloc);
    for number in numbers {
        let (Some(copy), Some(state)) = (copies_given.get(*number), states.get(*number)) else {
            continue;
        };
        let made = edits_between(alloc, copy, &bytes)?;
        if agrees(state, &made) {
            copies.push(*number)?;
            edits.push(made)?;
        } else if speaks(state) {
            strangers.push(*number)?;
        }
    }
    Ok(MendedCoding {
        copies,
        bytes,
        edits,
    })
}

/// The copies of a coding.
fn copies_of(alloc: Global, codings: &[usize], coding: usize) -> Result<Vec<usize>, AllocError> {
    let mut numbers = Vec::new(alloc);
    for (number, other) in codings.iter().enumerate() {
        if *other == coding {
            numbers.push(number)?;
        }
    }
    Ok(numbers)
}

/// The mended files of all codings that have one, and the copies that agree with none.
#[derive(Drop)]
pub(crate) struct MendedCodings {
    pub(crate) codings: Vec<MendedCoding>,
    pub(crate) strangers: Vec<usize>,
}

/// Mends the first copy of each coding whose own headers say what those of its coding do.
pub(crate) fn mend_codings(
    alloc: Global,
    picture: &Picture,
    codes: &mut Codes,
    states: &[CopyState<'_>],
    coded: CodedCopies<'_>,
) -> Result<MendedCodings, AllocError> {
    let CodedCopies {
        copies,
        codings,
        are_own,
    } = coded;
    let mut mended = MendedCodings {
        codings: Vec::new(alloc),
        strangers: Vec::new(alloc),
    };
    let mut done: Vec<usize> = Vec::new(alloc);
    for (state, (coding, is_own)) in states.iter().zip(codings.iter().zip(are_own)) {
        let (Some(has_eoi), true) = (state.has_eoi, is_own) else {
            continue;
        };
        if done.contains(coding) {
            continue;
        }
        done.push(*coding)?;
        let bytes = mended_file(alloc, picture, codes, state, has_eoi)?;
        let numbers = copies_of(alloc, codings, *coding)?;
        let made = mended_coding(
            alloc,
            copies,
            states,
            &numbers,
            bytes,
            &mut mended.strangers,
        )?;
        if !made.copies.is_empty() {
            mended.codings.push(made)?;
        }
    }
    Ok(mended)
}
