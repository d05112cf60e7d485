//! What copies in several codings give each other. A free proposer finds it, and it is judged.

ghost use Rattle.std.specs.Prelude.{◌≡◌, map, IfOk, IfSome};
ghost use Rattle.jls_diff.specs.PartsOf.{bytes_of};
ghost use Rattle.jls_held.specs.HeldPictures.{AreReadingsHeld};
ghost use Rattle.jls_held.specs.Judging.{AreMendedOf, codings_of as judged_codings};
ghost use Rattle.jls_held.specs.Mending.{file_of};
ghost use Rattle.jls_values.specs.OrderedSet as set;

use crate::own_splices::{SearchBounds, own_splices};
use jls_carry::{Carried, Edit, MendedCoding, carry};
use jls_diff::find_parts;
use jls_held::{CopyEdit, EditedCopy, Judged, judge};
use jls_search::codings_of;
use jls_values::Shape;
use std::alloc::{AllocError, Global};

/// Whether copies are of several codings, by the numbers that these have.
fn are_several(codings: &[usize]) -> bool {
    codings.iter().any(|coding| *coding != 0)
}

/// Whether no sample of a line is above the ceiling, if there is one.
fn is_within(line: &Option<Vec<u16>>, ceiling: Option<u16>) -> bool {
    match (line, ceiling) {
        (Some(line), Some(ceiling)) => line.iter().all(|sample| *sample <= ceiling),
        _ => true,
    }
}

/// The edits of a copy, as they are judged.
fn edits_of(alloc: Global, proposed: Vec<Edit>) -> Result<Vec<CopyEdit>, AllocError> {
    let mut edits = Vec::new(alloc);
    for edit in proposed {
        let Edit {
            offset,
            count,
            bytes,
        } = edit;
        edits.push(CopyEdit {
            offset,
            count,
            bytes,
        })?;
    }
    Ok(edits)
}

/// The copies of a coding with their edits, as they are judged. Numbers from `count` on are those of witnesses and splices, which aren't.
fn edited_copies(
    alloc: Global,
    coding: MendedCoding,
    count: usize,
) -> Result<Vec<EditedCopy>, AllocError> {
    let MendedCoding { copies, edits, .. } = coding;
    let mut edited = Vec::new(alloc);
    for (number, proposed) in copies.iter().copied().zip(edits) {
        if number < count {
            edited.push(EditedCopy {
                number,
                edits: edits_of(alloc, proposed)?,
            })?;
        }
    }
    Ok(edited)
}

/// Whether a line of some component is not settled, and one behind it is. The lines are row by row, and in a row by component.
fn has_gap(lines: &[Option<Vec<u16>>], components: usize) -> bool {
    for component in 0..components {
        let mut is_open = false;
        for (place, line) in lines.iter().enumerate() {
            if place % components == component {
                if line.is_none() {
                    is_open = true;
                } else if is_open {
                    return true;
                }
            }
        }
    }
    false
}

/// What is proposed, the copies that agree with no other, and whether something speaks against copies that decode whole.
#[derive(Drop)]
struct Proposed {
    codings: Vec<Vec<EditedCopy>>,
    strangers: Vec<usize>,
    is_doubtful: bool,
}

/// The copies to be carried: how many they are without witnesses and splices behind them, and how many components their picture has.
#[derive(Clone, Copy)]
struct CarriedSize {
    copies: usize,
    components: usize,
}

/// What is proposed of each coding of these copies. Nothing, where a line that is settled has a sample above the ceiling.
fn proposed_of(
    alloc: Global,
    carried: Carried,
    size: CarriedSize,
    ceiling: Option<u16>,
) -> Result<Proposed, AllocError> {
    let Carried {
        codings,
        strangers,
        lines,
        is_doubtful,
    } = carried;
    let count = size.copies;
    let is_doubtful = is_doubtful || has_gap(&lines, size.components);
    let mut proposals = Vec::new(alloc);
    if lines.iter().all(|line| is_within(line, ceiling)) {
        for coding in codings {
            let edited = edited_copies(alloc, coding, count)?;
            if !edited.is_empty() {
                proposals.push(edited)?;
            }
        }
    }
    let mut named = Vec::new(alloc);
    for number in strangers {
        if number < count {
            named.push(number)?;
        }
    }
    Ok(Proposed {
        codings: proposals,
        strangers: named,
        is_doubtful,
    })
}

/// The splices of each coding, with its number.
fn splices_of_codings(
    alloc: Global,
    copies: &[&[u8]],
    codings: &[usize],
    bounds: SearchBounds,
) -> Result<Vec<(usize, Vec<u8>)>, AllocError> {
    let mut found = Vec::new(alloc);
    for (number, coding) in codings.iter().copied().enumerate() {
        if number == coding {
            for file in own_splices(alloc, copies, codings, coding, bounds)? {
                found.push((coding, file))?;
            }
        }
    }
    Ok(found)
}

/// The bytes of copies, and of splices behind them.
fn with_splices(
    alloc: Global,
    copies: &[&[u8]],
    splices: Vec<(usize, Vec<u8>)>,
) -> Result<Vec<Vec<u8>>, AllocError> {
    let mut all = Vec::new(alloc);
    for copy in copies {
        all.push(Vec::from_slice(alloc, copy)?)?;
    }
    for (_, file) in splices {
        all.push(file)?;
    }
    Ok(all)
}

/// The numbers of copies, and of splices behind them.
fn numbers_with(
    alloc: Global,
    codings: &[usize],
    splices: &[(usize, Vec<u8>)],
) -> Result<Vec<usize>, AllocError> {
    let mut numbers: Vec<usize> = codings.iter().copied().collect(alloc)?;
    for (coding, _) in splices {
        numbers.push(*coding)?;
    }
    Ok(numbers)
}

/// Copies with witnesses behind them.
fn with_witnesses<'a>(
    alloc: Global,
    copies: &[&'a [u8]],
    witnesses: &[&'a [u8]],
) -> Result<Vec<&'a [u8]>, AllocError> {
    let mut speakers: Vec<&'a [u8]> = copies.iter().copied().collect(alloc)?;
    for witness in witnesses {
        speakers.push(*witness)?;
    }
    Ok(speakers)
}

/// The numbers of the codings of copies, which are given, and of the witnesses behind them. A witness of a coding of its own has its own
/// place among all as its number.
fn numbers_of_all(
    alloc: Global,
    speakers: &[&[u8]],
    codings: &[usize],
) -> Result<Vec<usize>, AllocError> {
    let mut numbers: Vec<usize> = codings.iter().copied().collect(alloc)?;
    if speakers.len() <= codings.len() {
        return Ok(numbers);
    }
    let parts = find_parts(alloc, speakers)?;
    let all = codings_of(alloc, speakers, &parts)?;
    for first in all.iter().copied().skip(codings.len()) {
        let number = codings.get(first).copied().unwrap_or(first);
        numbers.push(number)?;
    }
    Ok(numbers)
}

/// Whether some of these witnesses is of another coding than each of the copies, as far as can be told. Lines of the others can't be told
/// from those of damaged copies. No contract speaks of it.
pub fn are_of_other_codings(
    alloc: Global,
    copies: &[&[u8]],
    witnesses: &[&[u8]],
) -> Result<bool, AllocError> {
    if witnesses.is_empty() {
        return Ok(false);
    }
    let speakers = with_witnesses(alloc, copies, witnesses)?;
    let codings = codings_of(alloc, &speakers, &find_parts(alloc, &speakers)?)?;
    Ok(codings.iter().any(|coding| *coding >= copies.len()))
}

/// What these copies give each other, and the witnesses behind the first ones give them. `codings` has a number for each. The splices of
/// each coding of copies speak beside them.
fn carry_with_splices(
    alloc: Global,
    speakers: &[&[u8]],
    codings: &[usize],
    size: CarriedSize,
    bounds: SearchBounds,
) -> Result<Proposed, AllocError> {
    let splices = splices_of_codings(alloc, speakers, codings, bounds)?;
    if splices.is_empty() {
        let carried = carry(alloc, speakers, codings, speakers.len())?;
        return proposed_of(alloc, carried, size, bounds.ceiling);
    }
    let numbers = numbers_with(alloc, codings, &splices)?;
    let all = with_splices(alloc, speakers, splices)?;
    let mut slices: Vec<&[u8]> = Vec::new(alloc);
    for bytes in &all {
        slices.push(bytes)?;
    }
    let carried = carry(alloc, &slices, &numbers, speakers.len())?;
    proposed_of(alloc, carried, size, bounds.ceiling)
}

/// What copies in several codings give each other.
#[derive(Drop)]
pub struct Between {
    /// The mended files with their edits, and the lines that they hold.
    pub judged: Judged,
    /// The copies that agree with no other, by their indices.
    pub strangers: Vec<usize>,
    /// Whether copies confirm several readings of a line, or none of one before another of its component that is settled. Or one that reads
    /// to its end has another picture, by which no more bytes are wrong in all. No contract speaks of it.
    pub is_doubtful: bool,
}

/// What copies give each other, for a picture of this shape. Each coding of copies has a mended file, with the edits that make it of them.
/// The lines are those that these files hold. Witnesses give the copies lines, and hold none. `None` comes where all are of one coding, as
/// far as can be told. Nothing is proposed that has a sample above the ceiling, if there is one. The splices of each coding are searched,
/// and speak beside its copies. `Err` comes where memory is refused.
///
/// No contract speaks of what is found, but that it is as judged.
pub fn carry_between(
    alloc: Global,
    shape: Shape,
    copies: &[&[u8]],
    witnesses: &[&[u8]],
    bounds: SearchBounds,
) -> Result<Option<Between>, AllocError>
    ensures shape { IfOk result (λ carried. IfSome carried (λ between. between.judged.held.shape ≡ shape)) }
    ensures marks { IfOk result (λ carried. IfSome carried (λ between. between.judged.held.marks ≡ set.empty)) }
    ensures mended { IfOk result (λ carried. IfSome carried (λ between.
        AreMendedOf (bytes_of copies.now) (judged_codings between.judged.codings.items) (map file_of between.judged.files.items))) }
    ensures held { IfOk result (λ carried. IfSome carried (λ between.
        AreReadingsHeld (map file_of between.judged.files.items) between.judged.held)) }
{
    let parts = find_parts(alloc, copies)?;
    let codings = codings_of(alloc, copies, &parts)?;
    let speakers = with_witnesses(alloc, copies, witnesses)?;
    let numbers = numbers_of_all(alloc, &speakers, &codings)?;
    if !are_several(&numbers) {
        return Ok(None);
    }
    let size = CarriedSize {
        copies: copies.len(),
        components: shape.ids().len(),
    };
    let Proposed {
        codings,
        strangers,
        is_doubtful,
    } = carry_with_splices(alloc, &speakers, &numbers, size, bounds)?;
    let judged = judge(alloc, shape, copies, codings)?;
    Ok(Some(Between {
        judged,
        strangers,
        is_doubtful,
    }))
}
