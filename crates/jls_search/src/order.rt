//! The order in which groups are searched.

ghost use Rattle.std.specs.Prelude.{IfOk};
ghost use Rattle.std.specs.List.{AllByRecursion};
ghost use Rattle.std.specs.List.Sorted.{IsPermutation};
ghost use Rattle.jls_diff.specs.Parts.{HasWays};
ghost use Rattle.jls_diff.specs.PartsOf.{parts_of};
ghost use Rattle.jls_search.specs.Choices.{IsWhole};
ghost use Rattle.jls_search.specs.Search.{IsShort};
ghost use Rattle.jls_diff.specs.Groups.{IsGroup};
ghost use Rattle.jls_search.specs.OfGroups.{HasCopy};

use crate::choosing::choice_at;
use crate::feeding::reader_of;
use crate::group_search::MOST_BY_GROUPS;
use crate::offsets::{border_offset, end_offset};
use crate::reading_between::reads_between;
use crate::whole_search::MOST_FOUND;
use jls_copy::{CopyFault, CopyRead};
use jls_diff::{Group, Parts};
use std::alloc::{AllocError, Global};

/// The choices that make a copy.
fn copy_path(alloc: Global, parts: &Parts<'_>, copy: usize) -> Result<Vec<usize>, AllocError>
    requires { AllByRecursion (HasCopy copy) parts.now }
    ensures { IfOk result (λ path. IsWhole parts.now path.items) }
{
    let mut path = Vec::new(alloc);
    for place in 0..parts.len() {
        path.push(choice_at(parts, place, copy))?;
    }
    Ok(path)
}

/// What the choices make, read; `None` where it has no frame.
fn read_file(
    alloc: Global,
    parts: &Parts<'_>,
    path: &[usize],
) -> Result<Option<CopyRead>, AllocError>
    requires whole { IsWhole parts.now path.now }
    requires short { IsShort parts.now }
{
    let reader = reader_of(alloc, parts, path)?;
    match reader.finish() {
        Ok(read) => Ok(Some(read)),
        Err(CopyFault::NoPicture(_, _)) => Ok(None),
        Err(CopyFault::OutOfMemory) => Err(AllocError),
    }
}

/// Whether what was read reads in a group.
fn reads_group(parts: &Parts<'_>, path: &[usize], read: &CopyRead, group: Group) -> bool
    requires whole { IsWhole parts.now path.now }
    requires short { IsShort parts.now }
    requires group { IsGroup parts.now group }
{
    let from = border_offset(parts, path, group.begin);
    let to = end_offset(parts, path, group.end);
    reads_between(read, from, to)
}

/// Whether this was noted of the group of this number.
fn is_noted(notes: &[bool], number: usize) -> bool {
    match notes.get(number) {
        Some(note) => *note,
        None => false,
    }
}

/// Of each group, whether this copy reads in it, or one of which it was noted before.
fn with_copy(
    alloc: Global,
    parts: &Parts<'_>,
    copy: usize,
    groups: &[Group],
    noted: Vec<bool>,
) -> Result<Vec<bool>, AllocError>
    requires copy { AllByRecursion (HasCopy copy) parts.now }
    requires short { IsShort parts.now }
    requires groups { AllByRecursion (IsGroup parts.now) groups.now }
{
    let path = copy_path(alloc, parts, copy)?;
    let Some(read) = read_file(alloc, parts, &path)? else {
        return Ok(noted);
    };
    let mut notes = Vec::new(alloc);
    for number in 0..groups.len() {
        let reads = reads_group(parts, &path, &read, groups[number]);
        notes.push(reads || is_noted(&noted, number))?;
    }
    Ok(notes)
}

/// Whether so many groups can't give more splices than a search by groups finds at most. Then their order makes no difference.
fn give_few(groups: usize, copies: usize) -> bool {
    groups.saturating_mul(copies) <= MOST_BY_GROUPS / MOST_FOUND
}

/// All groups, each as often as it is given. Those in which no copy reads come first, if the order can make a difference. Of these and of
/// the others each are in their order.
pub(crate) fn groups_in_order(
    alloc: Global,
    parts: &Parts<'_>,
    copies: usize,
    groups: &[Group],
) -> Result<Vec<Group>, AllocError>
    requires ways { AllByRecursion (HasWays copies) parts.now }
    requires short { IsShort parts.now }
    requires groups { AllByRecursion (IsGroup parts.now) groups.now }
    ensures groups { IfOk result (λ ordered. AllByRecursion (IsGroup parts.now) ordered.items) }
    ensures same { IfOk result (λ ordered. IsPermutation groups.now ordered.items) }
{
    if give_few(groups.len(), copies) {
        let ordered: Vec<Group> = groups.iter().copied().collect(alloc)?;
        return Ok(ordered);
    }
    let mut notes = Vec::new(alloc);
    for copy in 0..copies {
        notes = with_copy(alloc, parts, copy, groups, notes)?;
    }
    let mut ordered = Vec::new(alloc);
    let mut others = Vec::new(alloc);
    for number in 0..groups.len() {
        if is_noted(&notes, number) {
            others.push(groups[number])?;
        } else {
            ordered.push(groups[number])?;
        }
    }
    ordered.append(&mut others)?;
    Ok(ordered)
}
