//! The files without a fault that copies of one coding make. They are found for what is proposed, so no contract speaks of them.

ghost use Rattle.std.specs.Prelude.{◌<◌, length, IfOk};
ghost use Rattle.std.specs.List.{AllByRecursion};
ghost use Rattle.jls_diff.specs.Parts.{AreParts};
ghost use Rattle.jls_diff.specs.PartsOf.{bytes_of, parts_of};
ghost use Rattle.jls_search.specs.Choices.{HasSomeWay, IsWhole};
ghost use Rattle.jls_search.specs.Search.{IsShort, lists_of};
ghost use Rattle.jls_search.specs.SearchLaws.{AreShort};

use jls_diff::{Parts, find_finer_parts, find_parts};
use jls_search::{LevelRules, LevelSearch, Searched, are_short, file_of, parts_can_be_searched};
use std::alloc::{AllocError, Global};

/// How many files of a coding are taken at most. Where there are more, none of them says much.
const MOST_OWN: usize = 4;

/// What a search is allowed.
#[derive(Clone, Copy)]
pub struct SearchBounds {
    /// The greatest sample that a file may have, if there is such a ceiling.
    pub ceiling: Option<u16>,
    /// How many ways are judged at most.
    pub tries: u32,
}

/// Searches the splices of these parts level by level, to the end.
fn search_levels(
    alloc: Global,
    parts: &Parts<'_>,
    rules: LevelRules,
) -> Result<Searched, AllocError>
    requires some_way { AllByRecursion HasSomeWay parts.now }
    requires short { IsShort parts.now }
    ensures { IfOk result (λ searched. AllByRecursion (IsWhole parts.now) (lists_of searched.splices.items)) }
{
    let mut search = LevelSearch::begin(alloc, parts, rules)?;
    'levels: while !search.is_over(parts) {
        search.go_on(alloc, parts)?;
    }
    let searched = search.into_searched(alloc, parts)?;
    Ok(searched)
}

/// Searches the splices of these parts: each way is judged, or else paths are let go.
fn search_over(
    alloc: Global,
    parts: &Parts<'_>,
    bounds: SearchBounds,
) -> Result<Searched, AllocError>
    requires some_way { AllByRecursion HasSomeWay parts.now }
    requires short { IsShort parts.now }
    ensures { IfOk result (λ searched. AllByRecursion (IsWhole parts.now) (lists_of searched.splices.items)) }
{
    let mut rules = LevelRules {
        ceiling: bounds.ceiling,
        tries: bounds.tries,
        lets_go: false,
    };
    let searched = search_levels(alloc, parts, rules)?;
    if !searched.is_used_up || !searched.splices.is_empty() {
        return Ok(searched);
    }
    rules.lets_go = true;
    search_levels(alloc, parts, rules)
}

/// Of the files that choices make those that are no copies.
fn new_files(
    alloc: Global,
    copies: &[&[u8]],
    parts: &Parts<'_>,
    splices: &[Vec<usize>],
) -> Result<Vec<Vec<u8>>, AllocError>
    requires { AllByRecursion (IsWhole parts.now) (lists_of splices.now) }
{
    let mut files = Vec::new(alloc);
    for choices in splices {
        let file = file_of(alloc, parts, choices)?;
        if !copies.iter().any(|copy| **copy == *file) {
            files.push(file)?;
        }
    }
    Ok(files)
}

/// The files that a search over these parts finds, and that are no copies. There are none if it finds too many.
fn files_over<'a>(
    alloc: Global,
    copies: &[&'a [u8]],
    parts: &Parts<'a>,
    bounds: SearchBounds,
) -> Result<Vec<Vec<u8>>, AllocError>
    requires some { 0 < length copies.now }
    requires short { AreShort (bytes_of copies.now) }
    requires parts { AreParts (bytes_of copies.now) parts.now }
{
    parts_can_be_searched();
    let searched = search_over(alloc, parts, bounds)?;
    if searched.splices.len() > MOST_OWN {
        return Ok(Vec::new(alloc));
    }
    new_files(alloc, copies, parts, &searched.splices)
}

/// The files that copies of one coding make, over their parts, or over finer ones if there are none over these.
fn files_of(
    alloc: Global,
    copies: &[&[u8]],
    bounds: SearchBounds,
) -> Result<Vec<Vec<u8>>, AllocError>
    requires some { 0 < length copies.now }
    requires short { AreShort (bytes_of copies.now) }
{
    let parts = find_parts(alloc, copies)?;
    let files = files_over(alloc, copies, &parts, bounds)?;
    if !files.is_empty() {
        return Ok(files);
    }
    match find_finer_parts(alloc, copies, &parts)? {
        Some(finer) => files_over(alloc, copies, &finer, bounds),
        None => Ok(files),
    }
}

/// The copies that have this number among these.
fn copies_with<'a>(
    alloc: Global,
    copies: &[&'a [u8]],
    codings: &[usize],
    coding: usize,
) -> Result<Vec<&'a [u8]>, AllocError> {
    let mut own = Vec::new(alloc);
    for (copy, number) in copies.iter().zip(codings) {
        if *number == coding {
            own.push(*copy)?;
        }
    }
    Ok(own)
}

/// The files without a fault that the copies of this number make, if there are several such copies and few such files. `Err` comes where
/// memory is refused.
pub(crate) fn own_splices(
    alloc: Global,
    copies: &[&[u8]],
    codings: &[usize],
    coding: usize,
    bounds: SearchBounds,
) -> Result<Vec<Vec<u8>>, AllocError> {
    let own = copies_with(alloc, copies, codings, coding)?;
    if own.len() < 2 || !are_short(&own) {
        return Ok(Vec::new(alloc));
    }
    files_of(alloc, &own, bounds)
}
