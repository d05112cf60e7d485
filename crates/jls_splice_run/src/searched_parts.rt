//! The parts of copies over which is searched. First these are the parts where the copies differ, then finer ones. At last they are parts
//! that are cut where copies go over from one to another.

ghost use Rattle.std.specs.Prelude.{◌≡◌, ◌<◌, ◌≤◌, ◌^◌, ◌⊎◌, None, length, IfOk, IfSome};
ghost use Rattle.std.specs.List.{AllByRecursion};
ghost use Rattle.jls_io.specs.Event.{GrewBy};
ghost use Rattle.jls_diff.specs.Parts.{AreParts, made};
ghost use Rattle.jls_diff.specs.PartsOf.{bytes_of};
ghost use Rattle.jls_search.specs.Choices.{HasSomeWay, IsWhole};
ghost use Rattle.jls_search.specs.Search.{IsKeptReader, IsShort, files_of, lists_of};
ghost use Rattle.jls_search.specs.SearchLaws.{AreShort};
ghost use Rattle.jls_search.specs.Found.{IsFound, IsGroupSearch, found_of, splices_in};
ghost use Rattle.jls_splice_run.specs.Ceilings.{IsCounting, KeepsCeiling};
ghost use Rattle.jls_splice_run.specs.Telling.{IsTold};

use crate::options::SearchOptions;
use crate::shallow::shallow_ceiling;
use crate::stages::{CountingSearch, search_all};
use jls_cuts::find_cuts;
use jls_diff::{Parts, find_cut_parts, find_finer_parts, find_parts, one_part};
use jls_io::Sink;
use jls_search::{
    FoundSplices, Searched, are_of_one_coding, are_short, are_surely_of_several_codings,
    complete_by_groups, parts_can_be_searched,
};
use std::alloc::{AllocError, Global};

/// What was found in some copies.
#[derive(Drop)]
pub struct FoundInTurn<'a> {
    /// What the search that counts found, and what groups gave.
    pub splices: FoundSplices<'a>,
    /// The ceiling under which a cut file is sought, if there is one.
    pub cut_ceiling: Option<u16>,
    /// Whether a cut file is sought.
    pub seeks_cut: bool,
}

/// How parts in which copies differ are cut once more.
#[derive(Clone, Copy)]
enum Cutting {
    /// Where the bytes by which copies differ lie apart.
    Finer,
    /// Where the true file goes over from one copy to another.
    WhereCopiesGoOver,
}

/// Parts of copies, and what the searches over them came to.
#[derive(Drop)]
pub(crate) struct SearchedParts<'a> {
    /// The parts.
    parts: Parts<'a>,
    /// The search that counts, and the ceiling of the last one that was not cut off.
    all: CountingSearch,
}

/// Makes all searches over these parts of the copies.
fn search_over<'a, E: Sink>(
    alloc: Global,
    copies: &[&'a [u8]],
    parts: Parts<'a>,
    options: SearchOptions,
    faults: &mut E,
) -> Result<SearchedParts<'a>, AllocError>
    requires some { 0 < length copies.now }
    requires short { AreShort (bytes_of copies.now) }
    requires parts { AreParts (bytes_of copies.now) parts }
    ensures parts { IfOk result (λ new. AreParts (bytes_of copies.now) new.parts) }
    ensures counts { IfOk result (λ new. IsCounting options.ceiling new.parts new.all) }
    ensures told { GrewBy (IsTold options.tells) (E.history faults.old) (E.history faults.new) }
{
    parts_can_be_searched();
    let all = search_all(alloc, &parts, options, faults)?;
    Ok(SearchedParts { parts, all })
}

/// Parts of the copies that are cut where these go over from one to another, if such places are found.
fn cut_parts<'a>(
    alloc: Global,
    copies: &[&'a [u8]],
    parts: &Parts<'a>,
    tries: u32,
) -> Result<Option<Parts<'a>>, AllocError>
    ensures { IfOk result (λ cut. IfSome cut (AreParts (bytes_of copies.now))) }
{
    let Some(uncut) = find_cut_parts(alloc, copies, parts, &[])? else {
        return Ok(None);
    };
    let cuts = find_cuts(alloc, &uncut, tries)?;
    if cuts.is_empty() {
        return Ok(None);
    }
    find_cut_parts(alloc, copies, parts, &cuts)
}

/// Other parts of the copies, if these are of one coding, as far as can be told, and there are some. Of several codings nothing is alike,
/// so that all would be cut, and a mix of them is no file.
fn other_parts<'a>(
    alloc: Global,
    copies: &[&'a [u8]],
    parts: &Parts<'a>,
    cutting: Cutting,
    tries: u32,
) -> Result<Option<Parts<'a>>, AllocError>
    ensures { IfOk result (λ others. IfSome others (AreParts (bytes_of copies.now))) }
{
    if !are_of_one_coding(alloc, copies, parts)? {
        return Ok(None);
    }
    match cutting {
        Cutting::Finer => find_finer_parts(alloc, copies, parts),
        Cutting::WhereCopiesGoOver => {
            let uncut = find_parts(alloc, copies)?;
            cut_parts(alloc, copies, &uncut, tries)
        }
    }
}

/// Whether what a search found counts, so that no other parts are searched. Where it was cut off among many fine parts, a few that are cut
/// where copies go over from one to another can tell more.
fn stands(before: &Searched, cutting: Cutting) -> bool {
    if before.splices.is_empty() {
        return false;
    }
    match cutting {
        Cutting::Finer => true,
        Cutting::WhereCopiesGoOver => !before.is_used_up,
    }
}

/// Whether a search found files, and the one before none, or the one before alone was cut off.
fn tells_more(new: &Searched, before: &Searched) -> bool {
    !new.splices.is_empty() && (before.splices.is_empty() || !new.is_used_up)
}

/// Makes all searches over other parts of the copies, unless those before count, and if there are such parts. They count in place of those
/// before if they tell more.
fn search_others<'a, E: Sink>(
    alloc: Global,
    copies: &[&'a [u8]],
    before: SearchedParts<'a>,
    cutting: Cutting,
    options: SearchOptions,
    faults: &mut E,
) -> Result<SearchedParts<'a>, AllocError>
    requires some { 0 < length copies.now }
    requires short { AreShort (bytes_of copies.now) }
    requires parts { AreParts (bytes_of copies.now) before.parts }
    requires counts { IsCounting options.ceiling before.parts before.all }
    ensures parts { IfOk result (λ new. AreParts (bytes_of copies.now) new.parts) }
    ensures counts { IfOk result (λ new. IsCounting options.ceiling new.parts new.all) }
    ensures told { GrewBy (IsTold options.tells) (E.history faults.old) (E.history faults.new) }
{
    if stands(&before.all.searched, cutting) {
        return Ok(before);
    }
    let Some(others) = other_parts(alloc, copies, &before.parts, cutting, options.tries)? else {
        return Ok(before);
    };
    let new = search_over(alloc, copies, others, options, faults)?;
    if tells_more(&new.all.searched, &before.all.searched) {
        return Ok(new);
    }
    Ok(before)
}

/// The parts of copies over which their splices are searched. If the copies surely are of several codings, a mix of their bytes is no
/// file, though it may decode. Then all is one part, so that each copy is tried as it is.
fn parts_to_search<'a>(alloc: Global, copies: &[&'a [u8]]) -> Result<Parts<'a>, AllocError>
    ensures { IfOk result (λ parts. AreParts (bytes_of copies.now) parts) }
{
    let parts = find_parts(alloc, copies)?;
    if are_surely_of_several_codings(alloc, copies, &parts)? {
        return one_part(alloc, copies);
    }
    Ok(parts)
}

/// Finds the parts of copies and makes all searches over them. If these find no file, they are made over finer ones. If these are cut off,
/// or find none either, they are made over parts that are cut where copies go over from one to another.
fn search_copies<'a, E: Sink>(
    alloc: Global,
    copies: &[&'a [u8]],
    options: SearchOptions,
    faults: &mut E,
) -> Result<SearchedParts<'a>, AllocError>
    requires some { 0 < length copies.now }
    requires short { AreShort (bytes_of copies.now) }
    ensures parts { IfOk result (λ new. AreParts (bytes_of copies.now) new.parts) }
    ensures counts { IfOk result (λ new. IsCounting options.ceiling new.parts new.all) }
    ensures told { GrewBy (IsTold options.tells) (E.history faults.old) (E.history faults.new) }
{
    let parts = parts_to_search(alloc, copies)?;
    let first = search_over(alloc, copies, parts, options, faults)?;
    let finer = search_others(alloc, copies, first, Cutting::Finer, options, faults)?;
    let cutting = Cutting::WhereCopiesGoOver;
    search_others(alloc, copies, finer, cutting, options, faults)
}

/// Whether a cut file is sought. It is where the search that counts found nothing, and the copies are of one coding, as far as can be told.
fn seeks_cut(
    alloc: Global,
    copies: &[&[u8]],
    parts: &Parts<'_>,
    all: &CountingSearch,
) -> Result<bool, AllocError> {
    if !all.searched.splices.is_empty() {
        return Ok(false);
    }
    are_of_one_coding(alloc, copies, parts)
}

/// The ceiling under which a cut file is sought: that of the searches. If they have none and found nothing, it may be that of a shallow
/// picture. `Err` comes where memory is refused.
fn ceiling_of_cut(
    alloc: Global,
    parts: &Parts<'_>,
    all: &CountingSearch,
    is_sought: bool,
    tries: u32,
) -> Result<Option<u16>, AllocError>
    requires some_way { AllByRecursion HasSomeWay parts.now }
    requires short { IsShort parts.now }
    ensures { IfOk result (λ ceiling. (ceiling ≡ all.now.cut_ceiling) ⊎ (all.now.cut_ceiling ≡ None)) }
{
    if !is_sought || all.cut_ceiling.is_some() || !all.searched.splices.is_empty() {
        return Ok(all.cut_ceiling);
    }
    shallow_ceiling(alloc, parts, tries)
}

/// Finds the parts of copies and searches their splices, under the ceiling if there is one, with so many tries at most. Where no ceiling is
/// given and that search is cut off, it searches under ceilings in turn, until one of these searches is cut off. The search that counts is
/// the last that was not cut off and found a file, and else the first. Where it was cut off or came to nothing, groups are searched. A cut
/// file is to be sought where it found nothing, unless the copies are of several codings.
///
/// If no search found a file, all are made once more over finer parts. If none of these finds one either, all are made over parts that are
/// cut where the copies go over from one to another. Not all such places may be found. Parts over which a file is found stand in place of
/// the first.
///
/// Copies that surely are of several codings are tried as they are, in one part.
///
/// With `options.tells` each search of whole files prints a line after every 64 tries, and one at its end. A write that fails is ignored.
/// `Err` comes where memory is refused, and where copies are longer than `are_short` of jls_search allows.
pub fn search_and_tell<'a, E: Sink>(
    alloc: Global,
    copies: &[&'a [u8]],
    options: SearchOptions,
    faults: &mut E,
) -> Result<FoundInTurn<'a>, AllocError>
    requires { 0 < length copies.now }
    ensures found { IfOk result (λ found. IsFound found.splices.ceiling (bytes_of copies.now) (found_of found.splices)) }
    ensures splices { IfOk result (λ found. files_of found.splices.parts (lists_of found.splices.splices.items)
        ≡ splices_in (found_of found.splices)) }
    ensures each { IfOk result (λ found.
        AllByRecursion (IsWhole found.splices.parts) (lists_of found.splices.splices.items)) }
    ensures whole { IfOk result (λ found. found.splices.whole ≤ length found.splices.splices.items) }
    ensures some_way { IfOk result (λ found. AllByRecursion HasSomeWay found.splices.parts) }
    ensures short { IfOk result (λ found. IsShort found.splices.parts) }
    ensures small { IfOk result (λ found. length (made 0 found.splices.parts) < 2 ^ 64) }
    ensures of_groups { IfOk result (λ found. IfSome (found_of found.splices).by_groups
        (IsGroupSearch options.tries (length copies.now) found.splices.parts)) }
    ensures ceiling { IfOk result (λ found. KeepsCeiling options.ceiling found.splices.ceiling) }
    ensures cut { IfOk result (λ found. KeepsCeiling options.ceiling found.cut_ceiling) }
    ensures reader { IfOk result (λ found. IfSome found.splices.reader (IsKeptReader found.splices.parts)) }
    ensures told { GrewBy (IsTold options.tells) (E.history faults.old) (E.history faults.new) }
{
    parts_can_be_searched();
    if !are_short(copies) {
        return Err(AllocError);
    }
    let found = search_copies(alloc, copies, options, faults)?;
    let SearchedParts { parts, all } = found;
    let seeks_cut = seeks_cut(alloc, copies, &parts, &all)?;
    let cut_ceiling = ceiling_of_cut(alloc, &parts, &all, seeks_cut, options.tries)?;
    let splices = complete_by_groups(alloc, copies, parts, all.searched, options.tries)?;
    Ok(FoundInTurn {
        splices,
        cut_ceiling,
        seeks_cut,
    })
}
