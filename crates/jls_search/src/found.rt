//! What is found in some copies by both searches.

ghost use Rattle.std.specs.Prelude.{◌≡◌, ◌≢◌, ◌<◌, ◌≤◌, ◌⊎◌, true, false, length, IfOk, IfSome};
ghost use Rattle.std.specs.List.{AllByRecursion};
ghost use Rattle.jls_diff.specs.Parts.{AreParts};
ghost use Rattle.jls_diff.specs.PartsOf.{bytes_of, parts_of};
ghost use Rattle.jls_search.specs.Choices.{IsWhole};
ghost use Rattle.jls_search.specs.Faultless.{IsSought};
ghost use Rattle.jls_search.specs.Search.{CameTo, files_of, lists_of};
ghost use Rattle.jls_search.specs.SearchLaws.{AreShort};
ghost use Rattle.jls_search.specs.Found.{IsFound, IsGroupSearch, found_of, splices_in};

use crate::group_search::{SearchedGroups, search_groups};
use crate::kept::KeptReader;
use crate::whole_search::Searched;
use jls_diff::Parts;
use std::alloc::{AllocError, Global};

/// What is reported of a search by groups.
#[derive(Clone, Copy, Debug, PartialEq, Eq)]
pub struct GroupsReported {
    /// How many groups there are.
    pub groups: usize,
    /// How many prefixes and files were tried in all of them, or the greatest number of 32 bits.
    pub tries: u32,
    /// Whether the search was cut off.
    pub is_used_up: bool,
}

/// The parts of some copies, and the splices that were found.
#[derive(Drop)]
pub struct FoundSplices<'a> {
    /// The parts that were found.
    pub parts: Parts<'a>,
    /// The splices, each as its choices, one for each part: those of the search of all, and after them those that groups gave.
    pub splices: Vec<Vec<usize>>,
    /// A reader that was fed what its choices make, if one is kept.
    pub reader: Option<KeptReader>,
    /// How many of them the search of all came to.
    pub whole: usize,
    /// The greatest sample that the files may have that the search of all sought, if there was a ceiling.
    pub ceiling: Option<u16>,
    /// How many prefixes and files the search of all tried.
    pub tries: u32,
    /// Whether the search of all was cut off.
    pub is_used_up: bool,
    /// What is reported of the search by groups, if there was one.
    pub by_groups: Option<GroupsReported>,
}

/// Whether groups are searched, where the search of all splices was cut off or was not, and came to `whole` splices.
fn wants_groups(is_used_up: bool, whole: usize) -> bool
    ensures yes { result ≡ true → (is_used_up ≡ true) ⊎ (whole ≡ 0) }
    ensures no { result ≡ false → (is_used_up ≡ false) × (whole ≢ 0) }
{
    is_used_up || whole == 0
}

/// What is reported of a search by groups.
fn reported_of(by: &SearchedGroups) -> GroupsReported
    ensures groups { result.groups ≡ length by.now.groups.items }
    ensures tries { result.tries ≡ by.now.searched.tries }
    ensures is_used_up { result.is_used_up ≡ by.now.searched.is_used_up }
{
    GroupsReported {
        groups: by.groups.len(),
        tries: by.searched.tries,
        is_used_up: by.searched.is_used_up,
    }
}

/// The splices that groups gave.
fn splices_given(by: SearchedGroups) -> Vec<Vec<usize>>
    ensures { result ≡ by.searched.splices }
{
    let SearchedGroups { searched, .. } = by;
    let Searched { splices, .. } = searched;
    splices
}

/// What the search of all splices found, and what groups give where it was cut off or came to nothing. There each group has its own tries,
/// so many at most. `Err` comes where memory is refused.
pub fn complete_by_groups<'a>(
    alloc: Global,
    copies: &[&'a [u8]],
    parts: Parts<'a>,
    searched: Searched,
    most_tries: u32,
) -> Result<FoundSplices<'a>, AllocError>
    requires some_copy { 0 < length copies.now }
    requires short { AreShort (bytes_of copies.now) }
    requires parts { AreParts (bytes_of copies.now) parts }
    requires searched { CameTo (IsSought searched.ceiling) parts (lists_of searched.splices.items) searched.is_used_up }
    ensures found { IfOk result (λ more. IsFound searched.ceiling (bytes_of copies.now) (found_of more)) }
    ensures ceiling { IfOk result (λ more. more.ceiling ≡ searched.ceiling) }
    ensures reader { IfOk result (λ more. more.reader ≡ searched.reader) }
    ensures parts_kept { IfOk result (λ more. more.parts ≡ parts.entry) }
    ensures tries { IfOk result (λ more. more.tries ≡ searched.tries) }
    ensures used_up { IfOk result (λ more. more.is_used_up ≡ searched.is_used_up) }
    ensures kept { IfOk result (λ more. (found_of more).choices ≡ lists_of searched.splices.items) }
    ensures splices { IfOk result
        (λ more. files_of more.parts (lists_of more.splices.items) ≡ splices_in (found_of more)) }
    ensures each { IfOk result (λ more. AllByRecursion (IsWhole more.parts) (lists_of more.splices.items)) }
    ensures whole { IfOk result (λ more. more.whole ≤ length more.splices.items) }
    ensures by_groups { IfOk result
        (λ more. IfSome (found_of more).by_groups (IsGroupSearch most_tries (length copies.now) more.parts)) }
{
    let Searched {
        ceiling,
        splices,
        reader,
        tries,
        is_used_up,
    } = searched;
    let whole = splices.len();
    let wants = wants_groups(is_used_up, whole);
    let mut found = FoundSplices {
        parts,
        splices,
        reader,
        whole,
        ceiling,
        tries,
        is_used_up,
        by_groups: None,
    };
    if !wants {
        return Ok(found);
    }
    let by = search_groups(alloc, copies, &found.parts, most_tries)?;
    let reported = reported_of(&by);
    let mut given = splices_given(by);
    found.splices.append(&mut given)?;
    found.by_groups = Some(reported);
    Ok(found)
}
