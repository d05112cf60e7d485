//! The search by groups.

ghost use Rattle.std.specs.Prelude.{◌≡◌, List, ◌+◌, ◌<◌, ◌≤◌, ◌||◌, min, length, None, IfOk, IfSome};
ghost use Rattle.std.specs.List.{AllByRecursion};
ghost use Rattle.jls_diff.specs.Parts.{AreParts, HasWays, Part};
ghost use Rattle.jls_diff.specs.PartsOf.{bytes_of, parts_of};
ghost use Rattle.jls_search.specs.SearchLaws.{AreShort};
ghost use Rattle.jls_search.specs.Search.{AreEachKept, IsAt, IsKeptReader, IsShort, lists_of};
ghost use Rattle.jls_diff.specs.Groups.{CoverParts, IsGroup};
ghost use Rattle.jls_search.specs.OfGroups.{AreOfGroups, IsOfGroup, IsOnce, IsSetting};
ghost use Rattle.jls_search.specs.GroupTries.{AreGroupsSearched, GoesThrough, GoesThroughCopies, IsGroupBegun};

use crate::kept::{Judge, KeptReader};
use crate::laws::parts_can_be_searched;
use crate::order::groups_in_order;
use crate::path::follow;
use crate::searching::Search;
use crate::setting::{Goal, Setting};
use crate::whole_search::{MOST_FOUND, Searched};
use jls_diff::{Group, Parts, find_groups};
use std::alloc::{AllocError, Global};

/// What a search by groups came to.
#[derive(Drop)]
pub(crate) struct SearchedGroups {
    /// The groups, in the order of the file.
    pub(crate) groups: Vec<Group>,
    /// The splices that read in one of them, and whether the search was cut off.
    pub(crate) searched: Searched,
}

/// How many splices a search by groups finds at most, of all groups.
pub(crate) const MOST_BY_GROUPS: usize = 4096;

/// How many copies there are, and how often each group is tried at most.
#[derive(Clone, Copy)]
struct Extent {
    copies: usize,
    most_tries: u32,
}

/// How many splices there are at most when one copy more was gone through after so many.
fn most_after(found: usize) -> usize
    requires { found ≤ 4096 }
    ensures { result ≡ min (found + 64) 4096 }
{
    (found + MOST_FOUND).min(MOST_BY_GROUPS)
}

/// What was found so far, and a reader that may serve where the next group is searched with the same copy.
#[derive(Drop)]
struct Gone {
    searched: Searched,
    kept: Option<KeptReader>,
}

/// What was found so far, and for each copy such a reader. The first is that of the copy whose turn it is.
#[derive(Drop)]
struct GoneThrough {
    searched: Searched,
    kept: Vec<Option<KeptReader>>,
}

/// Goes on with one group, with one copy outside of it.
fn search_setting(
    alloc: Global,
    parts: &Parts<'_>,
    setting: Setting,
    most_tries: u32,
    gone: Gone,
) -> Result<Gone, AllocError>
    requires setting { IsSetting parts.now setting }
    requires short { IsShort parts.now }
    requires splices { AreOfGroups parts.now (lists_of gone.searched.splices.items) }
    requires few { (gone.searched.tries ≤ most_tries) × (length gone.searched.splices.items ≤ 4096) }
    requires kept { IfSome gone.kept (IsKeptReader parts.now) }
    ensures splices { IfOk result (λ more. AreOfGroups parts.now (lists_of more.searched.splices.items)) }
    ensures goes { IfOk result (λ more. GoesThrough most_tries parts.now setting gone.searched more.searched) }
    ensures kept { IfOk result (λ more. IfSome more.kept (IsKeptReader parts.now)) }
{
    let Gone { searched, kept } = gone;
    let is_cut = searched.is_used_up;
    let mut search = begin(alloc, parts, setting, searched, kept)?;
    search.run(alloc, parts, most_tries)?;
    Ok(went(search, is_cut))
}

/// A search of a group that goes on from what was found so far.
fn begin(
    alloc: Global,
    parts: &Parts<'_>,
    setting: Setting,
    searched: Searched,
    kept: Option<KeptReader>,
) -> Result<Search, AllocError>
    requires setting { IsSetting parts.now setting }
    requires splices { AreOfGroups parts.now (lists_of searched.splices.items) }
    requires few { length searched.splices.items ≤ 4096 }
    requires kept { IfSome kept (IsKeptReader parts.now) }
    ensures stands { IfOk result (λ begun. IsAt parts.now begun) }
    ensures untried { IfOk result (λ begun. IsGroupBegun setting searched begun) }
{
    let Searched { splices, tries, .. } = searched;
    let most = most_after(splices.len());
    let mut path = Vec::new(alloc);
    follow(parts, Goal::Group(setting), &mut path)?;
    Ok(Search {
        goal: Goal::Group(setting),
        most,
        splices,
        tries,
        goes_on: true,
        path,
        judge: Judge {
            ceiling: None,
            begin: kept,
            kept: None,
            found: None,
        },
    })
}

/// What the search of a group came to. It was cut off where there is more to try, or another was before.
fn went(search: Search, was_cut: bool) -> Gone
    ensures searched { result.searched ≡ record {
      ceiling = None;
      splices = search.splices;
      reader = None;
      tries = search.tries;
      is_used_up = search.goes_on || was_cut;
    } }
    ensures kept { result.kept ≡ search.judge.begin }
{
    let Search {
        splices,
        tries,
        goes_on,
        judge,
        ..
    } = search;
    let Judge { begin, .. } = judge;
    Gone {
        searched: Searched {
            ceiling: None,
            splices,
            reader: None,
            tries,
            is_used_up: goes_on || was_cut,
        },
        kept: begin,
    }
}

/// The first of these readers, which is taken out.
fn take_first(readers: &mut Vec<Option<KeptReader>>) -> Option<KeptReader>
    ensures { (parts : List Part) → AreEachKept parts readers.old.items
        → IfSome result (IsKeptReader parts) × AreEachKept parts readers.new.items }
{
    if readers.is_empty() {
        return None;
    }
    readers.remove(0)
}

/// Goes on with one group, which was not tried, with each copy outside of it.
fn search_group(
    alloc: Global,
    parts: &Parts<'_>,
    group: Group,
    extent: Extent,
    gone: GoneThrough,
) -> Result<GoneThrough, AllocError>
    requires ways { AllByRecursion (HasWays extent.copies) parts.now }
    requires group { IsGroup parts.now group }
    requires short { IsShort parts.now }
    requires splices { AreOfGroups parts.now (lists_of gone.searched.splices.items) }
    requires untried { gone.searched.tries ≡ 0 }
    requires few { length gone.searched.splices.items ≤ 4096 }
    requires kept { AreEachKept parts.now gone.kept.items }
    ensures splices { IfOk result (λ more. AreOfGroups parts.now (lists_of more.searched.splices.items)) }
    ensures goes { IfOk result
        (λ more. GoesThroughCopies extent.most_tries extent.copies parts.now group gone.searched more.searched) }
    ensures kept { IfOk result (λ more. AreEachKept parts.now more.kept.items) }
{
    let GoneThrough {
        mut searched,
        mut kept,
    } = gone;
    for copy in 0..extent.copies {
        let setting = Setting { group, copy };
        let begin = take_first(&mut kept);
        let more = search_setting(
            alloc,
            parts,
            setting,
            extent.most_tries,
            Gone {
                searched,
                kept: begin,
            },
        )?;
        searched = more.searched;
        kept.push(more.kept)?;
    }
    Ok(GoneThrough { searched, kept })
}

/// No reader for each of so many copies.
fn no_readers(alloc: Global, copies: usize) -> Result<Vec<Option<KeptReader>>, AllocError>
    ensures { (parts : List Part) → IfOk result (λ readers. AreEachKept parts readers.items) }
{
    let mut readers = Vec::new(alloc);
    for _ in 0..copies {
        readers.push(None)?;
    }
    Ok(readers)
}

/// Searches these groups in turn. Each is tried anew.
fn search_in_turn(
    alloc: Global,
    parts: &Parts<'_>,
    groups: &[Group],
    extent: Extent,
) -> Result<Searched, AllocError>
    requires ways { AllByRecursion (HasWays extent.copies) parts.now }
    requires groups { AllByRecursion (IsGroup parts.now) groups.now }
    requires short { IsShort parts.now }
    ensures splices { IfOk result (λ searched. AreOfGroups parts.now (lists_of searched.splices.items)) }
    ensures searched { IfOk result (λ searched. AreGroupsSearched extent.most_tries extent.copies parts.now groups.now
        searched.tries (lists_of searched.splices.items) searched.is_used_up) }
{
    let mut kept = no_readers(alloc, extent.copies)?;
    let mut searched = Searched {
        ceiling: None,
        splices: Vec::new(alloc),
        reader: None,
        tries: 0,
        is_used_up: false,
    };
    for group in groups {
        let before = searched.tries;
        searched.tries = 0;
        let more = search_group(alloc, parts, *group, extent, GoneThrough { searched, kept })?;
        searched = more.searched;
        kept = more.kept;
        searched.tries = before.saturating_add(searched.tries);
    }
    Ok(searched)
}

/// Searches the splices of some copies by groups (`find_groups`). For each group and each copy it tries those that have the copy's ways
/// outside of the group. It takes those that read in the group, each once. Groups in which no copy reads come first, if all groups together
/// could give more splices than are found at most.
///
/// In a group the search goes depth first, part by part: ways in the order of the copies, those with equal bytes once. A prefix is given
/// up before a part of the group. There the piece in hand begins in the group, or the group begins in it, and it is broken. Or the file has
/// ended there, before the group, or without reading in it.
///
/// Each prefix and each file that is tried counts. The reading of the copies, which orders the groups, does not. Each group may be tried
/// `most_tries` times, with all copies together. A group with one copy gives 64 files at most, and all groups 4,096.
///
/// Where the search of a group with a copy wasn't cut off, each splice that reads so was found, or was passed by. It is passed by where
/// some prefix of it is given up, or it has more than 4,096 faulty pieces.
///
/// `is_used_up` says that the search of some group ended while there was more to try. Its tries were used up, or so many files were found.
/// `tries` is what was tried in all groups, or the greatest number of its type. `Err` comes where memory is refused.
pub(crate) fn search_groups(
    alloc: Global,
    copies: &[&[u8]],
    parts: &Parts<'_>,
    most_tries: u32,
) -> Result<SearchedGroups, AllocError>
    requires some_copy { 0 < length copies.now }
    requires short { AreShort (bytes_of copies.now) }
    requires parts { AreParts (bytes_of copies.now) parts.now }
    ensures groups { IfOk result (λ found. AllByRecursion (IsGroup parts.now) found.groups.items) }
    ensures cover { IfOk result (λ found. CoverParts parts.now found.groups.items) }
    ensures splices { IfOk result (λ found. AllByRecursion (IsOfGroup parts.now) (lists_of found.searched.splices.items)) }
    ensures once { IfOk result (λ found. IsOnce (lists_of found.searched.splices.items)) }
    ensures searched { IfOk result (λ found. AreGroupsSearched most_tries (length copies.now) parts.now found.groups.items
        found.searched.tries (lists_of found.searched.splices.items) found.searched.is_used_up) }
{
    parts_can_be_searched();
    let groups = find_groups(alloc, parts)?;
    let ordered = groups_in_order(alloc, parts, copies.len(), &groups)?;
    let extent = Extent {
        copies: copies.len(),
        most_tries,
    };
    let searched = search_in_turn(alloc, parts, &ordered, extent)?;
    Ok(SearchedGroups { groups, searched })
}
