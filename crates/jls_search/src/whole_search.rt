//! The whole search.

ghost use Rattle.std.specs.Prelude.{◌≡◌, ◌≤◌, ◌⊎◌, true, false, length, IfOk, IfSome};
ghost use Rattle.std.specs.List.{AllByRecursion};
ghost use Rattle.jls_diff.specs.PartsOf.{parts_of};
ghost use Rattle.jls_search.specs.Choices.{HasSomeWay};
ghost use Rattle.jls_search.specs.Faultless.{IsSought};
ghost use Rattle.jls_search.specs.Search.{HasEachSplice, IsKeptReader, IsShort, MakeFiles, WereTried, files_of, lists_of};

use crate::kept::KeptReader;
use crate::searching::Search;
use jls_diff::Parts;
use std::alloc::{AllocError, Global};

/// How many splices a search finds at most.
pub const MOST_FOUND: usize = 64;

/// What a search came to.
#[derive(Drop)]
pub struct Searched {
    /// The greatest sample that a file may have that was sought, if there is a ceiling.
    pub ceiling: Option<u16>,
    /// The splices that were sought and found, each as its choices, one for each part.
    pub splices: Vec<Vec<usize>>,
    /// A reader that was fed what its choices make, if one is kept.
    pub reader: Option<KeptReader>,
    /// How many prefixes and files were tried.
    pub tries: u32,
    /// Whether the search ended before it had come to all splices.
    pub is_used_up: bool,
}

/// Searches the splices of some copies for files without a fault, as `Search` does. Their samples are at most the ceiling, if there is one.
///
/// Parts of short copies are as it requires them (`parts_can_be_searched`).
///
/// `is_used_up` says that the search ended with its tries, or with its 64th file, while there was more to try. `Err` comes where memory is
/// refused.
pub fn search(
    alloc: Global,
    parts: &Parts<'_>,
    ceiling: Option<u16>,
    most_tries: u32,
) -> Result<Searched, AllocError>
    requires some_way { AllByRecursion HasSomeWay parts.now }
    requires short { IsShort parts.now }
    ensures ceiling { IfOk result (λ searched. searched.ceiling ≡ ceiling) }
    ensures files { IfOk result (λ searched. MakeFiles (IsSought ceiling) parts.now (lists_of searched.splices.items)) }
    ensures all { IfOk result (λ searched. searched.is_used_up ≡ false
        → HasEachSplice (IsSought ceiling) parts.now (files_of parts.now (lists_of searched.splices.items))) }
    ensures used_up { IfOk result
        (λ searched. searched.is_used_up ≡ true → (searched.tries ≡ most_tries) ⊎ (length searched.splices.items ≡ 64)) }
    ensures few { IfOk result (λ searched. (searched.tries ≤ most_tries) × (length searched.splices.items ≤ 64)) }
    ensures tried { IfOk result (λ searched. WereTried ceiling parts.now searched.tries (lists_of searched.splices.items)
        searched.is_used_up) }
    ensures reader { IfOk result (λ searched. IfSome searched.reader (IsKeptReader parts.now)) }
{
    let mut begun = Search::begin(alloc, parts, ceiling)?;
    begun.go_on(alloc, parts, most_tries)?;
    Ok(begun.into_searched())
}
