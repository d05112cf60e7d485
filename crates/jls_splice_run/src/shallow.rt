//! The ceiling of a shallow picture, under which a cut file is sought.

ghost use Rattle.std.specs.Prelude.{◌≡◌, true, None, Some, IfOk, IfSome};
ghost use Rattle.std.specs.List.{AllByRecursion};
ghost use Rattle.jls_diff.specs.PartsOf.{parts_of};
ghost use Rattle.jls_search.specs.Choices.{HasSomeWay};
ghost use Rattle.jls_search.specs.Faultless.{IsSought};
ghost use Rattle.jls_search.specs.Levels.{IsLone};
ghost use Rattle.jls_search.specs.Search.{IsShort};
ghost use Rattle.jls_splice_run.specs.Ceilings.{IsShallowCeiling};

use jls_diff::Parts;
use jls_search::lone_path;
use std::alloc::{AllocError, Global};

/// The ceiling of a shallow picture: one of the ceilings in turn.
const SHALLOW: u16 = 16383;

/// The last of these ceilings.
const LAST: u16 = 46340;

/// Whether two paths are one.
fn are_same(path: &[usize], other: &[usize]) -> bool
    ensures { result ≡ true → path.now ≡ other.now }
{
    *path == *other
}

/// Whether a path has a choice at a part in which the copies differ.
fn has_choice(parts: &Parts<'_>, path: &[usize]) -> bool {
    for place in 0..path.len().min(parts.len()) {
        if parts.is_differ(place) {
            return true;
        }
    }
    false
}

/// The ceiling of a shallow picture, if this path, which is lone under it, is also the one under the last ceiling.
fn ceiling_if_same(
    alloc: Global,
    parts: &Parts<'_>,
    path: &[usize],
    tries: u32,
) -> Result<Option<u16>, AllocError>
    requires some_way { AllByRecursion HasSomeWay parts.now }
    requires short { IsShort parts.now }
    requires lone { IsLone (IsSought (Some 16383)) parts.now path.now }
    ensures { IfOk result (λ ceiling. IfSome ceiling (IsShallowCeiling parts.now)) }
{
    let Some(last) = lone_path(alloc, parts, Some(LAST), tries)? else {
        return Ok(None);
    };
    if !are_same(path, &last) {
        return Ok(None);
    }
    Ok(Some(SHALLOW))
}

/// Whether there is another path than this one, or none.
fn is_other(path: &[usize], other: &Option<Vec<usize>>) -> bool {
    match other {
        Some(other) => !are_same(path, other),
        None => true,
    }
}

/// The ceiling of a shallow picture, if it is one: 16383. It is one if `lone_path` finds a path under this ceiling that goes past a place
/// where the copies differ. That path has to be the one that it finds under 46340, and not the one without a ceiling. Then wrong ways soon
/// have samples above both ceilings, and a cut file without a ceiling has fewer lines, or wrong ones. A picture with larger samples before
/// the cut seldom has one path under both. Each of the three has so many tries. `Err` comes where memory is refused.
pub(crate) fn shallow_ceiling(
    alloc: Global,
    parts: &Parts<'_>,
    tries: u32,
) -> Result<Option<u16>, AllocError>
    requires some_way { AllByRecursion HasSomeWay parts.now }
    requires short { IsShort parts.now }
    ensures { IfOk result (λ ceiling. IfSome ceiling (IsShallowCeiling parts.now)) }
{
    let unlimited = lone_path(alloc, parts, None, tries)?;
    let Some(path) = lone_path(alloc, parts, Some(SHALLOW), tries)? else {
        return Ok(None);
    };
    if !has_choice(parts, &path) || !is_other(&path, &unlimited) {
        return Ok(None);
    }
    ceiling_if_same(alloc, parts, &path, tries)
}
