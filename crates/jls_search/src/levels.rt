//! The levels of the search, and those at which exactly one path lives.

ghost use Rattle.std.specs.Prelude.{◌≡◌, ℕ, List, Option, ◌+◌, ◌-◌, ◌^◌, ◌<◌, ◌≤◌, ◌⊎◌, ◌∷◌, ◌++◌, [], true, None, length, get_or};
ghost use Rattle.std.specs.Prelude.{IsSome, IfOk, IfSome, IfNone, OnOk};
ghost use Rattle.std.specs.List.{AllByRecursion, Contains};
ghost use Rattle.jls_diff.specs.PartsOf.{parts_of};
ghost use Rattle.jls_search.specs.Choices.{HasSomeWay, IsPath, prefix_of};
ghost use Rattle.jls_search.specs.Faultless.{IsDead, IsSought};
ghost use Rattle.jls_search.specs.Search.{IsKeptReader, IsShort, lists_of};
ghost use Rattle.jls_search.specs.Levels.{AreJudged, IsFirstDead, IsLevel, IsLone, IsNextPath, IsPathTaken};

use crate::ceiling::is_above;
use crate::choosing::next_way_at;
use crate::faultless::is_dead;
use crate::kept::{Judge, keep, reader_on};
use crate::living::living_on;
use crate::path::follow;
use crate::setting::Goal;
use crate::trusted::last_trusted;
use jls_diff::Parts;
use std::alloc::{AllocError, Global};

/// How many paths of a level may live.
const MOST_LIVING: usize = 64;

/// A level: all paths that go up to the same part in which the copies differ, or to the end.
#[derive(Drop)]
struct Level {
    /// How many choices each has.
    count: usize,
    /// Those that were not found dead.
    living: Vec<Vec<usize>>,
}

/// A level that is gone through.
#[derive(Drop)]
struct Begun {
    /// The paths so far that were not found dead.
    living: Vec<Vec<usize>>,
    /// How many tries are left.
    left: u32,
}

/// Whether it was found that no file that is sought begins with what the path makes. `false` says nothing.
fn is_found_dead(
    alloc: Global,
    parts: &Parts<'_>,
    judge: &Judge,
    path: &[usize],
) -> Result<bool, AllocError>
    requires kept { IfSome judge.now.kept (IsKeptReader parts.now) }
    requires path { IsPath parts.now path.now }
    requires few { length (prefix_of parts.now path.now) ≤ 2 ^ 63 - 1 }
    ensures { IfOk result
        (λ dead. dead ≡ true → IsDead (IsSought judge.now.ceiling) (prefix_of parts.now path.now)) }
{
    let Some(reader) = living_on(alloc, parts, &judge.kept, path)? else {
        return Ok(true);
    };
    let above = is_above(judge.ceiling, &reader)?;
    if above {
        return Ok(true);
    }
    is_dead(reader)
}

/// Goes on to the next part in which copies differ, or to the end, and judges that path. One that is not found dead is added.
fn take_path(
    alloc: Global,
    parts: &Parts<'_>,
    judge: &Judge,
    begin: Vec<usize>,
    living: &mut Vec<Vec<usize>>,
) -> Result<(), AllocError>
    requires short { IsShort parts.now }
    requires kept { IfSome judge.now.kept (IsKeptReader parts.now) }
    requires path { IsPath parts.now begin.items }
    ensures { OnOk result (IsPathTaken (IsSought judge.now.ceiling) parts.now begin.items
        (lists_of living.old.items) (lists_of living.new.items)) }
{
    let mut path = begin;
    follow(parts, Goal::Whole, &mut path)?;
    let dead = is_found_dead(alloc, parts, judge, &path)?;
    if dead {
        return Ok(());
    }
    living.push(path)?;
    Ok(())
}

/// The path, with one choice more.
pub(crate) fn with_choice(
    alloc: Global,
    path: &[usize],
    choice: usize,
) -> Result<Vec<usize>, AllocError>
    ensures { IfOk result (λ longer. longer.items ≡ path.now ++ choice ∷ []) }
{
    let mut longer: Vec<usize> = path.iter().copied().collect(alloc)?;
    longer.push(choice)?;
    Ok(longer)
}

/// Judges each path of the next level that begins with this one. `false` where tries are used up before, or too many paths live.
fn take_ways(
    alloc: Global,
    parts: &Parts<'_>,
    judge: &Judge,
    path: &[usize],
    begun: &mut Begun,
) -> Result<bool, AllocError>
    requires some_way { AllByRecursion HasSomeWay parts.now }
    requires short { IsShort parts.now }
    requires kept { IfSome judge.now.kept (IsKeptReader parts.now) }
    requires path { IsPath parts.now path.now }
    requires more { length path.now < length parts.now }
    requires each { AllByRecursion (IsNextPath parts.now (length path.now + 1)) (lists_of begun.old.living.items) }
    ensures each { OnOk result (AllByRecursion (IsNextPath parts.now (length path.now + 1)) (lists_of begun.new.living.items)) }
    ensures still { OnOk result ((other : List ℕ) → Contains (lists_of begun.old.living.items) other
        → Contains (lists_of begun.new.living.items) other) }
    ensures judged { IfOk result (λ all. all ≡ true → AreJudged (IsSought judge.now.ceiling) parts.now (length path.now + 1)
        (lists_of begun.new.living.items) path.now) }
    ensures left { OnOk result (begun.new.left ≤ begun.old.left) }
    ensures spent { OnOk result (length (lists_of begun.new.living.items) + begun.new.left
        ≤ length (lists_of begun.old.living.items) + begun.old.left) }
{
    let mut choice = 0;
    'ways: while begun.left > 0 && begun.living.len() <= MOST_LIVING {
        begun.left -= 1;
        let begin = with_choice(alloc, path, choice)?;
        take_path(alloc, parts, judge, begin, &mut begun.living)?;
        match next_way_at(parts, path.len(), choice) {
            Some(way) => choice = way,
            None => return Ok(begun.living.len() <= MOST_LIVING),
        }
    }
    Ok(false)
}

/// The level whose living paths these are, if there are any.
fn level_of(living: Vec<Vec<usize>>) -> Option<Level>
    ensures some { IfSome result (λ level. (lists_of level.living.items ≡ lists_of living.items)
        × (0 < length (lists_of living.items)) × (level.count ≡ length (get_or (lists_of living.items) 0 []))) }
    ensures none { IfNone result (length (lists_of living.items) ≡ 0) }
{
    if living.is_empty() {
        return None;
    }
    let count = living[0].len();
    Some(Level { count, living })
}

/// The first level, if its one path lives: it was not found dead.
fn first_level(alloc: Global, parts: &Parts<'_>, judge: &Judge) -> Result<Option<Level>, AllocError>
    requires short { IsShort parts.now }
    requires kept { IfSome judge.now.kept (IsKeptReader parts.now) }
    ensures level { IfOk result (λ first. IfSome first (λ level.
        IsLevel (IsSought judge.now.ceiling) parts.now level.count (lists_of level.living.items))) }
    ensures one { IfOk result (λ first. IfSome first (λ level. length (lists_of level.living.items) ≡ 1)) }
    ensures dead { IfOk result (λ first. IfNone first (IsFirstDead (IsSought judge.now.ceiling) parts.now)) }
{
    let mut living = Vec::new(alloc);
    take_path(alloc, parts, judge, Vec::new(alloc), &mut living)?;
    Ok(level_of(living))
}

/// The level after this one; `None` where this one is at the end, or no path of that one lives. `None` also comes where that one was not
/// gone through completely: its tries were used up, or too many paths of it live.
fn next_level(
    alloc: Global,
    parts: &Parts<'_>,
    judge: &Judge,
    level: &Level,
    left: &mut u32,
) -> Result<Option<Level>, AllocError>
    requires some_way { AllByRecursion HasSomeWay parts.now }
    requires short { IsShort parts.now }
    requires kept { IfSome judge.now.kept (IsKeptReader parts.now) }
    requires level { IsLevel (IsSought judge.now.ceiling) parts.now level.now.count (lists_of level.now.living.items) }
    ensures level { IfOk result (λ after. IfSome after (λ next.
        IsLevel (IsSought judge.now.ceiling) parts.now next.count (lists_of next.living.items))) }
    ensures left { OnOk result (left.new ≤ left.old) }
    ensures spent { IfOk result (λ after. IfSome after (λ next. length (lists_of next.living.items) + left.new ≤ left.old)) }
{
    if level.count >= parts.len() {
        return Ok(None);
    }
    let mut begun = Begun {
        living: Vec::new(alloc),
        left: *left,
    };
    'paths: for path in &level.living {
        let all = take_ways(alloc, parts, judge, path, &mut begun)?;
        if !all {
            return Ok(None);
        }
    }
    *left = begun.left;
    Ok(level_of(begun.living))
}

/// Notes the path of a level, if exactly one lives there, and keeps its reader. The one that was kept before is let go only for that.
fn note_lone(
    alloc: Global,
    parts: &Parts<'_>,
    judge: &mut Judge,
    level: &Level,
    lone: &mut Vec<Vec<usize>>,
) -> Result<(), AllocError>
    requires short { IsShort parts.now }
    requires kept { IfSome judge.old.kept (IsKeptReader parts.now) }
    requires level { IsLevel (IsSought judge.old.ceiling) parts.now level.now.count (lists_of level.now.living.items) }
    requires lone { AllByRecursion (IsLone (IsSought judge.old.ceiling) parts.now) (lists_of lone.old.items) }
    ensures kept { OnOk result (IfSome judge.new.kept (IsKeptReader parts.now)) }
    ensures ceiling { judge.new.ceiling ≡ judge.old.ceiling }
    ensures lone { OnOk result (AllByRecursion (IsLone (IsSought judge.old.ceiling) parts.now) (lists_of lone.new.items)) }
    ensures noted { OnOk result (length (lists_of level.now.living.items) ≡ 1 → 0 < length (lists_of lone.new.items)) }
    ensures still { OnOk result (0 < length (lists_of lone.old.items) → 0 < length (lists_of lone.new.items)) }
{
    if level.living.len() != 1 {
        return Ok(());
    }
    let path: &[usize] = &level.living[0];
    let reader = reader_on(alloc, parts, &judge.kept, path)?;
    keep(alloc, &mut judge.kept, Some(reader), path)?;
    let choices: Vec<usize> = path.iter().copied().collect(alloc)?;
    lone.push(choices)?;
    Ok(())
}

/// The paths of the levels at which exactly one path lives, the shortest first: each begins the next one. A path lives unless it was found
/// that no file that is sought begins with what it makes. `ceiling` is the greatest sample that such a file may have, if there is one.
///
/// Levels are gone through in turn. Each path that is judged counts as a try. The search stops at the end of the parts, and where no path
/// of a level lives. It also stops within a level, where so many tries are used up or more than 64 paths live. Such a level doesn't count.
///
/// The first level has one path: what all copies have alike, up to the first part in which they differ. So there are none only where no
/// file that is sought begins so, or no try is allowed.
///
/// `Err` comes where memory is refused.
fn lone_paths(
    alloc: Global,
    parts: &Parts<'_>,
    ceiling: Option<u16>,
    most_tries: u32,
) -> Result<Vec<Vec<usize>>, AllocError>
    requires some_way { AllByRecursion HasSomeWay parts.now }
    requires short { IsShort parts.now }
    ensures lone { IfOk result (λ found. AllByRecursion (IsLone (IsSought ceiling) parts.now) (lists_of found.items)) }
    ensures some { IfOk result
        (λ found. (most_tries ≡ 0) ⊎ IsFirstDead (IsSought ceiling) parts.now ⊎ (0 < length (lists_of found.items))) }
    ensures untried { most_tries ≡ 0 → IfOk result (λ found. lists_of found.items ≡ []) }
{
    let mut lone = Vec::new(alloc);
    if most_tries == 0 {
        return Ok(lone);
    }
    let mut judge = Judge {
        ceiling,
        begin: None,
        kept: None,
        found: None,
    };
    let mut left = most_tries - 1;
    let Some(mut level) = first_level(alloc, parts, &judge)? else {
        return Ok(lone);
    };
    note_lone(alloc, parts, &mut judge, &level, &mut lone)?;
    'levels: for _ in 0..parts.len() {
        let Some(next) = next_level(alloc, parts, &judge, &level, &mut left)? else {
            break;
        };
        level = next;
        note_lone(alloc, parts, &mut judge, &level, &mut lone)?;
    }
    Ok(lone)
}

/// The path at a place of these, or the last, if there is one.
fn path_at(mut paths: Vec<Vec<usize>>, place: usize) -> Option<Vec<usize>>
    ensures some { IfSome result (λ path. Contains (lists_of paths.items) path.items) }
    ensures none { IfNone result (lists_of paths.items ≡ []) }
{
    let last = paths.len().checked_sub(1)?;
    Some(paths.swap_remove(place.min(last)))
}

/// The path of the last level at which exactly one path lives. Levels are gone through in turn. A path lives unless it was found that no
/// file that is sought begins with what it makes. `ceiling` is the greatest sample that such a file may have, if there is one.
///
/// Each path that is judged counts as a try. The search stops at the end of the parts, and where no path of a level lives. It also stops
/// within a level, where so many tries are used up or more than 64 paths live. Such a level doesn't count.
///
/// `None` comes only where no try is allowed, or where no file that is sought begins as all copies do before they differ. `Err` comes where
/// memory is refused.
pub fn lone_path(
    alloc: Global,
    parts: &Parts<'_>,
    ceiling: Option<u16>,
    most_tries: u32,
) -> Result<Option<Vec<usize>>, AllocError>
    requires some_way { AllByRecursion HasSomeWay parts.now }
    requires short { IsShort parts.now }
    ensures lone { IfOk result (λ found. IfSome found (λ path. IsLone (IsSought ceiling) parts.now path.items)) }
    ensures some { IfOk result (λ found. IfNone found ((most_tries ≡ 0) ⊎ IsFirstDead (IsSought ceiling) parts.now)) }
    ensures untried { most_tries ≡ 0 → IfOk result (λ found. found ≡ None) }
{
    let paths = lone_paths(alloc, parts, ceiling, most_tries)?;
    let last = paths.len();
    Ok(path_at(paths, last))
}

/// The path of the last level at which exactly one path lives and is trusted. If none is, it is that of the first whose path goes into scan
/// data. A path is trusted if it goes on behind its last choice for so long that wrong bytes hardly would. Levels, tries and the answers
/// are as for `lone_path`.
pub fn trusted_path(
    alloc: Global,
    parts: &Parts<'_>,
    ceiling: Option<u16>,
    most_tries: u32,
) -> Result<Option<Vec<usize>>, AllocError>
    requires some_way { AllByRecursion HasSomeWay parts.now }
    requires short { IsShort parts.now }
    ensures lone { IfOk result (λ found. IfSome found (λ path. IsLone (IsSought ceiling) parts.now path.items)) }
    ensures some { IfOk result (λ found. IfNone found ((most_tries ≡ 0) ⊎ IsFirstDead (IsSought ceiling) parts.now)) }
    ensures untried { most_tries ≡ 0 → IfOk result (λ found. found ≡ None) }
{
    let paths = lone_paths(alloc, parts, ceiling, most_tries)?;
    let trusted = last_trusted(alloc, parts, ceiling, &paths)?;
    Ok(path_at(paths, trusted))
}
