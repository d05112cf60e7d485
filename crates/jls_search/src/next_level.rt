//! The next level of a search level by level: what its paths that live go on to. Each has a reader of its own.

ghost use Rattle.std.specs.Prelude.{◌≡◌, ℕ, List, ◌+◌, ◌-◌, ◌^◌, ◌<◌, ◌≤◌, ◌++◌, ◌∷◌, [], false, length, get_or, Some};
ghost use Rattle.std.specs.Prelude.{IfOk, IfSome, IfNone, OnOk};
ghost use Rattle.std.specs.List.{AllByRecursion};
ghost use Rattle.jls_diff.specs.Parts.{Part as SpecPart, Same};
ghost use Rattle.jls_diff.specs.PartsOf.{parts_of};
ghost use Rattle.jls_search.specs.Choices.{HasSomeWay, IsFirstWay, IsPath, prefix_of};
ghost use Rattle.jls_search.specs.Faultless.{IsDead, IsSought};
ghost use Rattle.jls_search.specs.LevelSearches.{AreGoneOn, IsLiving, IsNextStop, IsReadTo, IsTaken, paths_of, WentOn};
ghost use Rattle.jls_search.specs.Search.{IsKeptReader, IsShort};

use crate::backing::{backing_at, place_for, ways_at, weakest};
use crate::ceiling::is_above;
use crate::choosing::{is_same_at, next_way_at};
use crate::faultless::is_found_dead;
use crate::kept::{KeptReader, begun_from};
use crate::levels::with_choice;
use crate::living::living_from;
use crate::path::follow;
use crate::saving::{Saving, saving_on};
use crate::setting::Goal;
use jls_copy::WideReader;
use jls_diff::Parts;
use std::alloc::{AllocError, Global};

/// How many paths of a level live at most.
const MOST_LIVING: usize = 64;

/// How many may live at least, where paths are let go.
const LEAST_LIVING: usize = 4;

/// What a search level by level goes by.
#[derive(Clone, Copy)]
pub struct LevelRules {
    /// The greatest sample that a file may have that is sought, if there is a ceiling.
    pub ceiling: Option<u16>,
    /// How many ways are judged at most.
    pub tries: u32,
    /// Whether a path is let go where too many live. Else the search is given up there.
    pub lets_go: bool,
}

/// A path that was not found dead.
#[derive(Drop)]
pub struct LivingPath {
    /// The path, and a reader that was fed what it makes.
    pub kept: KeptReader,
    /// How many copies have its ways, summed over the parts in which copies differ.
    pub backing: u64,
    /// What is saved on its lines, in a search that may let paths go.
    pub saving: Option<Saving>,
}

/// A level that is gone on to.
#[derive(Drop)]
pub(crate) struct NextLevel {
    /// Its paths so far that were not found dead.
    pub(crate) living: Vec<LivingPath>,
    /// How many of its paths may live.
    pub(crate) most_living: usize,
    /// How many ways were judged in all.
    pub(crate) tries: u32,
    /// Whether a way was passed over, or a path let go.
    pub(crate) is_used_up: bool,
    /// Whether the search is given up.
    pub(crate) is_given_up: bool,
}

/// How many ways each path has from this place on, if it were gone on from at each part. Those with equal bytes are counted once.
fn ways_from(parts: &Parts<'_>, from: usize) -> usize {
    let mut count: usize = 0;
    for place in from..parts.len() {
        count = count.saturating_add(ways_at(parts, place));
    }
    count
}

/// How many paths of the next level may live. Where paths are let go, that is as many as the tries that are left can go on from to the end.
pub(crate) fn most_living(parts: &Parts<'_>, rules: LevelRules, count: usize, tries: u32) -> usize {
    if !rules.lets_go {
        return MOST_LIVING;
    }
    let left = rules.tries.saturating_sub(tries) as usize;
    let each = ways_from(parts, count);
    left.checked_div(each)
        .unwrap_or(MOST_LIVING)
        .clamp(LEAST_LIVING, MOST_LIVING)
}

/// The next part from this place on in which copies differ, or the end.
pub(crate) fn next_stop(parts: &Parts<'_>, from: usize) -> usize
    requires { from ≤ length parts.now }
    ensures { IsNextStop parts.now from result }
{
    let mut stop = from;
    while stop < parts.len() && is_same_at(parts, stop) {
        stop += 1;
    }
    stop
}

/// A reader that was fed what the path makes. It goes on from the kept one, where that has its first choices. `None` comes where no file
/// that is sought begins so.
fn living_reader(
    alloc: Global,
    parts: &Parts<'_>,
    ceiling: Option<u16>,
    from: &KeptReader,
    path: &[usize],
) -> Result<Option<WideReader>, AllocError>
    requires kept { IsKeptReader parts.now from.now }
    requires path { IsPath parts.now path.now }
    requires few { length (prefix_of parts.now path.now) ≤ 2 ^ 63 - 1 }
    ensures living { IfOk result (λ fed. IfSome fed (λ reader. reader ≡ Some (prefix_of parts.now path.now))) }
    ensures dead { IfOk result (λ fed. IfNone fed (IsDead (IsSought ceiling) (prefix_of parts.now path.now))) }
{
    let begun = begun_from(alloc, from, path)?;
    let Some(reader) = living_from(begun, parts, path)? else {
        return Ok(None);
    };
    let above = is_above(ceiling, &reader)?;
    if above {
        return Ok(None);
    }
    let dead = is_found_dead(&reader)?;
    if dead {
        return Ok(None);
    }
    Ok(Some(reader))
}

/// Goes on from these choices to the next part in which copies differ, or to the end, and judges that path. One that is not found dead is
/// added.
pub(crate) fn take_path(
    alloc: Global,
    parts: &Parts<'_>,
    ceiling: Option<u16>,
    from: &LivingPath,
    begin: Vec<usize>,
    living: &mut Vec<LivingPath>,
) -> Result<(), AllocError>
    requires short { IsShort parts.now }
    requires kept { IsKeptReader parts.now from.now.kept }
    requires path { IsPath parts.now begin.items }
    ensures taken { OnOk result (IsTaken (IsSought ceiling) parts.now begin.items (paths_of living.old.items) (paths_of living.new.items)) }
    ensures each { AllByRecursion (IsLiving parts.now (length begin.items)) living.old.items
        → OnOk result (AllByRecursion (IsLiving parts.now (length begin.items)) living.new.items) }
{
    let count = from.kept.choices.len();
    let mut path = begin;
    follow(parts, Goal::Whole, &mut path)?;
    let fed = living_reader(alloc, parts, ceiling, &from.kept, &path)?;
    let Some(reader) = fed else {
        return Ok(());
    };
    let saving = saving_on(&from.saving, &reader)?;
    let backing = backing_on(parts, from, &path);
    let place = place_for(living, &path, backing, count);
    let kept = KeptReader {
        reader,
        choices: path,
    };
    living.insert(
        place,
        LivingPath {
            kept,
            backing,
            saving,
        },
    )?;
    Ok(())
}

/// How many copies have the ways of a path that goes on from another, summed over the parts.
fn backing_on(parts: &Parts<'_>, from: &LivingPath, path: &[usize]) -> u64 {
    let place = from.kept.choices.len();
    match path.get(place) {
        Some(choice) if place < parts.len() => {
            from.backing
                .saturating_add(backing_at(parts, place, *choice))
        }
        _ => from.backing,
    }
}

/// Lets a path go, or gives up, where too many live.
fn make_room(lets_go: bool, next: &mut NextLevel)
    ensures each { (parts : List SpecPart) → (from : ℕ) → AllByRecursion (IsLiving parts from) next.old.living.items
        → AllByRecursion (IsLiving parts from) next.new.living.items }
    ensures all { next.new.is_used_up ≡ false → next.new ≡ next.old }
    ensures tries { next.new.tries ≡ next.old.tries }
{
    if next.living.len() <= next.most_living {
        return;
    }
    next.is_used_up = true;
    if lets_go {
        let place = weakest(&next.living);
        let _ = next.living.remove(place);
    } else {
        next.is_given_up = true;
    }
}

/// Judges one path of the next level: that which goes on from a living one with this choice.
fn take_way(
    alloc: Global,
    parts: &Parts<'_>,
    rules: LevelRules,
    from: &LivingPath,
    choice: usize,
    next: &mut NextLevel,
) -> Result<(), AllocError>
    requires short { IsShort parts.now }
    requires kept { IsKeptReader parts.now from.now.kept }
    requires path { IsPath parts.now from.now.kept.choices.items }
    requires more { length from.now.kept.choices.items < length parts.now }
    requires first { IsFirstWay (get_or parts.now (length from.now.kept.choices.items) (Same [])) choice }
    requires each { AllByRecursion (IsLiving parts.now (length from.now.kept.choices.items + 1)) next.old.living.items }
    ensures each { OnOk result (AllByRecursion (IsLiving parts.now (length from.now.kept.choices.items + 1)) next.new.living.items) }
    ensures before { OnOk result (next.new.is_used_up ≡ false → next.old.is_used_up ≡ false) }
    ensures tries { OnOk result (next.new.tries ≡ next.old.tries) }
    ensures taken { OnOk result (next.new.is_used_up ≡ false → IsTaken (IsSought rules.ceiling) parts.now
        (from.now.kept.choices.items ++ choice ∷ []) (paths_of next.old.living.items) (paths_of next.new.living.items)) }
{
    let begin = with_choice(alloc, &from.kept.choices, choice)?;
    take_path(alloc, parts, rules.ceiling, from, begin, &mut next.living)?;
    make_room(rules.lets_go, next);
    Ok(())
}

/// Judges each path of the next level that begins with this one. Where tries are used up before, the search is given up.
fn take_ways(
    alloc: Global,
    parts: &Parts<'_>,
    rules: LevelRules,
    from: &LivingPath,
    next: &mut NextLevel,
) -> Result<(), AllocError>
    requires some_way { AllByRecursion HasSomeWay parts.now }
    requires short { IsShort parts.now }
    requires kept { IsKeptReader parts.now from.now.kept }
    requires path { IsPath parts.now from.now.kept.choices.items }
    requires more { length from.now.kept.choices.items < length parts.now }
    requires each { AllByRecursion (IsLiving parts.now (length from.now.kept.choices.items + 1)) next.old.living.items }
    ensures each { OnOk result (AllByRecursion (IsLiving parts.now (length from.now.kept.choices.items + 1)) next.new.living.items) }
    ensures went { OnOk result (next.new.is_used_up ≡ false → WentOn (IsSought rules.ceiling) parts.now from.now.kept.choices.items
        next.old next.new) }
{
    let place = from.kept.choices.len();
    let mut choice = 0;
    'ways: while next.tries < rules.tries && !next.is_given_up {
        next.tries += 1;
        take_way(alloc, parts, rules, from, choice, next)?;
        match next_way_at(parts, place, choice) {
            Some(way) => choice = way,
            None => return Ok(()),
        }
    }
    next.is_used_up = true;
    next.is_given_up = true;
    Ok(())
}

/// The level after one of so many choices, whose paths these are that live.
pub(crate) fn next_level(
    alloc: Global,
    parts: &Parts<'_>,
    rules: LevelRules,
    count: usize,
    living: &[LivingPath],
    begun: NextLevel,
) -> Result<NextLevel, AllocError>
    requires some_way { AllByRecursion HasSomeWay parts.now }
    requires short { IsShort parts.now }
    requires more { count < length parts.now }
    requires level { AllByRecursion (IsReadTo parts.now count) living.now }
    requires begun { begun.living.items ≡ [] }
    ensures each { IfOk result (λ next. AllByRecursion (IsLiving parts.now (count + 1)) next.living.items) }
    ensures before { IfOk result (λ next. next.is_used_up ≡ false → begun.is_used_up ≡ false) }
    ensures judged { IfOk result (λ next. next.is_used_up ≡ false
        → AreGoneOn (IsSought rules.ceiling) parts.now (count + 1) living.now (paths_of next.living.items)) }
{
    let mut next = begun;
    'paths: for from in living {
        take_ways(alloc, parts, rules, from, &mut next)?;
    }
    Ok(next)
}
