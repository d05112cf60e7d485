//! Choices at a part: its ways in turn, those with equal bytes once; what one copy has there; and those that a search tries.

ghost use Rattle.std.specs.Prelude.{◌≡◌, ℕ, List, ◌<◌, ◌↔◌, map, length, get_or, [], true, false, IsTrue, IfSome, IfNone};
ghost use Rattle.std.specs.List.{AllByRecursion};
ghost use Rattle.jls_diff.specs.Parts.{Differs, Same};
ghost use Rattle.jls_diff.specs.Parts as spec;
ghost use Rattle.jls_diff.specs.PartsOf.{part_of, parts_of};
ghost use Rattle.jls_search.specs.Choices.{HasSomeWay, IsFirstWay, IsNew};
ghost use Rattle.jls_search.specs.OfGroups.{HasCopy};
ghost use Rattle.jls_search.specs.Tried.{HasCopyElsewhere, IsFree, IsTried, copy_of};

use crate::setting::{Goal, Setting};
use jls_diff::{Part, Parts};

/// Whether no way before this one has the same bytes.
fn is_new(ways: &[&[u8]], choice: usize) -> bool
    requires { choice < length ways.now }
    ensures { IsTrue result ↔ IsNew (map (λ way. way.now) ways.now) choice }
{
    for other in 0..choice {
        if *ways[other] == *ways[choice] {
            return false;
        }
    }
    true
}

/// The next of these ways after one, before which none has the same bytes.
fn next_new(ways: &[&[u8]], after: usize) -> Option<usize>
    requires { after < length ways.now }
    ensures some { IfSome result (λ choice. (after < choice) × (choice < length ways.now) × IsNew (map (λ way. way.now) ways.now) choice
        × ((other : ℕ) → after < other → other < choice → ¬ IsNew (map (λ way. way.now) ways.now) other)) }
    ensures none { IfNone result ((other : ℕ) → after < other → other < length ways.now → ¬ IsNew (map (λ way. way.now) ways.now) other) }
{
    let mut choice = after + 1;
    while choice < ways.len() {
        if is_new(ways, choice) {
            return Some(choice);
        }
        choice += 1;
    }
    None
}

/// The next way of a part after one, before which none has the same bytes.
fn next_way(part: &Part<'_>, after: usize) -> Option<usize>
    requires { IsFirstWay (part_of part.now) after }
    ensures some { IfSome result (λ choice. IsFirstWay (part_of part.now) choice
        × ((other : ℕ) → after < other → other < choice → ¬ IsFirstWay (part_of part.now) other)) }
    ensures rises { IfSome result (λ choice. after < choice) }
    ensures none { IfNone result ((other : ℕ) → after < other → ¬ IsFirstWay (part_of part.now) other) }
{
    match part {
        Part::Same(_) => None,
        Part::Differ(ways) => next_new(ways, after),
    }
}

/// The next way of the part at this place after one, before which none has the same bytes.
pub(crate) fn next_way_at(parts: &Parts<'_>, place: usize, after: usize) -> Option<usize>
    requires place { place < length parts.now }
    requires first { IsFirstWay (get_or parts.now place (Same [])) after }
    ensures some { IfSome result (λ choice. IsFirstWay (get_or parts.now place (Same [])) choice
        × ((other : ℕ) → after < other → other < choice → ¬ IsFirstWay (get_or parts.now place (Same [])) other)) }
    ensures rises { IfSome result (λ choice. after < choice) }
    ensures none { IfNone result ((other : ℕ) → after < other → ¬ IsFirstWay (get_or parts.now place (Same [])) other) }
{
    next_way(parts.part(place), after)
}

/// Whether all copies have the part alike.
fn is_same(part: &Part<'_>) -> bool
    ensures same { result ≡ true → IsFirstWay (part_of part.now) 0 }
    ensures alike { result ≡ true → ¬ Differs (part_of part.now) }
    ensures differ { result ≡ false → Differs (part_of part.now) }
{
    match part {
        Part::Same(_) => true,
        Part::Differ(_) => false,
    }
}

/// Whether all copies have the part at this place alike.
pub(crate) fn is_same_at(parts: &Parts<'_>, place: usize) -> bool
    requires { place < length parts.now }
    ensures same { result ≡ true → IsFirstWay (get_or parts.now place (Same [])) 0 }
    ensures alike { result ≡ true → ¬ Differs (get_or parts.now place (Same [])) }
    ensures differ { result ≡ false → Differs (get_or parts.now place (Same [])) }
{
    is_same(parts.part(place))
}

/// The first of these ways with the bytes of one of them.
fn first_equal(ways: &[&[u8]], copy: usize) -> usize
    requires { copy < length ways.now }
    ensures within { result < length ways.now }
    ensures new { IsNew (map (λ way. way.now) ways.now) result }
    ensures same { get_or (map (λ way. way.now) ways.now) result [] ≡ get_or (map (λ way. way.now) ways.now) copy [] }
{
    for other in 0..copy {
        if *ways[other] == *ways[copy] {
            return other;
        }
    }
    copy
}

/// The choice that takes of a part what this copy has there.
fn choice_of(part: &Part<'_>, copy: usize) -> usize
    requires { HasCopy copy (part_of part.now) }
    ensures first { IsFirstWay (part_of part.now) result }
    ensures same { spec.way result (part_of part.now) ≡ spec.way copy (part_of part.now) }
{
    match part {
        Part::Same(_) => 0,
        Part::Differ(ways) => first_equal(ways, copy),
    }
}

/// The choice that takes of the part at this place what this copy has there.
pub(crate) fn choice_at(parts: &Parts<'_>, place: usize, copy: usize) -> usize
    requires place { place < length parts.now }
    requires copy { AllByRecursion (HasCopy copy) parts.now }
    ensures first { IsFirstWay (get_or parts.now place (Same [])) result }
    ensures same { spec.way result (get_or parts.now place (Same []))
        ≡ spec.way copy (get_or parts.now place (Same [])) }
{
    choice_of(parts.part(place), copy)
}

/// Whether the ways of the part at this place are tried, and copies differ in it.
pub(crate) fn is_free(parts: &Parts<'_>, goal: Goal, place: usize) -> bool
    requires { place < length parts.now }
    ensures free { result ≡ true → IsFree parts.now goal place }
    ensures fixed { result ≡ false → ¬ IsFree parts.now goal place }
{
    !is_same_at(parts, place) && goal.is_tried(place)
}

/// The choice of a part whose ways are not tried, or that all copies have alike.
pub(crate) fn fixed_choice(parts: &Parts<'_>, goal: Goal, place: usize) -> usize
    requires place { place < length parts.now }
    requires copy { HasCopyElsewhere parts.now goal }
    requires fixed { ¬ IsFree parts.now goal place }
    ensures first { IsFirstWay (get_or parts.now place (Same [])) result }
    ensures same { spec.way result (get_or parts.now place (Same [])) ≡ spec.way (copy_of goal) (get_or parts.now place (Same [])) }
{
    match goal {
        Goal::Whole => 0,
        Goal::Group(Setting { copy, .. }) => choice_at(parts, place, copy),
    }
}

/// The first choice of the part at this place: its first way, if its ways are tried, and else the copy's.
pub(crate) fn first_choice(parts: &Parts<'_>, goal: Goal, place: usize) -> usize
    requires place { place < length parts.now }
    requires copy { HasCopyElsewhere parts.now goal }
    requires some_way { AllByRecursion HasSomeWay parts.now }
    ensures first { IsFirstWay (get_or parts.now place (Same [])) result }
    ensures same { ¬ IsTried goal place → spec.way result (get_or parts.now place (Same []))
        ≡ spec.way (copy_of goal) (get_or parts.now place (Same [])) }
    ensures least { IsTried goal place → result ≡ 0 }
{
    if goal.is_tried(place) {
        return 0;
    }
    fixed_choice(parts, goal, place)
}

/// The choice of the part at this place after one, if its ways are tried and it has another.
pub(crate) fn next_choice(
    parts: &Parts<'_>,
    goal: Goal,
    place: usize,
    choice: usize,
) -> Option<usize>
    requires place { place < length parts.now }
    requires first { IsFirstWay (get_or parts.now place (Same [])) choice }
    ensures first { IfSome result (λ next. IsFirstWay (get_or parts.now place (Same [])) next) }
    ensures rises { IfSome result (λ next. choice < next) }
    ensures tried { IfSome result (λ next. IsTried goal place) }
    ensures between { IfSome result (λ next. (other : ℕ) → choice < other → other < next
        → ¬ IsFirstWay (get_or parts.now place (Same [])) other) }
    ensures none { IfNone result (IsTried goal place → (other : ℕ) → choice < other
        → ¬ IsFirstWay (get_or parts.now place (Same [])) other) }
{
    if !goal.is_tried(place) {
        return None;
    }
    next_way_at(parts, place, choice)
}
