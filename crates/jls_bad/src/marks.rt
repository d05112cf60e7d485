//! Which bytes of a copy are in bad places.

ghost use Rattle.std.specs.Prelude.{◌≡◌, ℕ, ◌<◌, ◌≤◌, ◌||◌, ◌&&◌, min, nat_le, nat_lt, true, false, length, get_or, IfOk};
ghost use Rattle.jls_bad.specs.Known.{covers, is_bad};

use crate::place::Place;
use std::alloc::{AllocError, Global};

/// Marked bytes in a row.
#[derive(Clone, Copy)]
struct Run {
    begin: usize,
    end: usize,
}

/// A number, or the bound if it is above that.
fn at_most(number: u64, bound: usize) -> usize
    ensures { result ≡ min number bound }
{
    if number < bound as u64 {
        number as usize
    } else {
        bound
    }
}

/// Marks the bytes from one on, up to another.
fn mark(marks: &mut [bool], begin: usize, end: usize)
    requires { end ≤ length marks.old }
    ensures { (at : ℕ) → get_or marks.new at false ≡ (get_or marks.old at false || (nat_le begin at && nat_lt at end)) }
{
    for at in begin..end {
        marks[at] = true;
    }
}

/// Marks the bytes of a place, but for a run that is marked, and gives such a run again.
fn mark_place(marks: &mut [bool], run: Run, place: Place) -> Run
    requires begin { run.begin ≤ run.end }
    requires end { run.end ≤ length marks.old }
    requires marked { (at : ℕ) → run.begin ≤ at → at < run.end → get_or marks.old at false ≡ true }
    ensures begin { result.begin ≤ result.end }
    ensures end { result.end ≤ length marks.old }
    ensures marked { (at : ℕ) → result.begin ≤ at → at < result.end → get_or marks.new at false ≡ true }
    ensures marks { (at : ℕ) → at < length marks.old → get_or marks.new at false ≡ (get_or marks.old at false || covers at place) }
{
    let begin = at_most(place.offset, marks.len());
    let end = at_most(place.offset.saturating_add(place.length), marks.len()).max(begin);
    if begin < run.begin || run.end < begin {
        mark(marks, begin, end);
        return Run { begin, end };
    }
    mark(marks, run.end, end);
    Run {
        begin: run.begin,
        end: end.max(run.end),
    }
}

/// Marks the bytes of places. If they come by their offset, each byte is marked once.
fn mark_all(marks: &mut [bool], places: &[Place])
    ensures { (at : ℕ) → at < length marks.old → get_or marks.new at false ≡ (get_or marks.old at false || is_bad places.now at) }
{
    let mut run = Run { begin: 0, end: 0 };
    for place in places {
        run = mark_place(marks, run, *place);
    }
}

/// Of so many bytes, whether each is in a bad place: no marks, if there are no places. `Err` comes if memory is refused.
pub(crate) fn marks_of(
    alloc: Global,
    count: usize,
    places: &[Place],
) -> Result<Vec<bool>, AllocError>
    ensures { IfOk result (λ marks. (at : ℕ) → at < count → get_or marks.items at false ≡ is_bad places.now at) }
{
    if places.is_empty() {
        return Ok(Vec::new(alloc));
    }
    let mut marks = Vec::from_elem(alloc, false, count)?;
    let mut sorted = Vec::from_slice(alloc, places)?;
    sorted.sort_unstable_by_key(|place| place.offset);
    mark_all(&mut marks, &sorted);
    Ok(marks)
}
