//! The lines of a picture in pages: lines that stand close together have their rows in one list.

ghost use Rattle.jls_partial.specs.InsertFaults.{samples_fault};
ghost use Rattle.jls_partial.specs.LinePlace.{place_cmp};
ghost use Rattle.jls_partial.specs.Packed.{IsGap};
ghost use Rattle.jls_partial.specs.Pages.{ArePages, ArePagesOf, IsPageOf, page_cmp, page_of, pages_seen, rows_of};
ghost use Rattle.jls_partial.specs.Stored.{AddsSource, Extends, TakesLine, holds_line, stored_at, rows_seen};
ghost use Rattle.jls_values.specs.OrderedSet as set;
ghost use Rattle.std.specs.BTreeMap.{is_at};
ghost use Rattle.std.specs.List.Sorted.{IsStrictlySortedBy};
ghost use Rattle.std.specs.Map.{lookup};
ghost use Rattle.std.specs.Prelude.{◌≡◌, ◌<◌, [], length, map, true, not, IfOk, IfErr, OnOk, OnErr, IsOk, None};
ghost use Rattle.std.specs.Prelude.{option_copied, slice_index_or};

use crate::line_place::{LinePlace, PAGE_LINES, PageNumber};
use crate::packed_lines::PackedLines;
use crate::slots::Slots;
use std::alloc::AllocError;
use std::collections::BTreeMap;

/// Where the row of a line stands among those of its page, or where it belongs. Most pages have all their lines, and most lines come in
/// their order, so it looks there first.
fn find_row(rows: &[(LinePlace, Slots)], at: LinePlace) -> Result<usize, usize>
    requires { IsStrictlySortedBy place_cmp (map (λ r. r.0) rows.now) }
    ensures found { IfOk result (λ i. i < length rows.now) }
    ensures same { IfOk result (λ i. slice_index_or (map (λ r. r.0) rows.now) i at ≡ at) }
    ensures gap { IfErr result (λ i. IsGap place_cmp (map (λ r. r.0) rows.now) i at) }
{
    let i = usize::from(at.line % PAGE_LINES);
    match rows.get(i) {
        Some(row) if row.0 == at => return Ok(i),
        _ => {}
    }
    match rows.last() {
        Some(row) if row.0.cmp(&at).is_lt() => Err(rows.len()),
        _ => rows.binary_search_by_key(&at, |row| row.0),
    }
}

/// The slots of a line.
pub(crate) fn row_at(
    pages: &BTreeMap<PageNumber, Vec<(LinePlace, Slots)>>,
    at: LinePlace,
) -> Option<&Slots>
    requires { ArePages pages.now.entries }
    ensures { option_copied result ≡ lookup (is_at (place_cmp at)) (rows_of pages.now.entries) }
{
    match pages.get(&at.page()) {
        Some(rows) => match find_row(rows, at) {
            Ok(i) => Some(&rows[i].1),
            Err(_) => None,
        },
        None => None,
    }
}

/// Takes the first line of a page, with these sources. All growth is made before anything changes.
fn start_at(
    packed: &mut PackedLines,
    pages: &mut BTreeMap<PageNumber, Vec<(LinePlace, Slots)>>,
    at: LinePlace,
    samples: &[u16],
    sources: &[u32],
) -> Result<bool, AllocError>
    requires pages { ArePagesOf packed.old pages.old.entries }
    requires fits { samples_fault packed.old.precision packed.old.width samples.now ≡ None }
    requires none { lookup (is_at (page_cmp (page_of at))) pages.old.entries ≡ None }
    ensures pages { ArePagesOf packed.new pages.new.entries }
    ensures ok { OnOk result (TakesLine (pages_seen packed.old pages.old.entries) at samples.now sources.now
        (pages_seen packed.new pages.new.entries)) }
    ensures err { OnErr result (pages_seen packed.new pages.new.entries ≡ pages_seen packed.old pages.old.entries) }
    ensures added { IfOk result (λ added. added ≡ true) }
{
    let new = packed.room_for(sources)?;
    let mut rows = Vec::new(packed.alloc);
    rows.push((at, new))?;
    pages.insert(at.page(), rows)?;
    packed.append(samples);
    Ok(true)
}

/// Takes one line of a page that fits, with these sources. True where it is new at its place. All growth of a new row is made before
/// anything changes.
fn take_row(
    packed: &mut PackedLines,
    rows: &mut Vec<(LinePlace, Slots)>,
    at: LinePlace,
    samples: &[u16],
    sources: &[u32],
) -> Result<bool, AllocError>
    requires page { IsPageOf packed.old (page_of at) rows.old.items }
    requires fits { samples_fault packed.old.precision packed.old.width samples.now ≡ None }
    ensures extends { Extends packed.old packed.new }
    ensures page { IsPageOf packed.new (page_of at) rows.new.items }
    ensures ok { OnOk result (TakesLine (rows_seen packed.old rows.old.items) at samples.now sources.now
        (rows_seen packed.new rows.new.items)) }
    ensures err { OnErr result (rows_seen packed.new rows.new.items ≡ rows_seen packed.old rows.old.items) }
    ensures added { IfOk result (λ added. added ≡ not (holds_line (rows_seen packed.old rows.old.items) at samples.now)) }
    ensures no_memory { holds_line (rows_seen packed.old rows.old.items) at samples.now ≡ true → sources.now ≡ [] → IsOk result }
{
    match find_row(rows, at) {
        Ok(i) => {
            let own = &mut rows[i].1;
            let added = packed.take(own, samples, sources)?;
            // The number of slots is a `usize`, and so its lines are countable.
            prove!(own.len() <= usize::MAX);
            Ok(added)
        }
        Err(i) => {
            let new = packed.room_for(sources)?;
            rows.insert(i, (at, new))?;
            packed.append(samples);
            Ok(true)
        }
    }
}

/// Takes one line of a place that fits, with these sources. True where it is new there.
pub(crate) fn take_at(
    packed: &mut PackedLines,
    pages: &mut BTreeMap<PageNumber, Vec<(LinePlace, Slots)>>,
    at: LinePlace,
    samples: &[u16],
    sources: &[u32],
) -> Result<bool, AllocError>
    requires pages { ArePagesOf packed.old pages.old.entries }
    requires fits { samples_fault packed.old.precision packed.old.width samples.now ≡ None }
    ensures pages { ArePagesOf packed.new pages.new.entries }
    ensures ok { OnOk result (TakesLine (pages_seen packed.old pages.old.entries) at samples.now sources.now
        (pages_seen packed.new pages.new.entries)) }
    ensures err { OnErr result (pages_seen packed.new pages.new.entries ≡ pages_seen packed.old pages.old.entries) }
    ensures added { IfOk result (λ added. added ≡ not (holds_line (pages_seen packed.old pages.old.entries) at samples.now)) }
    ensures no_memory { holds_line (pages_seen packed.old pages.old.entries) at samples.now ≡ true → sources.now ≡ [] → IsOk result }
{
    match pages.get_mut(&at.page()) {
        Some(rows) => take_row(packed, rows, at, samples, sources),
        None => start_at(packed, pages, at, samples, sources),
    }
}

/// Adds a source to the line of a place of a page that has `i` others below it.
fn mark_row(
    packed: &PackedLines,
    rows: &mut Vec<(LinePlace, Slots)>,
    at: LinePlace,
    i: usize,
    source: u32,
) -> Result<(), AllocError>
    requires page { IsPageOf packed.now (page_of at) rows.old.items }
    requires within { i < length (set.items (stored_at (rows_seen packed.now rows.old.items) at).lines) }
    ensures page { IsPageOf packed.now (page_of at) rows.new.items }
    ensures ok { OnOk result (AddsSource (rows_seen packed.now rows.old.items) at i source (rows_seen packed.now rows.new.items)) }
    ensures err { OnErr result (rows_seen packed.now rows.new.items ≡ rows_seen packed.now rows.old.items) }
{
    match find_row(rows, at) {
        Ok(k) => packed.mark(&mut rows[k].1, i, source),
        Err(_) => unreachable!(),
    }
}

/// Adds a source to the line of a place that has `i` others below it.
pub(crate) fn mark_at(
    packed: &PackedLines,
    pages: &mut BTreeMap<PageNumber, Vec<(LinePlace, Slots)>>,
    at: LinePlace,
    i: usize,
    source: u32,
) -> Result<(), AllocError>
    requires pages { ArePagesOf packed.now pages.old.entries }
    requires within { i < length (set.items (stored_at (pages_seen packed.now pages.old.entries) at).lines) }
    ensures pages { ArePagesOf packed.now pages.new.entries }
    ensures ok { OnOk result (AddsSource (pages_seen packed.now pages.old.entries) at i source (pages_seen packed.now pages.new.entries)) }
    ensures err { OnErr result (pages_seen packed.now pages.new.entries ≡ pages_seen packed.now pages.old.entries) }
{
    match pages.get_mut(&at.page()) {
        Some(rows) => mark_row(packed, rows, at, i, source),
        None => unreachable!(),
    }
}
