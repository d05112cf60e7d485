//! What is kept of all lines of a picture, in one packed store.

ghost use Rattle.jls_partial.specs.InsertFaults.{samples_fault};
ghost use Rattle.jls_partial.specs.LinePlace.{place_cmp};
ghost use Rattle.jls_partial.specs.Stored.{AddsSource, TakesLine, holds_line, stored_at};
ghost use Rattle.jls_values.specs.OrderedSet as set;
ghost use Rattle.std.specs.BTreeMap.{is_at};
ghost use Rattle.std.specs.List.Sorted.{IsStrictlySortedBy};
ghost use Rattle.std.specs.Map.{lookup};
ghost use Rattle.std.specs.Prelude.{◌≡◌, ◌<◌, ◌≤◌, ◌^◌, [], length, map, true, not, IfOk, OnOk, OnErr, IsOk, None};

use crate::line_pages::{mark_at, row_at, take_at};
use crate::line_place::{LinePlace, PageNumber};
use crate::lines::Lines;
use crate::packed_lines::PackedLines;
use crate::slots::Slots;
use std::alloc::{AllocError, Global};
use std::collections::BTreeMap;
use std::collections::btree_map::Iter;
use std::iter::Iterator;
use std::marker::Model;

/// The readings of all lines of a picture. All samples stand in one list, and each line that has a reading has slots of its own, in pages.
#[derive(Drop)]
pub(crate) struct Store {
    packed: PackedLines,
    pages: BTreeMap<PageNumber, Vec<(LinePlace, Slots)>>,
}

impl Model for Store {
    ghost use Rattle.jls_partial.specs.Pages.{ArePagesOf, pages_seen};
    ghost use Rattle.jls_partial.specs.Stored.{StoredLines, coded_stored};

    ghost Value = { StoredLines };

    ghost coded = { coded_stored };

    ghost view = { λ a. pages_seen a.packed a.pages.entries };

    ghost invariant = { λ a. ArePagesOf a.packed a.pages.entries };
}

/// The lines of a store that have a reading, in the order of their places.
#[derive(Drop)]
pub(crate) struct Entries<'a> {
    packed: &'a PackedLines,
    rows: &'a [(LinePlace, Slots)],
    pages: Iter<'a, PageNumber, Vec<(LinePlace, Slots)>>,
}

impl<'a> Model for Entries<'a> {
    ghost use Rattle.jls_partial.specs.LineEntries.{LineEntry};
    ghost use Rattle.jls_partial.specs.Pages.{AreRowsLeft, rows_of};
    ghost use Rattle.jls_partial.specs.Stored.{coded_line_entry, entries_in};
    ghost use Rattle.std.specs.Coded.{coded_list};
    ghost use Rattle.std.specs.Prelude.{◌++◌, List};

    ghost Value = { List LineEntry };

    ghost coded = { coded_list coded_line_entry };

    ghost view = { λ a. entries_in a.packed.now (a.rows.now ++ rows_of a.pages) };

    ghost invariant = { λ a. AreRowsLeft a.packed.now a.rows.now a.pages };
}

impl<'a> Iterator for Entries<'a> {
    ghost use Rattle.std.specs.Iterator.{at_most};
    ghost use Rattle.std.specs.Map.Iter.{TakesFirst};
    ghost use Rattle.std.specs.Prelude.{length};

    type Item = (LinePlace, Lines<'a>);

    ghost next_gives = { TakesFirst (λ e. e) };

    ghost remaining = { λ s. at_most (length s) };

    fn next(&mut self) -> Option<(LinePlace, Lines<'a>)> {
        if self.rows.is_empty() {
            let (_, page) = self.pages.next()?;
            self.rows = page.as_slice();
        }
        match self.rows.split_first() {
            Some((row, rest)) => {
                self.rows = rest;
                Some((row.0, Lines::of(self.packed, &row.1)))
            }
            None => unreachable!(),
        }
    }
}

/// How many lines these are.
pub(crate) fn count(entries: Entries<'_>) -> u32
    requires { length entries < 2 ^ 32 }
    ensures { result ≡ length entries.entry }
{
    let mut count = 0;
    for _ in entries {
        count += 1;
    }
    count
}

impl Store {
    /// A store without lines, of samples of `precision` bits, with `width` samples a line. It takes no memory.
    pub(crate) fn empty(alloc: Global, precision: u8, width: u16) -> Store
        requires precision_at_most { precision ≤ 16 }
        requires width_at_least { 1 ≤ width }
        ensures { result ≡ record { precision = precision; width = width; entries = [] } }
    {
        Store {
            packed: PackedLines::empty(alloc, precision, width),
            pages: BTreeMap::new(alloc),
        }
    }

    /// What is kept at a place, lent.
    pub(crate) fn lines_at(&self, at: LinePlace) -> Option<Lines<'_>>
        ensures { result ≡ lookup (is_at (place_cmp at)) self.now.entries }
    {
        match row_at(&self.pages, at) {
            Some(slots) => Some(Lines::of(&self.packed, slots)),
            None => None,
        }
    }

    /// The lines that have a reading, in the order of their places, each with what is kept of it.
    pub(crate) fn entries(&self) -> Entries<'_>
        ensures { result ≡ self.now.entries }
    {
        Entries {
            packed: &self.packed,
            rows: &[],
            pages: self.pages.iter(),
        }
    }

    /// Takes one line of a place that fits, with these sources. True where it is new there.
    pub(crate) fn take(
        &mut self,
        at: LinePlace,
        samples: &[u16],
        sources: &[u32],
    ) -> Result<bool, AllocError>
        requires { samples_fault self.old.precision self.old.width samples.now ≡ None }
        ensures ordered { OnOk result (IsStrictlySortedBy place_cmp (map (λ e. e.0) self.new.entries)) }
        ensures ok { OnOk result (TakesLine self.old at samples.now sources.now self.new) }
        ensures err { OnErr result (self.new ≡ self.old) }
        ensures added { IfOk result (λ added. added ≡ not (holds_line self.old at samples.now)) }
        ensures no_memory { holds_line self.old at samples.now ≡ true → sources.now ≡ [] → IsOk result }
    {
        take_at(&mut self.packed, &mut self.pages, at, samples, sources)
    }

    /// Makes room for the samples of so many lines more. What is held stays.
    pub(crate) fn reserve(&mut self, lines: u32) -> Result<(), AllocError>
        ensures { self.new ≡ self.old }
    {
        self.packed.reserve(lines)
    }

    /// Adds a source to the line of a place that has `i` others below it.
    pub(crate) fn mark(&mut self, at: LinePlace, i: usize, source: u32) -> Result<(), AllocError>
        requires { i < length (set.items (stored_at self.old at).lines) }
        ensures ordered { OnOk result (IsStrictlySortedBy place_cmp (map (λ e. e.0) self.new.entries)) }
        ensures ok { OnOk result (AddsSource self.old at i source self.new) }
        ensures err { OnErr result (self.new ≡ self.old) }
    {
        mark_at(&self.packed, &mut self.pages, at, i, source)
    }
}
