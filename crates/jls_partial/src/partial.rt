//! A partial picture over its store. What stands here is all that knows how readings are kept.

ghost use Rattle.jls_partial.specs.Entries.{at_place, partial_of};
ghost use Rattle.jls_partial.specs.Held.{IsLineEntry, kept_entry};
ghost use Rattle.jls_partial.specs.InsertFaults.{reading_fault, Refuses};
ghost use Rattle.jls_partial.specs.Partial.{nothing_known, holds, with_reading, with_all, with_marks, readings_at, sources_at, IsFitting};
ghost use Rattle.jls_partial.specs.Partial.{IsCountable, AreMarksHeld, AreSourcesSmall};
ghost use Rattle.jls_partial.specs.Stored.{stored_at};
ghost use Rattle.jls_partial.specs.Text.{entries};
ghost use Rattle.jls_values.specs.OrderedSet as set;
ghost use Rattle.std.specs.List.{AllByRecursion};
ghost use Rattle.std.specs.Prelude.{◌≡◌, ◌<◌, ◌∷◌, [], length, map, true, not, IfOk, IfSome, OnOk, OnErr, IsOk, Some, None};
ghost use Rattle.std.specs.Prelude.{slice_get};

use crate::insert_fault::{InsertFault, find_reading_fault};
use crate::line_place::LinePlace;
use crate::line_store::{Entries, Store, count};
use crate::lines::Lines;
use jls_values::Shape;
use std::alloc::{AllocError, Global};
use std::marker::Model;

/// What is known of a picture: its shape, and a set of readings of its lines. A reading is what some
/// copy of the picture says of one line; a line may have none, one or several. Each reading keeps the set of source numbers
/// under which it was taken.
#[derive(Drop)]
pub struct Partial {
    shape: Shape,
    store: Store,
}

impl Model for Partial {
    ghost use Rattle.jls_partial.specs.Partial.{PartialPicture, coded_partial};

    ghost Value = { PartialPicture };

    ghost coded = { coded_partial };

    ghost use Rattle.jls_partial.specs.Entries.{partial_of};
    ghost use Rattle.jls_partial.specs.Held.{IsStoreOf, kept_entry};
    ghost use Rattle.std.specs.Prelude.{map};

    ghost view = { λ a. partial_of a.shape (map kept_entry a.store.entries) };

    ghost invariant = { λ a. IsStoreOf a.shape a.store };
}

/// How many readings are kept at a place.
fn count_at(store: &Store, at: LinePlace) -> usize
    ensures { result ≡ length (set.items (stored_at store.now at).lines) }
{
    match store.lines_at(at) {
        Some(lines) => lines.len(),
        None => 0,
    }
}

/// What is kept at a place that has a reading.
fn lines_at(store: &Store, at: LinePlace) -> Lines<'_>
    requires { 0 < length (set.items (stored_at store.now at).lines) }
    ensures { result ≡ stored_at store.now at }
{
    match store.lines_at(at) {
        Some(lines) => lines,
        None => unreachable!(),
    }
}

impl Partial {
    /// A picture of this shape of which nothing is known. It takes no memory.
    pub fn empty(alloc: Global, shape: Shape) -> Partial
        ensures { result ≡ nothing_known shape }
    {
        let store = Store::empty(alloc, shape.precision(), shape.width());
        Partial { shape, store }
    }

    /// The shape. Each reading that is held fits it, and a line has fewer than 2^64 of them. Each source is of a reading that is
    /// held, and has 32 bits.
    pub fn shape(&self) -> &Shape
        ensures value { result.now ≡ self.now.shape }
        ensures fitting { IsFitting self.now }
        ensures countable { IsCountable self.now }
        ensures marks_held { AreMarksHeld self.now }
        ensures sources_small { AreSourcesSmall self.now }
    {
        &self.shape
    }

    /// Takes one reading of a line: `samples` from left to right, in the component of index `component`.
    /// True where it is new; then it has no source. The refusals come in the order of `InsertFault`, and change nothing; a
    /// reading that is held already needs no memory.
    pub fn insert(&mut self, component: u8, line: u16, samples: &[u16]) -> Result<bool, InsertFault>
        ensures refused { Refuses (reading_fault self.old.shape component line samples.now) result }
        ensures unchanged { OnErr result (self.new ≡ self.old) }
        ensures held { OnOk result (self.new ≡ with_reading self.old component line samples.now) }
        ensures added { IfOk result (λ added. added ≡ not (holds self.old component line samples.now)) }
        ensures no_memory { holds self.old component line samples.now ≡ true → IsOk result }
    {
        if let Some(fault) = find_reading_fault(&self.shape, component, line, samples) {
            return Err(fault);
        }
        Ok(self.keep(LinePlace { component, line }, samples, &[])?)
    }

    /// Asks for room for the samples of so many readings more. With it, what is held needn't be moved when they are taken. How much room
    /// there is then, no clause says. The only refusal is out of memory.
    pub fn reserve(&mut self, readings: u32) -> Result<(), AllocError>
        ensures { self.new ≡ self.old }
    {
        self.store.reserve(readings)
    }

    /// Takes one reading that fits, and adds these sources to its own. True where it is new.
    fn keep(&mut self, at: LinePlace, samples: &[u16], sources: &[u32]) -> Result<bool, AllocError>
        requires { reading_fault self.old.shape at.component at.line samples.now ≡ None }
        ensures ok { OnOk result (self.new ≡ with_all self.old ((at_place at samples.now, sources.now) ∷ [])) }
        ensures err { OnErr result (self.new ≡ self.old) }
        ensures added { IfOk result (λ added. added ≡ not (holds self.old at.component at.line samples.now)) }
        ensures no_memory { holds self.old at.component at.line samples.now ≡ true → sources.now ≡ [] → IsOk result }
    {
        Ok(self.store.take(at, samples, sources)?)
    }

    /// Takes one reading that fits, and adds these sources to its own.
    pub(crate) fn take(
        &mut self,
        at: LinePlace,
        samples: &[u16],
        sources: &[u32],
    ) -> Result<(), AllocError>
        requires { reading_fault self.old.shape at.component at.line samples.now ≡ None }
        ensures ok { OnOk result (self.new ≡ with_all self.old ((at_place at samples.now, sources.now) ∷ [])) }
        ensures err { OnErr result (self.new ≡ self.old) }
    {
        self.keep(at, samples, sources)?;
        Ok(())
    }

    /// Adds a source to the reading of a line that has `i` others below it.
    pub(crate) fn mark_reading(
        &mut self,
        at: LinePlace,
        i: usize,
        source: u32,
    ) -> Result<(), AllocError>
        requires component_in { at.component < length self.old.shape.ids }
        requires line_in { at.line < self.old.shape.height }
        requires i_in { i < length (readings_at self.old at.component at.line) }
        ensures ok { OnOk result (IfSome (slice_get (readings_at self.old at.component at.line) i)
            (λ samples. self.new ≡ with_marks self.old source (at_place at samples ∷ []))) }
        ensures err { OnErr result (self.new ≡ self.old) }
    {
        self.store.mark(at, i, source)?;
        Ok(())
    }

    /// How many readings a line has.
    pub fn count(&self, component: u8, line: u16) -> usize
        requires component_in { component < length self.now.shape.ids }
        requires line_in { line < self.now.shape.height }
        ensures { result ≡ length (readings_at self.now component line) }
    {
        count_at(&self.store, LinePlace { component, line })
    }

    /// The reading of a line that has `i` others below it, lent from the store. Readings stand in ascending order of their samples,
    /// compared from the first one on. Each fits the shape.
    pub fn reading(&self, component: u8, line: u16, i: usize) -> &[u16]
        requires component_in { component < length self.now.shape.ids }
        requires line_in { line < self.now.shape.height }
        requires i_in { i < length (readings_at self.now component line) }
        ensures value { slice_get (readings_at self.now component line) i ≡ Some result.now }
        ensures fitting { reading_fault self.now.shape component line result.now ≡ None }
    {
        lines_at(&self.store, LinePlace { component, line }).get(i)
    }

    /// The source numbers of that reading in ascending order, lent from the store.
    pub fn sources(&self, component: u8, line: u16, i: usize) -> &[u32]
        requires component_in { component < length self.now.shape.ids }
        requires line_in { line < self.now.shape.height }
        requires i_in { i < length (readings_at self.now component line) }
        ensures { IfSome (slice_get (readings_at self.now component line) i)
            (λ samples. result.now ≡ sources_at self.now component line samples) }
    {
        lines_at(&self.store, LinePlace { component, line }).sources(i)
    }

    /// The lines that have a reading, in the order of their places, each with what is kept of it.
    pub(crate) fn entries(&self) -> Entries<'_>
        ensures seen { partial_of self.now.shape (map kept_entry result) ≡ self.now }
        ensures entries { map kept_entry result ≡ entries self.now }
        ensures each { AllByRecursion (IsLineEntry self.now.shape) result }
    {
        self.store.entries()
    }

    /// How many lines have a reading.
    pub(crate) fn entry_count(&self) -> u32
        ensures { result ≡ length (entries self.now) }
    {
        // The shape has at most four components of fewer than 2^16 lines: the count rests on it.
        prove!(self.shape.ids().len() <= 4);
        count(self.store.entries())
    }
}
