//! Samples of lines of one width, one line after the other.

ghost use Rattle.std.specs.Prelude.{◌≡◌, ◌<◌, ◌≤◌, ◌+◌, ◌*◌, ◌++◌, ◌∷◌, [], length, true, not, IfOk, IsOk, OnOk, OnErr};
ghost use Rattle.std.specs.Prelude.{vec_len, vec_capacity};
ghost use Rattle.jls_partial.specs.LineEntries.{MarksLine};
ghost use Rattle.jls_partial.specs.Slots.{slots_of};
ghost use Rattle.jls_partial.specs.InsertFaults.{samples_fault};
ghost use Rattle.jls_partial.specs.LineSet.{with_lines};
ghost use Rattle.jls_partial.specs.Stored.{lines_in, AreSlotsOf, Extends};
ghost use Rattle.jls_values.specs.OrderedSet as set;

use crate::packed::{find, put};
use crate::slots::{Slot, Slots};
use crate::sources::Sources;
use std::alloc::{AllocError, Global};

/// Samples of lines of one width, one line after the other, with samples of one precision. Which lines these are, slots say.
#[derive(Drop)]
pub(crate) struct PackedLines {
    pub precision: u8,
    pub width: u16,
    pub samples: Vec<u16>,
    pub alloc: Global,
}

impl PackedLines {
    /// No samples. It takes no memory.
    pub(crate) fn empty(alloc: Global, precision: u8, width: u16) -> PackedLines
        ensures precision { result.precision ≡ precision }
        ensures width { result.width ≡ width }
        ensures samples { result.samples.items ≡ [] }
    {
        PackedLines {
            precision,
            width,
            samples: Vec::new(alloc),
            alloc,
        }
    }

    /// Takes one line that fits, and adds these sources to its own. True where no slot has the line yet.
    pub(crate) fn take(
        &mut self,
        slots: &mut Slots,
        samples: &[u16],
        sources: &[u32],
    ) -> Result<bool, AllocError>
        requires slots { AreSlotsOf self.old slots.old }
        requires fits { samples_fault self.old.precision self.old.width samples.now ≡ None }
        ensures extends { Extends self.old self.new }
        ensures slots { AreSlotsOf self.new slots.new }
        ensures ok { OnOk result (lines_in self.new slots.new
            ≡ with_lines (lines_in self.old slots.old) ((samples.now, sources.now) ∷ [])) }
        ensures err_samples { OnErr result (self.new.samples.items ≡ self.old.samples.items) }
        ensures err_slots { OnErr result (slots_of slots.new ≡ slots_of slots.old) }
        ensures added { IfOk result (λ added. added ≡ not (set.contains (lines_in self.old slots.old).lines samples.now)) }
        ensures no_memory { set.contains (lines_in self.old slots.old).lines samples.now ≡ true
            → sources.now ≡ [] → IsOk result }
    {
        match find(slots, &self.samples, self.width, samples) {
            Ok(at) => {
                slots.add_sources(self.alloc, at, sources)?;
                Ok(false)
            }
            Err(at) => {
                let slot = self.next_slot(sources)?;
                let new = slots.room_for(self.alloc, slot)?;
                put(slots, &mut self.samples, at, samples, new)?;
                Ok(true)
            }
        }
    }

    /// Adds a source to the line of these slots that has `i` others below it.
    pub(crate) fn mark(&self, slots: &mut Slots, i: usize, source: u32) -> Result<(), AllocError>
        requires slots { AreSlotsOf self.now slots.old }
        requires within { i < length (slots_of slots.old) }
        ensures slots { AreSlotsOf self.now slots.new }
        ensures ok { OnOk result (MarksLine (lines_in self.now slots.old) i source (lines_in self.now slots.new)) }
        ensures err { OnErr result (slots_of slots.new ≡ slots_of slots.old) }
    {
        slots.add_sources(self.alloc, i, &[source])?;
        // The number of slots is a `usize`, and so its lines are countable.
        prove!(slots.len() <= usize::MAX);
        Ok(())
    }

    /// The slot of the line that is put in next, with these sources.
    fn next_slot(&self, sources: &[u32]) -> Result<Slot, AllocError>
        ensures start { IfOk result (λ slot. slot.start ≡ length self.now.samples.items) }
        ensures sources { IfOk result (λ slot. slot.sources ≡ set.insert_all set.empty sources.now) }
    {
        let start = self.samples.len();
        let mut own = Sources::none();
        own.add_all(self.alloc, sources)?;
        Ok(Slot {
            start,
            sources: own,
        })
    }

    /// Makes room for one line more, and gives the slots of that line alone, with these sources.
    pub(crate) fn room_for(&mut self, sources: &[u32]) -> Result<Slots, AllocError>
        ensures same { self.new.samples.items ≡ self.old.samples.items }
        ensures precision { self.new.precision ≡ self.old.precision }
        ensures width { self.new.width ≡ self.old.width }
        ensures slots { IfOk result (λ slots. slots_of slots ≡ record {
          start = length self.old.samples.items;
          sources = set.insert_all set.empty sources.now;
        } ∷ []) }
        ensures room { OnOk result (vec_len self.new.samples + self.new.width ≤ vec_capacity self.new.samples) }
    {
        let slots = Slots::of(self.alloc, self.next_slot(sources)?)?;
        self.samples.reserve(self.width as usize)?;
        Ok(slots)
    }

    /// Makes room for so many lines more. What is held stays.
    pub(crate) fn reserve(&mut self, lines: u32) -> Result<(), AllocError>
        ensures same { self.new.samples.items ≡ self.old.samples.items }
        ensures precision { self.new.precision ≡ self.old.precision }
        ensures width { self.new.width ≡ self.old.width }
        ensures room { OnOk result (vec_len self.new.samples + lines * self.new.width ≤ vec_capacity self.new.samples) }
    {
        self.samples.reserve(lines as usize * self.width as usize)
    }

    /// Puts a line in where there is room for it. This needs no memory.
    pub(crate) fn append(&mut self, samples: &[u16])
        requires { vec_len self.old.samples + length samples.now ≤ vec_capacity self.old.samples }
        ensures samples { self.new.samples.items ≡ self.old.samples.items ++ samples.now }
        ensures precision { self.new.precision ≡ self.old.precision }
        ensures width { self.new.width ≡ self.old.width }
    {
        match self.samples.extend_from_slice(samples) {
            Ok(()) => {}
            Err(_) => unreachable!(),
        }
    }
}
