//! Lines that a store lends.

ghost use Rattle.jls_partial.specs.InsertFaults.{samples_fault};
ghost use Rattle.jls_partial.specs.LineSet.{line_sources, AreLineMarksHeld};
ghost use Rattle.jls_partial.specs.Stored.{lines_in, AreSlotsOf};
ghost use Rattle.jls_values.specs.OrderedSet as set;
ghost use Rattle.std.specs.Prelude.{◌≡◌, ◌<◌, length, IfSome, None, Some, slice_get};

use crate::packed::samples_at;
use crate::packed_lines::PackedLines;
use crate::slots::Slots;
use std::marker::Model;

/// Lines of one width that a store lends.
#[derive(Drop)]
pub(crate) struct Lines<'a> {
    packed: &'a PackedLines,
    slots: &'a Slots,
}

impl<'a> Model for Lines<'a> {
    ghost use Rattle.jls_partial.specs.LineSet.{PictureLines, coded_lines};

    ghost Value = { PictureLines };

    ghost coded = { coded_lines };

    ghost use Rattle.jls_partial.specs.Stored.{lines_in, AreSlotsOf};

    ghost view = { λ a. lines_in a.packed.now a.slots.now };

    ghost invariant = { λ a. AreSlotsOf a.packed.now a.slots.now };
}

impl<'a> Lines<'a> {
    /// The lines that these slots have of what is packed.
    pub(crate) fn of(packed: &'a PackedLines, slots: &'a Slots) -> Lines<'a>
        requires { AreSlotsOf packed.now slots.now }
        ensures { result ≡ lines_in packed.now slots.now }
    {
        Lines { packed, slots }
    }

    /// How many lines there are. Each source is of one of them.
    pub(crate) fn len(&self) -> usize
        ensures value { result ≡ length (set.items self.now.lines) }
        ensures sources { AreLineMarksHeld self.now }
    {
        self.slots.len()
    }

    /// The line that has `i` others below it, lent from the store.
    pub(crate) fn get(&self, i: usize) -> &'a [u16]
        requires { i < length (set.items self.now.lines) }
        ensures value { slice_get (set.items self.now.lines) i ≡ Some result.now }
        ensures fitting { samples_fault self.now.precision self.now.width result.now ≡ None }
    {
        samples_at(&self.packed.samples, self.packed.width, self.slots.start(i))
    }

    /// The source numbers of that line in ascending order, lent from the store.
    pub(crate) fn sources(&self, i: usize) -> &'a [u32]
        requires { i < length (set.items self.now.lines) }
        ensures { IfSome (slice_get (set.items self.now.lines) i) (λ samples. result.now ≡ line_sources self.now samples) }
    {
        self.slots.sources(i)
    }
}
