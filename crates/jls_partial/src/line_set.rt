//! Sets of lines of one width.

ghost use Rattle.jls_partial.specs.InsertFaults.{samples_fault, Refuses};
ghost use Rattle.jls_partial.specs.LineSet.{no_lines, line_sources, AreLineMarksHeld, with_line, with_lines, union_of_lines};
ghost use Rattle.jls_partial.specs.LineSet.{has_same_line_shape, kept_lines};
ghost use Rattle.jls_partial.specs.Merging.{TakesPrefixOfLines};
ghost use Rattle.jls_values.specs.Join.{IsBetween};
ghost use Rattle.jls_values.specs.OrderedSet as set;
ghost use Rattle.jls_values.specs.declared.merge.MergeFault.TheVariants.{ShapeDiffers, OutOfMemory};
ghost use Rattle.std.specs.Prelude.{◌↔◌, false, IsErrOf};
ghost use Rattle.std.specs.Prelude.{◌≡◌, ◌<◌, ◌≤◌, ◌∷◌, [], length, true, not, IfOk, IfSome, OnOk, OnErr, IsOk, None, Some, slice_get};

use crate::insert_fault::{InsertFault, find_samples_fault};
use crate::lines::Lines;
use crate::packed_lines::PackedLines;
use crate::slots::Slots;
use jls_values::{Merge, MergeFault};
use std::alloc::{AllocError, Global};
use std::marker::Model;

/// A set of lines, each as the list of its samples from left to right: all of one width, with samples
/// of one precision. Each line keeps the set of source numbers under which it was seen.
///
/// All samples stand in one list, and each line has a slot that says where its own begin.
#[derive(Drop)]
pub struct LineSet {
    packed: PackedLines,
    slots: Slots,
}

impl Model for LineSet {
    ghost use Rattle.jls_partial.specs.LineSet.{PictureLines, coded_lines};

    ghost Value = { PictureLines };

    ghost coded = { coded_lines };

    ghost use Rattle.jls_partial.specs.Stored.{lines_in, AreSlotsOf};

    ghost view = { λ a. lines_in a.packed a.slots };

    ghost invariant = { λ a. AreSlotsOf a.packed a.slots };
}

impl LineSet {
    /// No lines, of samples of `precision` bits, with `width` samples each. It takes no memory.
    pub fn empty(alloc: Global, precision: u8, width: u16) -> LineSet
        requires precision_at_least { 2 ≤ precision }
        requires precision_at_most { precision ≤ 16 }
        requires width_at_least { 1 ≤ width }
        ensures { result ≡ no_lines precision width }
    {
        LineSet {
            packed: PackedLines::empty(alloc, precision, width),
            slots: Slots::Empty,
        }
    }

    /// Takes one line. True where it is new; then it has no source. The refusals are `Width`, `Sample` and
    /// `OutOfMemory`, in this order, and change nothing; a line that is held already needs no memory.
    pub fn add(&mut self, samples: &[u16]) -> Result<bool, InsertFault>
        ensures refused { Refuses (samples_fault self.old.precision self.old.width samples.now) result }
        ensures unchanged { OnErr result (self.new ≡ self.old) }
        ensures held { OnOk result (self.new ≡ with_line self.old samples.now) }
        ensures added { IfOk result (λ added. added ≡ not (set.contains self.old.lines samples.now)) }
        ensures no_memory { set.contains self.old.lines samples.now ≡ true → IsOk result }
    {
        if let Some(fault) = find_samples_fault(samples, self.packed.precision, self.packed.width) {
            return Err(fault);
        }
        Ok(self.packed.take(&mut self.slots, samples, &[])?)
    }

    /// The lines, lent.
    fn lines(&self) -> Lines<'_>
        ensures { result ≡ self.now }
    {
        Lines::of(&self.packed, &self.slots)
    }

    /// How many lines are held. Each source is of one of them.
    pub fn len(&self) -> usize
        ensures value { result ≡ length (set.items self.now.lines) }
        ensures sources { AreLineMarksHeld self.now }
    {
        self.lines().len()
    }

    /// The line that has `i` others below it, lent from the set. Lines stand in ascending order of their samples, compared from the first
    /// one on. What is held fits the precision and the width.
    pub fn get(&self, i: usize) -> &[u16]
        requires { i < length (set.items self.now.lines) }
        ensures value { slice_get (set.items self.now.lines) i ≡ Some result.now }
        ensures fitting { samples_fault self.now.precision self.now.width result.now ≡ None }
    {
        self.lines().get(i)
    }

    /// The source numbers of that line in ascending order, lent from the set.
    pub fn sources(&self, i: usize) -> &[u32]
        requires { i < length (set.items self.now.lines) }
        ensures { IfSome (slice_get (set.items self.now.lines) i) (λ samples. result.now ≡ line_sources self.now samples) }
    {
        self.lines().sources(i)
    }

    /// Takes one line that fits, and adds these source numbers to its own.
    fn take(&mut self, samples: &[u16], sources: &[u32]) -> Result<(), AllocError>
        requires { samples_fault self.old.precision self.old.width samples.now ≡ None }
        ensures ok { OnOk result (self.new ≡ with_lines self.old ((samples.now, sources.now) ∷ [])) }
        ensures err { OnErr result (self.new ≡ self.old) }
    {
        self.packed.take(&mut self.slots, samples, sources)?;
        Ok(())
    }

    fn has_same_shape(&self, other: &LineSet) -> bool
        ensures { result ≡ has_same_line_shape self.now other.now }
    {
        self.packed.precision == other.packed.precision && self.packed.width == other.packed.width
    }
}

/// Takes all lines of the other, with their sources.
fn merge_lines(into: &mut LineSet, other: &LineSet) -> Result<(), AllocError>
    requires { has_same_line_shape into.old other.now ≡ true }
    ensures ok { OnOk result (into.new ≡ union_of_lines into.old other.now) }
    ensures err { OnErr result (IsBetween union_of_lines into.old into.new (union_of_lines into.old other.now)) }
    ensures prefix { OnErr result (TakesPrefixOfLines into.old into.new (kept_lines other.now)) }
{
    for i in 0..other.len() {
        into.take(other.get(i), other.sources(i))?;
    }
    Ok(())
}

impl Merge for LineSet {
    ghost use Rattle.jls_partial.specs.LineSet.{has_same_line_shape, union_of_lines};
    ghost use Rattle.jls_partial.specs.LineSetLaws.{line_set_laws};

    ghost same_shape = { has_same_line_shape };

    ghost join = { union_of_lines };

    ghost laws = { line_set_laws };

    /// Takes in the lines of `other`, and their sources. `ShapeDiffers` comes if the precisions or the widths differ, and changes nothing.
    /// After want of memory all that was held is still held, with some of the other's lines and their sources. The same call can then be
    /// made again.
    fn merge(&mut self, other: &LineSet) -> Result<(), MergeFault>
        ensures ok { OnOk result (self.new ≡ union_of_lines self.old other.now) }
        ensures ok_same_shape { OnOk result (has_same_line_shape self.old other.now ≡ true) }
        ensures shape_differs { IsErrOf result ShapeDiffers ↔ (has_same_line_shape self.old other.now ≡ false) }
        ensures unchanged { IsErrOf result ShapeDiffers → self.new ≡ self.old }
        ensures out_of_memory { IsErrOf result OutOfMemory
            → IsBetween union_of_lines self.old self.new (union_of_lines self.old other.now) }
        ensures keeps_shape { has_same_line_shape self.old self.new ≡ true }
        // Each line that was taken has all of its sources.
        ensures prefix { IsErrOf result OutOfMemory → TakesPrefixOfLines self.old self.new (kept_lines other.now) }
    {
        if !self.has_same_shape(other) {
            return Err(MergeFault::ShapeDiffers);
        }
        match merge_lines(self, other) {
            Ok(()) => Ok(()),
            Err(_) => Err(MergeFault::OutOfMemory),
        }
    }
}
