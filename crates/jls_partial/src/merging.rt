//! The union of partial pictures.

ghost use Rattle.jls_partial.specs.Entries.{kept_at_place, kept_readings};
ghost use Rattle.jls_partial.specs.Held.{IsLineEntry};
ghost use Rattle.jls_partial.specs.LineSet.{kept_lines};
ghost use Rattle.jls_partial.specs.Merging.{TakesPrefix};
ghost use Rattle.jls_partial.specs.Partial.{with_all, has_same_shape, union};
ghost use Rattle.jls_partial.specs.Text.{entries};
ghost use Rattle.jls_values.specs.Join.{IsBetween};
ghost use Rattle.jls_values.specs.declared.merge.MergeFault.TheVariants.{ShapeDiffers, OutOfMemory};
ghost use Rattle.std.specs.Prelude.{◌≡◌, ◌↔◌, map, true, false, OnOk, OnErr, IsErrOf};

use crate::line_place::LinePlace;
use crate::lines::Lines;
use crate::partial::Partial;
use jls_values::{Merge, MergeFault};
use std::alloc::AllocError;

/// Takes the readings of one line, with their sources.
fn merge_line(into: &mut Partial, at: LinePlace, lines: &Lines<'_>) -> Result<(), AllocError>
    requires { IsLineEntry into.old.shape (at, lines.now) }
    ensures ok { OnOk result (into.new ≡ with_all into.old (map (kept_at_place at) (kept_lines lines.now))) }
    ensures err { OnErr result (TakesPrefix into.old into.new (map (kept_at_place at) (kept_lines lines.now))) }
{
    for i in 0..lines.len() {
        into.take(at, lines.get(i), lines.sources(i))?;
    }
    Ok(())
}

/// Takes the readings of all lines.
fn merge_entries(into: &mut Partial, other: &Partial) -> Result<(), AllocError>
    requires { into.old.shape ≡ other.now.shape }
    ensures ok { OnOk result (into.new ≡ with_all into.old (kept_readings (entries other.now))) }
    ensures err { OnErr result (TakesPrefix into.old into.new (kept_readings (entries other.now))) }
{
    for (at, lines) in other.entries() {
        merge_line(into, at, &lines)?;
    }
    Ok(())
}

impl Merge for Partial {
    ghost use Rattle.jls_partial.specs.Partial.{has_same_shape, union};
    ghost use Rattle.jls_partial.specs.PartialLaws.{partial_laws};

    ghost same_shape = { has_same_shape };

    ghost join = { union };

    ghost laws = { partial_laws };

    /// Takes in the readings of `other`, and their sources. At `ShapeDiffers` nothing has changed. After want of memory all that was held
    /// is still held, with some of the other's readings and their sources. The same call can then be made again.
    fn merge(&mut self, other: &Partial) -> Result<(), MergeFault>
        ensures ok { OnOk result (self.new ≡ union self.old other.now) }
        ensures ok_same_shape { OnOk result (has_same_shape self.old other.now ≡ true) }
        ensures shape_differs { IsErrOf result ShapeDiffers ↔ (has_same_shape self.old other.now ≡ false) }
        ensures unchanged { IsErrOf result ShapeDiffers → self.new ≡ self.old }
        ensures out_of_memory { IsErrOf result OutOfMemory → IsBetween union self.old self.new (union self.old other.now) }
        ensures keeps_shape { has_same_shape self.old self.new ≡ true }
        // Each reading that was taken has all of its sources.
        ensures prefix { IsErrOf result OutOfMemory → TakesPrefix self.old self.new (kept_readings (entries other.now)) }
    {
        if *self.shape() != *other.shape() {
            return Err(MergeFault::ShapeDiffers);
        }
        match merge_entries(self, other) {
            Ok(()) => Ok(()),
            Err(_) => Err(MergeFault::OutOfMemory),
        }
    }
}
