//! Stations.

ghost use Rattle.std.specs.Prelude.{◌≡◌, ◌↔◌, true, false, OnOk, OnErr, IfErr, IsErrOf};
ghost use Rattle.jls_values.specs.Join.{IsBetween};
ghost use Rattle.jls_values.specs.declared.merge.MergeFault.TheVariants.{ShapeDiffers, OutOfMemory};
ghost use Rattle.jls_partial.specs.Merging.{TakesPrefix};
ghost use Rattle.jls_partial.specs.Partial.{PartialPicture, has_same_shape, nothing_known, union};
ghost use Rattle.jls_partial.specs.Text.{IsTextOf};
ghost use Rattle.jls_partial.specs.TextPrefix.{text_prefix};
ghost use Rattle.jls_partial.specs.TextMerging.{RefusesText, MergesText, HasOtherHead};
ghost use Rattle.jls_partial.specs.declared.text_merging.MergeTextFault.TheVariants as MergeTextFault;

use jls_partial::{MergeTextFault, Partial};
use jls_values::{Merge, MergeFault, Shape};
use std::alloc::Global;
use std::marker::Model;

/// A place where what is known of one picture comes together. Clauses see it as the partial picture that it holds.
#[derive(Drop)]
pub struct Station {
    held: Partial,
    alloc: Global,
}

impl Model for Station {
    ghost use Rattle.jls_partial.specs.Partial.{PartialPicture, coded_partial};

    ghost Value = { PartialPicture };

    ghost coded = { coded_partial };

    ghost view = { λ s. s.held };
}

impl Station {
    /// A station for pictures of this shape, which holds nothing yet. It takes no memory.
    pub fn new(alloc: Global, shape: Shape) -> Station
        ensures { result ≡ nothing_known shape }
    {
        Station {
            held: Partial::empty(alloc, shape),
            alloc,
        }
    }

    /// A station that holds this partial picture. It takes no memory.
    pub fn holding(alloc: Global, partial: Partial) -> Station
        ensures { result ≡ partial }
    {
        Station {
            held: partial,
            alloc,
        }
    }

    /// Where it takes memory.
    pub(crate) fn allocator(&self) -> Global {
        self.alloc
    }

    /// Takes in the readings of a partial picture. At `ShapeDiffers` nothing has changed. After `OutOfMemory` all that was held is still
    /// held, with some or all of the other's readings. The same call can then be made again.
    pub fn take(&mut self, other: &Partial) -> Result<(), MergeFault>
        ensures ok { OnOk result (self.new ≡ union self.old other.now) }
        ensures ok_same_shape { OnOk result (has_same_shape self.old other.now ≡ true) }
        ensures shape_differs { IsErrOf result ShapeDiffers ↔ (has_same_shape self.old other.now ≡ false) }
        ensures unchanged { IsErrOf result ShapeDiffers → self.new ≡ self.old }
        ensures out_of_memory { IsErrOf result OutOfMemory → IsBetween union self.old self.new (union self.old other.now) }
    {
        self.held.merge(other)
    }

    /// Takes in the readings of the partial picture whose text the bytes are, as `Partial::merge_text` does. The fault of a text comes
    /// before `ShapeDiffers`. A refused text may have given those of its readings that stand before the fault. If memory ran out, the same
    /// call can be made again.
    pub fn take_text(&mut self, bytes: &[u8]) -> Result<(), MergeTextFault>
        ensures ok { OnOk result (MergesText self.old bytes.now self.new) }
        ensures refused { IfErr result (λ fault. RefusesText self.old bytes.now fault) }
        ensures unchanged { IsErrOf result MergeTextFault.ShapeDiffers → self.new ≡ self.old }
        // Whatever the answer.
        ensures other_head { HasOtherHead self.old bytes.now → self.new ≡ self.old }
        // What is held after a fault.
        ensures prefix { OnErr result (TakesPrefix self.old self.new (text_prefix bytes.now)) }
        // Where memory ran out for what is a text.
        ensures between { (p : PartialPicture) → IsTextOf bytes.now p
            → OnErr result (IsBetween union self.old self.new (union self.old p)) }
    {
        self.held.merge_text(self.alloc, bytes)
    }

    /// What the station holds.
    pub fn partial(&self) -> &Partial
        ensures { result.now ≡ self.now }
    {
        &self.held
    }
}
