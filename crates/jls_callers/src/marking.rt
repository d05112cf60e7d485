//! Callers from whose calls a history begins, or through which it passes: it is known what the partial picture holds.

ghost use Rattle.std.specs.Prelude.{◌≡◌, ◌++◌, List, true, not, OnOk, OnErr, IfOk, IsOk};
ghost use Rattle.jls_partial.specs.InsertFaults.{reading_fault, Refuses};
ghost use Rattle.jls_partial.specs.Marking.{MarksSome};
ghost use Rattle.jls_partial.specs.Partial.{holds, with_reading, with_source};
ghost use Rattle.jls_headline.specs.Collected.{CollectedFrom, CollectedUnder};
ghost use Rattle.jls_headline.specs.CollectedLaws.{read_again};
ghost use Rattle.jls_headline.specs.Sources.{SourcedCopy, copies_of, HoldsExactlyUnder};
ghost use Rattle.jls_headline.specs.Stations.{HoldsExactly};

use jls_headline::marked_copies_are_held;
use jls_partial::{InsertFault, Partial};
use std::alloc::AllocError;

/// Inserts a reading, the last that was missing of those that copies give. A history begins from the partial picture.
pub fn insert_last(
    partial: &mut Partial,
    component: u8,
    line: u16,
    samples: &[u16],
) -> Result<bool, InsertFault>
    ensures readings { (copies : List SourcedCopy) → HoldsExactly (with_reading partial.old component line samples.now) (copies_of copies)
        → OnOk result (CollectedFrom partial.new copies) }
    ensures sources { (copies : List SourcedCopy) → HoldsExactlyUnder (with_reading partial.old component line samples.now) copies
        → OnOk result (CollectedUnder partial.new copies) }
    // Whatever the partial picture came from.
    ensures held { OnOk result (partial.new ≡ with_reading partial.old component line samples.now) }
    ensures added { IfOk result (λ added. added ≡ not (holds partial.old component line samples.now)) }
    ensures refused { Refuses (reading_fault partial.old.shape component line samples.now) result }
    ensures unchanged { OnErr result (partial.new ≡ partial.old) }
    ensures no_memory { holds partial.old component line samples.now ≡ true → IsOk result }
{
    partial.insert(component, line, samples)
}

/// Marks what calls collected with one source more. The history passes through it. For what it says of sources, each copy was then read
/// once more under this source.
pub fn mark_later(partial: &mut Partial, source: u32) -> Result<(), AllocError>
    ensures readings { (copies : List SourcedCopy) → CollectedFrom partial.old copies → CollectedFrom partial.new copies }
    ensures sources { (copies : List SourcedCopy) → CollectedUnder partial.old copies
        → OnOk result (CollectedUnder partial.new (copies ++ read_again source copies)) }
    // Whatever the partial picture came from.
    ensures marked { OnOk result (partial.new ≡ with_source partial.old source) }
    ensures some { OnErr result (MarksSome partial.old source partial.new) }
    ensures completed { OnErr result (with_source partial.new source ≡ with_source partial.old source) }
{
    marked_copies_are_held();
    partial.mark(source)
}
