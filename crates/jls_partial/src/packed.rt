//! Lines in one packed list of samples, with their slots in ascending order.

ghost use Rattle.std.specs.Cmp.Lexicographic.{slice_cmp};
ghost use Rattle.std.specs.List.{AllByRecursion, insert};
ghost use Rattle.std.specs.List.Sorted.{IsStrictlySortedBy};
ghost use Rattle.std.specs.Ordering.{nat_cmp};
ghost use Rattle.std.specs.Prelude.{◌≡◌, ◌<◌, ◌≤◌, ◌+◌, ◌++◌, [], length, take, drop, IfOk, IfErr, OnOk, OnErr, slice_index_or};
ghost use Rattle.jls_partial.specs.Slots.{slots_of, HasRoom};
ghost use Rattle.jls_partial.specs.Packed.{lines_of, IsGap};

use crate::slots::{Fork, Slots, Tree};
use std::alloc::AllocError;
use std::cmp::Ordering;

/// The samples that begin at a place of the store.
pub(crate) fn samples_at(packed: &[u16], width: u16, start: usize) -> &[u16]
    requires { start + width ≤ length packed.now }
    ensures { result.now ≡ take width (drop start packed.now) }
{
    let (_, rest) = packed.split_at(start);
    let (samples, _) = rest.split_at(width as usize);
    samples
}

/// Where these samples stand among those of the slots, or where they belong.
pub(crate) fn find(
    slots: &Slots,
    packed: &[u16],
    width: u16,
    samples: &[u16],
) -> Result<usize, usize>
    requires inside { AllByRecursion (λ s. s.start + width ≤ length packed.now) (slots_of slots.now) }
    requires sorted { IsStrictlySortedBy (slice_cmp nat_cmp) (lines_of width packed.now (slots_of slots.now)) }
    ensures found { IfOk result (λ i. i < length (slots_of slots.now)) }
    ensures same { IfOk result (λ i. slice_index_or (lines_of width packed.now (slots_of slots.now)) i samples.now ≡ samples.now) }
    ensures gap { IfErr result (λ i. IsGap (slice_cmp nat_cmp) (lines_of width packed.now (slots_of slots.now)) i samples.now) }
{
    match slots {
        Slots::Empty => Err(0),
        Slots::Lone(start) => match samples_at(packed, width, *start).cmp(samples) {
            Ordering::Less => Err(1),
            Ordering::Greater => Err(0),
            Ordering::Equal => Ok(0),
        },
        Slots::Many(tree) => find_in_tree(tree, packed, width, samples),
    }
}

/// Where these samples stand among those of the slots of a tree, or where they belong.
fn find_in_tree(tree: &Tree, packed: &[u16], width: u16, samples: &[u16]) -> Result<usize, usize>
    requires inside { AllByRecursion (λ s. s.start + width ≤ length packed.now) tree.now }
    requires sorted { IsStrictlySortedBy (slice_cmp nat_cmp) (lines_of width packed.now tree.now) }
    ensures found { IfOk result (λ i. i < length tree.now) }
    ensures same { IfOk result (λ i. slice_index_or (lines_of width packed.now tree.now) i samples.now ≡ samples.now) }
    ensures gap { IfErr result (λ i. IsGap (slice_cmp nat_cmp) (lines_of width packed.now tree.now) i samples.now) }
{
    // The slots are as many as a `usize` can say: the sums rest on it.
    prove!(tree.len() <= usize::MAX);
    let mut before = 0;
    let mut rest = tree;
    while let Some((left, slot, right)) = rest.parts() {
        let at = before + left.len();
        match samples_at(packed, width, slot.start).cmp(samples) {
            Ordering::Less => {
                before = at + 1;
                rest = right;
            }
            Ordering::Greater => rest = left,
            Ordering::Equal => return Ok(at),
        }
    }
    Err(before)
}

/// Puts a line at its place among the slots. Its slot comes with its room, so nothing changes before the last growth.
pub(crate) fn put(
    slots: &mut Slots,
    packed: &mut Vec<u16>,
    at: usize,
    samples: &[u16],
    new: Box<Fork>,
) -> Result<(), AllocError>
    requires within { at ≤ length (slots_of slots.old) }
    requires fits { length (slots_of slots.old) < length packed.old.items + length samples.now }
    requires room { HasRoom slots.old }
    requires left { new.value.left ≡ [] }
    requires right { new.value.right ≡ [] }
    ensures slots_ok { OnOk result (slots_of slots.new ≡ insert (slots_of slots.old) at new.value.slot) }
    ensures packed_ok { OnOk result (packed.new.items ≡ packed.old.items ++ samples.now) }
    ensures slots_err { OnErr result (slots_of slots.new ≡ slots_of slots.old) }
    ensures packed_err { OnErr result (packed.new.items ≡ packed.old.items) }
{
    packed.extend_from_slice(samples)?;
    slots.insert(at, new);
    Ok(())
}
