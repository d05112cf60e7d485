//! Sets of lines of one width: what is added, and the unions of two.

use jls_partial::{InsertFault, LineSet};
use jls_values::{Merge, MergeFault, merge_all};
use std::alloc::Global;
use std::process::Abort;
use std::test::Fail;

/// Samples, and the answer if they are added one after the other.
const ADDITIONS: [(&[u16], Result<bool, InsertFault>); 5] = [
    (&[5], Ok(true)),
    (&[5], Ok(false)),
    (&[3], Ok(true)),
    (&[256], Err(InsertFault::Sample)),
    (&[256, 0], Err(InsertFault::Width)),
];

/// Adds each of them.
fn check_additions(rt: &impl Abort, lines: &mut LineSet) {
    for &(samples, wanted) in &ADDITIONS {
        assert!(rt; lines.add(samples) == wanted, "{samples:?}");
    }
}

#[test]
fn lines_of_one_width(rt: HostRuntime) {
    let mut lines = LineSet::empty(rt.alloc(), 8, 1);
    check_additions(&rt, &mut lines);
    check_three_and_five(&rt, &lines);
}

/// A set has the lines 3 and 5, and no sources.
fn check_three_and_five(rt: &impl Abort, lines: &LineSet) {
    assert!(rt; lines.len() == 2);
    assert!(rt; lines.get(0) == [3].as_slice());
    assert!(rt; lines.get(1) == [5].as_slice());
    assert!(rt; lines.sources(1).is_empty());
}

/// The set of one line of one sample.
fn line_of(alloc: Global, sample: u16) -> Result<LineSet, Fail> {
    let mut lines = LineSet::empty(alloc, 8, 1);
    lines.add(&[sample])?;
    Ok(lines)
}

/// The set of the line 5 and these, which were merged.
fn five_and(alloc: Global, lines: &LineSet) -> Result<LineSet, Fail> {
    let mut both = line_of(alloc, 5)?;
    both.merge(lines)?;
    Ok(both)
}

/// The set of the line 3, and that of both.
fn three_and_both(alloc: Global) -> Result<[LineSet; 2], Fail> {
    let three = line_of(alloc, 3)?;
    let both = five_and(alloc, &three)?;
    Ok([three, both])
}

#[test]
fn line_sets_joined(rt: HostRuntime) -> Result<(), Fail> {
    let sets = three_and_both(rt.alloc())?;
    let mut all = LineSet::empty(rt.alloc(), 8, 1);
    merge_all(&mut all, &sets)?;
    check_three_and_five(&rt, &all);
    check_other_shapes(&rt, rt.alloc(), &sets);
    Ok(())
}

/// A set of lines of another shape takes none of them.
fn check_other_shapes(rt: &impl Abort, alloc: Global, sets: &[LineSet]) {
    for (precision, width) in [(8, 2), (9, 1)] {
        let mut other = LineSet::empty(alloc, precision, width);
        assert!(rt; merge_all(&mut other, sets) == Err(MergeFault::ShapeDiffers));
        assert!(rt; other.len() == 0);
    }
}
