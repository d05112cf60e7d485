//! Sets of source numbers: each call, and the order of what is lent.

use jls_values::*;
use std::alloc::Global;
use std::test::Fail;

/// The number 3 and those of a set, which was merged twice.
fn merged_twice(alloc: Global, set: &SourceSet) -> Result<SourceSet, Fail> {
    let mut other = SourceSet::empty(alloc);
    other.add(3)?;
    for _ in 0..2 {
        other.merge(set)?;
    }
    Ok(other)
}

#[test]
fn numbers_are_kept_once_and_lent_in_order(rt: HostRuntime) -> Result<(), Fail> {
    let mut held = SourceSet::empty(rt.alloc());
    for (number, new) in [
        (7, true),
        (2, true),
        (7, false),
        (u32::MAX, true),
        (0, true),
    ] {
        assert!(rt; held.add(number) == Ok(new), "{number}");
    }
    assert!(rt; held.as_slice() == [0, 2, 7, u32::MAX].as_slice());
    let other = merged_twice(rt.alloc(), &held)?;
    assert!(rt; other.as_slice() == [0, 2, 3, 7, u32::MAX].as_slice());
    Ok(())
}
