//! Sets of source numbers, and sets of lines.

use crate::met::{Met, Stopped, Tally};
use jls_partial::{InsertFault, LineSet};
use jls_values::{Merge, MergeFault, SourceSet, merge_all};
use std::alloc::{AllocError, Global};
use std::process::Abort;

/// So many numbers, from this one on, and each two after the one before.
fn sources_from(alloc: Global, first: u32, count: u32) -> Result<SourceSet, AllocError> {
    let mut set = SourceSet::empty(alloc);
    for i in 0..count {
        set.add(first.wrapping_add(i.wrapping_mul(2)))?;
    }
    Ok(set)
}

/// Whether the numbers are these: `first`, and each `step` after the one before.
fn are(numbers: &[u32], first: u32, step: u32, count: u32) -> bool {
    let mut wanted = first;
    for number in numbers {
        if *number != wanted {
            return false;
        }
        wanted = wanted.wrapping_add(step);
    }
    numbers.len() == count as usize
}

/// Adds so many numbers, the last one first.
fn add_sources(rt: &impl Abort, alloc: Global, count: u32) -> Result<Met, Stopped> {
    let mut met = Met::Done;
    let mut set = SourceSet::empty(alloc);
    let mut last = 1_000_000u32;
    for i in 0..count {
        last = last.wrapping_sub(3);
        match set.add(last) {
            Ok(added) => assert!(rt; added),
            Err(AllocError) => {
                met = Met::Refused;
                assert!(rt;
                    are(set.as_slice(), last.wrapping_add(3), 3, i),
                    "{:?}",
                    set.as_slice()
                );
                assert!(rt; set.add(last) == Ok(true));
            }
        }
    }
    assert!(rt; are(set.as_slice(), last, 3, count), "{:?}", set.as_slice());
    Ok(met)
}

#[test]
fn source_set_add(rt: HostRuntime) {
    let mut tally = Tally::of("SourceSet::add");
    for count in [1, 200] {
        tally.note(&rt, add_sources(&rt, rt.alloc(), count));
    }
    assert!(rt; tally.is_single());
}

/// Merges the odd numbers into as many even ones.
fn merge_sources(rt: &impl Abort, alloc: Global, count: u32) -> Result<Met, Stopped> {
    let mut met = Met::Done;
    let mut set = sources_from(alloc, 0, count)?;
    let odd = sources_from(alloc, 1, count)?;
    if let Err(fault) = set.merge(&odd) {
        met = Met::Refused;
        assert!(rt; fault == MergeFault::OutOfMemory);
        assert!(rt; are(set.as_slice(), 0, 2, count), "{:?}", set.as_slice());
        assert!(rt; set.merge(&odd) == Ok(()));
    }
    assert!(rt;
        are(set.as_slice(), 0, 1, count.wrapping_mul(2)),
        "{:?}",
        set.as_slice()
    );
    Ok(met)
}

#[test]
fn source_set_merge(rt: HostRuntime) {
    let mut tally = Tally::of("SourceSet::merge");
    for count in [1, 200] {
        tally.note(&rt, merge_sources(&rt, rt.alloc(), count));
    }
    assert!(rt; tally.is_single());
}

/// A line of this width, of equal samples.
fn line_of(alloc: Global, width: u16, sample: u16) -> Result<Vec<u16>, AllocError> {
    let mut line = Vec::new(alloc);
    for _ in 0..width {
        line.push(sample)?;
    }
    Ok(line)
}

/// So many lines of equal samples: `first`, and each two more than the one before.
fn lines_from(alloc: Global, width: u16, first: u16, count: u16) -> Result<LineSet, Stopped> {
    let mut lines = LineSet::empty(alloc, 16, width.max(1));
    for i in 0..count {
        let sample = first.wrapping_add(i.wrapping_mul(2));
        lines.add(&line_of(alloc, width, sample)?)?;
    }
    Ok(lines)
}

/// Whether the lines are these: of equal samples, `first`, and each `step` more than the one before.
fn are_lines(lines: &LineSet, width: u16, first: u16, step: u16) -> bool {
    let mut wanted = first;
    for i in 0..lines.len() {
        let line = lines.get(i);
        if line.len() != width as usize || !line.iter().all(|sample| *sample == wanted) {
            return false;
        }
        wanted = wanted.wrapping_add(step);
    }
    true
}

/// Adds the odd numbers between so many even ones, each as a line of equal samples.
fn add_lines(rt: &impl Abort, alloc: Global, width: u16, count: u16) -> Result<Met, Stopped> {
    let mut met = Met::Done;
    let mut lines = LineSet::empty(alloc, 16, width.max(1));
    for i in 0..count {
        let line = line_of(alloc, width, i)?;
        match lines.add(&line) {
            Ok(added) => assert!(rt; added),
            Err(fault) => {
                met = Met::Refused;
                assert!(rt; fault == InsertFault::OutOfMemory);
                assert!(rt; lines.len() == i as usize);
                assert!(rt; are_lines(&lines, width, 0, 1));
                assert!(rt; lines.add(&line) == Ok(true));
            }
        }
        assert!(rt; lines.add(&line) == Ok(false));
    }
    assert!(rt; lines.len() == count as usize);
    assert!(rt; are_lines(&lines, width, 0, 1));
    Ok(met)
}

/// The widths, and how many lines there are.
const SIZES: [(u16, u16); 3] = [(1, 1), (1, 100), (500, 4)];

#[test]
fn line_set_add(rt: HostRuntime) {
    let mut tally = Tally::of("LineSet::add");
    for (width, count) in SIZES {
        tally.note(&rt, add_lines(&rt, rt.alloc(), width, count));
    }
    assert!(rt; tally.is_single());
}

/// Whether each line of even samples is still held, and there are no others than the other's.
fn hold_between(lines: &LineSet, even: &LineSet, odd: &LineSet) -> bool {
    let mut others = 0usize;
    for i in 0..lines.len() {
        let line = lines.get(i);
        match line.first() {
            Some(sample) if sample % 2 == 1 => others = others.saturating_add(1),
            _ => {}
        }
    }
    others <= odd.len() && lines.len() == even.len().saturating_add(others)
}

/// Merges the lines of odd samples into as many of even ones.
fn merge_lines(rt: &impl Abort, alloc: Global, width: u16, count: u16) -> Result<Met, Stopped> {
    let mut met = Met::Done;
    let mut lines = lines_from(alloc, width, 0, count)?;
    let even = lines_from(alloc, width, 0, count)?;
    let odd = [lines_from(alloc, width, 1, count)?];
    if let Err(fault) = merge_all(&mut lines, &odd) {
        met = Met::Refused;
        assert!(rt; fault == MergeFault::OutOfMemory);
        assert!(rt; hold_between(&lines, &even, &odd[0]));
        assert!(rt; merge_all(&mut lines, &odd) == Ok(()));
    }
    assert!(rt; lines.len() == 2 * count as usize);
    assert!(rt; are_lines(&lines, width, 0, 1));
    Ok(met)
}

#[test]
fn line_set_merge(rt: HostRuntime) {
    let mut tally = Tally::of("LineSet::merge");
    for (width, count) in SIZES {
        tally.note(&rt, merge_lines(&rt, rt.alloc(), width, count));
    }
    assert!(rt; tally.is_single());
}
