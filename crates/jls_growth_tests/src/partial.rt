//! Partial pictures and their texts.

use crate::met::{Met, Stopped, Tally};
use crate::readings::{CASES, Case, Readings, check_between};
use jls_partial::{InsertFault, MergeTextFault, Partial, TextFault};
use jls_values::{Merge, MergeFault, merge_all};
use std::alloc::{AllocError, Global};
use std::process::Abort;

/// One line of equal samples is inserted into `one`, and then into `twin`, which held the same.
fn insert_one(
    rt: &impl Abort,
    one: &mut Partial,
    twin: &mut Partial,
    line: u16,
    samples: &[u16],
) -> Result<Met, Stopped> {
    let mut met = Met::Done;
    match one.insert(0, line, samples) {
        Ok(added) => assert!(rt; added),
        Err(fault) => {
            met = Met::Refused;
            assert!(rt; fault == InsertFault::OutOfMemory);
            assert!(rt;
                *one == *twin,
                "an insert that was refused has changed something"
            );
            assert!(rt; one.insert(0, line, samples) == Ok(true));
        }
    }
    twin.insert(0, line, samples)?;
    assert!(rt; one.insert(0, line, samples) == Ok(false));
    Ok(met)
}

/// Inserts each reading into each line, the last one first.
fn insert_all(rt: &impl Abort, alloc: Global, readings: Readings<'_>) -> Result<Met, Stopped> {
    let mut met = Met::Done;
    let mut one = Partial::empty(alloc, readings.shape()?);
    let mut twin = Partial::empty(alloc, readings.shape()?);
    for sample in readings.samples.iter().rev() {
        let samples = vec![in alloc; u16::from(*sample); readings.width as usize]?;
        for line in 0..readings.height {
            if let Met::Refused = insert_one(rt, &mut one, &mut twin, line, &samples)? {
                met = Met::Refused;
            }
        }
    }
    assert!(rt; one == readings.partial(alloc)?);
    Ok(met)
}

#[test]
fn insert(rt: HostRuntime) {
    let mut tally = Tally::of("Partial::insert");
    for case in CASES {
        tally.note(&rt, insert_all(&rt, rt.alloc(), case.both()));
    }
    assert!(rt; tally.is_single());
}

/// What was held, what both are together, and what is held now.
#[derive(Drop)]
struct Held {
    old: Partial,
    union: Partial,
    now: Partial,
}

impl Held {
    fn of(alloc: Global, old: Readings<'_>, union: Readings<'_>) -> Result<Held, Stopped> {
        Ok(Held {
            old: old.partial(alloc)?,
            union: union.partial(alloc)?,
            now: old.partial(alloc)?,
        })
    }

    fn check_refused(&self, rt: &impl Abort, alloc: Global) -> Result<(), Stopped> {
        check_between(rt, alloc, &self.old, &self.now, &self.union)
    }
}

/// Merges a picture into another.
fn merge_one(rt: &impl Abort, alloc: Global, case: &Case<'_>) -> Result<Met, Stopped> {
    let mut met = Met::Done;
    let mut held = Held::of(alloc, case.held(), case.both())?;
    let other = case.taken().partial(alloc)?;
    if let Err(fault) = held.now.merge(&other) {
        met = Met::Refused;
        assert!(rt; fault == MergeFault::OutOfMemory);
        held.check_refused(rt, alloc)?;
        assert!(rt; held.now.merge(&other) == Ok(()));
    }
    assert!(rt; held.now == held.union);
    Ok(met)
}

#[test]
fn merge(rt: HostRuntime) {
    let mut tally = Tally::of("Partial::merge");
    for case in &CASES {
        tally.note(&rt, merge_one(&rt, rt.alloc(), case));
    }
    assert!(rt; tally.is_single());
}

/// Merges pictures with the same readings under two sources into one under none.
fn merge_sources(rt: &impl Abort, alloc: Global, case: &Case<'_>) -> Result<Met, Stopped> {
    let mut met = Met::Done;
    let readings = case.both();
    let mut held = Held::of(alloc, readings, readings.under(&[7, 9]))?;
    let others = [
        readings.under(&[9]).partial(alloc)?,
        readings.under(&[7]).partial(alloc)?,
    ];
    if let Err(fault) = merge_all(&mut held.now, &others) {
        met = Met::Refused;
        assert!(rt; fault == MergeFault::OutOfMemory);
        held.check_refused(rt, alloc)?;
        assert!(rt; merge_all(&mut held.now, &others) == Ok(()));
    }
    assert!(rt; held.now == held.union);
    Ok(met)
}

#[test]
fn merge_all_of_two(rt: HostRuntime) {
    let mut tally = Tally::of("merge_all");
    for case in &CASES {
        tally.note(&rt, merge_sources(&rt, rt.alloc(), case));
    }
    assert!(rt; tally.is_single());
}

/// Marks each reading with a source.
fn mark_one(rt: &impl Abort, alloc: Global, case: &Case<'_>) -> Result<Met, Stopped> {
    let mut met = Met::Done;
    let readings = case.both();
    let mut held = Held::of(alloc, readings, readings.under(&[7]))?;
    if let Err(AllocError) = held.now.mark(7) {
        met = Met::Refused;
        held.check_refused(rt, alloc)?;
        assert!(rt; held.now.mark(7) == Ok(()));
    }
    assert!(rt; held.now == held.union);
    Ok(met)
}

#[test]
fn mark(rt: HostRuntime) {
    let mut tally = Tally::of("Partial::mark");
    for case in &CASES {
        tally.note(&rt, mark_one(&rt, rt.alloc(), case));
    }
    assert!(rt; tally.is_single());
}

/// Merges the text of a picture.
fn merge_text_of(rt: &impl Abort, alloc: Global, case: &Case<'_>) -> Result<Met, Stopped> {
    let mut met = Met::Done;
    let mut held = Held::of(alloc, case.held(), case.both())?;
    let text = case.taken().text(alloc)?;
    if let Err(fault) = held.now.merge_text(alloc, &text) {
        met = Met::Refused;
        assert!(rt; fault == MergeTextFault::Text(TextFault::OutOfMemory));
        held.check_refused(rt, alloc)?;
        assert!(rt; held.now.merge_text(alloc, &text) == Ok(()));
    }
    assert!(rt; held.now == held.union);
    Ok(met)
}

#[test]
fn merge_text(rt: HostRuntime) {
    let mut tally = Tally::of("Partial::merge_text");
    for case in &CASES {
        tally.note(&rt, merge_text_of(&rt, rt.alloc(), case));
    }
    assert!(rt; tally.is_single());
}

/// Reads the text of a picture that was put together reading by reading.
fn read_text(rt: &impl Abort, alloc: Global, case: &Case<'_>) -> Result<Met, Stopped> {
    let text = case.both().under(&[0, 4_294_967_295]).text(alloc)?;
    let mut met = Met::Done;
    let mut read = Partial::from_bytes(alloc, &text);
    if let Err(fault) = &read {
        met = Met::Refused;
        assert!(rt; *fault == TextFault::OutOfMemory);
        read = Partial::from_bytes(alloc, &text);
    }
    let read = read?;
    assert!(rt; read.to_bytes(alloc)? == text);
    Ok(met)
}

#[test]
fn from_bytes(rt: HostRuntime) {
    let mut tally = Tally::of("Partial::from_bytes");
    for case in &CASES {
        tally.note(&rt, read_text(&rt, rt.alloc(), case));
    }
    assert!(rt; tally.is_single());
}

/// Writes the text of a picture.
fn write_text(rt: &impl Abort, alloc: Global, case: &Case<'_>) -> Result<Met, Stopped> {
    let text = case.both().under(&[3]).text(alloc)?;
    let partial = Partial::from_bytes(alloc, &text)?;
    let mut met = Met::Done;
    let mut written = partial.to_bytes(alloc);
    if written.is_err() {
        met = Met::Refused;
        written = partial.to_bytes(alloc);
    }
    assert!(rt; written? == text);
    Ok(met)
}

#[test]
fn to_bytes(rt: HostRuntime) {
    let mut tally = Tally::of("Partial::to_bytes");
    for case in &CASES {
        tally.note(&rt, write_text(&rt, rt.alloc(), case));
    }
    assert!(rt; tally.is_single());
}
