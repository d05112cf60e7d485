//! What segments set, in their order, and the intervals of a scan.

use jls_marker::*;
use jls_values::Shape;
use std::test::Fail;

/// A 1x10 frame of component 1, and one of 65,535 by 65,535.
const SMALL: [u8; 9] = [8, 0, 10, 0, 1, 1, 1, 0x11, 0];

const LARGE: [u8; 9] = [8, 0xFF, 0xFF, 0xFF, 0xFF, 1, 1, 0x11, 0];

/// A scan of component 1.
const SCAN: [u8; 6] = [1, 1, 0, 0, 0, 0];

/// MAXVAL 4095, which 8 bits haven't, and all defaults.
const TWELVE_BITS: [u8; 11] = [1, 0x0F, 0xFF, 0, 0, 0, 0, 0, 0, 0, 0];

const DEFAULTS: [u8; 11] = [1, 0, 0, 0, 0, 0, 0, 0, 0, 0, 0];

/// The number of the fault of a segment that is taken, or 0.
fn fault_at(headers: &mut Headers, code: u8, payload: &[u8]) -> u8 {
    match headers.take(code, payload) {
        Ok(_) => 0,
        Err(fault) => fault.number(),
    }
}

/// A segment, and the number of its fault, or 0.
type Row<'a> = (u8, &'a [u8], u8);

/// The first segment of these whose fault has another number.
fn first_other(headers: &mut Headers, rows: &[Row<'_>]) -> Option<usize> {
    for (index, (code, payload, number)) in rows.iter().enumerate() {
        if fault_at(headers, *code, payload) != *number {
            return Some(index);
        }
    }
    None
}

/// Segments of a small picture, one after the other.
const IN_ORDER: [Row<'static>; 11] = [
    (0xDA, &SCAN, 4),
    (0xDA, &[1, 1, 0, 1, 0, 0], 6),
    (0xF8, &TWELVE_BITS, 0),
    (0xF7, &SMALL, 0),
    (0xF7, &SMALL, 5),
    (0xDA, &[1, 2, 0, 0, 0, 0], 10),
    (0xDA, &SCAN, 12),
    (0xF8, &DEFAULTS, 0),
    (0xDA, &SCAN, 0),
    (0xE0, &[], 0),
    (0xC9, &[], 14),
];

#[test]
fn segments_are_taken_in_order(rt: HostRuntime) {
    let mut headers = Headers::new();
    assert_eq!(rt; first_other(&mut headers, &IN_ORDER), None);
    assert!(rt; headers.scans() == 1);
    assert_eq!(rt; headers.shape().map(|shape| shape.height()), Some(10));
}

/// Segments of a large picture, which stand before sixteen scans, and after them.
const BEFORE_SCANS: [Row<'static>; 6] = [
    (0xF7, &LARGE, 0),
    (0xF8, &TWELVE_BITS, 0),
    (0xDA, &SCAN, 12),
    (0xF8, &DEFAULTS, 0),
    (0xDA, &SCAN, 15),
    (0xDD, &[0x10, 0], 0),
];

const SIXTEEN_SCANS: [Row<'static>; 16] = [(0xDA, &SCAN, 0); 16];

const AFTER_SCANS: [Row<'static>; 3] = [(0xDA, &SCAN, 16), (0xDD, &[0, 0], 0), (0xDA, &SCAN, 15)];

#[test]
fn scans_and_their_intervals_are_counted(rt: HostRuntime) {
    let mut headers = Headers::new();
    assert_eq!(rt; first_other(&mut headers, &BEFORE_SCANS), None);
    assert_eq!(rt; first_other(&mut headers, &SIXTEEN_SCANS), None);
    assert_eq!(rt; first_other(&mut headers, &AFTER_SCANS), None);
    assert!(rt; headers.scans() == 16);
}

/// Headers with a frame of 8 bits and of one component, 7.
fn framed(width: u16, height: u16, restart_interval: u32) -> Result<Headers, Fail> {
    let mut headers = Headers::new();
    headers.accept(&Segment::Frame(Shape::new(8, width, height, &[7])?))?;
    headers.accept(&Segment::Restart(restart_interval))?;
    Ok(headers)
}

/// The scan of its component.
fn plan(width: u16, height: u16, restart_interval: u32) -> Result<ScanPlan, Fail> {
    let mut headers = framed(width, height, restart_interval)?;
    let plan = headers.accept(&Segment::Scan(ScanHead::new(&[7], false)?))?;
    Ok(plan.ok_or("no scan")?)
}

/// Restart intervals of a picture of ten lines, and the rows of its intervals.
const ROWS: [(u32, &[(u16, u16)]); 5] = [
    (0, &[(0, 10)]),
    (4, &[(0, 4), (4, 4), (8, 2)]),
    (5, &[(0, 5), (5, 5)]),
    (10, &[(0, 10)]),
    (4294967295, &[(0, 10)]),
];

#[test]
fn intervals_have_their_rows(rt: HostRuntime) -> Result<(), Fail> {
    for &(restart_interval, want) in &ROWS {
        let plan = plan(3, 10, restart_interval)?;
        assert!(rt; are_rows(&plan, want), "{want:?}");
        assert!(rt; plan.components() == [0].as_slice());
        assert!(rt; plan.width() == 3 && plan.params().maxval() == 255);
    }
    Ok(())
}

/// Whether the intervals of a scan have these rows.
fn are_rows(plan: &ScanPlan, want: &[(u16, u16)]) -> bool {
    for k in 0..plan.intervals() {
        if want.get(k as usize) != Some(&plan.rows(k)) {
            return false;
        }
    }
    plan.intervals() as usize == want.len()
}

#[test]
fn an_interval_has_at_most_2_to_the_28_samples(rt: HostRuntime) -> Result<(), Fail> {
    for (width, height, restart_interval, count) in [
        (16384, 16384, 0, 1),
        (16384, 16385, 16384, 2),
        (65535, 65535, 4096, 16),
        (65535, 65535, 1, 65535),
    ] {
        let plan = plan(width, height, restart_interval)?;
        assert!(rt;
            plan.intervals() == count,
            "{width}x{height}, {restart_interval}"
        );
    }
    let mut headers = framed(16384, 16385, 0)?;
    assert!(rt; fault_at(&mut headers, 0xDA, &[1, 7, 0, 0, 0, 0]) == 15);
    Ok(())
}

#[test]
fn components_are_indices_in_the_frame(rt: HostRuntime) -> Result<(), Fail> {
    let mut headers = Headers::new();
    headers.accept(&Segment::Frame(Shape::new(8, 1, 1, &[9, 200, 0, 4])?))?;
    let plan = headers.accept(&Segment::Scan(ScanHead::new(&[4, 9, 200], true)?))?;
    assert!(rt; plan.ok_or("no scan")?.components() == [3, 0, 1].as_slice());
    Ok(())
}
