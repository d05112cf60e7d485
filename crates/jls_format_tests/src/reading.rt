//! Segments that are read: each fault where no other is, and the first of two.

use jls_marker::*;

/// The number of the fault of a segment, or 0.
fn fault_of(code: u8, payload: &[u8]) -> u8 {
    match read_segment(code, payload) {
        Ok(_) => 0,
        Err(fault) => fault.number(),
    }
}

/// Frame headers, and the numbers of their faults.
const FRAMES: [(&[u8], u8); 10] = [
    (&[8, 0, 10, 0, 1, 1, 1, 0x11, 0], 0),
    (&[8, 0, 10, 0, 1, 1, 1, 0x11, 7], 0),
    (&[], 1),
    (&[8, 0, 10, 0, 1, 2, 1, 0x11, 0], 1),
    (&[1, 0, 10, 0, 1, 2, 1, 0x21, 0], 1),
    (&[1, 0, 10, 0, 1, 1, 1, 0x11, 0], 2),
    (&[8, 0, 10, 0, 1, 0], 2),
    (&[8, 0, 10, 0, 1, 2, 1, 0x11, 0, 1, 0x11, 0], 2),
    (&[8, 0, 0, 0, 1, 1, 1, 0x21, 0], 2),
    (&[8, 0, 10, 0, 1, 1, 1, 0x21, 0], 3),
];

#[test]
fn frames_are_judged_in_order(rt: HostRuntime) {
    for &(payload, number) in &FRAMES {
        assert!(rt; fault_of(0xF7, payload) == number, "{payload:?}");
    }
}

/// Scan headers, and the numbers of their faults.
const SCANS: [(&[u8], u8); 16] = [
    (&[1, 1, 0, 0, 0, 0], 0),
    (&[1, 1, 0, 0, 1, 0x20], 0),
    (&[2, 1, 0, 2, 0, 0, 1, 0], 0),
    (&[], 1),
    (&[0, 0, 0, 0], 1),
    (&[1, 1, 0, 0, 0], 1),
    (&[5, 1, 0, 2, 0, 3, 0, 4, 0, 5, 0, 0, 1, 0], 1),
    (&[2, 1, 0, 1, 0, 0, 1, 0], 11),
    (&[2, 1, 3, 1, 0, 0, 1, 0], 11),
    (&[2, 1, 3, 2, 0, 0, 1, 0], 8),
    (&[2, 1, 3, 2, 0, 1, 1, 0], 8),
    (&[1, 1, 0, 1, 2, 0], 6),
    (&[1, 1, 0, 0, 2, 0], 7),
    (&[2, 1, 0, 2, 0, 0, 0, 0], 7),
    (&[1, 1, 0, 0, 2, 1], 7),
    (&[1, 1, 0, 0, 0, 1], 9),
];

#[test]
fn scans_are_judged_in_order(rt: HostRuntime) {
    for &(payload, number) in &SCANS {
        assert!(rt; fault_of(0xDA, payload) == number, "{payload:?}");
    }
}

/// The number of the fault of a scan header under a profile, or 0.
fn scan_fault_under(profile: Profile, payload: &[u8]) -> u8 {
    match read_segment_under(profile, 0xDA, payload) {
        Ok(_) => 0,
        Err(fault) => fault.number(),
    }
}

/// Scan headers, and the numbers of their faults under the strict profile and under the wide one.
const PROFILED_SCANS: [(&[u8], u8, u8); 10] = [
    (&[2, 1, 0, 2, 0, 0, 1, 0], 0, 0),
    (&[2, 1, 0, 2, 0, 0, 2, 0], 7, 0),
    (&[4, 1, 0, 2, 0, 3, 0, 4, 0, 0, 2, 0x20], 7, 0),
    (&[2, 1, 0, 2, 0, 0, 0, 0], 7, 7),
    (&[2, 1, 0, 2, 0, 0, 3, 0], 7, 7),
    (&[1, 1, 0, 0, 2, 0], 7, 7),
    (&[2, 1, 0, 2, 0, 0, 2, 1], 7, 9),
    (&[2, 1, 0, 2, 0, 1, 2, 0], 6, 6),
    (&[2, 1, 0, 2, 7, 1, 2, 0], 8, 8),
    (&[2, 1, 0, 1, 0, 0, 2, 0], 11, 11),
];

#[test]
fn scans_are_judged_under_both_profiles(rt: HostRuntime) {
    for &(payload, strict, wide) in &PROFILED_SCANS {
        assert!(rt;
            scan_fault_under(Profile::Strict, payload) == strict,
            "{payload:?}"
        );
        assert!(rt;
            scan_fault_under(Profile::Wide, payload) == wide,
            "{payload:?}"
        );
    }
}

/// Other segments by code and payload, and the numbers of their faults.
const OTHER_SEGMENTS: [(u8, &[u8], u8); 15] = [
    (0xF8, &[1, 0, 15, 0, 0, 0, 0, 0, 0, 0, 0], 0),
    (0xF8, &[2], 0),
    (0xF8, &[3, 9, 9], 0),
    (0xF8, &[], 1),
    (0xF8, &[1, 0], 1),
    (0xF8, &[4], 13),
    (0xDD, &[5], 1),
    (0xDD, &[0, 0, 0, 0, 5], 1),
    (0xE0, &[], 0),
    (0xEF, &[1, 2, 3], 0),
    (0xFE, &[0x41], 0),
    (0xC9, &[], 14),
    (0xD8, &[], 14),
    (0xD0, &[], 14),
    (0x00, &[], 14),
];

#[test]
fn other_segments_are_judged_in_order(rt: HostRuntime) {
    for &(code, payload, number) in &OTHER_SEGMENTS {
        assert!(rt;
            fault_of(code, payload) == number && has_segment(code) == (number != 14),
            "{code:x} {payload:?}"
        );
    }
}

/// Payloads of DRI, and the restart intervals that they set.
const RESTART_INTERVALS: [(&[u8], u32); 6] = [
    (&[0, 1], 1),
    (&[0xFF, 0xFF], 65535),
    (&[1, 0, 0], 65536),
    (&[0, 0, 0], 0),
    (&[0, 0, 0, 5], 5),
    (&[0xFF, 0xFF, 0xFF, 0xFF], 4294967295),
];

#[test]
fn restart_intervals_have_two_to_four_bytes(rt: HostRuntime) {
    for &(payload, want) in &RESTART_INTERVALS {
        assert!(rt; read_segment(0xDD, payload) == Ok(Segment::Restart(want)));
    }
}

#[test]
fn faults_have_their_numbers(rt: HostRuntime) {
    for (fault, number) in [
        (MarkerFault::Length, 1),
        (MarkerFault::PointTransform, 9),
        (MarkerFault::NoMarker, 17),
        (MarkerFault::Ended, 19),
    ] {
        assert!(rt; fault.number() == number, "{number}");
    }
}

/// The components that a scan selects, whether they are by line, and why they are refused.
const SELECTIONS: [(&[u8], bool, Option<MarkerFault>); 5] = [
    (&[], false, Some(MarkerFault::Length)),
    (&[1, 1, 1, 1, 1], false, Some(MarkerFault::Length)),
    (&[1, 2, 1], false, Some(MarkerFault::RepeatedComponent)),
    (&[1, 2], false, Some(MarkerFault::Interleave)),
    (&[1, 2, 3, 4], true, None),
];

#[test]
fn selections_are_refused_in_order(rt: HostRuntime) {
    for &(ids, line, fault) in &SELECTIONS {
        assert!(rt; ScanHead::new(ids, line).err() == fault, "{ids:?}");
    }
}

/// The components that a scan by sample selects, and why they are refused.
const SELECTIONS_BY_SAMPLE: [(&[u8], Option<MarkerFault>); 5] = [
    (&[], Some(MarkerFault::Length)),
    (&[1, 1, 1, 1, 1], Some(MarkerFault::Length)),
    (&[1, 2, 1], Some(MarkerFault::RepeatedComponent)),
    (&[1], Some(MarkerFault::Interleave)),
    (&[1, 2, 3, 4], None),
];

#[test]
fn selections_by_sample_are_refused_in_order(rt: HostRuntime) {
    for &(ids, fault) in &SELECTIONS_BY_SAMPLE {
        assert!(rt; ScanHead::new_by_sample(ids).err() == fault, "{ids:?}");
    }
}
