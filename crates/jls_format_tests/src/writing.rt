//! Segments that are written, against bytes that were made by hand and by CharLS 2.4.1, which `interop/charls` calls: its files of
//! pictures of 4x2 with one component, of 2x2 with three by line, of 4x3 with three by sample, and of 3x1 of 12 bits with RESET 32.

ghost use Rattle.jls_marker.specs.Written as written;

use jls_marker::*;
use jls_values::Shape;
use std::alloc::{AllocError, Global};
use std::test::Fail;

fn bytes_of(alloc: Global, segment: &Segment) -> Result<Vec<u8>, AllocError>
    requires { written.CanBeWritten segment.now }
{
    let mut bytes = Vec::new(alloc);
    write_segment(&mut bytes, segment)?;
    Ok(bytes)
}

/// Restart intervals, and the segments that set them.
const RESTART_INTERVALS: [(u32, &[u8]); 6] = [
    (1, &[0xFF, 0xDD, 0, 4, 0, 1]),
    (65535, &[0xFF, 0xDD, 0, 4, 0xFF, 0xFF]),
    (65536, &[0xFF, 0xDD, 0, 5, 1, 0, 0]),
    (16777215, &[0xFF, 0xDD, 0, 5, 0xFF, 0xFF, 0xFF]),
    (16777216, &[0xFF, 0xDD, 0, 6, 1, 0, 0, 0]),
    (4294967295, &[0xFF, 0xDD, 0, 6, 0xFF, 0xFF, 0xFF, 0xFF]),
];

#[test]
fn restart_intervals_take_the_fewest_bytes(rt: HostRuntime) -> Result<(), Fail> {
    for &(rows, want) in &RESTART_INTERVALS {
        let bytes = bytes_of(rt.alloc(), &Segment::Restart(rows))?;
        assert!(rt; bytes.as_slice() == want, "{rows}");
    }
    Ok(())
}

#[test]
fn segments_stand_one_after_the_other(rt: HostRuntime) -> Result<(), Fail> {
    let mut bytes = Vec::new(rt.alloc());
    write_segment(&mut bytes, &Segment::Frame(Shape::new(8, 1, 1, &[1, 2])?))?;
    write_segment(
        &mut bytes,
        &Segment::Preset {
            maxval: 15,
            t1: 2,
            t2: 3,
            t3: 4,
            reset: 64,
        },
    )?;
    write_segment(&mut bytes, &Segment::Scan(ScanHead::new(&[1, 2], true)?))?;
    let want = [
        0xFF, 0xF7, 0x00, 0x0E, 0x08, 0x00, 0x01, 0x00, 0x01, 0x02, 0x01, 0x11, 0x00, 0x02, 0x11,
        0x00, 0xFF, 0xF8, 0x00, 0x0D, 0x01, 0x00, 0x0F, 0x00, 0x02, 0x00, 0x03, 0x00, 0x04, 0x00,
        0x40, 0xFF, 0xDA, 0x00, 0x0A, 0x02, 0x01, 0x00, 0x02, 0x00, 0x00, 0x01, 0x00,
    ];
    assert!(rt; bytes.as_slice() == want.as_slice());
    Ok(())
}

#[test]
fn charls_writes_one_component_alike(rt: HostRuntime) -> Result<(), Fail> {
    let frame = Segment::Frame(Shape::new(8, 4, 2, &[1])?);
    let scan = Segment::Scan(ScanHead::new(&[1], false)?);
    let frame_bytes: &[u8] = b"\xFF\xF7\0\x0B\x08\0\x02\0\x04\x01\x01\x11\0";
    let scan_bytes: &[u8] = b"\xFF\xDA\0\x08\x01\x01\0\0\0\0";
    assert!(rt; bytes_of(rt.alloc(), &frame)?.as_slice() == frame_bytes);
    assert!(rt; bytes_of(rt.alloc(), &scan)?.as_slice() == scan_bytes);
    assert!(rt; read_segment(0xF7, &frame_bytes[4..]) == Ok(frame));
    assert!(rt; read_segment(0xDA, &scan_bytes[4..]) == Ok(scan));
    Ok(())
}

/// Whether a segment is written with this payload, which is read as the segment.
fn has_payload(
    alloc: Global,
    segment: &Segment,
    code: u8,
    payload: &[u8],
) -> Result<bool, AllocError>
    requires { written.CanBeWritten segment.now }
{
    let bytes = bytes_of(alloc, segment)?;
    Ok(bytes.get(4..) == Some(payload) && read_segment(code, payload).as_ref() == Ok(segment))
}

#[test]
fn charls_writes_three_components_alike(rt: HostRuntime) -> Result<(), Fail> {
    let frame = Segment::Frame(Shape::new(8, 2, 2, &[1, 2, 3])?);
    let frame_payload = [8, 0, 2, 0, 2, 3, 1, 0x11, 0, 2, 0x11, 0, 3, 0x11, 0];
    assert!(rt; has_payload(rt.alloc(), &frame, 0xF7, &frame_payload)?);
    let scan = Segment::Scan(ScanHead::new(&[1, 2, 3], true)?);
    let scan_payload = [3, 1, 0, 2, 0, 3, 0, 0, 1, 0];
    assert!(rt; has_payload(rt.alloc(), &scan, 0xDA, &scan_payload)?);
    Ok(())
}

#[test]
fn charls_writes_a_scan_by_sample_alike(rt: HostRuntime) -> Result<(), Fail> {
    let scan = Segment::Scan(ScanHead::new_by_sample(&[1, 2, 3])?);
    let payload = [3, 1, 0, 2, 0, 3, 0, 0, 2, 0];
    assert!(rt; bytes_of(rt.alloc(), &scan)?.get(4..) == Some(payload.as_slice()));
    assert!(rt; read_segment(0xDA, &payload) == Err(MarkerFault::Interleave));
    assert!(rt; read_segment_under(Profile::Wide, 0xDA, &payload) == Ok(scan));
    Ok(())
}

#[test]
fn charls_writes_preset_parameters_alike(rt: HostRuntime) -> Result<(), Fail> {
    let preset = Segment::Preset {
        maxval: 4095,
        t1: 18,
        t2: 67,
        t3: 276,
        reset: 32,
    };
    let payload = [1, 0x0F, 0xFF, 0, 0x12, 0, 0x43, 1, 0x14, 0, 0x20];
    assert!(rt; bytes_of(rt.alloc(), &preset)?.get(4..) == Some(payload.as_slice()));
    assert!(rt; read_segment(0xF8, &payload) == Ok(preset));
    Ok(())
}
