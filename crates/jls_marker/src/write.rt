//! Writing marker segments.

ghost use Rattle.std.specs.Prelude.{◌≡◌, ◌≤◌, ◌+◌, ◌∷◌, ◌++◌, length, OnOk, OnErr, Ok};
ghost use Rattle.jls_values.specs.Shape.{IsShape};
ghost use Rattle.jls_marker.specs.Layouts.{preset_bytes};
ghost use Rattle.jls_marker.specs.ScanSelection.{IsScanSelection};
ghost use Rattle.jls_marker.specs.Segments.{segment_under};
ghost use Rattle.jls_marker.specs.Written as written;
ghost use Rattle.jls_marker.specs.declared.profile.Profile.{Profile};

use crate::codes::{DRI, LSE, SOF55, SOS};
use crate::scan_head::ScanHead;
use crate::segment::Segment;
use arrayvec::ArrayVec;
use jls_values::Shape;
use std::alloc::AllocError;

/// The payload of a frame header of four components, which is the longest that is written, has 18 bytes.
type Payload = ArrayVec<u8, 18>;

fn frame_payload(frame: &Shape) -> Payload
    ensures value { result.items ≡ written.frame_payload frame.now }
    ensures ranges { IsShape frame.now }
{
    let [y1, y0] = frame.height().to_be_bytes();
    let [x1, x0] = frame.width().to_be_bytes();
    let mut rest = frame.ids();
    let count = rest.len() as u8;
    let mut payload = ArrayVec::new();
    payload
        .try_extend_from_slice(&[frame.precision(), y1, y0, x1, x0, count])
        .unwrap();
    while let [id, more @ ..] = rest {
        payload.try_extend_from_slice(&[*id, 0x11, 0]).unwrap();
        rest = more;
    }
    payload
}

fn scan_payload(head: &ScanHead) -> Payload
    ensures value { result.items ≡ written.scan_payload head.now }
    ensures ranges { IsScanSelection head.now }
{
    let mut rest = head.ids();
    let mut payload = ArrayVec::new();
    payload.push(rest.len() as u8);
    while let [id, more @ ..] = rest {
        payload.try_extend_from_slice(&[*id, 0]).unwrap();
        rest = more;
    }
    let interleave = if head.by_sample() {
        2
    } else if head.line() {
        1
    } else {
        0
    };
    payload.try_extend_from_slice(&[0, interleave, 0]).unwrap();
    payload
}

fn preset_payload(maxval: u16, t1: u16, t2: u16, t3: u16, reset: u16) -> Payload
    ensures { result.items ≡ 1 ∷ preset_bytes (record { maxval = maxval; t1 = t1; t2 = t2; t3 = t3; reset = reset }) }
{
    let [a1, a0] = maxval.to_be_bytes();
    let [b1, b0] = t1.to_be_bytes();
    let [c1, c0] = t2.to_be_bytes();
    let [d1, d0] = t3.to_be_bytes();
    let [e1, e0] = reset.to_be_bytes();
    let bytes = [1, a1, a0, b1, b0, c1, c0, d1, d0, e1, e0];
    ArrayVec::try_from(bytes.as_slice()).unwrap()
}

fn restart_payload(rows: u32) -> Payload
    ensures { result.items ≡ written.restart_payload rows }
{
    let bytes = rows.to_be_bytes();
    if rows < 1 << 16 {
        ArrayVec::try_from(&bytes[2..]).unwrap()
    } else if rows < 1 << 24 {
        ArrayVec::try_from(&bytes[1..]).unwrap()
    } else {
        ArrayVec::try_from(bytes.as_slice()).unwrap()
    }
}

/// Appends a whole segment in one growth.
fn put(out: &mut Vec<u8>, code: u8, payload: &[u8]) -> Result<(), AllocError>
    requires { length payload.now ≤ 18 }
    ensures written { OnOk result (out.new.items ≡ out.old.items ++ written.segment_bytes code payload.now) }
    ensures unchanged { OnErr result (out.new.items ≡ out.old.items) }
{
    let [high, low] = (payload.len() as u16 + 2).to_be_bytes();
    let mut bytes: ArrayVec<u8, 22> = ArrayVec::new();
    bytes
        .try_extend_from_slice(&[0xFF, code, high, low])
        .unwrap();
    bytes.try_extend_from_slice(payload).unwrap();
    out.extend_from_slice(&bytes)
}

/// Appends a segment: its marker, the length, and a payload that is read as this segment under each profile that reads such scans. Tq and
/// Ah are 0, and Ri takes as few of two, three and four bytes as it needs. It can't be one that was skipped, of which nothing was kept.
/// Where memory is refused nothing is appended.
pub fn write_segment(out: &mut Vec<u8>, segment: &Segment) -> Result<(), AllocError>
    requires { written.CanBeWritten segment.now }
    ensures written { OnOk result (out.new.items ≡ out.old.items
        ++ written.segment_bytes (written.code_of segment.now) (written.payload_of segment.now)) }
    ensures reads_back { (profile : Profile) → written.IsSegmentOfProfile profile segment.now
        → segment_under profile (written.code_of segment.now) (written.payload_of segment.now) ≡ Ok segment.now }
    ensures unchanged { OnErr result (out.new.items ≡ out.old.items) }
{
    match segment {
        Segment::Frame(frame) => put(out, SOF55, &frame_payload(frame)),
        Segment::Scan(head) => put(out, SOS, &scan_payload(head)),
        Segment::Preset {
            maxval,
            t1,
            t2,
            t3,
            reset,
        } => put(out, LSE, &preset_payload(*maxval, *t1, *t2, *t3, *reset)),
        Segment::Restart(rows) => put(out, DRI, &restart_payload(*rows)),
        Segment::Skipped(_) => unreachable!(),
    }
}
