//! Reading marker segments.

ghost use Rattle.std.specs.Prelude.{◌≡◌, ◌≤◌, ◌==◌, length, map, Some};
ghost use Rattle.std.specs.List.{list_all};
ghost use Rattle.jls_marker.specs.Layouts.{frame_components, frame_header, scan_components, scan_header, preset_parameters};
ghost use Rattle.jls_marker.specs.Layouts.{restart_interval};
ghost use Rattle.jls_marker.specs.Segments.{frame_of, scan_of, preset_of, lse_of, restart_of, segment_of, segment_under};
ghost use Rattle.jls_marker.specs.Profiles as profiles;

use crate::codes::{APP0, APP15, COM, DRI, LSE, SOF55, SOS};
use crate::fault::MarkerFault;
use crate::profile::Profile;
use crate::scan_head::ScanHead;
use crate::segment::Segment;
use arrayvec::ArrayVec;
use jls_values::{Shape, has_repeat};

/// A byte of Hi and Vi, four bits each, of a component that isn't subsampled.
const ONE_BY_ONE: u8 = 0x11;

/// The identifiers in the component specifications of a frame header, of three bytes each.
fn frame_ids(components: &[u8]) -> ArrayVec<u8, 255>
    requires { length components.now ≤ 765 }
    ensures { result.items ≡ map (λ c. c.id) (frame_components components.now) }
{
    let mut ids = ArrayVec::new();
    let mut rest = components;
    while let [id, _, _, more @ ..] = rest {
        ids.push(*id);
        rest = more;
    }
    ids
}

/// Whether none of these components is subsampled.
fn are_one_by_one(components: &[u8]) -> bool
    ensures { result ≡ list_all (λ c. c.sampling == 0x11) (frame_components components.now) }
{
    let mut rest = components;
    while let [_, sampling, _, more @ ..] = rest {
        if *sampling != ONE_BY_ONE {
            return false;
        }
        rest = more;
    }
    true
}

fn read_frame(payload: &[u8]) -> Result<Segment, MarkerFault>
    ensures { result ≡ frame_of (frame_header payload.now) }
{
    let [precision, y1, y0, x1, x0, count, components @ ..] = payload else {
        return Err(MarkerFault::Length);
    };
    if components.len() != 3 * usize::from(*count) {
        return Err(MarkerFault::Length);
    }
    let height = u16::from_be_bytes([*y1, *y0]);
    let width = u16::from_be_bytes([*x1, *x0]);
    let Ok(shape) = Shape::new(*precision, width, height, &frame_ids(components)) else {
        return Err(MarkerFault::BadShape);
    };
    if !are_one_by_one(components) {
        return Err(MarkerFault::Sampling);
    }
    Ok(Segment::Frame(shape))
}

/// The identifiers in the component specifications of a scan header, of two bytes each.
fn scan_ids(components: &[u8]) -> ArrayVec<u8, 4>
    requires { length components.now ≤ 8 }
    ensures { result.items ≡ map (λ c. c.id) (scan_components components.now) }
{
    let mut ids = ArrayVec::new();
    let mut rest = components;
    while let [id, _, more @ ..] = rest {
        ids.push(*id);
        rest = more;
    }
    ids
}

/// Whether none of these components has a mapping table.
fn are_without_table(components: &[u8]) -> bool
    ensures { result ≡ list_all (λ c. c.table == 0) (scan_components components.now) }
{
    let mut rest = components;
    while let [_, table, more @ ..] = rest {
        if *table != 0 {
            return false;
        }
        rest = more;
    }
    true
}

/// Whether a scan of so many components may have this value of ILV.
fn takes_interleave(profile: Profile, count: usize, interleave: u8) -> bool
    ensures { result ≡ profiles.takes_interleave profile count interleave }
{
    let strict = interleave <= 1 && (count <= 1 || interleave == 1);
    match profile {
        Profile::Strict => strict,
        Profile::Wide => strict || (count > 1 && interleave == 2),
    }
}

/// Judges the fields of a scan header of one to four components.
fn judge_scan(
    profile: Profile,
    components: &[u8],
    near: u8,
    interleave: u8,
    approximation: u8,
) -> Result<Segment, MarkerFault>
    requires at_least { 1 ≤ length (scan_components components.now) }
    requires at_most { length components.now ≤ 8 }
    ensures { result ≡ scan_of profile (Some (record {
      components = scan_components components.now;
      near = near;
      interleave = interleave;
      approximation = approximation;
    })) }
{
    let ids = scan_ids(components);
    if has_repeat(&ids) {
        return Err(MarkerFault::RepeatedComponent);
    }
    if !are_without_table(components) {
        return Err(MarkerFault::MappingTable);
    }
    if near != 0 {
        return Err(MarkerFault::Lossy);
    }
    if !takes_interleave(profile, ids.len(), interleave) {
        return Err(MarkerFault::Interleave);
    }
    if approximation % 16 != 0 {
        return Err(MarkerFault::PointTransform);
    }
    Ok(Segment::Scan(ScanHead::of(&ids, interleave == 1, interleave == 2)))
}

fn read_scan(profile: Profile, payload: &[u8]) -> Result<Segment, MarkerFault>
    ensures { result ≡ scan_of profile (scan_header payload.now) }
{
    let [count, body @ ..] = payload else {
        return Err(MarkerFault::Length);
    };
    let size = 2 * usize::from(*count);
    if *count < 1 || *count > 4 || body.len() != size + 3 {
        return Err(MarkerFault::Length);
    }
    judge_scan(
        profile,
        &body[..size],
        body[size],
        body[size + 1],
        body[size + 2],
    )
}

fn read_preset(values: &[u8]) -> Result<Segment, MarkerFault>
    ensures { result ≡ preset_of (preset_parameters values.now) }
{
    let [a1, a0, b1, b0, c1, c0, d1, d0, e1, e0] = values else {
        return Err(MarkerFault::Length);
    };
    Ok(Segment::Preset {
        maxval: u16::from_be_bytes([*a1, *a0]),
        t1: u16::from_be_bytes([*b1, *b0]),
        t2: u16::from_be_bytes([*c1, *c0]),
        t3: u16::from_be_bytes([*d1, *d0]),
        reset: u16::from_be_bytes([*e1, *e0]),
    })
}

fn read_lse(payload: &[u8]) -> Result<Segment, MarkerFault>
    ensures { result ≡ lse_of payload.now }
{
    match payload {
        [] => Err(MarkerFault::Length),
        [1, values @ ..] => read_preset(values),
        [2 | 3, ..] => Ok(Segment::Skipped(LSE)),
        _ => Err(MarkerFault::LseId),
    }
}

fn read_restart(payload: &[u8]) -> Result<Segment, MarkerFault>
    ensures { result ≡ restart_of (restart_interval payload.now) }
{
    match payload {
        [a, b] => Ok(Segment::Restart(u32::from_be_bytes([0, 0, *a, *b]))),
        [a, b, c] => Ok(Segment::Restart(u32::from_be_bytes([0, *a, *b, *c]))),
        [a, b, c, d] => Ok(Segment::Restart(u32::from_be_bytes([*a, *b, *c, *d]))),
        _ => Err(MarkerFault::Length),
    }
}

/// The segment of the marker with this code under the strict profile, where `payload` is what follows its length. Each segment is judged
/// whole, and the first fault in this order is answered. Of SOF55: `Length`, `BadShape`, `Sampling`. Of SOS: `Length`,
/// `RepeatedComponent`, `MappingTable`, `Lossy`, `Interleave`, `PointTransform`. Of LSE: `Length` where it has no ID, `LseId`, and for
/// ID 1 `Length`. Of DRI: `Length`. Any other code that has no segment is `UnknownMarker`. It takes no memory.
pub fn read_segment(code: u8, payload: &[u8]) -> Result<Segment, MarkerFault>
    ensures { result ≡ segment_of code payload.now }
{
    read_segment_under(Profile::Strict, code, payload)
}

/// The same under a profile. Only a scan that is interleaved by sample is judged otherwise under the wide one.
pub fn read_segment_under(
    profile: Profile,
    code: u8,
    payload: &[u8],
) -> Result<Segment, MarkerFault>
    ensures { result ≡ segment_under profile code payload.now }
{
    match code {
        SOF55 => read_frame(payload),
        SOS => read_scan(profile, payload),
        LSE => read_lse(payload),
        DRI => read_restart(payload),
        COM | APP0..=APP15 => Ok(Segment::Skipped(code)),
        _ => Err(MarkerFault::UnknownMarker),
    }
}
