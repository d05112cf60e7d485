//! Headers that a copy lost, found by the code of lines that other copies give.
//!
//! A damaged place can hide where a scan begins. But the first lines of a scan, coded with its parameters, are bytes of the copy. Before
//! these its header stood. Parameters are supposed: those of the copy's other scans, or those of another copy, or the default ones.

use crate::first_lines::FirstLines;
use crate::interval::Interval;
use crate::pieces::{Layout, layout_of};
use crate::shifts::{Shift, shifts_of};
use jls_marker::ScanPlan;
use jls_marker::codes::{SOF55, SOI, SOS};
use jls_values::Shape;
use std::alloc::{AllocError, Global};

/// How the lines of a scan are interleaved, as its header says it (T.87 C.2.3).
const ONE_COMPONENT: u8 = 0;

const BY_LINE: u8 = 1;

const BY_SAMPLE: u8 = 2;

/// A copy with headers that were found.
#[derive(Drop)]
pub(crate) struct FoundCopy {
    pub(crate) bytes: Vec<u8>,
    /// Where the headers of later scans were put in. Before them other bytes can stand than those of the scan before.
    pub(crate) places: Vec<usize>,
}

/// A segment without its payload: the marker with this code, and the length of so many bytes behind it.
fn segment(alloc: Global, code: u8, length: u16) -> Result<Vec<u8>, AllocError> {
    let mut bytes = Vec::new(alloc);
    bytes.extend_from_slice(&[0xFF, code])?;
    bytes.extend_from_slice(&length.to_be_bytes())?;
    Ok(bytes)
}

/// How many components these are; 0 where a header can't say it.
fn count_of(ids: &[u8]) -> u8 {
    u8::try_from(ids.len()).unwrap_or(0)
}

/// The header of a scan of these components, told by their identifiers (T.81 B.2.3, T.87 C.2.3).
fn scan_header(alloc: Global, ids: &[u8], interleave: u8) -> Result<Vec<u8>, AllocError> {
    let count = count_of(ids);
    let mut bytes = segment(alloc, SOS, 6 + 2 * u16::from(count))?;
    bytes.push(count)?;
    for id in ids {
        bytes.extend_from_slice(&[*id, 0])?;
    }
    bytes.extend_from_slice(&[0, interleave, 0])?;
    Ok(bytes)
}

/// SOI and the frame header of a picture of this shape (T.81 B.2.2, T.87 C.2.2).
fn frame_header(alloc: Global, shape: &Shape) -> Result<Vec<u8>, AllocError> {
    let mut bytes = Vec::new(alloc);
    bytes.extend_from_slice(&[0xFF, SOI])?;
    let ids = shape.ids();
    let count = count_of(ids);
    bytes.extend_from_slice(&segment(alloc, SOF55, 8 + 3 * u16::from(count))?)?;
    bytes.push(shape.precision())?;
    bytes.extend_from_slice(&shape.height().to_be_bytes())?;
    bytes.extend_from_slice(&shape.width().to_be_bytes())?;
    bytes.push(count)?;
    for id in ids {
        bytes.extend_from_slice(&[*id, 0x11, 0])?;
    }
    Ok(bytes)
}

/// These bytes, and then others.
fn joined(alloc: Global, first: &[u8], second: &[u8]) -> Result<Vec<u8>, AllocError> {
    let mut bytes = Vec::from_slice(alloc, first)?;
    bytes.extend_from_slice(second)?;
    Ok(bytes)
}

/// The first interval of the last scan that these headers begin.
fn last_interval(alloc: Global, headers: &[u8]) -> Result<Option<Interval>, AllocError> {
    let Some(layout) = layout_of(alloc, headers)? else {
        return Ok(None);
    };
    let Some(scan) = layout.scans.last() else {
        return Ok(None);
    };
    Ok(Interval::of(scan, 0, layout.shape.ids().len() as u8))
}

/// Where a code begins in a copy. It is sought behind each of these offsets in turn.
fn begin_of(
    alloc: Global,
    code: &[u8],
    copy: &[u8],
    offsets: &[usize],
) -> Result<Option<usize>, AllocError> {
    for from in offsets {
        let Some(bytes) = copy.get(*from..) else {
            continue;
        };
        for shift in shifts_of(alloc, code, bytes, 0)? {
            if let (true, Some(place)) = (shift != Shift::NONE, shift.in_copy(0)) {
                return Ok(Some(from.saturating_add(place)));
            }
        }
    }
    Ok(None)
}

// The header of a later scan --------------------------------------------------------------------------------------------

/// The first component that no scan has, in a copy whose scans have one component each.
fn lost_component(layout: &Layout) -> Option<usize> {
    if layout.scans.iter().any(|scan| scan.components().len() != 1) {
        return None;
    }
    let mut components = 0..layout.shape.ids().len();
    components.find(|component| {
        let is_of = |scan: &ScanPlan| scan
            .components()
            .iter()
            .any(|own| usize::from(*own) == *component);
        !layout.scans.iter().any(is_of)
    })
}

/// Where the header of a component's scan can stand: behind the beginning of the scan before it. If both have the same code, it stands
/// behind a third of these bytes at least.
fn offsets_of(layout: &Layout, component: usize) -> [usize; 2] {
    let mut offsets = [0usize; 2];
    for piece in layout.pieces.iter() {
        if piece.number == 0 && piece.interval.place(0) < component {
            let size = piece.end.saturating_sub(piece.start);
            offsets = [piece.start, piece.start.saturating_add(size / 3)];
        }
    }
    offsets
}

/// A copy with the header of a scan that it lost, in place of what stands there, and its place; `None` where it isn't found.
fn with_scan(
    alloc: Global,
    copy: &[u8],
    layout: &Layout,
    component: usize,
    lines: &FirstLines,
) -> Result<Option<(Vec<u8>, usize)>, AllocError> {
    let ids = layout.shape.ids();
    let (Some(id), Some(begin)) = (ids.get(component), copy.get(..layout.data)) else {
        return Ok(None);
    };
    let header = scan_header(alloc, &[*id], ONE_COMPONENT)?;
    let headers = joined(alloc, begin, &header)?;
    let Some(interval) = last_interval(alloc, &headers)? else {
        return Ok(None);
    };
    let code = lines.code(alloc, &interval)?;
    let offsets = offsets_of(layout, component);
    let Some(place) = begin_of(alloc, &code, copy, &offsets)? else {
        return Ok(None);
    };
    let Some(at) = place.checked_sub(header.len()) else {
        return Ok(None);
    };
    let (Some(before), Some(rest)) = (copy.get(..at), copy.get(place..)) else {
        return Ok(None);
    };
    let found = joined(alloc, &joined(alloc, before, &header)?, rest)?;
    let has_more = match layout_of(alloc, &found)? {
        None => false,
        Some(now) => now.scans.len() > layout.scans.len(),
    };
    Ok(if has_more { Some((found, at)) } else { None })
}

// The first headers -----------------------------------------------------------------------------------------------------

/// The headers before a copy's first scan header.
fn headers_before<'a>(copy: &'a [u8], layout: &Layout) -> &'a [u8] {
    let components = match layout.scans.first() {
        None => 0,
        Some(scan) => scan.components().len(),
    };
    let size = components.saturating_mul(2).saturating_add(8);
    copy.get(..layout.data.saturating_sub(size)).unwrap_or(&[])
}

/// A copy with first headers that fit it.
#[derive(Drop)]
struct Fitting {
    bytes: Vec<u8>,
    /// How many bytes it has where the code of known lines has them.
    same: usize,
}

/// How many bytes of a code stand at the same place of the copy.
fn count_same(code: &[u8], own: &[u8]) -> usize {
    code.iter()
        .zip(own)
        .filter(|(byte, own)| **byte == **own)
        .count()
}

/// A copy with these first headers, if its scan data are found under them. Fill bytes stand before the first segment where there is more
/// room (T.81 B.1.1.2).
fn with_headers(
    alloc: Global,
    copy: &[u8],
    headers: &[u8],
    lines: &FirstLines,
) -> Result<Option<Fitting>, AllocError> {
    let Some(interval) = last_interval(alloc, headers)? else {
        return Ok(None);
    };
    let code = lines.code(alloc, &interval)?;
    let Some(place) = begin_of(alloc, &code, copy, &[0])? else {
        return Ok(None);
    };
    let (Some(fill), Some(rest)) = (place.checked_sub(headers.len()), copy.get(place..)) else {
        return Ok(None);
    };
    let (Some(begin), Some(segments)) = (headers.get(..2), headers.get(2..)) else {
        return Ok(None);
    };
    let mut found = Vec::from_slice(alloc, begin)?;
    for _ in 0..fill {
        found.push(0xFF)?;
    }
    found.extend_from_slice(segments)?;
    found.extend_from_slice(rest)?;
    Ok(Some(Fitting {
        bytes: found,
        same: count_same(&code, rest),
    }))
}

/// A copy that has no headers with those that it may have had, beside another copy: the same but for the interleaving, or a frame header
/// alone before the scan header. It is those by which it has most bytes of known lines. The first line of a component has one code however
/// lines are interleaved.
fn with_first_headers(
    alloc: Global,
    copy: &[u8],
    other: &[u8],
    layout: &Layout,
    lines: &FirstLines,
) -> Result<Option<Vec<u8>>, AllocError> {
    let ids = layout.shape.ids();
    let in_frame = ids.len();
    let frame = frame_header(alloc, &layout.shape)?;
    let begins: [&[u8]; 2] = [headers_before(other, layout), &frame];
    let mut best: Option<Fitting> = None;
    for begin in begins {
        for interleave in [ONE_COMPONENT, BY_LINE, BY_SAMPLE] {
            let scanned = if interleave == ONE_COMPONENT {
                ids.get(..1).unwrap_or(&[])
            } else {
                ids
            };
            if interleave != ONE_COMPONENT && (in_frame < 2 || in_frame > 4) {
                continue;
            }
            let scan = scan_header(alloc, scanned, interleave)?;
            let headers = joined(alloc, begin, &scan)?;
            let Some(fitting) = with_headers(alloc, copy, &headers, lines)? else {
                continue;
            };
            let is_better = match &best {
                None => true,
                Some(best) => fitting.same > best.same,
            };
            if is_better {
                best = Some(fitting);
            }
        }
    }
    Ok(match best {
        None => None,
        Some(fitting) => {
            let Fitting { bytes, .. } = fitting;
            Some(bytes)
        }
    })
}

// Both ------------------------------------------------------------------------------------------------------------------

/// A copy with the headers that it lost; `None` where nothing was found. The layout is that of a copy with headers.
fn with_lost(
    alloc: Global,
    copies: &[&[u8]],
    layouts: &[Option<Layout>],
    number: usize,
    donor: usize,
) -> Result<Option<FoundCopy>, AllocError> {
    let (Some(copy), Some(other), Some(Some(layout))) = (
        copies.get(number),
        copies.get(donor),
        layouts.get(donor),
    ) else {
        return Ok(None);
    };
    let in_frame = layout.shape.ids().len();
    let lines = FirstLines::of(alloc, copies, layouts, number, in_frame)?;
    let mut found: Option<FoundCopy> = None;
    if let Some(None) = layouts.get(number) {
        if let Some(bytes) = with_first_headers(alloc, copy, other, layout, &lines)? {
            found = Some(FoundCopy {
                bytes,
                places: Vec::new(alloc),
            });
        }
    }
    for _ in 1..in_frame {
        let bytes: &[u8] = match &found {
            None => copy,
            Some(found) => &found.bytes,
        };
        let Some(now) = layout_of(alloc, bytes)? else {
            break;
        };
        let Some(component) = lost_component(&now) else {
            break;
        };
        let Some((more, place)) = with_scan(alloc, bytes, &now, component, &lines)? else {
            break;
        };
        let mut places = match found {
            None => Vec::new(alloc),
            Some(found) => {
                let FoundCopy { places, .. } = found;
                places
            }
        };
        places.push(place)?;
        found = Some(FoundCopy {
            bytes: more,
            places,
        });
    }
    Ok(found)
}

/// For each copy the same with headers that it lost: the first ones, or those of later scans of one component each. `None` stands for one
/// that lost none, or of which nothing was found.
pub(crate) fn with_lost_headers(
    alloc: Global,
    copies: &[&[u8]],
) -> Result<Vec<Option<FoundCopy>>, AllocError> {
    let mut layouts = Vec::new(alloc);
    for copy in copies {
        layouts.push(layout_of(alloc, copy)?)?;
    }
    let donor = layouts.iter().position(|layout| layout.is_some());
    let mut all = Vec::new(alloc);
    for (number, layout) in layouts.iter().enumerate() {
        let is_lost = match layout {
            None => true,
            Some(layout) => lost_component(layout).is_some(),
        };
        let found = match (is_lost, donor) {
            (true, Some(donor)) => with_lost(alloc, copies, &layouts, number, donor)?,
            _ => None,
        };
        all.push(found)?;
    }
    Ok(all)
}
