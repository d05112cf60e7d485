//! The pieces of a copy: where the scan data of each restart interval stand.
//!
//! Headers are believed, and what can't stand among them is passed over. A marker in scan data is believed only if what follows speaks for
//! it, since damage makes false ones.

use crate::interval::Interval;
use jls_copy::next_cut;
use jls_marker::codes::{EOI, RST0, RST7, has_segment};
use jls_marker::{Headers, Profile, ScanPlan};
use jls_values::Shape;
use std::alloc::{AllocError, Global};

/// How many segments may stand before a scan header that ends scan data.
const MOST_SEGMENTS: usize = 64;

/// The scan data of an interval.
#[derive(Clone, Copy)]
pub(crate) struct Piece {
    pub(crate) interval: Interval,
    /// Its number among the intervals of its scan.
    pub(crate) number: u32,
    /// Where its bytes stand in the copy. Pieces between which a marker is lost have these in common.
    pub(crate) start: usize,
    pub(crate) end: usize,
    /// Whether it begins where these bytes do. It is unknown where one begins that follows a lost marker.
    pub(crate) begins: bool,
    /// Whether these bytes end with it. Before a header that was put in other bytes can stand.
    pub(crate) ends: bool,
}

/// What the headers and the markers of a copy say.
#[derive(Drop)]
pub(crate) struct Layout {
    pub(crate) shape: Shape,
    pub(crate) scans: Vec<ScanPlan>,
    /// Where the data of the first scan begin.
    pub(crate) data: usize,
    /// In the order of the copy.
    pub(crate) pieces: Vec<Piece>,
    /// Whether EOI stands behind the last.
    pub(crate) has_eoi: bool,
}

/// A restart marker.
#[derive(Clone, Copy)]
struct Mark {
    /// Its offset.
    at: usize,
    /// Its number, from 0 to 7.
    number: u32,
}

/// The payload of a segment whose length stands at this place, if it stands there whole.
fn payload_at(bytes: &[u8], at: usize) -> Option<&[u8]> {
    let high = *bytes.get(at)?;
    let low = *bytes.get(at.saturating_add(1))?;
    let length = usize::from(u16::from_be_bytes([high, low]));
    bytes.get(at.saturating_add(2)..at.saturating_add(length))
}

/// The code and the payload of a segment whose marker stands at this place.
fn segment_at(bytes: &[u8], at: usize) -> Option<(u8, &[u8])> {
    if *bytes.get(at)? != 0xFF {
        return None;
    }
    let code = *bytes.get(at.saturating_add(1))?;
    if !has_segment(code) {
        return None;
    }
    Some((code, payload_at(bytes, at.saturating_add(2))?))
}

/// Where the bytes of a segment end that stands at this place.
fn segment_end(at: usize, payload: &[u8]) -> usize {
    at.saturating_add(4).saturating_add(payload.len())
}

/// Whether segments stand at this place, each behind the other, up to a scan of other components than these.
fn leads_to_scan(headers: &Headers, bytes: &[u8], at: usize, components: &[u8]) -> bool {
    let mut headers = headers.to_owned();
    let mut next = at;
    for _ in 0..MOST_SEGMENTS {
        let Some((code, payload)) = segment_at(bytes, next) else {
            return false;
        };
        match headers.take(code, payload) {
            Err(_) => return false,
            Ok(None) => next = segment_end(next, payload),
            Ok(Some(plan)) => {
                return plan
                    .components()
                    .iter()
                    .all(|component| !components.contains(component));
            }
        }
    }
    false
}

/// Where the data of a scan end that begin at this place: where segments lead to another scan, or where all scan data end.
fn scan_end(headers: &Headers, bytes: &[u8], from: usize, end: usize, plan: &ScanPlan) -> usize {
    let mut at = from;
    for _ in 0..bytes.len() {
        let Some(place) = next_cut(bytes, at) else {
            break;
        };
        if place >= end || leads_to_scan(headers, bytes, place, plan.components()) {
            return place.min(end);
        }
        at = place.saturating_add(1);
    }
    end
}

/// Where EOI stands, if nothing but zeros stands behind it.
fn eoi_of(bytes: &[u8]) -> Option<usize> {
    let mut length = 0usize;
    for (at, byte) in bytes.iter().enumerate() {
        if *byte != 0 {
            length = at.saturating_add(1);
        }
    }
    let place = length.checked_sub(2)?;
    match bytes.get(place..length) {
        Some([0xFF, code]) if *code == EOI => Some(place),
        _ => None,
    }
}

/// The restart markers in a stretch of scan data.
fn marks_in(alloc: Global, bytes: &[u8], from: usize, end: usize) -> Result<Vec<Mark>, AllocError> {
    let mut marks = Vec::new(alloc);
    let mut at = from;
    for _ in from..end {
        let Some(place) = next_cut(bytes, at) else {
            break;
        };
        if place >= end {
            break;
        }
        if let Some(code) = bytes.get(place.saturating_add(1)) {
            if *code >= RST0 && *code <= RST7 {
                marks.push(Mark {
                    at: place,
                    number: u32::from(*code - RST0),
                })?;
            }
        }
        at = place.saturating_add(1);
    }
    Ok(marks)
}

/// How many intervals a mark leads on from this one: to the next interval that can follow such a mark.
fn steps_to(mark: Mark, interval: u32) -> u32 {
    (mark.number.wrapping_add(8).wrapping_sub(interval % 8)) % 8 + 1
}

/// Whether a mark is followed by one of this number, or by none.
fn is_followed(marks: &[Mark], at: usize, number: u32) -> bool {
    match marks.get(at) {
        None => true,
        Some(mark) => mark.number == number % 8,
    }
}

/// Whether the mark of this index is believed, so many intervals on from the interval before it, which is `interval` of so many. The one
/// that is due is believed, unless another of its number stands at its place in the order of those that follow. One that leaves out others
/// is believed if both that follow go on from it, or if it is the last.
fn is_believed(marks: &[Mark], index: usize, interval: u32, steps: u32, count: u32) -> bool {
    let Some(mark) = marks.get(index) else {
        return false;
    };
    let next = index.saturating_add(1);
    let after = index.saturating_add(2);
    let reached = interval.saturating_add(steps);
    if reached >= count {
        return false;
    }
    if steps == 1 {
        let is_repeated = match marks.get(next) {
            None => false,
            Some(other) => {
                other.number == mark.number
                    && is_followed(marks, after, mark.number.saturating_add(1))
            }
        };
        return !is_repeated;
    }
    let goes_on = marks.get(next).is_some()
        && is_followed(marks, next, mark.number.saturating_add(1))
        && is_followed(marks, after, mark.number.saturating_add(2));
    goes_on || reached.saturating_add(1) == count
}

/// The place before the fill bytes that end these bytes. A piece never ends with FF (T.87 A.1).
fn without_fill(bytes: &[u8], start: usize, end: usize) -> usize {
    let mut length = start;
    for at in start..end.min(bytes.len()) {
        if bytes.get(at).copied() != Some(0xFF) {
            length = at.saturating_add(1);
        }
    }
    length
}

/// A scan whose pieces are found.
#[derive(Clone, Copy)]
struct Cutting<'a> {
    bytes: &'a [u8],
    plan: &'a ScanPlan,
    in_frame: u8,
}

impl Cutting<'_> {
    /// Adds so many pieces, which have these bytes in common.
    fn add(
        &self,
        pieces: &mut Vec<Piece>,
        first: u32,
        count: u32,
        start: usize,
        end: usize,
    ) -> Result<(), AllocError> {
        let end = without_fill(self.bytes, start, end);
        for number in first..first.saturating_add(count) {
            if let Some(interval) = Interval::of(self.plan, number, self.in_frame) {
                pieces.push(Piece {
                    interval,
                    number,
                    start,
                    end,
                    begins: number == first,
                    ends: true,
                })?;
            }
        }
        Ok(())
    }

    /// Adds the pieces of the scan, whose data stand there.
    fn add_all(
        &self,
        alloc: Global,
        pieces: &mut Vec<Piece>,
        from: usize,
        end: usize,
    ) -> Result<(), AllocError> {
        let count = self.plan.intervals();
        let mut interval = 0u32;
        let mut start = from;
        if count > 1 {
            let marks = marks_in(alloc, self.bytes, from, end)?;
            for (index, mark) in marks.iter().enumerate() {
                let steps = steps_to(*mark, interval);
                if is_believed(&marks, index, interval, steps, count) {
                    self.add(pieces, interval, steps, start, mark.at)?;
                    interval = interval.saturating_add(steps);
                    start = mark.at.saturating_add(2);
                }
            }
        }
        self.add(pieces, interval, count.saturating_sub(interval), start, end)
    }
}

/// What the headers and the markers of a copy say. `None` comes where there is no frame, or no scan.
pub(crate) fn layout_of(alloc: Global, bytes: &[u8]) -> Result<Option<Layout>, AllocError> {
    let eoi = eoi_of(bytes);
    let data_end = eoi.unwrap_or(bytes.len());
    let mut headers = Headers::under(Profile::Wide);
    let mut scans = Vec::new(alloc);
    let mut pieces = Vec::new(alloc);
    let mut data = 0usize;
    let mut next = 0usize;
    for at in 0..bytes.len() {
        if at < next {
            continue;
        }
        let Some((code, payload)) = segment_at(bytes, at) else {
            continue;
        };
        let Ok(scan) = headers.take(code, payload) else {
            continue;
        };
        next = segment_end(at, payload);
        let (Some(plan), Some(shape)) = (scan, headers.shape()) else {
            continue;
        };
        if scans.is_empty() {
            data = next;
        }
        let end = scan_end(&headers, bytes, next, data_end, &plan);
        let cutting = Cutting {
            bytes,
            plan: &plan,
            in_frame: shape.ids().len() as u8,
        };
        cutting.add_all(alloc, &mut pieces, next, end)?;
        scans.push(plan)?;
        next = end;
    }
    let Some(shape) = headers.shape() else {
        return Ok(None);
    };
    if scans.is_empty() {
        return Ok(None);
    }
    Ok(Some(Layout {
        shape: shape.to_owned(),
        scans,
        data,
        pieces,
        has_eoi: eoi.is_some(),
    }))
}

/// Whether two scans are of the same components, interleaved alike, under the same parameters, with the same restart intervals.
fn are_same_scans(first: &ScanPlan, second: &ScanPlan) -> bool {
    let count = first.intervals();
    if count == 0 || second.intervals() != count {
        return false;
    }
    *first.components() == *second.components()
        && first.by_sample() == second.by_sample()
        && first.params() == second.params()
        && first.rows(0) == second.rows(0)
}

impl Layout {
    /// Notes that it is unknown where the piece ends that stands before this place.
    pub(crate) fn open_end(&mut self, place: usize) {
        let mut start = 0usize;
        for piece in self.pieces.iter() {
            if piece.start <= place {
                start = start.max(piece.start);
            }
        }
        for piece in self.pieces.iter_mut() {
            if piece.start == start {
                piece.ends = false;
            }
        }
    }

    /// Whether the headers of both say the same.
    pub(crate) fn says_as(&self, other: &Layout) -> bool {
        if self.shape != other.shape || self.scans.len() != other.scans.len() {
            return false;
        }
        for (scan, other) in self.scans.iter().zip(&other.scans) {
            if !are_same_scans(scan, other) {
                return false;
            }
        }
        true
    }
}
