//! Where a known copy is cut: before the first lost byte that is in no scan data, or behind which nothing comes back. No contract speaks of
//! it.

use crate::filling::{Marked, is_marked};

/// Codes of markers (T.81 B.1.1.3).
const RST0: u8 = 0xD0;

const RST7: u8 = 0xD7;

const SOI: u8 = 0xD8;

const EOI: u8 = 0xD9;

const SOS: u8 = 0xDA;

/// What stands between two markers that are no restart markers.
#[derive(Clone, Copy)]
struct Stretch {
    /// Where it ends, after its first byte.
    end: usize,
    /// Whether scan data follows it.
    is_before_scan: bool,
}

/// The code of the marker that stands there.
fn marker_at(bytes: &[u8], at: usize) -> Option<u8> {
    match &bytes[at.min(bytes.len())..] {
        [0xFF, code, ..] if *code >= 0x80 && *code != 0xFF => Some(*code),
        _ => None,
    }
}

/// Where a marker segment ends that begins there. Its length has two bytes, whatever they say.
fn segment_end(bytes: &[u8], at: usize) -> usize {
    match &bytes[at.min(bytes.len())..] {
        [_, _, high, low, ..] => {
            let length = usize::from(u16::from_be_bytes([*high, *low]));
            at.saturating_add(2).saturating_add(length.max(2))
        }
        _ => bytes.len(),
    }
}

/// What stands there, where no scan data does. A byte that begins no marker stands alone.
fn stretch_at(bytes: &[u8], at: usize) -> Stretch {
    let end = match marker_at(bytes, at) {
        Some(EOI) => bytes.len(),
        Some(SOI | RST0..=RST7) => at.saturating_add(2),
        Some(_) => segment_end(bytes, at),
        None => at.saturating_add(1),
    };
    Stretch {
        end,
        is_before_scan: matches!(marker_at(bytes, at), Some(SOS | RST0..=RST7)),
    }
}

/// Where the scan data ends that begins there: before a marker that isn't lost, and is no restart marker.
fn scan_end(bytes: &[u8], is_lost: &[bool], begin: usize) -> usize {
    for at in begin..bytes.len() {
        let is_known = !is_marked(is_lost, at) && !is_marked(is_lost, at.saturating_add(1));
        match marker_at(bytes, at) {
            None | Some(RST0..=RST7) => {}
            Some(_) if is_known => return at,
            Some(_) => {}
        }
    }
    bytes.len()
}

/// The first lost byte of a stretch.
fn first_lost(is_lost: &[bool], begin: usize, end: usize) -> Option<usize> {
    (begin..end).find(|at| is_marked(is_lost, *at))
}

/// Where the last restart marker ends in scan data that isn't lost, or where the scan data begins.
fn last_restart(bytes: &[u8], is_lost: &[bool], begin: usize, end: usize) -> usize {
    let is_restart = |at: &usize| {
        let is_known = !is_marked(is_lost, *at) && !is_marked(is_lost, at.saturating_add(1));
        is_known && matches!(marker_at(bytes, *at), Some(RST0..=RST7))
    };
    match (begin..end).rev().find(is_restart) {
        Some(at) => at.saturating_add(2),
        None => begin,
    }
}

/// Whether no scan follows scan data that ends there.
fn is_last_scan(bytes: &[u8], end: usize) -> bool {
    end >= bytes.len() || marker_at(bytes, end) == Some(EOI)
}

/// Whether other copies can't give what stands behind a lost byte in its restart interval. Copies of another length can be of other
/// codings, which give it.
pub(crate) fn are_as_long(copies: &[Marked<'_>]) -> bool {
    copies
        .windows(2)
        .all(|pair| pair[0].bytes.len() == pair[1].bytes.len())
}

/// Where a copy is cut, or how many bytes it has.
///
/// That is before the first lost byte that is in no scan data. Where nothing comes back behind it, it is the first lost byte of the last
/// restart interval too: the lines before the end of a file are read.
pub(crate) fn cut_of(bytes: &[u8], is_lost: &[bool], is_read_to_end: bool) -> usize {
    let mut at = 0;
    while at < bytes.len() {
        let stretch = stretch_at(bytes, at);
        let end = stretch.end.clamp(at + 1, bytes.len());
        if let Some(cut) = first_lost(is_lost, at, end) {
            return cut;
        }
        at = end;
        if stretch.is_before_scan {
            at = scan_end(bytes, is_lost, end).max(end);
            if !is_read_to_end && is_last_scan(bytes, at) {
                let begin = last_restart(bytes, is_lost, end, at);
                if let Some(cut) = first_lost(is_lost, begin, at) {
                    return cut;
                }
            }
        }
    }
    bytes.len()
}
