//! Borders of groups: places after a marker in parts that all copies have alike.

ghost use Rattle.std.specs.Prelude.{◌≡◌, ◌<◌, length, IsTrue, IfSome};
ghost use Rattle.jls_diff.specs.PartsOf.{part_of, parts_of};
ghost use Rattle.jls_diff.specs.Borders.{IsMark, IsAfterMark, IsBorder, IsBorderOf};

use crate::part::Part;

/// A place after a restart marker, or after the two bytes of SOS, that stands whole in a part that all copies have alike.
#[derive(Clone, Copy, Debug, PartialEq, Eq)]
pub struct Border {
    /// The number of the part.
    pub part: usize,
    /// How many bytes of the part stand before the place, those of the marker among them.
    pub at: usize,
}

/// The code of SOS (T.81, table B.1).
const SOS: u8 = 0xDA;

/// The code of the first restart marker (T.81, table B.1).
const RST0: u8 = 0xD0;

/// The code of the last restart marker.
const RST7: u8 = 0xD7;

/// Whether it is the code of SOS, or of a restart marker.
pub(crate) fn is_sos_or_restart(code: u8) -> bool
    ensures { IsTrue result → IsMark code }
{
    if code == SOS {
        return true;
    }
    RST0 <= code && code <= RST7
}

/// Whether such a marker ends after so many of the bytes.
fn is_after_mark(bytes: &[u8], at: usize) -> bool
    ensures { IsTrue result → IsAfterMark bytes.now at }
{
    if at < 2 || at > bytes.len() {
        return false;
    }
    bytes[at - 2] == 0xFF && is_sos_or_restart(bytes[at - 1])
}

/// Whether a segment with the length and the count of a scan header stands there (T.81 B.2.3), or a restart marker before it.
fn is_scan_header(bytes: &[u8], at: usize) -> bool {
    let header = &bytes[at.min(bytes.len())..];
    match header {
        [0, length, count, ..] => { 1 <= *count && *count <= 4 && *length == 6 + 2 * *count }
        _ => false,
    }
}

/// Whether a border is proposed there: after a restart marker, or after SOS where a scan header follows.
fn is_border(bytes: &[u8], at: usize) -> bool
    ensures { IsTrue result → IsAfterMark bytes.now at }
{
    if !is_after_mark(bytes, at) {
        return false;
    }
    bytes[at - 1] != SOS || is_scan_header(bytes, at)
}

/// The first and the last border that is proposed in these bytes, at a place or after it.
fn borders_in(bytes: &[u8], from: usize) -> Option<(usize, usize)>
    ensures { IfSome result (λ places. IsAfterMark bytes.now places.0 × IsAfterMark bytes.now places.1) }
{
    let mut borders = None;
    for at in from..bytes.len() + 1 {
        if is_border(bytes, at) {
            let first = match borders {
                Some((first, _)) => first,
                None => at,
            };
            borders = Some((first, at));
        }
    }
    borders
}

/// Where the scan header of the first SOS in these bytes begins, as is proposed.
fn first_scan(bytes: &[u8]) -> Option<usize> {
    for at in 2..bytes.len() {
        if bytes[at - 1] == SOS && is_border(bytes, at) {
            return Some(at);
        }
    }
    None
}

/// The first and the last border in a part.
fn borders_of(part: &Part<'_>, from: usize) -> Option<(usize, usize)>
    ensures { IfSome result (λ places. IsBorderOf (part_of part.now) places.0 × IsBorderOf (part_of part.now) places.1) }
{
    match part {
        Part::Same(bytes) => borders_in(bytes, from),
        Part::Differ(_) => None,
    }
}

/// The first and the last border in the part of this number, at a place in it or after that.
pub(crate) fn borders_at(parts: &[Part<'_>], part: usize, from: usize) -> Option<(Border, Border)>
    requires { part < length parts.now }
    ensures borders { IfSome result (λ borders. IsBorder (parts_of parts.now) borders.0 × IsBorder (parts_of parts.now) borders.1) }
    ensures part { IfSome result (λ borders. (borders.0.part ≡ part) × (borders.1.part ≡ part)) }
{
    let (first, last) = borders_of(&parts[part], from)?;
    Some((Border { part, at: first }, Border { part, at: last }))
}

/// Where the first scan header in a part begins, as is proposed.
pub(crate) fn scan_in(part: &Part<'_>) -> Option<usize> {
    match part {
        Part::Same(bytes) => first_scan(bytes),
        Part::Differ(_) => None,
    }
}
