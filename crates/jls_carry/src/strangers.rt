//! Copies that agree with no other.

use crate::claims::CopyState;
use crate::edits::Edit;
use crate::runs::has_news;

/// Where the scan data of a copy begin.
fn scan_data_start(copy: &CopyState<'_>) -> usize {
    match copy.pieces.first() {
        Some(piece) => piece.start,
        None => 0,
    }
}

/// Whether a copy has scan data that nothing before it foretells.
pub(crate) fn speaks(copy: &CopyState<'_>) -> bool {
    has_news(copy.bytes, scan_data_start(copy), copy.bytes.len())
}

/// Whether a copy agrees with its mended file: it has a stretch of the file's scan data itself that nothing before it foretells.
pub(crate) fn agrees(copy: &CopyState<'_>, edits: &[Edit]) -> bool {
    let mut begin = scan_data_start(copy);
    for edit in edits {
        if has_news(copy.bytes, begin, edit.offset) {
            return true;
        }
        begin = begin.max(edit.offset.saturating_add(edit.count));
    }
    has_news(copy.bytes, begin, copy.bytes.len())
}
