//! The edits that make a mended file of a copy.

use jls_diff::{Part, Parts, find_parts};
use std::alloc::{AllocError, Global};

/// In place of `count` bytes of a copy, from `offset` on, stand these.
#[derive(Debug, PartialEq, Eq, Drop)]
pub struct Edit {
    pub offset: usize,
    pub count: usize,
    pub bytes: Vec<u8>,
}

/// The edits of a copy, from the parts of it and of the mended file.
fn edits_of(alloc: Global, parts: &Parts<'_>) -> Result<Vec<Edit>, AllocError> {
    let mut edits = Vec::new(alloc);
    let mut offset = 0usize;
    for place in 0..parts.len() {
        let part = parts.part(place);
        let own = part.way(0);
        if let Part::Differ(_) = part {
            edits.push(Edit {
                offset,
                count: own.len(),
                bytes: Vec::from_slice(alloc, part.way(1))?,
            })?;
        }
        offset = offset.saturating_add(own.len());
    }
    Ok(edits)
}

/// The edits that make a mended file of a copy, in order.
pub(crate) fn edits_between(
    alloc: Global,
    copy: &[u8],
    file: &[u8],
) -> Result<Vec<Edit>, AllocError> {
    let parts = find_parts(alloc, &[copy, file])?;
    edits_of(alloc, &parts)
}
