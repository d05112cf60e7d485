//! Where copies differ.

ghost use Rattle.std.specs.Prelude.{◌≡◌, ◌^◌, ◌<◌, ◌≤◌, [], length, get_or, IfOk};
ghost use Rattle.jls_diff.specs.Parts.{made};
ghost use Rattle.jls_splice_run.specs.Differences.{differences, offset_at as spec_offset_at};

use jls_diff::Parts;
use std::alloc::{AllocError, Global};

/// A place where copies differ, as the first copy has it.
#[derive(Clone, Copy, Debug, PartialEq, Eq)]
pub struct Difference {
    /// The offset in the first copy.
    pub offset: u64,
    /// How many bytes the first copy has there.
    pub length: u64,
}

/// The places where copies of these parts differ, in order.
pub fn differences_of(alloc: Global, parts: &Parts<'_>) -> Result<Vec<Difference>, AllocError>
    requires { length (made 0 parts.now) < 2 ^ 64 }
    ensures { IfOk result (λ found. found.items ≡ differences parts.now) }
{
    let mut found = Vec::new(alloc);
    let mut offset = 0;
    for place in 0..parts.len() {
        let length = parts.way(place, 0).len() as u64;
        if parts.is_differ(place) {
            found.push(Difference { offset, length })?;
        }
        offset += length;
    }
    Ok(found)
}

/// The offset in the first copy of the part at this place, or of the end.
pub(crate) fn offset_at(parts: &Parts<'_>, place: usize) -> u64
    requires within { place ≤ length parts.now }
    requires small { length (made 0 parts.now) < 2 ^ 64 }
    ensures { result ≡ spec_offset_at parts.now place }
{
    let mut offset = 0;
    for at in 0..place {
        offset += parts.way(at, 0).len() as u64;
    }
    offset
}
