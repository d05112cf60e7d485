//! Files of known lines, and two damaged copies of each.

use crate::coded::{OTHER_FILE, USUAL_FILE};
use crate::four::FOUR_LINES_CODE;
use crate::ten::copy_of;
use std::alloc::{AllocError, Global};

/// What stands before the scan data of four lines of four samples, in one piece.
const HEADERS: &[u8] = b"\xff\xd8\xff\xf7\x00\x0b\x08\x00\x04\x00\x04\x01\x01\x11\x00\
    \xff\xda\x00\x08\x01\x01\x00\x00\x00\x00";

/// A file and two copies of it.
#[derive(Drop)]
pub struct Pair {
    pub file: Vec<u8>,
    pub first: Vec<u8>,
    pub second: Vec<u8>,
}

/// Which pair.
#[derive(Clone, Copy)]
pub enum Which {
    /// That of `mended_pair`.
    Mended,
    /// That of `half_lost_pair`.
    HalfLost,
    /// That of `coded_pair`.
    Coded,
    /// That of `headless_pair`.
    Headless,
}

/// A copy of a file that has these bytes at these offsets.
fn damaged(alloc: Global, file: &[u8], damages: &[(usize, u8)]) -> Result<Vec<u8>, AllocError> {
    let mut copy = Vec::from_slice(alloc, file)?;
    for (offset, byte) in damages {
        if let Some(place) = copy.get_mut(*offset) {
            *place = *byte;
        }
    }
    Ok(copy)
}

/// Four lines in one piece, which is damaged in each copy at another place.
pub fn mended_pair(alloc: Global) -> Result<Pair, AllocError> {
    let mut file = Vec::from_slice(alloc, HEADERS)?;
    file.extend_from_slice(FOUR_LINES_CODE)?;
    file.extend_from_slice(&[0xFF, 0xD9])?;
    Ok(Pair {
        first: damaged(alloc, &file, &[(25, 0)])?,
        second: damaged(alloc, &file, &[(53, 0)])?,
        file,
    })
}

/// Two lines of one sample in a piece each: the first is damaged in both copies, and the second in one of them.
pub fn half_lost_pair(alloc: Global) -> Result<Pair, AllocError> {
    let file = copy_of(alloc, 2)?;
    Ok(Pair {
        first: damaged(alloc, &file, &[(31, 0)])?,
        second: damaged(alloc, &file, &[(31, 1), (34, 0)])?,
        file,
    })
}

/// Ten lines in two codings: one byte is zeroed in each. The file is that of the first.
pub fn coded_pair(alloc: Global) -> Result<Pair, AllocError> {
    Ok(Pair {
        file: Vec::from_slice(alloc, USUAL_FILE)?,
        first: damaged(alloc, USUAL_FILE, &[(45, 0)])?,
        second: damaged(alloc, OTHER_FILE, &[(80, 0)])?,
    })
}

/// The same lines in two codings: one lost the marker of its frame, the other one byte of its scan data.
pub fn headless_pair(alloc: Global) -> Result<Pair, AllocError> {
    Ok(Pair {
        file: Vec::from_slice(alloc, USUAL_FILE)?,
        first: damaged(alloc, USUAL_FILE, &[(2, 0), (3, 0)])?,
        second: damaged(alloc, OTHER_FILE, &[(80, 0)])?,
    })
}

/// The pair.
pub fn pair_of(alloc: Global, which: Which) -> Result<Pair, AllocError> {
    match which {
        Which::Mended => mended_pair(alloc),
        Which::HalfLost => half_lost_pair(alloc),
        Which::Coded => coded_pair(alloc),
        Which::Headless => headless_pair(alloc),
    }
}
