//! Readers that are cloned inside of a copy.

use crate::copies::{bytes_of, feed_piece, reported};
use crate::known::copies;
use jls_copy::{CopyFault, CopyRead, CopyReader};
use std::alloc::Global;
use std::process::Abort;
use std::test::Fail;

/// A reader that was fed these bytes.
fn fed(alloc: Global, bytes: &[u8]) -> Result<CopyReader, CopyFault> {
    let mut reader = CopyReader::new(alloc);
    feed_piece(&mut reader, bytes)?;
    Ok(reader)
}

/// What a reader gives once it was fed these bytes too.
fn read_on(mut reader: CopyReader, bytes: &[u8]) -> Result<CopyRead, CopyFault> {
    feed_piece(&mut reader, bytes)?;
    reader.finish()
}

/// What a reader that was fed the first bytes gives after the others, or what its clone does. Both are fed these, the other one first.
fn read_of_pair(
    alloc: Global,
    prefix: &[u8],
    back: &[u8],
    of_clone: bool,
) -> Result<CopyRead, CopyFault> {
    let reader = fed(alloc, prefix)?;
    let clone = match reader.try_clone() {
        Ok(clone) => clone,
        Err(_) => return Err(CopyFault::OutOfMemory),
    };
    let (other, wanted) = if of_clone {
        (reader, clone)
    } else {
        (clone, reader)
    };
    let _ = read_on(other, back);
    read_on(wanted, back)
}

/// Makes sure that a copy gives this, by a reader that is cloned after its first bytes, and by its clone.
fn check_clone(
    rt: &impl Abort,
    alloc: Global,
    bytes: &[u8],
    place: usize,
    wanted: &str,
) -> Result<(), Fail> {
    let (prefix, back) = bytes.split_at(place.min(bytes.len()));
    for of_clone in [false, true] {
        let read = reported(alloc, read_of_pair(alloc, prefix, back, of_clone))?;
        assert!(rt;
            read.as_str() == wanted,
            "after {place} bytes, the clone: {of_clone}"
        );
    }
    Ok(())
}

#[test]
fn clones_read_on_by_themselves(rt: HostRuntime) -> Result<(), Fail> {
    for &(text, wanted) in copies() {
        let bytes = bytes_of(rt.alloc(), text)?;
        for place in 0..=bytes.len() {
            check_clone(&rt, rt.alloc(), &bytes, place, wanted)?;
        }
    }
    Ok(())
}
