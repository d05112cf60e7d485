//! Copies that are read.

ghost use Rattle.jls_copy.specs.CopyReads.{CopyReads, CopyGivesNone};
ghost use Rattle.jls_partial.specs.Partial.{with_source};
ghost use Rattle.std.specs.Prelude.{◌≡◌, ◌++◌, IfOk, IfErr};

use jls_copy::{CopyFault, CopyRead, CopyReader};
use jls_partial::Partial;
use std::alloc::{AllocError, Global};

/// The most bytes of one slice, so that a reader can count all bytes.
const MOST: usize = 1 << 61;

/// What a copy gives whose bytes come in two slices: the same, wherever they are parted. `NoPicture` comes if no frame was taken.
/// `OutOfMemory` comes if memory runs out, or if a slice has more than 2^61 bytes. Then nothing is said of the copy.
pub fn read_slices(alloc: Global, prefix: &[u8], rest: &[u8]) -> Result<CopyRead, CopyFault>
    ensures read { IfOk result (λ read. CopyReads (prefix.now ++ rest.now) read) }
    ensures none { IfErr result (λ fault. CopyGivesNone (prefix.now ++ rest.now) fault) }
{
    if prefix.len() > MOST || rest.len() > MOST {
        return Err(CopyFault::OutOfMemory);
    }
    let mut reader = CopyReader::new(alloc);
    match reader.feed(prefix) {
        Ok(()) => {}
        Err(_) => return Err(CopyFault::OutOfMemory),
    }
    match reader.feed(rest) {
        Ok(()) => reader.finish(),
        Err(_) => Err(CopyFault::OutOfMemory),
    }
}

/// The readings of a copy, each under the number of this source. The only refusal is want of memory.
pub fn under_source(read: CopyRead, source: u32) -> Result<Partial, AllocError>
    ensures { IfOk result (λ partial. partial ≡ with_source read.partial source) }
{
    let mut partial = read.into_partial();
    partial.mark(source)?;
    Ok(partial)
}
