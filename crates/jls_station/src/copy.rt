//! One copy of a file.

ghost use Rattle.std.specs.Prelude.{IfErr, IfOk};
ghost use Rattle.jls_io.specs.Event.{GrewBy};
ghost use Rattle.jls_station.specs.CopyFiles.{copy_of, IsCopyRead, StopsAtCopy};

use crate::input::ReadStop;
use crate::whole_reading::{is_text, read_to_end};
use jls_io::Desk;
use std::alloc::Global;

/// A copy that was read into memory.
#[derive(Drop)]
pub struct CopyFile {
    /// All of its bytes, or as many as were read before the reading stopped.
    pub bytes: Vec<u8>,
    /// How the reading stopped.
    pub stop: ReadStop,
}

/// Why a copy is not taken.
#[derive(Clone, Copy, Debug, PartialEq, Eq)]
pub enum CopyCause {
    /// It can't be opened.
    NotOpened,
    /// It begins as the text of a partial picture.
    PartialPicture,
    /// Memory ran out.
    OutOfMemory,
}

/// Why copies are not taken, and the name of the copy at which it showed.
#[derive(Clone, Copy, Debug, PartialEq, Eq)]
pub struct CopyRefusal<'a> {
    pub name: &'a str,
    pub cause: CopyCause,
}

/// Opens a copy and reads it to its end. What was read is kept if a read fails, and if all reads that may be made are used up.
pub(crate) fn open_and_read_copy<D: Desk>(
    alloc: Global,
    desk: &mut D,
    name: &str,
) -> Result<CopyFile, CopyCause>
    ensures read { IfOk result (λ copy. GrewBy (IsCopyRead name.now (copy_of copy)) (D.history desk.old) (D.history desk.new)) }
    ensures stopped { IfErr result (λ cause. GrewBy (StopsAtCopy name.now cause) (D.history desk.old) (D.history desk.new)) }
{
    match desk.open_input(name) {
        Ok(()) => {}
        Err(_) => return Err(CopyCause::NotOpened),
    }
    let mut bytes = Vec::new(alloc);
    let stop = match read_to_end(desk, &mut bytes) {
        Ok(stop) => stop,
        Err(_) => return Err(CopyCause::OutOfMemory),
    };
    if is_text(&bytes) {
        return Err(CopyCause::PartialPicture);
    }
    Ok(CopyFile { bytes, stop })
}
