//! The copies that a run reads.

ghost use Rattle.std.specs.Prelude.{◌≡◌, ◌↔◌, IfOk, IfErr, IsTrue};
ghost use Rattle.jls_station.specs.CopyFiles.{AreCopiesRead, copies_of};
ghost use Rattle.jls_io.specs.Event.{GrewBy};
ghost use Rattle.jls_diff.specs.PartsOf as parts;
ghost use Rattle.jls_station.specs.declared.input.ReadStop.TheVariants.{Whole};
ghost use Rattle.jls_splice_run.specs.Copies.{AreWhole, bytes_read, StopsAtCopies};
ghost use Rattle.jls_splice_run.specs.Copies as spec;
ghost use Rattle.jls_splice_run.specs.Tasks.{texts_of};

use jls_cli::{Cause, Refusal};
use jls_io::Desk;
use jls_station::{CopyCause, CopyFile, CopyRefusal, ReadStop, read_copies};
use std::alloc::{AllocError, Global};

/// Why a copy stops a run.
fn cause_of(cause: CopyCause) -> Cause
    ensures { result ≡ spec.cause_of cause }
{
    match cause {
        CopyCause::NotOpened => Cause::NotOpened,
        CopyCause::PartialPicture => Cause::PartialPicture,
        CopyCause::OutOfMemory => Cause::OutOfMemory,
    }
}

/// Why copies stop a run.
fn refusal_of<'a>(refusal: &CopyRefusal<'a>) -> Refusal<'a>
    ensures name { result.name.now ≡ refusal.now.name.now }
    ensures cause { result.cause ≡ spec.cause_of refusal.now.cause }
{
    Refusal {
        name: refusal.name,
        cause: cause_of(refusal.cause),
    }
}

/// Reads the copies of these names.
pub(crate) fn read_all<'a, D: Desk>(
    alloc: Global,
    desk: &mut D,
    names: &[&'a str],
) -> Result<Vec<CopyFile>, Refusal<'a>>
    ensures read { IfOk result (λ copies.
        GrewBy (AreCopiesRead (texts_of names.now) (copies_of copies.items)) (D.history desk.old) (D.history desk.new)) }
    ensures stopped { IfErr result (λ refusal.
        GrewBy (StopsAtCopies (texts_of names.now) refusal) (D.history desk.old) (D.history desk.new)) }
{
    match read_copies(alloc, desk, names) {
        Ok(copies) => Ok(copies),
        Err(refusal) => Err(refusal_of(&refusal)),
    }
}

/// The bytes of each copy.
pub(crate) fn slices_of<'c>(
    alloc: Global,
    copies: &'c [CopyFile],
) -> Result<Vec<&'c [u8]>, AllocError>
    ensures { IfOk result (λ slices. parts.bytes_of slices.items ≡ bytes_read (copies_of copies.now)) }
{
    let mut slices = Vec::new(alloc);
    for copy in copies {
        slices.push(copy.bytes.as_slice())?;
    }
    Ok(slices)
}

/// Whether a copy was read to its end.
pub(crate) fn is_whole(copy: &CopyFile) -> bool
    ensures { IsTrue result ↔ (copy.now.stop ≡ Whole) }
{
    copy.stop == ReadStop::Whole
}

/// Whether each copy was read to its end.
pub(crate) fn are_whole(copies: &[CopyFile]) -> bool
    ensures { IsTrue result ↔ AreWhole (copies_of copies.now) }
{
    for copy in copies {
        if !is_whole(copy) {
            return false;
        }
    }
    true
}
