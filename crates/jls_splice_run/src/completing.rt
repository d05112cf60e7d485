//! Files that are completed by EOI, the marker at which a file ends.

ghost use Rattle.std.specs.Prelude.{◌≡◌, ◌↔◌, ◌++◌, ◌∷◌, [], ℕ, IfOk, IfSome, IfNone, IsTrue, option_map};
ghost use Rattle.jls_copy.specs.declared.end.End.TheVariants as copy_end;
ghost use Rattle.jls_splice_run.specs.Completing.{EndsAtEoi, IsCompleted, IsCompletedIn};

use jls_copy::{CopyFault, End, WideReader, copies_have_one_course_under};
use std::alloc::{AllocError, Global};

/// Whether an end is EOI.
fn is_eoi(end: End) -> bool
    ensures { IsTrue result ↔ ((offset : ℕ) × (end ≡ copy_end.Eoi offset)) }
{
    match end {
        End::Eoi(_) => true,
        End::Input(_) => false,
        End::Header(_, _) => false,
    }
}

/// Whether the bytes, as a whole file, end at EOI. `Err` comes where memory is refused.
fn ends_at_eoi(alloc: Global, file: &[u8]) -> Result<bool, AllocError>
    ensures { IfOk result (λ ends. IsTrue ends ↔ EndsAtEoi file.now) }
{
    copies_have_one_course_under();
    let mut reader = WideReader::new(alloc);
    reader.feed(file)?;
    match reader.finish() {
        Ok(read) => Ok(is_eoi(read.ended())),
        Err(CopyFault::NoPicture(_, _)) => Ok(false),
        Err(CopyFault::OutOfMemory) => Err(AllocError),
    }
}

/// The file with these bytes after it, if it ends at EOI then. `Err` comes where memory is refused.
fn ended_by(alloc: Global, file: &[u8], end: &[u8]) -> Result<Option<Vec<u8>>, AllocError>
    ensures ended { IfOk result (λ whole. IfSome whole (λ whole. (whole.items ≡ file.now ++ end.now) × EndsAtEoi (file.now ++ end.now))) }
    ensures none { IfOk result (λ whole. IfNone whole (EndsAtEoi (file.now ++ end.now) → ⊥)) }
{
    let mut whole = Vec::from_slice(alloc, file)?;
    whole.extend_from_slice(end)?;
    let ends = ends_at_eoi(alloc, &whole)?;
    if ends { Ok(Some(whole)) } else { Ok(None) }
}

/// The file, completed by EOI. With EOI it stays as it is. It gets the second byte of EOI if it ends within EOI, and both if it ends
/// without EOI. It stays as it is too if none of this makes it end at EOI. `Err` comes where memory is refused.
pub(crate) fn completed(alloc: Global, file: &[u8]) -> Result<Vec<u8>, AllocError>
    ensures { IfOk result (λ whole. IsCompleted file.now whole.items) }
{
    let ends = ends_at_eoi(alloc, file)?;
    if ends {
        return Vec::from_slice(alloc, file);
    }
    if let Some(whole) = ended_by(alloc, file, b"\xd9")? {
        return Ok(whole);
    }
    if let Some(whole) = ended_by(alloc, file, b"\xff\xd9")? {
        return Ok(whole);
    }
    Vec::from_slice(alloc, file)
}

/// The file, completed by EOI, if there is one. `Err` comes where memory is refused.
pub(crate) fn completed_in(
    alloc: Global,
    file: Option<Vec<u8>>,
) -> Result<Option<Vec<u8>>, AllocError>
    ensures { IfOk result (λ whole. IsCompletedIn (option_map (λ f. f.items) file) (option_map (λ f. f.items) whole)) }
{
    match file {
        Some(file) => {
            let whole = completed(alloc, &file)?;
            Ok(Some(whole))
        }
        None => Ok(None),
    }
}
