//! The copies of a file.

ghost use Rattle.std.specs.Prelude.{IfErr, IfOk, map};
ghost use Rattle.jls_io.specs.Event.{GrewBy};
ghost use Rattle.jls_station.specs.CopyFiles.{copies_of, AreCopiesRead, StopsAmongCopies};

use crate::copy::{CopyCause, CopyFile, CopyRefusal, open_and_read_copy};
use jls_io::Desk;
use std::alloc::Global;

/// Opens the copies of these names in turn, and reads each to its end. It stops at the first that is not taken.
pub fn read_copies<'a, D: Desk>(
    alloc: Global,
    desk: &mut D,
    names: &[&'a str],
) -> Result<Vec<CopyFile>, CopyRefusal<'a>>
    ensures read { IfOk result (λ copies.
        GrewBy (AreCopiesRead (map (λ n. n.now) names.now) (copies_of copies.items)) (D.history desk.old) (D.history desk.new)) }
    ensures stopped { IfErr result (λ refusal.
        GrewBy (StopsAmongCopies (map (λ n. n.now) names.now) refusal) (D.history desk.old) (D.history desk.new)) }
{
    let mut copies = Vec::new(alloc);
    for name in names {
        let copy = match open_and_read_copy(alloc, desk, name) {
            Ok(copy) => copy,
            Err(cause) => return Err(CopyRefusal { name, cause }),
        };
        match copies.push(copy) {
            Ok(()) => {}
            Err(_) => {
                let cause = CopyCause::OutOfMemory;
                return Err(CopyRefusal { name, cause });
            }
        }
    }
    Ok(copies)
}
