//! The law of copies in several codings. It is a function that does nothing and whose contract is the law.

ghost use Rattle.jls_splice_laws.specs.CarryLaws.{CarriedRunsGiveNoOther};

use jls_carry_laws::{judged_files_have_true_bytes, settled_held_lines_are_the_picture};

/// A law: let a run print the promise that rests on what mended files hold. Take any picture of which each mended file has a true file with
/// its skeleton. Then OUT has that picture's lines and no others. It is so too for any picture of which each coding has one file, with the
/// marker segments of the mended file. Each copy of the coding is of that file, true outside of its printed edits, and there as long as
/// they. And each mended file reads as OUT, all of it.
pub fn carried_runs_give_no_other()
    ensures { CarriedRunsGiveNoOther }
{
    settled_held_lines_are_the_picture();
    judged_files_have_true_bytes();
}
