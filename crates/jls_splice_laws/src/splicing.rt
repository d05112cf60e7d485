//! The laws of files taken. Each is a function that does nothing and whose contract is the law.

ghost use Rattle.jls_splice_laws.specs.ProfileFiles.{FilesByLineAreCollected, TookFilesHoldsExactly};
ghost use Rattle.jls_splice_laws.specs.SplicingLaws.{FilesAreHeld, SplicedCopiesGiveNoOther};

use crate::settled::splices_give_no_other;
use jls_headline::strict_files_are_collected;

/// A law: a station that took files, read under a profile, holds exactly what they give. If all of them are by line, it is one that public
/// calls made of copies.
pub fn took_files_are_held()
    ensures exactly { TookFilesHoldsExactly }
    ensures by_line { FilesByLineAreCollected }
{
    strict_files_are_collected();
}

/// A law: what `settle_files` of jls_search gives is a station that took those files whose frame has its shape. Each was read under the
/// wide profile, and under the source of the call. The station holds exactly their readings.
pub fn files_are_held()
    ensures { FilesAreHeld }
{}

/// A law: assume that an undamaged file within the ceiling is a splice of the copies. Assume also that the tries of the search were not
/// used up. If every line of the station that took the files is settled, the lines are that file's picture and no other.
pub fn spliced_copies_give_no_other()
    ensures { SplicedCopiesGiveNoOther }
{
    splices_give_no_other();
}
