//! The laws of files under both profiles. Each is a function that does nothing and whose contract is the law.

ghost use Rattle.jls_splice_laws.specs.ProfileFiles.{FilesByLineGiveTheSame, OtherFilesAreByLine, StrictFilesGiveAsCopies};
ghost use Rattle.jls_splice_laws.specs.ProfileFiles.{WideGivesWhatStrictGives};

/// A law: what a file gives under the strict profile is what it gives as a copy. Unless the fault of a scan's interleaving ends it there,
/// all its scans are by line, whatever is damaged. Then it gives the same under the wide profile.
pub fn files_by_line_give_the_same()
    ensures as_copies { StrictFilesGiveAsCopies }
    ensures by_line { OtherFilesAreByLine }
    ensures same { FilesByLineGiveTheSame }
{}

/// A law: what a file gives under the strict profile, it gives under the wide one too, in the same frame. So a caller who changes to the
/// wide profile loses no reading.
pub fn wide_gives_what_strict_gives()
    ensures { WideGivesWhatStrictGives }
{}
