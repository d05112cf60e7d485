//! The laws of what a run has written. Each is a function that does nothing and whose contract is the law.

ghost use Rattle.jls_splice_laws.specs.RunLaws.{FailedReadsCauseStatus4, SplicedRunsAreDone, SplicedRunsGiveNoOther};
ghost use Rattle.jls_splice_laws.specs.RunLaws.{SplicedRunsHandOutTheFile, SplicedRunsTakeTheCut};
ghost use Rattle.jls_splice_laws.specs.Failures.{RunsEndWith4, SplicedFailuresCauseStatus4, SplicedBrokenReadsCauseStatus4};

use crate::settled::whole_files_survive;
use crate::splicing::spliced_copies_give_no_other;

/// A law: the words of `jls-splice` ask for something, and the run ends with status 0 or 1. Then it was done: OUT was handed the text of
/// what was made, and each copy was read to its end. The status is 0 exactly where the picture is promised. If the run ends with status 4,
/// either it was done too, and a copy was not read to its end, or something stopped it.
pub fn spliced_runs_are_done()
    ensures done { SplicedRunsAreDone }
    ensures failed_reads { FailedReadsCauseStatus4 }
{}

/// A law: the words of `jls-splice` ask for something, and the run ends with status 4. Then what they ask for was done with all that was
/// read, though some copy was not read to its end. Or the run stopped, and its last line says why:
///
/// - A copy or a list of bad places was not opened.
/// - A list was not read to its end.
/// - The first copy was not read to its end, and no copy has a frame in what is searched.
/// - An output can't be created or written: the report output, OUT, that of `--file` or one of `--files`. Those before it have all that is
///   theirs.
///
/// So something failed, or as many reads were made as one copy can have. Where nothing failed but reads, no output stopped the run, and
/// each copy was opened.
pub fn spliced_runs_end_with_4()
    ensures ends { RunsEndWith4 }
    ensures failures { SplicedFailuresCauseStatus4 }
    ensures broken_reads { SplicedBrokenReadsCauseStatus4 }
{}

/// A law: a run prints `promise picture` only where the search that counts was not cut off and found a file, and each line is settled. Take
/// an undamaged file that is a splice of the copies: it agrees with them where they are found to agree, and in each stretch between with
/// one copy. Let no sample of it be above the printed limit, if there is one. Then the picture is that file's and no other.
pub fn spliced_runs_give_no_other()
    ensures { SplicedRunsGiveNoOther }
{
    whole_files_survive();
    spliced_copies_give_no_other();
}

/// A law: assume that the search that counts was not cut off. Assume also that an undamaged file, with or without its EOI, is a splice of
/// the copies. No sample of it is above the ceiling of that search, if it has one. Then the file that `--file` gives is that file,
/// completed by EOI. Where `--files` gives fewer than 64 files, it is one of them. A file with its EOI stays as it is.
pub fn spliced_runs_hand_out_the_file()
    ensures { SplicedRunsHandOutTheFile }
{
    whole_files_survive();
}

/// A law: if a cut file was taken, what the run made of it is as `cut_lines_are_the_picture` requires. So that law says which lines of OUT
/// are the picture's.
pub fn spliced_runs_take_the_cut()
    ensures { SplicedRunsTakeTheCut }
{}
