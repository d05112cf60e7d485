//! The laws of whole runs. Each is a function that does nothing and whose contract is the law.

ghost use Rattle.jls_salvage_run.specs.BrokenReads.{BrokenReadsCauseStatus4, StatusesAreAtMost5};
ghost use Rattle.jls_salvage_run.specs.RunLaws.{DoneChecksRan, DoneJoinsRan, DoneShowsRan, DoneWritesRan, UnsettledWritesStop};
ghost use Rattle.jls_salvage_run.specs.Statuses.{FailuresCauseStatus4, InputsCauseStatus3, RefusedRunsCreateNothing};
ghost use Rattle.jls_salvage_run.specs.Statuses.{WantOfMemoryIsReported, WordsCauseStatus2};

/// The words of a run ask for a join, and the run ends with status 0 or 1. Then the join is done under the source that the words name, or
/// under none. The status is 0 if and only if each line of the union is settled. Nothing was reported or printed as a fault.
pub fn done_joins_ran()
    ensures { DoneJoinsRan }
{}

/// The words of a run ask for a trace and a report, and the run ends with status 0 or 1. Then the input was read whole, and nothing else
/// was opened or created. The report output was handed exactly the trace and the report. The status is 0 if and only if each line is
/// settled. Nothing was printed as a fault.
pub fn done_checks_ran()
    ensures { DoneChecksRan }
{}

/// The words of a run ask for a report, and the run ends with status 0 or 1. Then the input was read whole, and nothing else was opened or
/// created. The report output was handed exactly the report of what the input gave. The status is 0 if and only if each line of it is
/// settled. Nothing was printed as a fault.
pub fn done_shows_ran()
    ensures { DoneShowsRan }
{}

/// The words of a run ask for a file, and the run ends with status 0. Then the input was read whole, each of its lines is settled, and the
/// options fit its picture. The output was created after that and handed exactly the file. Nothing was reported or printed as a fault.
pub fn done_writes_ran()
    ensures { DoneWritesRan }
{}

/// The words of a run ask for a file, and the run ends with status 1. Then the input was taken, and no output was created. A line of what
/// the input gave is not settled.
pub fn unsettled_writes_stop()
    ensures { UnsettledWritesStop }
{}

/// If a run ends with status 2, one of three things is so. Clap refused the words, and not to show help. Or the words ask for nothing that
/// there is. Or they ask for a JPEG-LS file, the input was read, and each of its lines is settled. But an interval of the file would be
/// too large.
pub fn words_cause_status_2()
    ensures { WordsCauseStatus2 }
{}

/// If a run ends with status 3, one of the inputs that the words name was refused. The inputs before it were taken, and it was opened.
/// Either it was read whole and is neither the text of a partial picture nor a copy in which a frame was taken. Or what was read of it has
/// another shape than the first input. Nothing else was done.
pub fn inputs_cause_status_3()
    ensures { InputsCauseStatus3 }
{}

/// If a run ends with status 4, something was not opened or created in it, or a read or a write failed. Or as many reads were made as one
/// input can have.
pub fn failures_cause_status_4()
    ensures { FailuresCauseStatus4 }
{}

/// If a run ends with status 2 or 3, no output was created, and nothing was reported.
pub fn refused_runs_create_nothing()
    ensures { RefusedRunsCreateNothing }
{}

/// If a run ends with status 5, it is reported on the fault output that memory ran out.
pub fn want_of_memory_is_reported()
    ensures { WantOfMemoryIsReported }
{}

/// If a run ends with status 4, and all was opened and created and no write failed, then one of two things happened. Either what the words
/// ask for was done with all that was read, though some input was not read whole. Then `join` handed the text of all that was read to its
/// output. `check` and `show` printed exactly the lines of it, and `write` handed out its file. Or the run stopped at an input that was
/// not read whole. That input is a text, or a copy of which no frame was read.
pub fn broken_reads_cause_status_4()
    ensures { BrokenReadsCauseStatus4 }
{}

/// The status of a run is at most 5.
pub fn statuses_are_at_most_5()
    ensures { StatusesAreAtMost5 }
{}
