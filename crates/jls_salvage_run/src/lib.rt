//! The program `jls-salvage` without its main: its four commands, and the run from the words to the exit status.
//!
//! - `reporting`: the commands `check` and `show`
//! - `tracing`: the lines on a copy's damage
//! - `writing`: the command `write`
//! - `joining`: the command `join`
//! - `inputs`: opens inputs by their names, reads them, and takes those of `join` in turn
//! - `command_laws`: laws of the commands
//! - `program`, `performing`: `run`: reads the words, does what they ask for, prints the line of the outcome and answers its status
//! - `hosted`: the program as `run_program` of jls_host runs it
//! - `printing`: the lines on the fault output that this program alone has
//! - `run_laws`: what a run of each command did that is done
//!
//! Each command answers `Done` or a `Refusal`, and prints nothing on the fault output. `check`, `show` and `write` take one input by
//! `open_and_read`. Definitions: `AllInputs` (all inputs, and how one stops a command), `Tracing` (the lines on
//! a copy), `Reporting` (what comes of `check` and `show`), `Joining` (of `join`), `WritingFiles` (of `write`), `CommandLaws`. In jls_cli:
//! `Outcomes` and `Outputs`.
//!
//! # What the commands do
//!
//! - `check` and `show` read one input and print exactly its report (`PrintsReport`). Before the report of a copy, `check` prints a line
//!   for each record of a faulty piece, and the number of those not kept. Then it prints where the copy ended, and whether a read failed or
//!   the reads were used up, with the number of bytes read. They create nothing.
//! - They are refused at the input, for lack of memory after the input was taken, or if a write to the report output failed. If a read
//!   failed after the frame, what the copy gives so far is printed, with status 4.
//! - `write` reads one input. It creates OUT only if each line is settled and, as JPEG-LS, the options fit. Then OUT is handed exactly the
//!   file of the picture (`WritesFile`). The parameters of JPEG-LS are the defaults of the precision (`options_for`).
//! - Otherwise `write` is refused, in one of these ways:
//!   - at the input;
//!   - for the first line that is not settled, by component and then by line. Its identifier and number are answered, and whether it is
//!     disputed or missing;
//!   - as JPEG-LS, if an interval would be too large (`IsTooLarge`). Nothing is created (status 2);
//!   - at OUT. It was not created, or a write failed after the first bytes of the file were handed out, not all.
//! - As PNM, `write` can't run out of memory once the input is taken. As JPEG-LS it can while the file goes out. Then OUT was handed its
//!   first bytes, not all, and no write failed.
//!
//! Definitions of runs: `Runs` (which runs there are), `FaultLines` (here and in jls_cli), `RunLaws`, `Statuses`, `BrokenReads`. Its tests
//! run it over files in memory (`jls_program_tests/src/program/memory.rt`).
//!
//! # What a run does
//!
//! `run` has one clause (`Ran`). It says which events were added to the histories of the desk, the report output and the fault output, and
//! that nothing else was done. There are these cases:
//!
//! - **What the words ask for.** The events of the desk and of the report output are those of the command (`CameOf`). The status and the
//!   printed line are functions of its `Outcome` (`exit_status`, `fault_line`). *What the commands do* has those of `check`, `show`
//!   and `write`. `join` has the four cases below.
//! - **Words that clap refuses.** A text goes to the fault output, with status 2. If they ask for help or for the version, it goes to the
//!   report output. Then the status is 0, or 4 if a write fails there. The desk is untouched. In words such as `help join`, clap's
//!   definition finds both a request for help and an unknown command, so both answers are allowed. That `help join` gives help is tested.
//! - **No memory before a command began.** The status is 5, and the desk is untouched.
//! - **Words that clap takes and that ask for nothing**, as `write --as gif OUT FILE`. The status is 2, with one line on the fault output.
//!
//! The cases of `join`:
//!
//! - done: each FILE was opened by its name, in order, and read. Each was a text, or a copy with a frame whose readings were taken under
//!   the number of `--source`, or none. All have one shape. Then OUT was created once, by its name, and handed exactly the text of the
//!   union. Nothing is printed. The status is 0 if every line is settled, else 1. But it is 4 if a copy was not read whole, because a
//!   read failed or the reads were used up
//! - refused at a FILE: those before it were taken, and none after it was opened. Nothing was created. Status 4: it was not opened, or
//!   reading stopped early in a text or in a copy without a frame. Status 3: its bytes are no text, or a copy without a frame, or its shape
//!   is another. Status 5: memory ran out
//! - no memory for the text: all FILEs were taken. Nothing was created. Status 5
//! - refused at OUT: all FILEs were taken. OUT was not created, or it was handed the first bytes of the text, not all, when a write
//!   failed. Status 4
//!
//! A refusal prints one line (`fault_line`). It has the name of the FILE or OUT and the cause, with the offset in a bad text or the number
//! of bytes written. Or it names the line of the picture that is missing or disputed, or says only that memory ran out. `join` and `write`
//! write nothing to the report output. A failed write to the report output is reported with the name `-`, and status 4. A line on the fault
//! output may be cut off by a write that fails there.
//!
//! Laws say this in simpler words. For status 0 and 1: `done_joins_ran`, `done_checks_ran` and `done_shows_ran`. For `write`:
//! `done_writes_ran` of status 0, and `unsettled_writes_stop` of status 1. These laws hold for any run:
//!
//! - Status 2 or 3: no output was created and nothing was reported (`refused_runs_create_nothing`)
//! - Status 2: clap refused the words. Or they ask for nothing, or for a JPEG-LS file with an interval that would be too large
//!   (`words_cause_status_2`)
//! - Status 3: the last input that was opened was read whole, and is no text and no copy with a frame. Or it has another shape than the
//!   first, as far as it was read (`inputs_cause_status_3`)
//! - Status 4: something was not opened or created, a read or a write failed, or the reads of an input were used up
//!   (`failures_cause_status_4`)
//! - Status 4, and only reads failed: the words ask for a command. It was done with all that was read, though an input was not read whole.
//!   Or the run stopped at an input that was not read whole, and nothing was reported. That input begins as a text, or no frame was taken
//!   in what was read of it (`broken_reads_cause_status_4`)
//! - Status 5: the line that memory ran out was printed (`want_of_memory_is_reported`)
//! - Any status is at most 5 (`statuses_are_at_most_5`)
//!
//! The texts of help, usage and version are clap's. No contract says what they say, or that there is one.
#![tactic(auto)]

mod command_laws;
mod hosted;
mod inputs;
mod joining;
mod performing;
mod printing;
mod program;
mod reporting;
mod run_laws;
mod tracing;
mod writing;

pub use command_laws::{same_inputs_same_output, surviving_lines_give_the_picture};
pub use hosted::Salvage;
pub use inputs::JoinInputs;
pub use joining::join;
pub use printing::PROGRAM;
pub use program::run;
pub use reporting::print_report;
pub use run_laws::{
    broken_reads_cause_status_4, done_checks_ran, done_joins_ran, done_shows_ran, done_writes_ran,
    failures_cause_status_4, inputs_cause_status_3, refused_runs_create_nothing,
    statuses_are_at_most_5, unsettled_writes_stop, want_of_memory_is_reported,
    words_cause_status_2,
};
pub use writing::{Format, write};
