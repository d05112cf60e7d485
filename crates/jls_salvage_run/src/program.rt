//! The program without its main.

ghost use Rattle.std.specs.Prelude.{map};
ghost use Rattle.std.specs.String.{string_bytes};
ghost use Rattle.jls_salvage_run.specs.Runs.{Ran};

use crate::performing::perform;
use crate::printing::{PROGRAM, print_unknown_value};
use jls_cli::salvage::{asked_command, knows_format, matches};
use jls_cli::{answer, exit_status, print_outcome};
use jls_io::{Desk, Sink};
use std::alloc::Global;

/// The program `jls-salvage`. The words begin with the program's own name, and the answer is the exit status:
///
/// - 0: done, and each line of what was read is settled; or help or the version was asked for;
/// - 1: `check`, `show` and `join` are done, with lines that are missing or disputed. Or `write` is refused for such a line, and its
///   output is not created;
/// - 2: the command line is wrong, or an interval of a JPEG-LS file would be too large;
/// - 3: an input is no copy with a picture and not the text of a partial picture, or shapes differ;
/// - 4: an input can't be opened or read, the output can't be created, or a write failed. Or the command is done, but a read of a copy
///   failed after its frame, or the reads of it were used up;
/// - 5: out of memory.
///
/// The texts of help, usage and version are clap's. That there is one, and what it says, is tested and not proved.
pub fn run<D: Desk, W: Sink, E: Sink>(
    alloc: Global,
    words: &[String],
    desk: &mut D,
    report: &mut W,
    faults: &mut E,
) -> u8
    ensures { Ran (map string_bytes words.now) result (D.history desk.old) (D.history desk.new)
        (W.history report.old) (W.history report.new) (E.history faults.old) (E.history faults.new) }
{
    let matches = match matches(alloc, words) {
        Ok(matches) => matches,
        Err(error) => return answer(alloc, PROGRAM, &error, report, faults),
    };
    let asked = match asked_command(&matches) {
        Some(asked) => asked,
        None => {
            print_unknown_value(faults, knows_format(&matches));
            return 2;
        }
    };
    let outcome = perform(alloc, desk, report, asked);
    print_outcome(faults, PROGRAM, &outcome);
    exit_status(outcome)
}
