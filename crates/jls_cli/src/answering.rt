//! Words that clap refused.

ghost use Rattle.std.specs.Prelude.{◌≡◌};
ghost use Rattle.clap.specs.Words.{kind_of};
ghost use Rattle.jls_cli.specs.Answers.{is_want_of_memory, Answered};
ghost use Rattle.jls_cli.specs.Answers as spec;

use clap::Error;
use clap::error::ErrorKind;
use jls_io::{Sink, print_not_written, print_out_of_memory, print_text, write_all};
use std::alloc::Global;

fn is_memory(kind: ErrorKind) -> bool
    ensures { result ≡ is_want_of_memory kind }
{
    matches!(kind, ErrorKind::OutOfMemory)
}

fn is_help(kind: ErrorKind) -> bool
    ensures { result ≡ spec.is_help kind }
{
    matches!(kind, ErrorKind::DisplayHelp | ErrorKind::DisplayVersion)
}

/// Answers words that clap refused for this error, with the exit status:
///
/// - 0: help or the version, which goes to the report output;
/// - 2: what is wrong with the words goes to the fault output;
/// - 4: a write to the report output failed;
/// - 5: memory ran out.
///
/// Fault lines of our own begin with the name of the program. The other texts are clap's, and only tested.
pub fn answer<W: Sink, E: Sink>(
    alloc: Global,
    program: &'static str,
    error: &Error,
    report: &mut W,
    faults: &mut E,
) -> u8
    ensures { Answered program.now (kind_of error.now) result (W.history report.old) (W.history report.new)
        (E.history faults.old) (E.history faults.new) }
{
    let kind = error.kind();
    if is_memory(kind) {
        print_out_of_memory(faults, program);
        return 5;
    }
    let text = match error.to_string(alloc) {
        Ok(text) => text,
        Err(_) => {
            print_out_of_memory(faults, program);
            return 5;
        }
    };
    if !is_help(kind) {
        print_text(faults, &text);
        return 2;
    }
    match write_all(report, text.as_bytes()) {
        Ok(()) => 0,
        Err(count) => {
            print_not_written(faults, program, "-", count);
            4
        }
    }
}
