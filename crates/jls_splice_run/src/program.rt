//! The program without its main.

ghost use Rattle.std.specs.Prelude.{map};
ghost use Rattle.std.specs.String.{string_bytes};
ghost use Rattle.jls_cli.specs.SpliceAsking.{asked_of};
ghost use Rattle.jls_splice_run.specs.Runs.{GrewAll, Performs, Ran};

use crate::printing::{
    PROGRAM, print_bad_value, print_named_twice, print_not_understood, print_numbered_out,
};
use crate::splicing::splice;
use crate::task::{Task, bad_value_in, is_file_out, is_numbered_out, names_of};
use jls_cli::splice::{Asked, asked_splice, matches};
use jls_cli::{answer, exit_status, print_outcome};
use jls_io::{Desk, Sink, print_out_of_memory};
use std::alloc::Global;

/// Does what is asked for, and prints the line of what came of it.
fn perform<D: Desk, W: Sink, E: Sink>(
    alloc: Global,
    asked: &Asked<'_, '_>,
    desk: &mut D,
    report: &mut W,
    faults: &mut E,
) -> u8
    ensures { GrewAll (Performs (asked_of asked.now) result) (D.history desk.old) (D.history desk.new)
        (W.history report.old) (W.history report.new) (E.history faults.old) (E.history faults.new) }
{
    let names = match names_of(alloc, asked) {
        Ok(names) => names,
        Err(_) => {
            print_out_of_memory(faults, PROGRAM);
            return 5;
        }
    };
    let task = Task {
        options: asked.options,
        out: asked.out,
        names: &names,
        bad: asked.bad,
        witnesses: asked.witnesses,
    };
    let outcome = splice(alloc, desk, report, faults, &task);
    print_outcome(faults, PROGRAM, &outcome);
    exit_status(outcome)
}

/// The program `jls-splice`. The words begin with the program's own name, and the answer is the exit status:
///
/// - 0: done, and the picture is promised (`promise picture ..`); or help or the version was asked for;
/// - 1: done, and it is not: lines are missing or disputed, the search that counts was cut off, or only groups gave files;
/// - 2: the words were not understood. Or `--bad` names no list of a COPY. Or `--file` names OUT, or `--files` can give that name;
/// - 3: a copy, list or witness is a partial picture, or a list of bad places is none. Or no file taken has a picture, or files without a
///   fault differ in shape;
/// - 4: a copy, list or witness can't be opened, a list can't be read, an output can't be created, or a write failed. The run may be done
///   then, if a copy was not read to its end;
/// - 5: out of memory.
///
/// The texts of help, usage and version are clap's. That there is one, and what it says, is tested and not proved.
pub fn run<D: Desk, W: Sink, E: Sink>(
    alloc: Global,
    words: &[String],
    desk: &mut D,
    report: &mut W,
    faults: &mut E,
) -> u8
    ensures { Ran (map string_bytes words.now) result (D.history desk.old) (D.history desk.new)
        (W.history report.old) (W.history report.new) (E.history faults.old) (E.history faults.new) }
{
    let matches = match matches(alloc, words) {
        Ok(matches) => matches,
        Err(error) => return answer(alloc, PROGRAM, &error, report, faults),
    };
    let asked = match asked_splice(&matches) {
        Some(asked) => asked,
        None => {
            print_not_understood(faults);
            return 2;
        }
    };
    if is_file_out(&asked) {
        print_named_twice(faults, asked.out);
        return 2;
    }
    let numbered = match is_numbered_out(alloc, &asked) {
        Ok(numbered) => numbered,
        Err(_) => {
            print_out_of_memory(faults, PROGRAM);
            return 5;
        }
    };
    if numbered {
        print_numbered_out(faults, asked.out);
        return 2;
    }
    match bad_value_in(&asked) {
        Some(value) => {
            print_bad_value(faults, value);
            2
        }
        None => perform(alloc, &asked, desk, report, faults),
    }
}
