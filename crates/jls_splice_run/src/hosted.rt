//! The program as `run_program` of jls_host runs it.

ghost use Rattle.std.specs.Prelude.{◌≡◌, map};
ghost use Rattle.std.specs.String.{string_bytes};
ghost use Rattle.jls_io.specs.Event.{GrewBy};
ghost use Rattle.jls_io.specs.Writing.{Printed};
ghost use Rattle.jls_cli.specs.FaultLines.{not_created_line};
ghost use Rattle.jls_host.specs.declared.choice.Guard.TheVariants as guarded;
ghost use Rattle.jls_splice_run.specs.FaultLines.{not_replaced_line, program};
ghost use Rattle.jls_splice_run.specs.Runs.{Ran};

use crate::printing::PROGRAM;
use crate::program::run;
use jls_cli::print_not_created;
use jls_host::{Guard, Program};
use jls_io::{Desk, Sink, print_about};
use std::alloc::Global;

/// The program `jls-splice`.
pub struct Splice;

impl Program for Splice {
    fn name() -> &'static str
        ensures { result.now ≡ program }
    {
        PROGRAM
    }

    /// It replaces no JPEG file.
    fn guard(_words: &[String]) -> Guard
        ensures { result ≡ guarded.Jpeg }
    {
        Guard::Jpeg
    }

    fn run<D: Desk, W: Sink, E: Sink>(
        alloc: Global,
        words: &[String],
        desk: &mut D,
        report: &mut W,
        faults: &mut E,
    ) -> u8
        ensures { Ran (map string_bytes words.now) result (D.history desk.old) (D.history desk.new)
            (W.history report.old) (W.history report.new) (E.history faults.old) (E.history faults.new) }
    {
        run(alloc, words, desk, report, faults)
    }

    fn print_not_replaced<E: Sink>(faults: &mut E, name: &str)
        ensures { GrewBy (Printed (not_replaced_line name.now)) (E.history faults.old) (E.history faults.new) }
    {
        print_about(
            faults,
            PROGRAM,
            name,
            " is a JPEG file, and jls-splice replaces none",
        );
    }

    fn print_not_created<E: Sink>(faults: &mut E, name: &str)
        ensures { GrewBy (Printed (not_created_line program name.now)) (E.history faults.old) (E.history faults.new) }
    {
        print_not_created(faults, PROGRAM, name);
    }
}
