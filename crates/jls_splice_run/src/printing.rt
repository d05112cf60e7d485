//! The lines on the fault output that this program alone has. A write that fails there is ignored: there is nowhere left to say so.

ghost use Rattle.jls_io.specs.Event.{GrewBy};
ghost use Rattle.jls_io.specs.Writing.{Printed};
ghost use Rattle.jls_splice_run.specs.FaultLines.{bad_value_line, named_twice_line, not_understood_line, numbered_out_line};

use jls_io::{Sink, print_about, print_plain};

/// The name of the program, with which each fault line begins.
pub const PROGRAM: &str = "jls-splice";

/// Prints that both outputs have this name.
pub fn print_named_twice<E: Sink>(faults: &mut E, name: &str)
    ensures { GrewBy (Printed (named_twice_line name.now)) (E.history faults.old) (E.history faults.new) }
{
    print_about(faults, PROGRAM, name, ": is named as OUT and by --file");
}

/// Prints that OUT has a name of `--files`.
pub fn print_numbered_out<E: Sink>(faults: &mut E, name: &str)
    ensures { GrewBy (Printed (numbered_out_line name.now)) (E.history faults.old) (E.history faults.new) }
{
    print_about(faults, PROGRAM, name, ": is named as OUT and by --files");
}

/// Prints that a value of `--bad` names no list of a copy, or one under the name OUT.
pub fn print_bad_value<E: Sink>(faults: &mut E, value: &str)
    ensures { GrewBy (Printed (bad_value_line value.now)) (E.history faults.old) (E.history faults.new) }
{
    print_about(
        faults,
        PROGRAM,
        value,
        ": --bad wants N:LIST, with the number of a COPY, and a LIST that is no output and not -",
    );
}

/// Prints that the words ask for nothing that there is.
pub fn print_not_understood<E: Sink>(faults: &mut E)
    ensures { GrewBy (Printed not_understood_line) (E.history faults.old) (E.history faults.new) }
{
    print_plain(
        faults,
        PROGRAM,
        "one COPY is enough only with --bad N:LIST or --witness FILE",
    );
}
