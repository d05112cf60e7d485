//! The lines on the fault output that this program alone has. A write that fails there is ignored: there is nowhere left to say so.

ghost use Rattle.jls_io.specs.Event.{GrewBy};
ghost use Rattle.jls_io.specs.Writing.{Printed};
ghost use Rattle.jls_salvage_run.specs.FaultLines.{unknown_value_line};

use jls_io::{Sink, print_plain};

/// The name of the program, with which each fault line begins.
pub const PROGRAM: &str = "jls-salvage";

/// Prints that an option has a value which it doesn't take: the interleave mode where the format is known, else the format.
pub(crate) fn print_unknown_value<E: Sink>(faults: &mut E, format_is_known: bool)
    ensures { GrewBy (Printed (unknown_value_line format_is_known)) (E.history faults.old) (E.history faults.new) }
{
    if format_is_known {
        print_plain(faults, PROGRAM, "--ilv takes none or line");
    } else {
        print_plain(faults, PROGRAM, "--as takes jls or pnm");
    }
}
