//! Fault lines that both programs have. Each begins with the name of the program.

ghost use Rattle.jls_io.specs.Event.{GrewBy};
ghost use Rattle.jls_io.specs.Writing.{Printed};
ghost use Rattle.jls_io.specs.FaultLines.{line_about, line_with_number, no_picture_line, not_written_line, out_of_memory_line, plain_line};

use crate::device::Sink;
use crate::line::{LinePart, print_line};

/// Prints a line about no input or output.
pub fn print_plain<E: Sink>(faults: &mut E, program: &'static str, text: &'static str)
    ensures { GrewBy (Printed (plain_line program.now text.now)) (E.history faults.old) (E.history faults.new) }
{
    print_line(
        faults,
        &[
            LinePart::Text(program),
            LinePart::Text(": "),
            LinePart::Text(text),
        ],
    );
}

/// Prints a line about the input or output of this name.
pub fn print_about<E: Sink>(faults: &mut E, program: &'static str, name: &str, text: &'static str)
    ensures { GrewBy (Printed (line_about program.now name.now text.now)) (E.history faults.old) (E.history faults.new) }
{
    print_line(
        faults,
        &[
            LinePart::Text(program),
            LinePart::Text(": "),
            LinePart::Name(name),
            LinePart::Text(text),
        ],
    );
}

/// Prints a line about the input or output of this name, which ends with a number.
pub fn print_with_number<E: Sink>(
    faults: &mut E,
    program: &'static str,
    name: &str,
    text: &'static str,
    number: u64,
)
    ensures { GrewBy (Printed (line_with_number program.now name.now text.now number)) (E.history faults.old) (E.history faults.new) }
{
    print_line(
        faults,
        &[
            LinePart::Text(program),
            LinePart::Text(": "),
            LinePart::Name(name),
            LinePart::Text(text),
            LinePart::Number(number),
        ],
    );
}

/// Prints that memory ran out.
pub fn print_out_of_memory<E: Sink>(faults: &mut E, program: &'static str)
    ensures { GrewBy (Printed (out_of_memory_line program.now)) (E.history faults.old) (E.history faults.new) }
{
    print_plain(faults, program, "out of memory");
}

/// Prints that no frame was taken of the copy of this name: the number of the fault, and its offset in bytes.
pub fn print_no_picture<E: Sink>(
    faults: &mut E,
    program: &'static str,
    name: &str,
    fault: u64,
    offset: u64,
)
    ensures { GrewBy (Printed (no_picture_line program.now name.now fault offset)) (E.history faults.old) (E.history faults.new) }
{
    print_line(
        faults,
        &[
            LinePart::Text(program),
            LinePart::Text(": "),
            LinePart::Name(name),
            LinePart::Text(": no picture, fault "),
            LinePart::Number(fault),
            LinePart::Text(" at "),
            LinePart::Number(offset),
        ],
    );
}

/// Prints how many bytes of the output of this name went out before a write failed.
pub fn print_not_written<E: Sink>(faults: &mut E, program: &'static str, name: &str, count: u64)
    ensures { GrewBy (Printed (not_written_line program.now name.now count)) (E.history faults.old) (E.history faults.new) }
{
    print_line(
        faults,
        &[
            LinePart::Text(program),
            LinePart::Text(": "),
            LinePart::Name(name),
            LinePart::Text(": write failed after "),
            LinePart::Number(count),
            LinePart::Text(" bytes"),
        ],
    );
}
