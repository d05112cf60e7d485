//! The lines on the fault output about what came of a command. Each begins with the name of the program. A write that fails there is
//! ignored: there is nowhere left to say so.

ghost use Rattle.std.specs.Prelude.{◌++◌, codes, decimal};
ghost use Rattle.jls_io.specs.Event.{GrewBy};
ghost use Rattle.jls_io.specs.Writing.{Printed};
ghost use Rattle.jls_io.specs.FaultLines.{no_picture_line};
ghost use Rattle.jls_marker.specs.Faults.{fault_number};
ghost use Rattle.jls_cli.specs.FaultLines.{cause_line, fault_line, file_not_created_line, file_not_written_line, input_fault_line};
ghost use Rattle.jls_cli.specs.FaultLines.{not_created_line, refusal_line, text_fault_line, unsettled_line};

use crate::outcome::{Cause, Done, Refusal};
use jls_io::{
    LinePart, Sink, print_about, print_line, print_no_picture, print_not_written,
    print_out_of_memory, print_plain, print_with_number,
};
use jls_marker::MarkerFault;
use jls_partial::TextFault;
use jls_station::InputFault;

/// Prints a line about a line of a picture.
fn print_about_line<E: Sink>(
    faults: &mut E,
    program: &'static str,
    id: u8,
    line: u16,
    said: &'static str,
)
    ensures { GrewBy (Printed (program.now ++ (codes ": line " ++ (decimal line ++ (codes " of component "
        ++ (decimal id ++ (said.now ++ codes "\n"))))))) (E.history faults.old) (E.history faults.new) }
{
    print_line(
        faults,
        &[
            LinePart::Text(program),
            LinePart::Text(": line "),
            LinePart::Number(u64::from(line)),
            LinePart::Text(" of component "),
            LinePart::Number(u64::from(id)),
            LinePart::Text(said),
        ],
    );
}

/// Prints the line of a picture's line that is disputed, or missing.
fn print_unsettled<E: Sink>(
    faults: &mut E,
    program: &'static str,
    id: u8,
    line: u16,
    disputed: bool,
)
    ensures { GrewBy (Printed (unsettled_line program.now id line disputed)) (E.history faults.old) (E.history faults.new) }
{
    if disputed {
        print_about_line(faults, program, id, line, " is disputed");
    } else {
        print_about_line(faults, program, id, line, " is missing");
    }
}

/// Prints the line of a copy in which no frame was taken.
fn print_no_frame<E: Sink>(
    faults: &mut E,
    program: &'static str,
    name: &str,
    fault: MarkerFault,
    offset: u64,
)
    ensures { GrewBy (Printed (no_picture_line program.now name.now (fault_number fault) offset))
        (E.history faults.old) (E.history faults.new) }
{
    let number = u64::from(fault.number());
    print_no_picture(faults, program, name, number, offset);
}

/// Prints the line of a text that is refused.
fn print_text_fault<E: Sink>(faults: &mut E, program: &'static str, name: &str, fault: TextFault)
    ensures { GrewBy (Printed (text_fault_line program.now name.now fault)) (E.history faults.old) (E.history faults.new) }
{
    match fault {
        TextFault::Magic(offset) => {
            print_with_number(faults, program, name, ": bad text, magic at ", offset)
        }
        TextFault::BadShape(offset) => {
            print_with_number(faults, program, name, ": bad text, shape at ", offset)
        }
        TextFault::Truncated(offset) => {
            print_with_number(faults, program, name, ": bad text, truncated at ", offset)
        }
        TextFault::Place(offset) => {
            print_with_number(faults, program, name, ": bad text, place at ", offset)
        }
        TextFault::Count(offset) => {
            print_with_number(faults, program, name, ": bad text, count at ", offset)
        }
        TextFault::Order(offset) => {
            print_with_number(faults, program, name, ": bad text, order at ", offset)
        }
        TextFault::Sample(offset) => {
            print_with_number(faults, program, name, ": bad text, sample at ", offset)
        }
        TextFault::Trailing(offset) => {
            print_with_number(faults, program, name, ": bad text, trailing at ", offset)
        }
        TextFault::OutOfMemory => print_out_of_memory(faults, program),
    }
}

/// Prints the line of an input that is refused.
fn print_input_fault<E: Sink>(faults: &mut E, program: &'static str, name: &str, fault: InputFault)
    ensures { GrewBy (Printed (input_fault_line program.now name.now fault)) (E.history faults.old) (E.history faults.new) }
{
    match fault {
        InputFault::Text(fault) => print_text_fault(faults, program, name, fault),
        InputFault::NoPicture(fault, offset) => {
            print_no_frame(faults, program, name, fault, offset)
        }
        InputFault::Read(_, _) => print_about(faults, program, name, ": read failed"),
        InputFault::OutOfMemory => print_out_of_memory(faults, program),
    }
}

/// Prints that the output of this name was not created.
pub fn print_not_created<E: Sink>(faults: &mut E, program: &'static str, name: &str)
    ensures { GrewBy (Printed (not_created_line program.now name.now)) (E.history faults.old) (E.history faults.new) }
{
    print_about(faults, program, name, ": cannot be created");
}

/// Prints that an output of this number was not created.
fn print_file_not_created<E: Sink>(faults: &mut E, program: &'static str, name: &str, number: u64)
    ensures { GrewBy (Printed (file_not_created_line program.now name.now number)) (E.history faults.old) (E.history faults.new) }
{
    print_line(
        faults,
        &[
            LinePart::Text(program),
            LinePart::Text(": "),
            LinePart::Name(name),
            LinePart::Text("-"),
            LinePart::Number(number),
            LinePart::Text(": cannot be created"),
        ],
    );
}

/// Prints how many bytes of an output of this number went out before a write failed.
fn print_file_not_written<E: Sink>(
    faults: &mut E,
    program: &'static str,
    name: &str,
    number: u64,
    count: u64,
)
    ensures { GrewBy (Printed (file_not_written_line program.now name.now number count)) (E.history faults.old) (E.history faults.new) }
{
    print_line(
        faults,
        &[
            LinePart::Text(program),
            LinePart::Text(": "),
            LinePart::Name(name),
            LinePart::Text("-"),
            LinePart::Number(number),
            LinePart::Text(": write failed after "),
            LinePart::Number(count),
            LinePart::Text(" bytes"),
        ],
    );
}

/// Prints the line of a cause at an input or output of this name.
fn print_cause<E: Sink>(faults: &mut E, program: &'static str, name: &str, cause: Cause)
    ensures { GrewBy (Printed (cause_line program.now name.now cause)) (E.history faults.old) (E.history faults.new) }
{
    match cause {
        Cause::NotOpened => print_about(faults, program, name, ": cannot be opened"),
        Cause::Input(fault) => print_input_fault(faults, program, name, fault),
        Cause::PartialPicture => print_about(faults, program, name, ": is a partial picture"),
        Cause::NoPicture(fault, offset) => print_no_frame(faults, program, name, fault, offset),
        Cause::NotRead => print_about(faults, program, name, ": read failed"),
        Cause::NoList(line) => {
            print_with_number(
                faults,
                program,
                name,
                ": is no list of bad places, by line ",
                line,
            )
        }
        Cause::ShapeDiffers => print_about(faults, program, name, ": shape differs"),
        Cause::Unsettled { id, line, disputed } => {
            print_unsettled(faults, program, id, line, disputed)
        }
        Cause::TooLarge => print_plain(faults, program, "interval too large, give --ri"),
        Cause::NotCreated => print_not_created(faults, program, name),
        Cause::NotWritten(count) => print_not_written(faults, program, name, count),
        Cause::FileNotCreated(number) => print_file_not_created(faults, program, name, number),
        Cause::FileNotWritten(number, count) => {
            print_file_not_written(faults, program, name, number, count)
        }
        Cause::OutOfMemory => print_out_of_memory(faults, program),
    }
}

/// Prints why a command stopped, as one line.
fn print_refusal<E: Sink>(faults: &mut E, program: &'static str, refusal: Refusal<'_>)
    ensures { GrewBy (Printed (refusal_line program.now refusal.entry)) (E.history faults.old) (E.history faults.new) }
{
    print_cause(faults, program, refusal.name, refusal.cause);
}

/// Prints the line of what came of a command, if it has one.
pub fn print_outcome<E: Sink>(
    faults: &mut E,
    program: &'static str,
    outcome: &Result<Done, Refusal<'_>>,
)
    ensures { GrewBy (Printed (fault_line program.now outcome.now)) (E.history faults.old) (E.history faults.new) }
{
    match outcome {
        Ok(_) => {}
        Err(refusal) => print_refusal(faults, program, *refusal),
    }
}
