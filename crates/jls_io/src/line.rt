//! Lines by their parts.

ghost use Rattle.jls_io.specs.Event.{GrewBy};
ghost use Rattle.jls_io.specs.Writing.{Printed};
ghost use Rattle.jls_io.specs.Handing.{GoesOnBy};
ghost use Rattle.jls_io.specs.Lines.{line_of, part_bytes};

use crate::device::Sink;
use crate::names::put_name;
use crate::pending::{Pending, flush, put};
use itoa::Buffer;

/// A part of a line: a text, the name of an input or output, or a number.
#[derive(Clone, Copy)]
pub enum LinePart<'a> {
    /// A text, as it is.
    Text(&'a str),
    /// The name of an input or output. It is shown with each control character by its code, as `\u{1b}`, and with each backslash twice.
    Name(&'a str),
    /// A number, in decimal.
    Number(u64),
}

/// Appends the bytes of a part to the line that waits.
fn put_part<E: Sink>(faults: &mut E, pending: &mut Pending, part: LinePart<'_>)
    ensures { GoesOnBy (part_bytes part.entry) pending.old pending.new (E.history faults.old) (E.history faults.new) }
{
    match part {
        LinePart::Text(text) => put(faults, pending, text),
        LinePart::Name(name) => put_name(faults, pending, name),
        LinePart::Number(number) => {
            let mut buffer = Buffer::new();
            put(faults, pending, buffer.format(number));
        }
    }
}

/// Prints a line of these parts, in one write where it has at most 4,096 bytes. Its newline is added. A write that fails ends it and is
/// ignored: there is nowhere left to say so.
pub fn print_line<E: Sink>(faults: &mut E, parts: &[LinePart<'_>])
    ensures { GrewBy (Printed (line_of parts.now)) (E.history faults.old) (E.history faults.new) }
{
    let mut pending = Pending::new();
    for part in parts {
        put_part(faults, &mut pending, *part);
    }
    put(faults, &mut pending, "\n");
    flush(faults, &mut pending);
}

/// Prints a text as it is, as a line is printed.
pub fn print_text<E: Sink>(faults: &mut E, text: &str)
    ensures { GrewBy (Printed text.now) (E.history faults.old) (E.history faults.new) }
{
    let mut pending = Pending::new();
    put(faults, &mut pending, text);
    flush(faults, &mut pending);
}
