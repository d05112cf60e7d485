//! Names in a line.

ghost use Rattle.std.specs.Prelude.{◌≡◌};
ghost use Rattle.std.specs.List.{flat_map};
ghost use Rattle.std.specs.Char.{encode_utf8};
ghost use Rattle.std.specs.Char.Escape.{escape_unicode};
ghost use Rattle.jls_io.specs.Handing.{GoesOnBy};
ghost use Rattle.jls_io.specs.Names as spec;
ghost use Rattle.jls_io.specs.Names.{shown_bytes, shown_name};

use crate::device::Sink;
use crate::pending::{Pending, put};

/// Whether the character controls a terminal or the direction of text.
fn is_control(c: char) -> bool
    ensures { result ≡ spec.is_control c }
{
    matches!(
        c as u32,
        0..=0x1F | 0x7F..=0x9F | 0x200E..=0x200F | 0x202A..=0x202E | 0x2066..=0x2069
    )
}

/// Puts a character as it is.
fn put_char<E: Sink>(faults: &mut E, pending: &mut Pending, c: char)
    ensures { GoesOnBy (encode_utf8 c) pending.old pending.new (E.history faults.old) (E.history faults.new) }
{
    let mut buffer = [0; 4];
    put(faults, pending, c.encode_utf8(&mut buffer));
}

/// Puts a character by its code.
fn put_code<E: Sink>(faults: &mut E, pending: &mut Pending, c: char)
    ensures { GoesOnBy (flat_map encode_utf8 (escape_unicode c)) pending.old pending.new (E.history faults.old) (E.history faults.new) }
{
    for part in c.escape_unicode() {
        put_char(faults, pending, part);
    }
}

/// Puts a character of a name.
fn put_shown<E: Sink>(faults: &mut E, pending: &mut Pending, c: char)
    ensures { GoesOnBy (shown_bytes c) pending.old pending.new (E.history faults.old) (E.history faults.new) }
{
    if is_control(c) {
        put_code(faults, pending, c);
    } else if c == '\\' {
        put(faults, pending, "\\\\");
    } else {
        put_char(faults, pending, c);
    }
}

/// Puts a name. A control character stands by its code, as `\u{1b}`, and a backslash twice.
pub(crate) fn put_name<E: Sink>(faults: &mut E, pending: &mut Pending, name: &str)
    ensures { GoesOnBy (shown_name name.now) pending.old pending.new (E.history faults.old) (E.history faults.new) }
{
    for c in name.chars() {
        put_shown(faults, pending, c);
    }
}
