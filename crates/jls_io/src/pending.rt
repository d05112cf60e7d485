//! Lines that are handed out in large parts.

ghost use Rattle.std.specs.Prelude.{◌≡◌, ◌∷◌, ◌<◌, [], ℕ, List, true};
ghost use Rattle.arrayvec.specs.ArrayVec.{array_vec_len};
ghost use Rattle.jls_io.specs.Event.{History};
ghost use Rattle.jls_io.specs.Handing.{HandedBut, GoesOnBy};

use crate::device::Sink;
use crate::writing::write_all;
use arrayvec::ArrayVec;

/// The most bytes that wait.
const MOST_PENDING: usize = 4096;

/// The end of a line that is not handed out yet, in a buffer on the stack. `went` says whether all writes of the line went well so far. A
/// write that fails ends the line.
#[derive(Drop)]
pub(crate) struct Pending {
    bytes: ArrayVec<u8, MOST_PENDING>,
    went: bool,
}

impl Pending {
    /// A line begins.
    pub(crate) fn new() -> Pending
        ensures empty { result.bytes.items ≡ [] }
        ensures well { result.went ≡ true }
    {
        Pending {
            bytes: ArrayVec::new(),
            went: true,
        }
    }
}

/// Hands out the end of a line, unless a write of it failed before. The answer is whether all its writes went well.
fn hand_out<E: Sink>(faults: &mut E, went: bool, bytes: &[u8]) -> bool
    ensures { (line : List ℕ) (before : History) → HandedBut line went bytes.now before (E.history faults.old)
        → HandedBut line result [] before (E.history faults.new) }
{
    if !went {
        return false;
    }
    match write_all(faults, bytes) {
        Ok(()) => true,
        Err(_) => false,
    }
}

/// Hands out all that is pending.
pub(crate) fn flush<E: Sink>(faults: &mut E, pending: &mut Pending)
    ensures same_line { (line : List ℕ) (before : History)
        → HandedBut line pending.old.went pending.old.bytes.items before (E.history faults.old)
        → HandedBut line pending.new.went pending.new.bytes.items before (E.history faults.new) }
    ensures empty { pending.new.bytes.items ≡ [] }
{
    let went = hand_out(faults, pending.went, pending.bytes.as_slice());
    pending.went = went;
    pending.bytes.clear();
}

/// Hands out all that is pending where there is no room for more.
fn make_room<E: Sink>(faults: &mut E, pending: &mut Pending)
    ensures same_line { (line : List ℕ) (before : History)
        → HandedBut line pending.old.went pending.old.bytes.items before (E.history faults.old)
        → HandedBut line pending.new.went pending.new.bytes.items before (E.history faults.new) }
    ensures room { array_vec_len pending.new.bytes < 4096 }
{
    if pending.bytes.is_full() {
        flush(faults, pending);
    }
}

/// Puts one byte more.
fn put_byte<E: Sink>(faults: &mut E, pending: &mut Pending, byte: u8)
    ensures { GoesOnBy (byte ∷ []) pending.old pending.new (E.history faults.old) (E.history faults.new) }
{
    make_room(faults, pending);
    pending.bytes.push(byte);
}

/// Puts more of the line. What is pending is handed out only where there is no room for more.
pub(crate) fn put<E: Sink>(faults: &mut E, pending: &mut Pending, text: &str)
    ensures { GoesOnBy text.now pending.old pending.new (E.history faults.old) (E.history faults.new) }
{
    for byte in text.as_bytes() {
        put_byte(faults, pending, *byte);
    }
}
