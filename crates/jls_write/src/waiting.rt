//! Bytes that wait before a sink, so that it is handed many at once.

ghost use Rattle.jls_write.specs.Outcomes.{HandedOut, HandedPrefix, StoppedBy};
ghost use Rattle.jls_write.specs.Waiting.{PutAfter};
ghost use Rattle.std.specs.Prelude.{◌≡◌, ◌+◌, ◌<◌, ◌≤◌, ◌^◌, [], ◌++◌, length, IfErr, OnOk};

use crate::output::{OutputFault, write_part};
use arrayvec::ArrayVec;
use jls_io::Sink;

/// The room for bytes that wait. It has place for fewer than `FULL`, and for as many after them.
pub(crate) const ROOM: usize = 8192;

/// The fewest bytes that are handed out at once, but for the last ones of a file.
const FULL: usize = 4096;

/// Bytes that wait, and how many have gone out before them.
#[derive(Drop)]
pub(crate) struct Waiting {
    pub(crate) bytes: ArrayVec<u8, ROOM>,
    pub(crate) gone: u64,
}

impl Waiting {
    /// These bytes wait, and none has gone out.
    pub(crate) fn of(header: &[u8]) -> Waiting
        requires { length header.now ≤ 80 }
        ensures items { result.bytes.items ≡ header.now }
        ensures gone { result.gone ≡ 0 }
    {
        let mut bytes = ArrayVec::new();
        match bytes.try_extend_from_slice(header) {
            Ok(()) => (),
            Err(_) => unreachable!(),
        }
        Waiting { bytes, gone: 0 }
    }

    /// Hands out all that waits.
    pub(crate) fn hand_out<W: Sink>(&mut self, sink: &mut W) -> Result<(), OutputFault>
        requires { self.old.gone < 2 ^ 63 }
        ensures gone { OnOk result (self.new.gone ≡ self.old.gone + length self.old.bytes.items) }
        ensures empty { OnOk result (self.new.bytes.items ≡ []) }
        ensures all { OnOk result (HandedOut (W.history sink.old) (W.history sink.new)
            (W.contents sink.old) (W.contents sink.new) self.old.bytes.items) }
        ensures prefix { IfErr result (λ fault. StoppedBy fault self.old.gone (HandedPrefix (W.history sink.old) (W.history sink.new)
            (W.contents sink.old) (W.contents sink.new) self.old.bytes.items)) }
    {
        self.gone = write_part(sink, self.gone, &self.bytes)?;
        self.bytes.clear();
        Ok(())
    }

    /// Hands out all that waits where there is no room for as much again.
    pub(crate) fn make_room<W: Sink>(&mut self, sink: &mut W) -> Result<(), OutputFault>
        requires { self.old.gone < 2 ^ 63 }
        ensures few { OnOk result (length self.new.bytes.items < 4096) }
        ensures all { OnOk result (PutAfter (W.history sink.old) (W.history sink.new)
            (W.contents sink.old) (W.contents sink.new) self.old.bytes.items self.old.gone self.new.bytes.items self.new.gone []) }
        ensures prefix { IfErr result (λ fault. StoppedBy fault self.old.gone (HandedPrefix (W.history sink.old) (W.history sink.new)
            (W.contents sink.old) (W.contents sink.new) self.old.bytes.items)) }
    {
        if self.bytes.len() < FULL {
            return Ok(());
        }
        self.hand_out(sink)
    }
}
