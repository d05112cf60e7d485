//! Bytes handed to a sink, with a count of all that have gone out.

ghost use Rattle.jls_write.specs.Outcomes.{HandedOut, HandedPrefix, StoppedBy};
ghost use Rattle.std.specs.Prelude.{◌≡◌, ◌+◌, ◌<◌, ◌^◌, length, IfOk, IfErr, OnOk};

use jls_io::{Sink, write_all};
use thiserror::Error;

/// Why a file wasn't handed out whole. Exactly so many of its first bytes have gone out, and not all.
#[derive(Clone, Copy, Debug, PartialEq, Eq, Error)]
pub enum OutputFault {
    /// A write failed.
    #[error("a write failed after {0} bytes")]
    Write(u64),
    /// There was no memory.
    #[error("out of memory after {0} bytes")]
    OutOfMemory(u64),
}

/// Hands these bytes to a sink after `before` others, and answers how many have gone out then. It takes no memory.
pub(crate) fn write_part<W: Sink>(
    sink: &mut W,
    before: u64,
    bytes: &[u8],
) -> Result<u64, OutputFault>
    requires { before + length bytes.now < 2 ^ 64 }
    ensures count { IfOk result (λ count. count ≡ before + length bytes.now) }
    ensures all { OnOk result (HandedOut (W.history sink.old) (W.history sink.new)
        (W.contents sink.old) (W.contents sink.new) bytes.now) }
    ensures prefix { IfErr result (λ fault. StoppedBy fault before (HandedPrefix (W.history sink.old) (W.history sink.new)
        (W.contents sink.old) (W.contents sink.new) bytes.now)) }
{
    match write_all(sink, bytes) {
        Ok(()) => Ok(before + bytes.len() as u64),
        Err(count) => Err(OutputFault::Write(before + count)),
    }
}
