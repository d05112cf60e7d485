//! Bytes written whole.

ghost use Rattle.std.specs.Prelude.{take, IfErr, OnOk, MatchResult};
ghost use Rattle.std.specs.Io.KnownBytes.{Appends};
ghost use Rattle.jls_io.specs.Event.{GrewBy};
ghost use Rattle.jls_io.specs.Writing.{Wrote, WrotePrefix};

use crate::device::Sink;

/// Hands all of the bytes to a sink. `Err` has the number of bytes that had gone out when a write failed; no further write
/// is made then.
pub fn write_all<W: Sink>(sink: &mut W, bytes: &[u8]) -> Result<(), u64>
    ensures written { OnOk result (GrewBy (Wrote bytes.now) (W.history sink.old) (W.history sink.new)) }
    ensures stopped { IfErr result (λ count. GrewBy (WrotePrefix bytes.now count) (W.history sink.old) (W.history sink.new)) }
    ensures holds { MatchResult result (λ _. Appends (W.contents sink.old) (W.contents sink.new) bytes.now)
        (λ count. Appends (W.contents sink.old) (W.contents sink.new) (take count bytes.now)) }
{
    let mut done = 0;
    while done < bytes.len() {
        match sink.write_some(&bytes[done..]) {
            Ok(n) => done += n,
            Err(_) => return Err(done as u64),
        }
    }
    Ok(())
}
