//! Laws of devices over bytes in memory. Each is the contract of a function that makes one call.

ghost use Rattle.std.specs.Prelude.{◌≡◌, ◌<◌, ◌++◌, ◌∷◌, [], ℕ, List, length, take, IfOk, MatchResult};
ghost use Rattle.jls_io.specs.Event.{bytes_given, gave, read_failed, took, write_failed};
ghost use Rattle.jls_io.specs.Remaining.{HasGiven, HasTaken};

use crate::counted::Counted;
use crate::device::{Device, Sink, SinkFault, Source, SourceFault};

/// A source over bytes in memory begins with all of them left.
pub fn source_over_bytes<'a>(bytes: &'a [u8]) -> Counted<&'a [u8]>
    ensures { HasGiven bytes.now (⟦<Counted<&'a [u8]> as Device>⟧.history result) (⟦<Counted<&'a [u8]> as Source>⟧.remaining result) }
{
    Counted::new(bytes)
}

/// A sink over a list in memory begins with what the list holds.
pub fn sink_over_list(list: Vec<u8>) -> Counted<Vec<u8>>
    ensures { HasTaken list.items (⟦<Counted<Vec<u8>> as Device>⟧.history result) (⟦<Counted<Vec<u8>> as Sink>⟧.contents result) }
{
    Counted::new(list)
}

/// If the bytes of a source are known, all reads together give exactly these bytes, in their order. Each read keeps that, and if a read
/// meets the end they were all given. The history has this one read more, as one that gave bytes or as one that failed.
pub fn reads_give_the_content<S: Source>(
    source: &mut S,
    into: &mut [u8],
) -> Result<usize, SourceFault>
    ensures given { (content : List ℕ) → HasGiven content (S.history source.old) (S.remaining source.old)
        → HasGiven content (S.history source.new) (S.remaining source.new) }
    ensures end { (content : List ℕ) → HasGiven content (S.history source.old) (S.remaining source.old)
        → IfOk result (λ n. n ≡ 0 → 0 < length into.new → bytes_given (S.history source.new) ≡ content) }
    ensures reported { MatchResult result
        (λ n. S.history source.new ≡ S.history source.old ++ gave (length into.new) (take n into.new) ∷ [])
        (λ _. S.history source.new ≡ S.history source.old ++ read_failed ∷ []) }
{
    source.read_some(into)
}

/// If the bytes that a sink holds are known, it holds what it held before and then what all writes took, in their order. Each write keeps
/// that. The history has this one write more, as one that took bytes or as one that failed. A write of some bytes takes at least one.
pub fn writes_are_held<W: Sink>(sink: &mut W, bytes: &[u8]) -> Result<usize, SinkFault>
    ensures held { (before : List ℕ) → HasTaken before (W.history sink.old) (W.contents sink.old)
        → HasTaken before (W.history sink.new) (W.contents sink.new) }
    ensures reported { MatchResult result (λ n. W.history sink.new ≡ W.history sink.old ++ took (take n bytes.now) ∷ [])
        (λ _. W.history sink.new ≡ W.history sink.old ++ write_failed ∷ []) }
    ensures some { IfOk result (λ n. 0 < length bytes.now → 0 < n) }
{
    sink.write_some(bytes)
}
