//! The loop that reads an input: as long as more of its bytes are wanted.

ghost use Rattle.std.specs.Prelude.{◌≡◌, ◌≤◌, ◌+◌, ◌-◌, ◌*◌, ◌^◌, ◌++◌, ◌↔◌, ◌⊎◌, ℕ, List, Option, Some, IsTrue, length, take};
ghost use Rattle.std.specs.Prelude.{IfOk, OnOk, OnErr, IfSome, IsSomeAnd};
ghost use Rattle.std.specs.Io.KnownBytes.{Consumes, IsAtEnd};
ghost use Rattle.jls_io.specs.Event.{History, GrewBy};
ghost use Rattle.jls_station.specs.Reading.{ReadSoFar, IsRead, IsReadInPart};
ghost use Rattle.jls_station.specs.declared.input.ReadStop.TheVariants.{Whole};
ghost use Rattle.jls_marker.specs.SegmentLaws.{AreBytes};

use crate::input::ReadStop;
use jls_io::Source;
use std::alloc::AllocError;

/// The most reads of one input.
const READS: u64 = 4_294_967_295;

/// What the bytes of an input go into as it is read, and how many of them are wanted.
pub(crate) trait Intake {
    /// What the bytes go into.
    type Held;

    /// The bytes that it was fed. There are none where it takes no more.
    ghost fed: { Self.Held → Option (List ℕ) };

    /// Says of the bytes fed that they are enough, so that no more are wanted.
    ghost IsEnough: { List ℕ → Type 0 };

    /// Whether no more bytes are wanted.
    fn is_enough(held: &Self::Held) -> bool
        ensures { IfSome (fed held.now) (λ bytes. IsTrue result ↔ IsEnough bytes) };

    /// Takes the bytes that a read gave.
    fn put(held: &mut Self::Held, bytes: &[u8]) -> Result<(), AllocError>
        requires { IfSome (fed held.old) (λ before. length before + length bytes.now ≤ 2 ^ 63 - 1) }
        ensures { (before : List ℕ) → fed held.old ≡ Some before → OnOk result (fed held.new ≡ Some (before ++ bytes.now)) };
}

/// The prefix of a buffer, which has as many bytes as a read gave.
pub(crate) fn prefix(buffer: &[u8], count: usize) -> &[u8]
    requires { count ≤ length buffer.now }
    ensures prefix { result.now ≡ take count buffer.now }
    ensures bytes { AreBytes result.now }
{
    &buffer[..count]
}

/// Reads an input on, of which `made` reads gave what was fed. It goes on until that is enough, or as far as the source goes. In the
/// clauses `before` is what the device had done, or what it had left to give, before these reads.
pub(crate) fn read_on<S: Source, I: Intake>(
    device: &mut S,
    held: &mut I::Held,
    made: u64,
) -> Result<ReadStop, AllocError>
    requires made_few { made ≤ 1 }
    requires fed_few { IsSomeAnd (I.fed held.old) (λ fed. length fed ≤ 4096 * made) }
    ensures longer { (fed : List ℕ) → I.fed held.old ≡ Some fed
        → IfOk result (λ stop. IsSomeAnd (I.fed held.new) (λ bytes. (more : List ℕ) × (bytes ≡ fed ++ more))) }
    ensures read { (before : History) (fed : List ℕ) → I.fed held.old ≡ Some fed
        → GrewBy (ReadSoFar I.IsEnough made fed) before (S.history device.old)
        → IfOk result (λ stop. IsSomeAnd (I.fed held.new) (λ bytes. GrewBy (λ reads. IsRead I.IsEnough reads bytes stop) before
        (S.history device.new))) }
    ensures refused { (before : History) (fed : List ℕ) → I.fed held.old ≡ Some fed
        → GrewBy (ReadSoFar I.IsEnough made fed) before (S.history device.old)
        → OnErr result (GrewBy (IsReadInPart I.IsEnough) before (S.history device.new)) }
    ensures known { (before : Option (List ℕ)) (fed : List ℕ) → I.fed held.old ≡ Some fed
        → Consumes before (S.remaining device.old) fed
        → IfOk result (λ stop. IsSomeAnd (I.fed held.new) (λ bytes. Consumes before (S.remaining device.new) bytes)) }
    ensures end { IfOk result (λ stop. stop ≡ Whole → IsSomeAnd (I.fed held.new) I.IsEnough ⊎ IsAtEnd (S.remaining device.new)) }
{
    let mut chunk = [0u8; 4096];
    for _ in made..READS {
        if I::is_enough(held) {
            return Ok(ReadStop::Whole);
        }
        let n = match device.read_some(&mut chunk) {
            Ok(n) => n,
            Err(_) => return Ok(ReadStop::Failed),
        };
        if n == 0 {
            return Ok(ReadStop::Whole);
        }
        I::put(held, prefix(&chunk, n))?;
    }
    if I::is_enough(held) {
        Ok(ReadStop::Whole)
    } else {
        Ok(ReadStop::Turns)
    }
}
