//! Devices that keep a history: sources, sinks and the desk of a program.
//!
//! No contract can say which bytes a file has. So each device tells what it was asked and what it gave: its history, the
//! list of its events. What a program does is then a statement about the events of its desk.

ghost use Rattle.std.specs.Prelude.{◌≡◌, ◌≤◌, ◌<◌, ◌++◌, ◌∷◌, [], ℕ, List, Option, None, false, length, take, IfOk, OnOk, OnErr, IsErr};
ghost use Rattle.std.specs.Io.KnownBytes.{ReadConsumes, WriteAppends};
ghost use Rattle.jls_io.specs.Event.{History, opened, not_opened, gave, read_failed, created, not_created, took, write_failed};
ghost use Rattle.jls_io.specs.Event.{count_of, has_input, has_output, is_read, is_failed_read, is_failed_write, is_failed_opening};

use thiserror::Error;

/// A read failed. The source's count of failed reads rose.
#[derive(Clone, Copy, Debug, PartialEq, Eq, Error)]
#[error("a read failed")]
pub struct SourceFault;

/// A write failed. The sink's count of failed writes rose.
#[derive(Clone, Copy, Debug, PartialEq, Eq, Error)]
#[error("a write failed")]
pub struct SinkFault;

/// An input was not opened, or an output was not created. The desk's count of these failures rose.
#[derive(Clone, Copy, Debug, PartialEq, Eq, Error)]
#[error("not opened or not created")]
pub struct DeskFault;

/// Every device has a history: the list of what it was asked and what it gave, from its start on. The history exists for
/// contracts only and costs nothing when the program runs.
pub trait Device {
    ghost history: { Self → History };
}

/// Something that bytes are read from.
pub trait Source: Device {
    // The bytes that reads will still give, where they are known.
    ghost remaining: { Self → Option (List ℕ) } = { λ _. None };

    /// Reads some bytes into the start of the buffer and answers how many. If the buffer has room, 0 is the end.
    fn read_some(&mut self, into: &mut [u8]) -> Result<usize, SourceFault>
        ensures within { IfOk result (λ n. n ≤ length into.new) }
        ensures read { IfOk result (λ n. Self.history self.new
            ≡ Self.history self.old ++ gave (length into.new) (take n into.new) ∷ []) }
        ensures failed { OnErr result (Self.history self.new ≡ Self.history self.old ++ read_failed ∷ []) }
        ensures nothing_open { has_input (Self.history self.old) ≡ false → IfOk result (λ n. n ≡ 0) }
        ensures bytes { ReadConsumes (Self.remaining self.old) (Self.remaining self.new) result into.new };

    /// How many reads were made so far. The count stops at 2^64 - 1.
    fn reads(&self) -> u64
        ensures { result ≡ count_of is_read (Self.history self.now) };

    /// How many reads failed so far. The count stops at 2^64 - 1.
    fn read_failures(&self) -> u64
        ensures { result ≡ count_of is_failed_read (Self.history self.now) };
}

/// Something that bytes are written to.
pub trait Sink: Device {
    // The bytes that it holds, where they are known.
    ghost contents: { Self → Option (List ℕ) } = { λ _. None };

    /// Hands out some of the bytes, from the start on, and answers how many: at least 1 if there are any.
    fn write_some(&mut self, bytes: &[u8]) -> Result<usize, SinkFault>
        ensures within { IfOk result (λ n. n ≤ length bytes.now) }
        ensures some { IfOk result (λ n. 0 < length bytes.now → 0 < n) }
        ensures written { IfOk result (λ n. Self.history self.new ≡ Self.history self.old ++ took (take n bytes.now) ∷ []) }
        ensures failed { OnErr result (Self.history self.new ≡ Self.history self.old ++ write_failed ∷ []) }
        ensures nothing_open { has_output (Self.history self.old) ≡ false → IsErr result }
        ensures bytes { WriteAppends (Self.contents self.old) (Self.contents self.new) result bytes.now };

    /// How many writes failed so far. The count stops at 2^64 - 1.
    fn write_failures(&self) -> u64
        ensures { result ≡ count_of is_failed_write (Self.history self.now) };
}

/// The inputs and outputs of a program, each opened by its name. Reads go to the input that was opened last, and writes to
/// the output that was created last.
pub trait Desk: Source + Sink {
    /// Opens an input by its name and makes it the current one.
    fn open_input(&mut self, name: &str) -> Result<(), DeskFault>
        ensures opened { OnOk result (Self.history self.new ≡ Self.history self.old ++ opened name.now ∷ []) }
        ensures failed { OnErr result (Self.history self.new ≡ Self.history self.old ++ not_opened name.now ∷ []) };

    /// Creates an output by its name and makes it the current one.
    fn create_output(&mut self, name: &str) -> Result<(), DeskFault>
        ensures created { OnOk result (Self.history self.new ≡ Self.history self.old ++ created name.now ∷ []) }
        ensures failed { OnErr result (Self.history self.new ≡ Self.history self.old ++ not_created name.now ∷ []) };

    /// How many inputs and outputs could not be opened or created so far. The count stops at 2^64 - 1.
    fn open_failures(&self) -> u64
        ensures { result ≡ count_of is_failed_opening (Self.history self.now) };
}
