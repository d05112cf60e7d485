//! A copy that is read to its end.

ghost use Rattle.std.specs.Prelude.{◌≡◌, [], Some, IfOk, OnErr, OnOk};
ghost use Rattle.std.specs.Io.KnownBytes.{Consumes};
ghost use Rattle.jls_io.specs.Event.{GrewBy};
ghost use Rattle.jls_station.specs.Reading.{IsRead, IsReadInPart};
ghost use Rattle.jls_station.specs.CopyFiles.{begins_as_text, IsTextPrefix};

use crate::input::ReadStop;
use crate::reading::{Intake, read_on};
use jls_io::Source;
use std::alloc::AllocError;

/// Whether the bytes begin as each text of a partial picture does.
pub(crate) fn is_text(bytes: &[u8]) -> bool
    ensures { result ≡ begins_as_text bytes.now }
{
    bytes.starts_with(b"JLSP")
}

/// A copy that is read to its end, unless it begins as a text.
struct WholeIntake;

impl Intake for WholeIntake {
    type Held = Vec<u8>;

    ghost fed = { λ bytes. Some bytes.items };

    ghost IsEnough = { IsTextPrefix };

    fn is_enough(bytes: &Vec<u8>) -> bool {
        is_text(bytes)
    }

    fn put(bytes: &mut Vec<u8>, more: &[u8]) -> Result<(), AllocError> {
        bytes.extend_from_slice(more)
    }
}

/// Reads a copy to the end of the device, from its current position on. Bytes after the end of the picture are read too. They go into
/// the room of `bytes`. Reads have room for at most 4,096 bytes, and there are at most 4,294,967,295 of them. None is made once the
/// bytes begin as the text of a partial picture: that stops the reading as its end does.
pub(crate) fn read_to_end<S: Source>(
    device: &mut S,
    bytes: &mut Vec<u8>,
) -> Result<ReadStop, AllocError>
    ensures read { IfOk result (λ stop.
        GrewBy (λ reads. IsRead IsTextPrefix reads bytes.new.items stop) (S.history device.old) (S.history device.new)) }
    ensures refused { OnErr result (GrewBy (IsReadInPart IsTextPrefix) (S.history device.old) (S.history device.new)) }
    ensures known { OnOk result (Consumes (S.remaining device.old) (S.remaining device.new) bytes.new.items) }
{
    bytes.clear();
    read_on::<S, WholeIntake>(device, bytes, 0)
}
