//! Why bytes are not the text of a partial picture.

ghost use Rattle.jls_partial.specs.declared.text_fault.TextFault.TheVariants.{OutOfMemory};
ghost use Rattle.std.specs.Prelude.{◌≡◌};

use std::alloc::{AllocError, AllocFailed};
use thiserror::Error;

/// The first fault of a text, with its offset in bytes from the start of the text.
#[derive(Clone, Copy, Debug, PartialEq, Eq, Error)]
pub enum TextFault {
    /// The first byte of the magic or the version that differs.
    #[error("bad magic at {0}")]
    Magic(u64),
    /// The fields of the shape make no shape. The offset is that of the shape's first field.
    #[error("bad shape at {0}")]
    BadShape(u64),
    /// The text ends inside a field. The offset is the length of the text.
    #[error("truncated at {0}")]
    Truncated(u64),
    /// An entry is of a line that the picture does not have, or that is not after the line of the entry before. The offset is that of the
    /// entry.
    #[error("bad place at {0}")]
    Place(u64),
    /// An entry has no reading. The offset is that of the number of readings.
    #[error("bad count at {0}")]
    Count(u64),
    /// A reading is not above the reading before it, or a source not above the source before it. The offset is that of the
    /// reading or the source.
    #[error("bad order at {0}")]
    Order(u64),
    /// A sample has more bits than the precision of the picture. The offset is that of the sample.
    #[error("bad sample at {0}")]
    Sample(u64),
    /// Bytes stand after the last entry. The offset is that of the first of them.
    #[error("trailing bytes at {0}")]
    Trailing(u64),
    /// There was no memory for the readings.
    #[error("out of memory")]
    OutOfMemory,
}

impl From<AllocError> for TextFault {
    ghost from_gives = { λ _ e. e ≡ OutOfMemory };

    fn from(_e: AllocError) -> TextFault {
        TextFault::OutOfMemory
    }
}

impl<T: Drop> From<AllocFailed<T>> for TextFault {
    ghost from_gives = { λ _ e. e ≡ OutOfMemory };

    fn from(_e: AllocFailed<T>) -> TextFault {
        TextFault::OutOfMemory
    }
}
