//! Readers that are fed as long as a file without a fault may begin so.

ghost use Rattle.std.specs.Prelude.{◌≡◌, ◌+◌, ◌-◌, ◌^◌, ◌≤◌, length, IfSome};
ghost use Rattle.jls_diff.specs.PartsOf.{parts_of};

use crate::pace::Pace;
use jls_copy::WideReader;
use jls_diff::Parts;
use jls_search::feed_any;
use std::alloc::AllocError;

/// How many bytes are fed at first before it is asked whether the reader is dead.
const FIRST_STEP: usize = 16;

/// How many are fed at most.
const LAST_STEP: usize = 4096;

/// How far a reader came.
#[derive(Clone, Copy)]
pub(crate) struct Life {
    /// How many bytes were fed, about as many as it lived.
    pub(crate) bytes: usize,
    /// Whether it was found that no file without a fault begins so.
    pub(crate) is_dead: bool,
    /// Its last bytes.
    pub(crate) pace: Pace,
}

/// Whether it is known that no file without a fault begins with the bytes fed.
pub(crate) fn is_dead(reader: &WideReader) -> bool {
    reader.has_faulty_piece() || reader.is_piece_broken()
}

impl Life {
    /// That of a reader that was fed nothing more.
    pub(crate) fn new(pace: Pace) -> Life {
        Life {
            bytes: 0,
            is_dead: false,
            pace,
        }
    }

    /// Feeds a reader until it is dead.
    pub(crate) fn go_on(
        &mut self,
        reader: &mut WideReader,
        bytes: &[u8],
    ) -> Result<(), AllocError> {
        let mut rest = bytes;
        for _ in 0..bytes.len() {
            if rest.is_empty() || self.is_dead {
                break;
            }
            let step = self.bytes.clamp(FIRST_STEP, LAST_STEP).min(rest.len());
            let (slice, later) = rest.split_at(step);
            feed_any(reader, slice)?;
            self.bytes = self.bytes.saturating_add(step);
            self.is_dead = is_dead(reader);
            self.pace.go_on(reader);
            rest = later;
        }
        Ok(())
    }

    /// Feeds a reader what all copies have from a part on, up to the next in which they differ, until it is dead.
    pub(crate) fn go_through(
        &mut self,
        reader: &mut WideReader,
        parts: &Parts<'_>,
        from: usize,
    ) -> Result<(), AllocError> {
        for place in from..parts.len() {
            if self.is_dead || parts.is_differ(place) {
                break;
            }
            self.go_on(reader, parts.way(place, 0))?;
        }
        Ok(())
    }
}
