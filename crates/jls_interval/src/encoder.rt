//! What an encoder has written, and what it carries on.

use crate::coder::Coder;
use jls_bits::BitWriter;

/// The bits written so far, and what is carried from event to event.
#[derive(Drop)]
pub(crate) struct Encoder {
    pub writer: BitWriter,
    pub coder: Coder,
}
