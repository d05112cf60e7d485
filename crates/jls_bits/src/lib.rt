//! Data bits with the bit stuffed after each byte 0xFF, and Golomb codes of a limited length (ITU-T T.87, annex A).
//!
//! - `stuffing`: the two facts about a byte after 0xFF
//! - `reader`: the data bits of a slice of bytes
//! - `unstuffer`, `pushed`, `chunk`: the data bits of bytes that come one by one. `pushed` keeps the list of these bytes for contracts
//!   alone. `chunk` holds up to 64 bits
//! - `packing`: a writer's complete bytes, and the bits that wait after them in a number of 64 bits. It says how much room a call needs
//! - `writer`: the public writer. It reserves that room first, and then appends what cannot fail
//! - `code_state`: a Golomb code, read one bit or one chunk at a time. It answers `Done` (this number's code) or `Refused` (no code begins
//!   so) at the first bit that decides, and `More` until then
//! - `golomb`, `golomb_reader`: the public forms: over a `BitReader`, and bit by bit
//!
//! A decoder of an interval keeps a `CodeState`, and computes k, g and qbpp anew. `of_short` finds the state of an incomplete short code
//! from all its bits at once, and `fed` gives these bits back.
//!
//! Definitions: `Bits`, `Pad`, `Front` (the bytes that bits fill), `Golomb`, `CodeState`, `Chunk`, `Unread`, `GolombBits`. Inside
//! the crate: `Packing`, `Appending`, `Unstuffing`, `GolombReading`.
#![tactic(auto)]

mod chunk;
mod code_state;
mod golomb;
mod golomb_reader;
mod packing;
mod pushed;
mod reader;
mod stuffing;
mod unstuffer;
mod writer;

pub use chunk::Chunk;
pub use code_state::{CodeState, CodeStep};
pub use golomb::{
    golomb_codes_are_limited, no_golomb_code_begins_another, read_golomb, write_golomb,
};
pub use golomb_reader::{GolombReader, GolombStep};
pub use pushed::PushedBytes;
pub use reader::{BitReader, data_bits_end_at_a_marker};
pub use unstuffer::Unstuffer;
pub use writer::{BitPlace, BitWriter, bits_have_one_pad, fronts_begin};
