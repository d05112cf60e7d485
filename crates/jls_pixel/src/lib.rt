//! One interval of scan data that is interleaved by sample: the code of its rows, what reads as it, and the laws of both.
//! The crate `jls_piece` stands on it.
//!
//! - `pixel`, `place`: a pixel. A row with the two rows above, and the samples round its next pixel
//! - `coder`, `code_lengths`: what is carried from sample to sample: the contexts, and the lengths of codes
//! - `data_bits`, `pending_bits`: the data bits of a byte. The bits that wait to be read, and Golomb codes from them
//! - `sample`, `run`, `run_index`: read a sample, and the columns of a run. J and the blocks of a run
//! - `read_pixel`, `event`: read the samples of a pixel, and an event
//! - `finished_rows`: the rows that are read. A clone takes handles of them
//! - `pixel_reader`: the rows so far. It reads an event once 368 bits wait, which is more than any event has. So none is begun that can't
//!   be ended, and fewer than 500 bits wait between two bytes
//! - `pixel_decoder`: the public decoder. It gives the data bits of its bytes to the reader
//! - `decode`: `decode_pixels`: a decoder that is pushed the whole piece
//! - `cut_end`, `cut_rows`, `cut_event`, `cut_run`, `cut_pixel`, `cut_sample`: heads. What a decoder answers where the input ends. The
//!   finished rows. Whether the bits that wait are the first ones of an event. The same for a run, for a pixel, and for a sample, by
//!   trying each value that it can have
//! - `laws`, `heads`: the laws. Codes are apart, and rows grow event by event. Heads are one
//!
//! Neighbours, predictions, errors, cells, the blocks of a run and Golomb codes are those of `jls_interval` and `jls_context`, as in an
//! interval by line. Definitions: `Pixels` (rows, the neighbours of a pixel, its mode) and `Events` (pixels in regular mode, and runs).
//! `Cells` (the state before an event) and `Code` (bits). `Reads`: which bytes read, are too long, are broken. For laws and the decoder:
//! `Growth` (the interval as a code that is read step by step), `Laws`, `PieceFaults`. The record `PixelBytes` is what contracts see of a
//! decoder. `FinishedRows` says which list handles of rows are. `Heads`: the rows that stand whole where bits break off, and their laws.
//! `CutEnds` says what `finish_cut` answers. The other files are needed inside the crate only. Of these `Place`, `SampleCodes`,
//! `RowsInWork`, `Answers` and the end of `PixelReading` have names that contracts share.
//!
//! # What differs from an interval by line
//!
//! 1. Order. Row by row, pixel by pixel, and in a pixel component by component, in the order of the scan (ITU-T T.87, B.2). The samples
//!    round a sample are those of its own component.
//! 2. Mode (A.3.2). A pixel is in run mode if the gradients of all its components are 0. If not, each of its samples is coded in regular
//!    mode. One whose own gradients are 0 has context 0, and its SIGN is +1.
//! 3. Runs are of pixels (A.7.1). A run goes on while each component holds its own Ra. The scan has one RUNindex.
//! 4. The pixel that interrupts a run (A.7.2). Its samples are coded one after another, each with J of RUNindex after the full blocks.
//!    RUNindex falls once, after them. RItype is 0 for each, whatever its Ra and Rb. So an error can be 0, and cell 366 is never used.
//! 5. What is no code: a pixel that interrupts a run and is the run's own value in every component. Its last sample shows that.
//!
//! These are readings that other coders agree on, and not quotations of the standard. Not proved: that a call succeeds where memory is
//! enough, which is tested, and how many bits wait at most.
//!
//! # Where bits break off
//!
//! Bits are the first ones, and not all, of the code of some rows in exactly these cases. They are the bits of whole events, and then the
//! first ones, and not all, of an event that can come next. Of a pixel, they end in the first sample that isn't whole. Some value of that
//! sample has to begin with them. The later samples can always be completed, since each value has a code. They can also be chosen so that
//! the pixel is not the value of the run that it interrupts, since MAXVAL is at least 1. Only if the last sample is cut, and all earlier
//! ones are the run's own, is one value of it excepted. In a run, ones for full blocks always go on. A count goes on if its least
//! continuation is below the columns left, and if a pixel has a component.
//!
//! `crates/jls_pixel/proofs/WorkedExamples.antt` computes some intervals from these definitions alone. The bytes are those of other coders.
#![tactic(auto)]

mod code_lengths;
mod coder;
mod cut_end;
mod cut_event;
mod cut_pixel;
mod cut_rows;
mod cut_run;
mod cut_sample;
mod data_bits;
mod decode;
mod event;
mod finished_rows;
mod heads;
mod laws;
mod pending_bits;
mod pixel;
mod pixel_decoder;
mod pixel_reader;
mod place;
mod read_pixel;
mod run;
mod run_index;
mod sample;

pub use cut_end::PixelCutEnd;
pub use decode::{PixelFault, decode_pixels};
pub use finished_rows::FinishedRows;
pub use heads::{
    pixel_cuts_are_exact, pixel_heads_are_finished_rows, pixel_heads_are_one,
    read_pixel_pieces_have_no_head,
};
pub use laws::{
    broken_pixel_pieces_begin_with_no_code, growth_ends_in_rows, pixel_codes_are_apart,
    pixel_events_are_apart, pixel_events_have_bits, pixel_pieces_read_once, rows_grow,
};
pub use pixel::Pixel;
pub use pixel_decoder::PixelDecoder;
