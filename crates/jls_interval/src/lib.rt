//! One interval of scan data: the code of its lines, what reads as it, and the laws of both.
//!
//! - `coder`: what both ways carry from event to event: the contexts, the lengths of codes (`code_lengths`), and RUNindex of each component
//! - `place`, `neighbours`, `run_index`: a component with the two lines above. The neighbours of a sample. J and the blocks of a run
//! - `encode`, `encode_line`: writing: the lines of an interval, and the stretches of columns of a line
//! - `front`: the same for the first lines of an interval: the bytes that they fill, and where each line ends
//! - `encode_run`, `encode_sample`, `encode_samples`: write the bits of a run, of a sample, and of consecutive samples of regular mode, by
//!   an `encoder`
//! - `interval_decoder`: the public decoder. It makes chunks of the data bits of its bytes, and keeps no bytes
//! - `interval_reader`, `line_reader`: the lines so far. The current line, with the current event
//! - `finished_lines`: the lines that are read. They stand in blocks, of which a clone takes handles
//! - `push_event`, `push_sample`, `run_reader`: take bits of an event, of a sample, and of a run
//! - `line_samples`: the fast way: samples of regular mode whose codes are short and complete in the chunk
//! - `decode_piece`: `decode_interval`: a decoder that is pushed the whole piece
//! - `cut_end`, `cut_lines`, `cut_event`, `cut_sample`: heads. What a decoder answers where the input ends. The complete lines. Whether the
//!   current event can continue, and the same for a sample, by trying each number that its code can be
//!
//! - Most samples are read by `line_samples`. It looks up the lines above once, moves the neighbours along, and computes each gradient
//!   once. It leaves the rest to `push_event`, also the last column of a line.
//! - At the end of a slice `line_samples` keeps the bits of an incomplete short code. With the next slice `take_back` gives them back. So
//!   that code is read in the fast way too.
//! - The code keeps no list of events. Contracts and invariants speak of events.
//! - A line is reserved before it is read. No memory is taken by the number of lines that a header claims.
//!
//! Definitions: `Lines` (L(y, x) and neighbours), `Events` (stretches of columns, then the same computed), `Cells` and `Runs` (the state
//! before an event), `Code` (bits), `Reads` (which bytes read, are too long, are broken), `Fits`. For laws and decoders: `Stepwise` (codes
//! that are read step by step, without JPEG-LS), `Growth` (the interval as such a code), `Laws`, `ReadBack`, `Heads` and `CutEvents` (where
//! bits break off). `Fronts`: first lines, and the bytes that they fill. `PieceFaults` says what an answer says of a piece, except
//! `NoLines`. `CutEnds` says the same at the input's end. The record `IntervalBytes` is what contracts see of a decoder. `FinishedLines`
//! says which list blocks of lines are. The other files are needed inside the crate only.
//!
//! Not proved:
//!
//! - That a decoder keeps no scan bytes. Its fields show that.
//! - How much a clone copies: the line in work, and about as many finished lines as no block holds.
//!
//! # An interval's code in words
//!
//! These are the steps by which the code of an interval is defined, each with its file of `specs/` and its section of T.87.
//!
//! 1. Lines (`Lines`). An interval is a list of lines of one width, each sample at most MAXVAL. They are in order of rows, and within a row
//!    in the order of the scan's components (B.2). L(y, x) is the sample in column x of line y of one component. The lines -1 and -2 are
//!    zeros, since an interval begins like a scan (A.2).
//! 2. Neighbours (`neighbours_at`, A.3). Ra = L(y, x-1), Rb = L(y-1, x), Rc = L(y-1, x-1), Rd = L(y-1, x+1). In the first column Ra is Rb,
//!    and Rc is the Ra that the line above had in its first column, which is L(y-2, 0). In the last column Rd is Rb. Editions of the
//!    standard word Rc of the first column differently. This is the project's reading.
//! 3. Events (`Events`, A.3.2, A.7). The columns of a line are divided, from the left, into events. A column whose mode is not run mode is
//!    an event of its own. At a column of run mode a run begins, with the value Ra there. If all columns to the end of the line hold the
//!    value, it is a run to the end. Otherwise some columns hold it, possibly none, and the next does not: an interrupted run. `AreEvents`
//!    says so of a finished interval.
//! 4. The cells before an event (`Cells`, A.4, A.6, A.7.2). Take the earlier events of the interval that use the cell, in order. Update the
//!    initial cell once for each, by the error of its sample. All components of a scan share the cells (B.2).
//!    - A regular event uses the cell of its context, 1 to 364. Its error is SIGN times the sample less the prediction, modulo RANGE. The
//!      prediction is corrected by the C that the cell has then.
//!    - An interrupted run uses cell 365 (RItype 0) or 366 (RItype 1). RItype is judged at the interrupting sample's own neighbours. Its
//!      error is the sample less its Rb, modulo RANGE. The sign is turned if its Ra is above its Rb.
//!    - A run to the end uses none.
//! 5. RUNindex before a run (`Runs`, A.7.1). The same over the earlier runs of the same component, from 0. A run of n columns has as many
//!    full blocks as fit into n. The block after b others has 2^J columns, with J at the smaller of RUNindex + b and 31. RUNindex rises by
//!    one with each full block, up to 31, and falls by one after an interruption, down to 0.
//! 6. Bits of an event (`Code`, A.5.3, A.7.1, A.7.2).
//!    - A regular event: the Golomb code of its mapped error, with k of its cell and LIMIT.
//!    - A run to the end: a one for each full block, and one more if columns remain.
//!    - An interrupted run: the ones, a zero, the columns that remain in J bits, and the Golomb code of EM, with k of TEMP and the limit
//!      LIMIT - J - 1. J is taken at RUNindex after the full blocks and before it falls. Editions differ here too, and this is the
//!      project's reading.
//! 7. Code (`code`). These are the bits of all events in order.
//! 8. Reading (`Reads`). A piece of scan data reads as lines of the interval's number and width if its data bits are the code of the lines,
//!    then at most seven bits of any value. It is too long if more follow. It is broken if no lines' code begins it, or a byte of 0x80 or
//!    more follows 0xFF. The seven bits of any value are a choice of this project.
//! 9. Packed lines (`packed`). The shortest bytes, not ending in 0xFF, whose data bits are the code and then zeros: what this project
//!    writes. The definition computes them (`pad`). The law `bits_have_one_pad` says that they are the shortest, and the only ones.
//!
//! These are the project's choices, not the standard's: the numbering of contexts, the reading of Rc and of LIMIT - J - 1 above, the
//! padding, the seven bits, and the bound of 2^28 samples in an interval.
//!
//! `crates/jls_interval/proofs/WorkedExamples.antt` computes some intervals from these definitions alone: lines at 2, 8 and 16 bits, a
//! smaller MAXVAL, runs of both kinds, and two and three components. It also has a piece that reads with seven bits over, and one that is
//! too long.
#![tactic(auto)]

mod code_lengths;
mod coder;
mod cut_end;
mod cut_event;
mod cut_lines;
mod cut_sample;
mod decode_piece;
mod encode;
mod encode_line;
mod encode_run;
mod encode_sample;
mod encode_samples;
mod encoder;
mod finished_lines;
mod front;
mod heads;
mod interval_decoder;
mod interval_reader;
mod laws;
mod line_reader;
mod line_samples;
mod lines;
mod neighbours;
mod place;
mod push_event;
mod push_sample;
mod run_index;
mod run_reader;

pub use cut_end::CutEnd;
pub use decode_piece::{PieceFault, decode_interval};
pub use encode::{encode_interval, packed_lines_read_back};
pub use finished_lines::FinishedLines;
pub use front::{Front, encode_front, fronts_begin_pieces};
pub use heads::{
    cut_events_go_on, heads_are_finished_lines, heads_are_one, read_pieces_have_no_head,
};
pub use interval_decoder::IntervalDecoder;
pub use laws::{
    broken_pieces_begin_with_no_code, codes_are_apart, cuts_are_exact, events_are_apart,
    events_have_bits, full_blocks_fit, growth_ends_in_lines, lines_are_parted_once, lines_grow,
    neighbours_agree, pieces_read_once,
};
pub use lines::fits;
