//! One piece of scan data, by line or by sample. Both have one meaning here, so that the crates above need not ask which it is.
//!
//! - `planned_piece`: what is known of a piece before its first byte
//! - `piece_decoder`: the decoder. It is that of `jls_interval` or that of `jls_pixel`
//! - `row_lines`: the lines of rows of pixels
//! - `finished_lines`, `cut_end`: what a decoder answers
//! - `laws`: the laws. Rows are lines in one way, codes are apart, and by line nothing changes
//!
//! Definitions: `Lines` (the shape of a piece, and which lines rows of pixels are), `Code` (bits), `Reads` (which bytes read, are too long,
//! are broken), `Heads` (where bits break off), `Laws`. They have the form of those of `jls_interval`. `Kinds` says what they are by line
//! and by sample, in the words of the two crates below. `PieceFaults` and `CutEnds` say what answers say of a piece. The record
//! `PieceBytes` is what contracts see of a decoder.
//!
//! Lines are row by row, and in a row by component, also by sample. By sample a list of lines is one of whole rows, and a head is too.
//!
//! `crates/jls_piece/proofs/WorkedExamples.antt` computes some pieces from these definitions alone.
#![tactic(auto)]

mod cut_end;
mod finished_lines;
mod laws;
mod piece_decoder;
mod planned_piece;
mod row_lines;

pub use cut_end::PieceCutEnd;
pub use finished_lines::FinishedLines;
pub use laws::{
    broken_piece_begins_with_no_code, line_pieces_are_intervals, lines_have_rows,
    piece_codes_are_apart, piece_codes_have_bits, piece_first_codes_begin, piece_heads_are_one,
    piece_reads_once, pixel_pieces_are_intervals, read_piece_has_no_head, rows_are_one,
    rows_have_lines,
};
pub use piece_decoder::PieceDecoder;
pub use planned_piece::PlannedPiece;
