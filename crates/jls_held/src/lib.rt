//! Mended files of copies in different codings, and which lines their bytes hold.
//!
//! JPEG-LS coding is a function of lines and parameters. So lines that one copy gives can be coded with the parameters of another copy. A
//! mended file has that code in place of the other copy's damaged bytes. Any picture can be coded so, and that a mended file decodes says
//! nothing. What counts are the bytes that the copy has itself. A line is held if all bytes of its code are such bytes. All lines before it
//! in its interval have to be held too, in this mended file or another. The laws of jls_carry_laws say that whatever undamaged files have
//! these bytes, their held lines are the same.
//!
//! - `mending`: the mended file of a copy and its edits
//! - `judging`: `judge`, which proposals of edited copies make one file, and the lines that these files hold
//! - `holding`: `held_lines`, the lines that mended files hold
//! - `file_pieces`: the pieces of a file with their first lines, as a reader has them in hand
//! - `chain`: the lines of a piece, each with whether all bytes of its code are held
//! - `code_ends`: where the code of each line ends, by coding the lines anew. By sample it is where the code of each row ends
//! - `row_ends`: in which byte each row by sample ends, by decoding first bytes
//! - `rounds`: takes lines that follow held lines, from each piece in turn, until none follows
//!
//! Definitions: `MendedFiles` (bytes, and which are held), `Edits` (what makes a mended file of a copy), `Judging` (files that are mended
//! of several copies), `LineCode` (which bytes carry a line), `HeldLines`, `HeldPictures`, `Mending` and `FilePieces` (what the functions
//! speak of). `Chains` and `RowEnds` are needed inside the crate only.
//!
//! The proofs, bottom up:
//!
//! - `MendedCopies`; `HeldMarks`: which bytes two copies have together; `EditedCopies`: one copy more of a file
//! - `LineBytes`: the bytes between two ends of code are those of a line
//! - `RowBytes`, `RowPlaces`: the byte in which a row ends, by how many rows stand whole in first bytes
//! - `PieceChains`: lines of a piece follow each other
//! - `FoundPieces`: what was in hand stands in the whole file; `HeldReadings`
//!
//! `jls-splice` judges by this crate what copies of several codings give each other. Not proved:
//!
//! - How lines and edits are found.
//! - That `held_lines` leaves out no held line.
#![tactic(auto)]

mod chain;
mod code_ends;
mod file_pieces;
mod holding;
mod judging;
mod mending;
mod rounds;
mod row_ends;

pub use holding::held_lines;
pub use judging::{EditedCopy, Judged, judge};
pub use mending::{CopyEdit, MendedCopy, mended_copy};
