//! The law of copies in different codings: which lines their bytes hold, whatever stands in their damaged places.
//!
//! JPEG-LS coding is a function of lines and parameters. So lines that one copy gives can be coded with the parameters of another copy,
//! and stand in place of its damaged bytes: that is a mended file. Any picture can be coded so, and that a mended file decodes says
//! nothing. What counts are the bytes that the copy has itself. A line is held where all bytes of its code are such bytes, and all lines
//! before it in its interval are held, in this mended file or another. The laws say that whatever undamaged files have these bytes, their
//! held lines are the same.
//!
//! It has definitions and laws, on which a promise of `jls-splice` rests; what mended files and held lines are, stands in jls_held.
//! Definitions: `StrictlyHeld`, `TrueFiles` (undamaged files of one picture), `Laws`.
//!
//! The proofs, bottom up:
//!
//! - `Walk`, `OneLine`: two pieces that agree on the bytes of a line have that line in common
//! - `PlacedLines`: lines of an interval against a picture's
//! - `HeldLines`: the law, for files of one skeleton
//! - `OneLength`, `SameHeads`, `ScanWalk`, `UnitsWalk`, `StrictHeads`: what stands before a strictly held line fixes the skeleton up to it
//! - `SettledPictures`, `EditedFiles`, `CopiesOfOneFile`
//!
//! Not proved here: how lines and edits are found.
#![tactic(auto)]

mod laws;

pub use laws::{
    held_lines_are_the_picture, judged_files_have_true_bytes, refilled_edits_keep_held_bytes,
    settled_held_lines_are_the_picture, strictly_held_lines_are_the_picture,
};
