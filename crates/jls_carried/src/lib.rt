//! What copies of one picture in different codings give each other, and witnesses give them, judged, and its lines.
//!
//! - `carrying`: finds it by jls_carry, and judges it by jls_held
//! - `own_splices`: the files without a fault that the copies of one coding make
//! - `coding_lines`: the lines that name codings, their copies, and where each copy differs from its mended file
//!
//! Definitions: `CodingLines`. Its lemmas: `MappedLists`, `CodingNumbers`; worked values: `CodingLineExamples`.
//!
//! `jls-splice` carries by this crate. Not proved: what is found.
#![tactic(auto)]

mod carrying;
mod coding_lines;
mod own_splices;

pub use carrying::{Between, are_of_other_codings, carry_between};
pub use coding_lines::{are_all_printed, put_all_codings};
pub use own_splices::SearchBounds;
