//! Examples for programs of one's own: a copy that is read, readings that are joined, a report, and a picture that is written.
//!
//! `docs/PROGRAMMERS.md` shows its code and explains it.
//!
//! - `reading`: a copy in two slices, and a source for what it gives
//! - `joining`: partial pictures and a text that are joined
//! - `telling`: the report, and the picture that is lent
//! - `writing`: both files, handed to a sink
//!
//! Definitions: `Written`. Its one test takes two damaged copies through all of them.
#![tactic(auto)]

mod joining;
mod reading;
mod telling;
#[cfg(test)]
mod tests;
mod writing;

pub use joining::{join, join_text};
pub use reading::{read_slices, under_source};
pub use telling::{report, settled_picture};
pub use writing::{WriteFault, hand_out_jls, hand_out_pnm};
