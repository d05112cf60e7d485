//! The laws of splices that speak of readings, pictures and runs. They say what a search for files without a fault finds, what survives
//! in such a file, what the files that are taken settle, and what a run of `jls-splice` writes. This crate has definitions and laws
//! alone. Each law is a function that does nothing: its contract is the law.
//!
//! - `by_line`: files under both profiles, and those whose scans are by line
//! - `searches`, `settled`: searches, and files taken
//! - `splicing`: stations of files taken, in the words of the laws of stations and pictures
//! - `cut`: the cut file, where no splice is a file without a fault
//! - `runs`: runs of `jls-splice`
//! - `completed`: files completed by EOI
//! - `carry`: runs over copies in several codings that gave each other lines
//!
//! Files are those that jls_search reads: under the wide profile, with scans by line or by sample. What mended files hold, and what public
//! calls read as copies, is by line.
//!
//! Definitions: `ProfileFiles`, `WholeFiles`, `Searches`, `Taken`, `SpliceLaws`, `SplicingLaws`, `CutLaws`, `RunLaws`, `CompletedLaws`,
//! `CarryLaws`, `Failures`.
#![tactic(auto)]

mod by_line;
mod carry;
mod completed;
mod cut;
mod runs;
mod searches;
mod settled;
mod splicing;

pub use by_line::{files_by_line_give_the_same, wide_gives_what_strict_gives};
pub use carry::carried_runs_give_no_other;
pub use completed::completed_files_read_alike;
pub use cut::cut_lines_are_the_picture;
pub use runs::{
    spliced_runs_are_done, spliced_runs_end_with_4, spliced_runs_give_no_other,
    spliced_runs_hand_out_the_file, spliced_runs_take_the_cut,
};
pub use searches::searches_lose_nothing;
pub use settled::{faultless_splices_are_taken, splices_give_no_other, whole_files_survive};
pub use splicing::{files_are_held, spliced_copies_give_no_other, took_files_are_held};
