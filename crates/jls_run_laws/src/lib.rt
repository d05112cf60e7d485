//! The laws of runs of `jls-salvage`: what `join` and `write` come to over damaged copies, by what jls_headline says of stations. This
//! crate has definitions and laws alone; each law is a function that changes nothing and whose contract is the law.
//!
//! - `runs`: a run of `join`, and of `write` after it, by the events of their desks
//! - `no_other`: never another picture, for each run
//! - `run_to_run`: the same from the words of a run to its exit status, and to what the next run reads
//!
//! Definitions: `RunLaws`, `JoinThenWrite`, `NoOtherLaws`, `RunToRun`.
//!
//! `joins_and_writes_give_the_picture` has two further premises: a source has 32 bits, and for `reads` a restart interval has 32 bits. By
//! the definition of `asked_in`, words ask for no larger ones.
#![tactic(auto)]

mod no_other;
mod run_to_run;
mod runs;

pub use no_other::{settled_joins_are_the_picture, written_inputs_are_the_picture};
pub use run_to_run::{joins_and_writes_give_the_picture, settled_runs_give_no_other_picture};
pub use runs::{
    joined_copies_give_the_picture, joined_lines_are_reported, joined_texts_give_the_picture,
    written_joins_read_as_the_picture, written_text_joins_read_as_the_picture,
};
