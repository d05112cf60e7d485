//! The library for C: what a damaged JPEG-LS file still gives, from the caller's bytes into the caller's buffers.
//!
//! - `check`, `read`, `make`, `join`, `lines`, `write`, `mend`: the exported functions. Each answers a number of `answer`. Those that read
//!   a copy stand there twice: strict ones, and those to which the caller gives a profile
//! - `info`: the structures that they fill
//! - `statuses`, `samples`: the statuses and the samples of all lines
//! - `text`: partial pictures as bytes in a buffer
//! - `frame`, `write`: samples as a JPEG-LS file
//! - `copies`, `cause`, `outputs`, `mend`: copies that mend each other, lists of their bad places, what stops them, and what comes of them
//! - `laws`: what several calls come to, and calls beside runs of `jls-salvage`
//!
//! In C a slice is a pointer and a length, and `alloc` is no argument. `include/jls_salvage.h`, `library/symbols.map`,
//! `python/jls_salvage/_library.py` and `man/jls_salvage.3` repeat these signatures.
//!
//! Definitions: `Answers` and `PartialAnswers` have what the functions answer, in the words of `Info`, `Lines` and `TextFaults`. `Written`
//! has what `jls_write` answers. `Mended` has what `jls_mend` answers, in the words of `Copies` and `Causes`. `CallLaws` has the laws.
#![tactic(auto)]

mod answer;
mod cause;
mod check;
mod copies;
mod frame;
mod info;
mod join;
mod laws;
mod lines;
mod make;
mod mend;
mod outputs;
mod read;
mod samples;
mod statuses;
mod text;
mod write;

pub use cause::JlsMendInfo;
pub use check::{jls_check, jls_check_under};
pub use copies::{JlsBadList, JlsMendOptions};
pub use frame::JlsFrame;
pub use info::{JlsInfo, JlsPiece};
pub use join::jls_join;
pub use laws::{
    calls_and_runs_join_alike, calls_and_runs_read_alike, calls_join_in_any_order,
    calls_read_what_calls_wrote, many_calls_join_alike,
};
pub use lines::{JlsLine, jls_lines};
pub use make::{jls_partial, jls_partial_under};
pub use mend::jls_mend;
pub use read::{jls_read, jls_read_under};
pub use write::jls_write;
