//! The law of written files: what is written is read back, each line once.
//!
//! Laws of written files over the definitions of `jls_copy`, and no other code. Definitions: `Covering`, `FileLaw`. The proofs, bottom up:
//! `Covering` (the lines), `WrittenPieces` (an interval), `WrittenScans` (a scan), `WrittenUnits` (the course), `HeadsTaken` (the headers),
//! `FileRead` (the laws, and what a reader answers), `WrittenBytes` (a written file consists of bytes).
#![tactic(auto)]

mod laws;

pub use laws::{
    intervals_are_rows, intervals_cover, written_files_are_read, written_files_read_back,
};
