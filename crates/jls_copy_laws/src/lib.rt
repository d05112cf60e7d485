//! What a copy gives under the strict profile, as relations in the terms of the standards: what its marker segments set, which scans it
//! has, and which readings.
//! Each law is a function that changes nothing and whose contract is the law. They say that the reader of copies gives just that.
//!
//! Definitions and laws, and no other code. The definitions say in relations what a copy gives, for a reader who knows the standards:
//! `SegmentSets` (what a marker segment sets), `CopyScans` (the units and the scans of a copy), `Gives` (its readings). The laws say that
//! the course of a copy has the same (`SegmentLaws`, `CopyLaws`). The proofs, bottom up: `PayloadFields` and `ScanBegins`, `SegmentSets`,
//! `CopyScans` (units), `CutOff` (the piece that the input's end cuts off), `Gives`.
#![tactic(auto)]

mod laws;

pub use laws::{readings_are_of_the_course, scans_are_of_the_course, segments_set_the_headers};
