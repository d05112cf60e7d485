//! A caller for each step of `Collected` of jls_headline. Each makes the calls of one step, or of a few, and its contract is that they take
//! a history on, whatever else is known. So no step asks more than the contract of its call gives. No program calls them. `files` has those
//! for the steps of `TookFiles`.
//!
//! - `taking`, `texts`: steps by which a station takes copies, and `.jlsp` files
//! - `reading`: a copy that is read by itself
//! - `files`: files that are read under a profile, for a station
//! - `marking`: partial pictures of which it is known what they hold: they are inserted by hand, or marked later
//! - `writing`: `write_station` goes from a history to the bytes that a sink took, or says why it took none or not all. So does that for a
//!   PNM file. That for the report goes to its text
//! - `known`: what a call makes of known bytes: how far it reads, and why it has no picture or another shape
//! - `unfailed`: what is left if no read of a source failed: how a reading stops, and why an input is refused
//!
//! Definitions: `StationFaults`.
#![tactic(auto)]

mod files;
mod known;
mod marking;
mod reading;
mod taking;
mod texts;
mod unfailed;
mod writing;

pub use files::{read_under, station_without_files, take_read};
pub use known::{read_known, take_any_text, take_known};
pub use marking::{insert_last, mark_later};
pub use reading::{read_any, read_in_memory};
pub use taking::{take_first, take_next, take_other};
pub use texts::{read_back, take_cut_text, take_its_text, take_text_of_another_shape, text_of};
pub use unfailed::{read_unfailed, take_unfailed};
pub use writing::{
    StationFault, station_picture, station_report, write_station, write_station_pnm,
};
