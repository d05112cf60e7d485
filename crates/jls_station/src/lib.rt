//! Stations, the copies that they take, the reading of one input, and copies of one file read whole into memory.
//!
//! - `input`, `reading`, `intakes`, `copy_end`: read one input. `read_form` gives the bytes of a text, not judged yet, or what a copy
//!   gives. `read_input` gives what either gives. `reading` has the loop, and the trait that says when bytes are enough. `intakes` has
//!   what a text and a copy are read into, `copy_end` what a copy gives where the loop stops
//! - `take_report`: what is said of a copy that was taken
//! - `station`, `take_copy`: take partial pictures of one shape, texts of them, and copies
//! - `whole_reading`: reads a copy to its end by that loop, also after its EOI. It stops if the bytes begin like a partial picture
//! - `copy`: opens, reads and keeps one copy, or gives the cause why not
//! - `copies`: all copies in turn, until one is not taken
//!
//! Definitions: `Reading` (how an input is read), `Texts`, `Given` (what an input gives), `Inputs` and `InputFaults` (why one is refused),
//! `TakingCopies`, `CopyFiles`. Of known bytes: `KnownCopies` (what comes of a copy), `KnownInputs` (why an input is refused, and how many
//! bytes were read of a copy). Inside the crate: `Forms`.
#![tactic(auto)]

mod copies;
mod copy;
mod copy_end;
mod input;
mod intakes;
mod reading;
mod station;
mod take_copy;
mod take_report;
mod whole_reading;

pub use copies::read_copies;
pub use copy::{CopyCause, CopyFile, CopyRefusal};
pub use input::{InputFault, InputForm, InputRead, ReadStop, input_fault, read_form, read_input};
pub use station::Station;
pub use take_copy::TakeFault;
pub use take_report::TakeReport;
