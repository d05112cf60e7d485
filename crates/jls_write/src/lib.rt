//! Whole pictures, and the files that they are written as: PNM, and JPEG-LS interval by interval.
//!
//! - `picture`, `lender`: a picture lent from a settled partial picture or from samples
//! - `options`: how it is to be written as JPEG-LS, and which pictures can be
//! - `pnm`, `pnm_header`, `pixels`, `waiting`: the PNM file. The lines of a row are lent once. Their columns go into a buffer on the stack,
//!   which is handed out at 4,096 bytes or more
//! - `output`: hands bytes to a sink, and counts all that have gone out
//! - `write`: `write_jls`: the header segments, then each scan, interval by interval
//! - `file`: `jls_file`: the same bytes in memory
//! - `headers`: makes SOI and the segments before the scans
//! - `scan_part`: a scan in work
//! - `intervals`: lends the lines of an interval to its coder, and makes what precedes them
//!
//! The code of an interval, and the marker or header before it, are both made before either is handed out. So lack of memory never leaves
//! half of them. The counts in faults have 64 bits. `proofs/PackedLength.antt` bounds the code of an interval by 2^38 bytes, so they can't
//! overflow.
//!
//! Definitions: `Picture`, `Samples`, `WholePictures`, `Unsettled`, `Options`, `Pnm`, `Outcomes`, `WrittenFile`, `Stops`. Inside the
//! crate: `Lent`, `Waiting`, `Parts`.
//!
//! Not proved:
//!
//! - That `write_pnm` lends each line once for its row, and how large its writes are. Its code shows both.
//! - That `write_jls` copies no line, and beside the picture holds no more than one interval's bytes and where its lines are. Its code
//!   shows both.
//! - That `jls_file` copies no line, and that it copies the shorter of two parts where it joins them. Its code shows both.
#![tactic(auto)]

mod file;
mod headers;
mod intervals;
mod lender;
mod options;
mod output;
mod picture;
mod pixels;
mod pnm;
mod pnm_header;
mod scan_part;
mod waiting;
mod write;

pub use file::{FileParts, jls_file};
pub use options::Options;
pub use output::OutputFault;
pub use picture::{Picture, PictureFault, pictures_are_whole};
pub use pnm::write_pnm;
pub use write::write_jls;
