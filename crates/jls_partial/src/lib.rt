//! Partial pictures: a shape, a set of readings of its lines, and the one text of both.
//!
//! - `packed_lines`, `slots`, `packed`: the samples of lines of one width in one list, and the slots of a set of them. A slot says where a
//!   line begins, and has its `sources`. Slots are one place, or a search tree
//! - `lines`: slots with their samples, as they are lent
//! - `line_set`: a line set: its slots, with a list of samples of its own
//! - `line_store`: the store of a picture: one list of samples, and an ordered map of pages. It lends the lines in the order of their
//!   places (`Entries`)
//! - `line_pages`, `line_place`: finds the page and the row of a place (component, line), and inserts rows. A row is a place with its slots
//! - `partial`: the only module that knows the store. It offers `empty`, `shape`, `insert`, `count`, `reading` and `sources`. Inside the
//!   crate it also offers `take`, for a reading with its sources, and `entries`
//! - `merging`, `marking`, `equality`, `status`, `writing`: the other calls, by the contracts of `partial` alone
//! - `text_fields`, `text_samples`, `text_reading`, `text_merging`: reading a text, also by the contracts of `partial` alone
//! - `insert_fault`, `text_fault`: why a reading or a text is refused; `version`: the versions of the text; `laws`: the laws
//!
//! - Reading a text has one reader for each field (`text_fields`), which answers a value and the bytes after it, or a fault. The loops over
//!   sources, readings and entries are in `text_reading`. Each reading goes to `take` as soon as it is judged.
//! - The samples of a reading are read in one pass and judged by the largest of them. Only if they are cut short, or one is too large, does
//!   a second loop find the first fault (`text_samples`).
//! - No memory is taken by a number that the text claims. `text_reading` reads into a given partial picture: an empty one for `from_bytes`,
//!   the one that is held for `merge_text`.
//! - Costs: reading is one pass and one insertion for each reading. Merging is one insertion for each reading of the other. Writing and
//!   `==` are one pass. `reading` and `sources` look up the line, then go down its tree. An insertion among r readings of a line takes
//!   O(log r) steps, in any order.
//!
//! Definitions: `Reading`, `Partial`, `InsertFaults`, `Status`, `Marks`, `LineSet`, `Entries`, `LinePlace`, `Text`, `TextReading`,
//! `Equality`, `Parts`. Laws that implementations of `Merge` cite: `PartialLaws`, `LineSetLaws`, `ReadingOrder`. Of `merge_text`:
//! `TextPrefix`, `TextMerging`. Inside the crate: `Held`, `LineEntries`, `Packed`, `PackedLines`, `Pages`, `Marking`, `TextInto`. And
//! `Stored`, which has what a store is seen as and how a call changes it (`ChangesAt`).
#![tactic(auto)]

mod equality;
mod insert_fault;
mod laws;
mod line_pages;
mod line_place;
mod line_set;
mod line_store;
mod lines;
mod marking;
mod merging;
mod packed;
mod packed_lines;
mod partial;
mod slots;
mod sources;
mod status;
mod text_fault;
mod text_fields;
mod text_merging;
mod text_reading;
mod text_samples;
mod version;
mod writing;

pub use insert_fault::InsertFault;
pub use laws::{joins_hold_exactly, parts_give_the_picture, texts_are_apart};
pub use line_set::LineSet;
pub use partial::Partial;
pub use status::Status;
pub use text_fault::TextFault;
pub use text_merging::MergeTextFault;
pub use version::Version;
