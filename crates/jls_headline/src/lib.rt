//! The law that the product is trusted for: what public calls come to that read copies, and the picture that damaged copies give. This
//! crate has definitions and laws alone; each law is a function that does nothing and whose contract is the law.
//!
//! - `calls`: what public calls hold that were made of copies, or of files under a profile
//! - `headline`: the main theorem, and written files
//! - `lines`: one line by itself
//! - `lost_intervals`, `scans`, `trimmed`: damaged copies: lost restart markers, their scans, pieces that were only truncated or extended
//!
//! Definitions: `Damaged`, `Trimmed`, `Stations`, `Sources`, `Collected`, `TookFiles`, `ReadsAs`. Laws: `Headline`, `HeadlineLaws`,
//! `CollectedLaws`, `LineLaws`, `LostIntervalLaws`, `ScanLaws`.
#![tactic(auto)]

mod calls;
mod headline;
mod lines;
mod lost_intervals;
mod scans;
mod trimmed;

pub use calls::{
    collected_copies_are_held, cut_texts_are_held, marked_copies_are_held,
    strict_files_are_collected,
};
pub use headline::{
    bytes_after_the_end_change_nothing, files_read_as_one, same_copies_give_the_picture,
    same_copies_write_the_same_bytes, written_pictures_read_back,
};
pub use lines::{damaged_copies_say_no_other, lines_are_reported, never_another_picture};
pub use lost_intervals::{
    damaged_copies_give_the_picture, numbers_come_back, surviving_lines_are_given,
};
pub use scans::scans_are_of_the_frame;
pub use trimmed::{trimmed_copies_are_damaged, trimmed_pieces_are_harmless};
