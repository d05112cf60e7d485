//! The report of a partial picture: how many of its lines are settled, missing and disputed, and which are missing or
//! disputed. It is a value, and has one text.
//!
//! - `report`, `entry`: the value, and its entries
//! - `ranges`, `counting`: find its entries, and count lines by their status
//! - `text`: the lines that are printed
//! - `laws`: tie the entries to the lines
//!
//! An entry begins with each missing line whose line above is not missing, and with each disputed line. So entries are defined line by
//! line, and the laws say what that means for ranges. Definitions: `Lines`, `Report`, `Ranges`, `ReportText`.
#![tactic(auto)]

mod counting;
mod entry;
mod laws;
mod ranges;
mod report;
mod text;

pub use entry::ReportEntry;
pub use laws::{
    counts_are_all_lines, counts_are_of_entries, disputed_are_listed, each_line_once,
    full_count_is_settled, ranges_are_longest,
};
pub use report::Report;
pub use text::put_number;
