//! Splices of copies: files each of whose stretches is what one of the copies has there. The search for those without a fault, of whole
//! files and by groups, and the station of the files taken. Files are read under the wide profile: scans by line and by sample.
//!
//! - `short`: whether copies are short enough for a search
//! - `choosing`: choices at a part; `path`: goes through choices of parts in depth-first order
//! - `setting`: what a search is after: whole files, or a group and the copy that the rest of the file is taken from
//! - `making`: the bytes that they make, in memory; `feeding`: feeds these to a `WideReader`
//! - `faultless`: judges it: a file without a fault, or a prefix that none begins with
//! - `lines`: whether each line of a picture was read
//! - `ceiling`: whether samples are at most the greatest that a file may have that is sought
//! - `kept`: the readers that a search keeps, and readers that go on from them
//! - `early`: feeds a reader until what it was fed is enough; `living`: as long as a file without a fault may begin so
//! - `looking`: what is seen of a path
//! - `searching`: the search, as a value that goes on as far as its caller wants; `adding`: the choices that it finds
//! - `whole_search`: the search of whole files
//! - `level_search`: the search of whole files level by level, as a value that goes on one level at a time
//! - `next_level`: what the paths of a level go on to
//! - `backing`: what speaks for a path; `saving`: how many bits its lines would save in a code that learns, `learning_code`. No contract
//!   speaks of these three
//! - `levels`: the levels of the search for the cut file, and those at which exactly one path lives
//! - `trusted`: which of these paths are trusted. No contract speaks of it
//! - `codings`: which copies are of one coding, as far as can be told; `first_lines`: whether two surely aren't. No contract speaks of
//!   these two
//! - `laws`: the laws of searches
//!
//! The search by groups: splices that read between two markers, where no splice is without a fault.
//!
//! - `offsets`, `reading_between`: the offsets of a group in the file that choices make; whether the file decodes between them
//! - `reading_group`: whether a file reads in a group, which its first bytes may tell
//! - `order`, `group_search`: all groups in turn, each with each copy and with tries of its own
//! - `found`: what both searches found
//!
//! The station of the files taken, which are the copies and the splices that a search found, or why there is none.
//!
//! - `files`: the copies and the splices that a search found, as one value
//! - `seen`: what is seen of each file: its shape, and whether it has a fault; the verdict on each
//! - `reading_files`: each file is read once: what is seen of it is kept, and a station of the first frame's shape takes it
//! - `reading_splices`: the splices among them. What several begin with alike is read once, as long as its reader is kept. What the search
//!   fed to the reader that comes with them is not read again
//! - `shape_rule`, `shape_found`: the shape that is taken, or the copy that is named; what is found of shapes so far
//! - `file`, `taking`: a station takes one file; all files
//! - `settling`: the station of the shape that is taken, or why there is none
//! - `cut`: where all those files have a fault, a station of the cut file's shape takes it after them
//!
//! Here each file is decoded once at most. The first that a search of all splices finds is decoded in the search alone, since its reader
//! comes with the files. If the shape that is taken is not the first frame's, as after a damaged header, each is decoded once more.
//!
//! Definitions: `Choices`, `Faultless`, `Search`, `Order`, `Levels`, `LevelSearches`; `Places`, `ReadsBetween`, `OfGroups`, `GroupTries`,
//! `Found`; `Files`, `Shapes`, `Stations`, `Settling`, `Cuts`. Inside the crate: `Seen`, `Reading`, `Tried`, `Goals`.
//!
//! Not proved:
//!
//! - That a search gives up choices as soon as it could. So the exact number of tries is open.
//! - That a file which a search by groups passes by doesn't read in the group. A piece that begins before the group may be the broken one.
//! - That no later level that `lone_path` comes to has one path that lives, and how many tries it makes. Which path is trusted.
//! - That the reader which comes with what a search found is that of the first file. How often a file is decoded.
//! - Which groups are searched first (`order`), but that each has its turn.
//! - How many ways a search level by level judges, and the order of what it finds. How many of its paths live, and which of them it lets
//!   go (`backing`, `saving`, `learning_code`).
#![tactic(auto)]

mod adding;
mod backing;
mod ceiling;
mod choosing;
mod codings;
mod cut;
mod early;
mod faultless;
mod feeding;
mod file;
mod files;
mod first_lines;
mod found;
mod group_search;
mod kept;
mod laws;
mod learning_code;
mod level_search;
mod levels;
mod lines;
mod living;
mod looking;
mod making;
mod next_level;
mod offsets;
mod order;
mod path;
mod reading_between;
mod reading_files;
mod reading_group;
mod reading_splices;
mod saving;
mod searching;
mod seen;
mod setting;
mod settling;
mod shape_found;
mod shape_rule;
mod short;
mod taking;
mod trusted;
mod whole_search;

pub use codings::{are_of_one_coding, are_surely_of_several_codings, codings_of};
pub use cut::settle_with_cut;
pub use faultless::{is_dead, is_faultless, is_read_faultless, is_sought};
pub use feeding::{feed_any, reader_of};
pub use files::Files;
pub use found::{FoundSplices, GroupsReported, complete_by_groups};
pub use kept::{Judge, KeptReader};
pub use laws::{parts_can_be_searched, searches_come_to_each_splice};
pub use learning_code::{LearningCode, PARTS_OF_BIT};
pub use level_search::LevelSearch;
pub use levels::{lone_path, trusted_path};
pub use making::file_of;
pub use next_level::{LevelRules, LivingPath};
pub use saving::Saving;
pub use searching::Search;
pub use setting::{Goal, Setting};
pub use settling::{HeldFiles, Settled, settle_files};
pub use shape_found::ShapeFound;
pub use short::are_short;
pub use whole_search::{MOST_FOUND, Searched, search};
