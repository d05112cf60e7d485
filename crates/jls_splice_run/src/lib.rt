//! The program `jls-splice` without its main.
//!
//! - `program`: `run`: from the words to the exit status
//! - `task`: what is asked for, as one value
//! - `splicing`: a run that is asked for: what it reads, the files that are made, and that all is handed out
//! - `inputs`: what it reads: copies, lists of their bad places, and witnesses
//! - `copies`, `made`, `settling`: the copies that are read; what is made of them; their station
//! - `bad_lists`: the lists of bad places that are read, and what is searched by them in place of the copies
//! - `handed_out`, `carried`, `coding_lines`: what is handed out of what copies in several codings give each other; its texts and files;
//!   its lines
//! - `mended_files`: the mended files that are handed out
//! - `plain_edits`: whether the edits of copies say plainly which of these are wrong
//! - `beside`: mended files beside files of which one may have no fault
//! - `reading_as`: whether mended files read as the lines that are held
//! - `files`, `single`, `listing`: which of the files found are no copies; the single one without a fault; all of these with their names
//! - `completing`: files that are completed by EOI
//! - `printed_lines`, `noting`: the lines that are printed; those on the fault output, where OUT is standard output
//! - `handing`: the events that hand out all
//! - `options`, `searching`: how a search is made; a search that goes on 64 tries at a time, and tells how far it is
//! - `searched_parts`: the parts over which is searched, and groups
//! - `stages`: all searches over some parts: the one that is asked for, and where it is cut off, others under ceilings in turn
//! - `shallow`: the ceiling under which a cut file is sought, where the searches had none and found nothing
//! - `differences`: where copies differ: the offset in the first copy, and how many bytes that one has there
//! - `found`, `lines`: what is reported of a search, as one value; its lines, and the line that says how far a search is
//! - `hosted`: the program as `run_program` of jls_host runs it
//! - `printing`: the lines on the fault output that this program alone has
//!
//! Definitions: `Tasks`, `Copies`, `BadLists`, `Inputs`, `Making`, `Carrying`, `ReadsAs`, `Completing`, `Single`, `Files`, `Listing`,
//! `Handing`, `Runs`; `Ceilings`, `Telling`; `Differences`, `Lines`, `CodingLines`; `FaultLines`. `PrintedLineExamples` of `proofs/` has
//! each line, and all lines of three runs, worked by hand. What came of a run, why it stopped, its exit status and its fault line are in
//! jls_cli.
//!
//! Not proved:
//!
//! - How searches are made: how many there are, in which order, under which ceilings, with how many tries, and when they tell of it. No
//!   contract on files, lines, statuses or promises rests on it.
//! - That a search which is said to be cut off was, and that groups find splices that they pass by (`IsPassedBy` of jls_search).
//! - That a cut file is as long as it could be.
//! - When lines that copies in several codings give each other are handed out beside a file without a fault.
#![tactic(auto)]

mod bad_lists;
mod beside;
mod carried;
mod coding_lines;
mod completing;
mod copies;
mod differences;
mod files;
mod found;
mod handed_out;
mod handing;
mod hosted;
mod inputs;
mod lines;
mod listing;
mod made;
mod mended_files;
mod noting;
mod options;
mod plain_edits;
mod printed_lines;
mod printing;
mod program;
mod reading_as;
mod searched_parts;
mod searching;
mod settling;
mod shallow;
mod single;
mod splicing;
mod stages;
mod task;

pub use coding_lines::put_carried;
pub use differences::{Difference, differences_of};
pub use found::{CutFileEnd, GroupSearch, Promise, SearchReport};
pub use hosted::Splice;
pub use lines::{put_found, put_progress};
pub use listing::NumberedFile;
pub use made::Made;
pub use noting::{put_carried_noted, put_noted};
pub use options::SearchOptions;
pub use printing::{
    PROGRAM, print_bad_value, print_named_twice, print_not_understood, print_numbered_out,
};
pub use program::run;
pub use searched_parts::{FoundInTurn, search_and_tell};
pub use splicing::splice;
pub use task::Task;
