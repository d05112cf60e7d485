//! Tests of `jls-splice` and of what it is made of. They stand apart, so that those crates are proved once, without them.
//!
//! - `parts`, `groups`: where copies differ
//! - `searched`, `prefixes`, `group_search`, `stations`: the searches, and stations of the files taken
//! - `copy_files`, `lines`, `words`: copies that are read, printed lines, the command line
//! - `memory`, `files`, `pictures`, `damage`, `program`: runs over files in memory
//! - `mending`: copies in memory that a call mends
#![tactic(auto)]

#[cfg(test)]
mod copy_files;
#[cfg(test)]
mod damage;
#[cfg(test)]
mod files;
#[cfg(test)]
mod group_search;
#[cfg(test)]
mod groups;
#[cfg(test)]
mod lines;
#[cfg(test)]
mod memory;
#[cfg(test)]
mod mending;
#[cfg(test)]
mod numbered;
#[cfg(test)]
mod parts;
#[cfg(test)]
mod pictures;
#[cfg(test)]
mod prefixes;
#[cfg(test)]
mod program;
#[cfg(test)]
mod searched;
#[cfg(test)]
mod stations;
#[cfg(test)]
mod words;
