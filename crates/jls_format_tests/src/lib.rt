//! Tests of the crates of the format: samples, headers, partial pictures and copies. They stand apart, so that those crates are proved
//! once, without them.
//!
//! - `values`, `bits`, `context`, `interval`: the crates that code samples
//! - `headers`, `reading`, `writing`: marker segments
//! - `partial`, `texts`, `merged_texts`, `line_sets`: partial pictures
//! - `clones`, `copies`, `large_copies`, `cuts`, `known`: what whole copies give, and where scan data can be cut, on known values
//! - `profiles`: what whole copies give under each profile
#![tactic(auto)]

#[cfg(test)]
mod bits;
#[cfg(test)]
mod clones;
#[cfg(test)]
mod context;
#[cfg(test)]
mod copies;
#[cfg(test)]
mod cuts;
#[cfg(test)]
mod headers;
#[cfg(test)]
mod interval;
#[cfg(test)]
mod known;
#[cfg(test)]
mod large_copies;
#[cfg(test)]
mod line_sets;
#[cfg(test)]
mod merged_texts;
#[cfg(test)]
mod partial;
#[cfg(test)]
mod profiles;
#[cfg(test)]
mod reading;
#[cfg(test)]
mod texts;
#[cfg(test)]
mod values;
#[cfg(test)]
mod writing;
