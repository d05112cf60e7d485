//! Tests of calls that can want memory: what each promises where one growth is refused. Each test says which refusals it met;
//! `tests/growth` runs it as often as it has growths, and refuses another one each time. They stand apart, so that the crates below
//! are proved once, without them.
//!
//! - `met`: the refusals that a test met, counted
//! - `ten`, `four`, `coded`: pictures of known lines, and their files
//! - `room`: a writer that grows nothing
//! - `readings`: pictures of equal samples, and their texts
//! - `sets`, `partial`, `bits`, `interval`, `copies`, `by_sample`, `writing`: the tests of single calls
//! - `files`, `pairs`: files in memory, and damaged copies
//! - `searching`, `running`, `splicing`: the tests of the searches, and of whole runs of both programs
//! - `mending`: the test of copies in memory that a call mends
#![tactic(auto)]

#[cfg(test)]
mod bits;
#[cfg(test)]
mod by_sample;
#[cfg(test)]
mod coded;
#[cfg(test)]
mod copies;
#[cfg(test)]
mod files;
#[cfg(test)]
mod four;
#[cfg(test)]
mod interval;
#[cfg(test)]
mod mending;
#[cfg(test)]
mod met;
#[cfg(test)]
mod pairs;
#[cfg(test)]
mod partial;
#[cfg(test)]
mod readings;
#[cfg(test)]
mod room;
#[cfg(test)]
mod running;
#[cfg(test)]
mod searching;
#[cfg(test)]
mod sets;
#[cfg(test)]
mod splicing;
#[cfg(test)]
mod ten;
#[cfg(test)]
mod writing;
