//! Tests of jls_bad, jls_carry and jls_held, by which copies mend each other. They stand apart, so that each is proved once, without them.
//!
//! - `lists`: lists of bad places, and lines that aren't understood
//! - `copies`: copies with bad places, and what stands for them
//! - `files`: files that CharLS wrote, and copies of them
//! - `mended`: copies that mend each other
//! - `nothing`: copies that bring back nothing
//! - `two_codings`: a picture in two codings, and the lines that mended copies hold
//! - `judging`: proposals of edits that are taken, and those that are left out
#![tactic(auto)]

#[cfg(test)]
mod copies;
#[cfg(test)]
mod files;
#[cfg(test)]
mod judging;
#[cfg(test)]
mod lists;
#[cfg(test)]
mod mended;
#[cfg(test)]
mod nothing;
#[cfg(test)]
mod two_codings;
