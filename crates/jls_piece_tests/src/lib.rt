//! Tests of jls_piece and jls_pixel. They stand apart, so that each is proved once, without them.
//!
//! - `lines`: pieces by line and by sample, and the lines that they read as
//! - `rows`: pieces by sample, and the rows that they read as
//! - `heads`: what pieces by sample give where their end is cut off
#![tactic(auto)]

#[cfg(test)]
mod heads;
#[cfg(test)]
mod lines;
#[cfg(test)]
mod rows;
