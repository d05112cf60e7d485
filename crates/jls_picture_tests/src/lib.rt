//! Tests of the crates of streams, reports, pictures and files. They stand apart, so that those crates are proved once, without them.
#![tactic(auto)]

#[cfg(test)]
mod device;
#[cfg(test)]
mod file;
#[cfg(test)]
mod limited;
#[cfg(test)]
mod lines;
#[cfg(test)]
mod picture;
#[cfg(test)]
mod report;
