//! Tests of the station, of command lines, of the run of `jls-salvage`, and of the machine's files. They stand apart, so that those
//! crates are proved once, without them.
#![tactic(auto)]

#[cfg(test)]
mod choices;
#[cfg(test)]
mod noting;
#[cfg(test)]
mod outputs;
#[cfg(test)]
mod program;
#[cfg(test)]
mod station;
#[cfg(test)]
mod words;
