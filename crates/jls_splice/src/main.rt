//! Mends JPEG-LS pictures: the program `jls-splice`.
//!
//! `run_program` of jls_host runs it over the files and standard streams of the machine. That has no contract, so read it.
#![tactic(auto)]

use jls_host::run_program;
use jls_splice_run::Splice;
use std::process::ExitCode;

fn main(rt: HostRuntime) -> ExitCode {
    run_program::<Splice>(rt)
}
