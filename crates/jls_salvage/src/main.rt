//! Salvages JPEG-LS pictures: the program `jls-salvage`.
//!
//! `run_program` of jls_host runs it over the files and standard streams of the machine. That has no contract, so read it.
#![tactic(auto)]

use jls_host::run_program;
use jls_salvage_run::Salvage;
use std::process::ExitCode;

fn main(rt: HostRuntime) -> ExitCode {
    run_program::<Salvage>(rt)
}
