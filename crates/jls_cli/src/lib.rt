//! What both programs share: the words of their command lines, as clap reads them, and answers to words that clap refuses. Besides they
//! share what comes of a command, and its output.
//!
//! - `salvage`: the words of `jls-salvage`
//! - `splice`: the words of `jls-splice`, which takes any number of copies from two on
//! - `answering`: `answer`: what a program says of words that clap refused, where, and with which status. Both programs call it with
//!   their names
//! - `arguments`, `numbers`: what the words of both have in common
//! - `laws`: clap takes words if and only if it finds no fault in them
//! - `outcome`: `Done`, `Refusal` and its `Cause`, and the exit status of what came of a command
//! - `output`: creates an output and writes it
//! - `printing`: the line of a refusal on the fault output
//! - `version`: the version of the programs
//!
//! Of the library's crates only this one and those of the two runs depend on `clap`, which is slow to check. Definitions: `Words`,
//! `SalvageWords` and `SpliceWords` (what clap takes), `SalvageAsking` and `SpliceAsking` (what the words ask for), `Answers`, `Outcomes`,
//! `Outputs`, `FaultLines`. The examples of `proofs/` compute what clap reads in some command lines. `StatusExamples` has the exit status
//! of each cause, and `FaultLineExamples` a fault line of each kind.
#![tactic(auto)]

mod answering;
mod arguments;
pub mod laws;
mod numbers;
mod outcome;
mod output;
mod printing;
pub mod salvage;
pub mod splice;
mod version;

pub use answering::answer;
pub use outcome::{Cause, Done, Refusal, exit_status};
pub use output::{create, write_output};
pub use printing::{print_not_created, print_outcome};
pub use version::VERSION;
