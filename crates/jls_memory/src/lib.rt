//! A desk whose inputs and outputs are in memory.
//!
//! - `files`: inputs and outputs with their names
//! - `desk`: `MemoryDesk`: the desk. Whatever a program does with it, its outputs hold what the writes of its history took, and its reads
//!   gave the bytes of its inputs
//! - `laws`: a desk keeps its inputs, whatever is done with it
//!
//! - A contract of a program speaks of the history of its desk alone. The history of this desk tells which inputs it has: it begins with an
//!   event that stands for them. So the inputs after a run are those before it, by the contract of the run.
//! - What ties the history to the bytes is the invariant of `MemoryDesk`, which every value of the type has.
//!
//! Definitions: `Files`, `Outputs`, `Inputs`, `Desks`, `Laws`. `Held`: inputs and outputs as the code holds them.
#![tactic(auto)]

mod desk;
mod files;
mod laws;

pub use desk::MemoryDesk;
pub use files::{Input, Output};
pub use laws::{grown_desks_keep_their_inputs, outputs_hold_what_is_handed_out};
