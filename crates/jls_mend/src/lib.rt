//! Mends several damaged copies in memory, as the program `jls-splice` does with `--file` and `--files`.
//!
//! - `mending`: `mend`: from the copies, and lists of their bad places, to what the program hands out
//! - `asking`: what it is asked for
//! - `naming`: the copies as inputs, whose names are their numbers, and the lists
//! - `running`: a run of the program over these inputs
//! - `laws`: what a mending without lists is
//!
//! - `mend` calls the function that the program calls, over a desk in memory. So what is proved of a run of the program holds of it, and
//!   its contract says what was made of the copies themselves.
//!
//! Definitions: `Asking`, `Running`, `Mending`, `Laws`.
#![tactic(auto)]

mod asking;
mod laws;
mod mending;
mod naming;
mod running;

pub use asking::{BadPlaces, MendOptions, are_mendable};
pub use laws::copies_without_lists_are_searched;
pub use mending::{MendRefusal, Mended, mend};
