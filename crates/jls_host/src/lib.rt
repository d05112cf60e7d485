//! The files and standard streams of the machine, and outputs that are made beside their names and renamed when they are whole.
//!
//! - `choice`: decides how an output is made, what it replaces and whether it is kept. Its contracts say when
//! - `name`: the name of the temporary file beside OUT, and the name for an older OUT
//! - `output`: an output, from its making to its end. Its calls of the system go through `Machine`
//! - `making`: makes the temporary file, or opens the file at the name
//! - `ending`: renames that file to OUT, copies it there, or removes it
//! - `older`: keeps an older OUT under its other name
//! - `machine`: the trait `Machine`, which a test can implement
//! - `recorded`: a machine whose calls are noted, for contracts alone
//! - `calls`: the noted calls, which take no memory at run time
//! - `host`: opens the files and standard streams of the machine (`HostFiles`), and holds the descriptors of closed standard streams
//!   (`hold_streams`)
//! - `program`: runs a program over them (`run_program`)
//!
//! - No contract can say what a file has. So calls are noted, and `Disk` says what each may have done to names and files.
//! - Where a file beside OUT takes its name, OUT shows at every moment what it showed, or all of the new bytes. These are stored for good
//!   then (`IsWhole` of `Moments`). An older partial picture that is no input stands whole at OUT or at `OUT~`.
//!
//! Definitions: `Choices`, `Disk`, `Moments`, `Outputs`, `Recorded`, `Standings`. Inside the crate: `Steps`, `Called`, and `CallCode` (how
//! the checker's logic stores calls).
//!
//! Not proved:
//!
//! - That the system does with a call what `Disk` says, and that nobody else changes these files. `host` makes the calls; `recorded` notes
//!   each once. Read both. `jls_program_tests` and `tests/faults` test them.
//! - An OUT that is written at its name, or copied to it through a link, and when that is chosen. Nor that `HostFiles` writes and ends the
//!   output that it created.
#![tactic(auto)]

mod calls;
mod choice;
mod ending;
mod host;
mod machine;
mod making;
mod name;
mod older;
mod output;
mod program;
mod recorded;

pub use choice::{
    Ending, Guard, Kind, Standing, Way, can_go, ending_of_run, is_precious, is_protected,
    kind_of_file, way_to_make,
};
pub use host::{HostFiles, Streams, hold_streams};
pub use machine::Machine;
pub use name::{Name, name_beside, name_kept};
pub use output::{Output, Unmade, Why};
pub use program::{Program, run_program};
pub use recorded::{Held, Recorded};
