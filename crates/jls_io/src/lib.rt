//! Devices that keep a history: sources, sinks, and the desk of a program. Lines on a fault output.
//!
//! - `device`: the traits: sources, sinks and the desk of a program
//! - `history`: the list of events of a device, for contracts alone. It takes no memory at run time
//! - `ledger`: the history with the four counts. It notes each event. A device of one's own keeps one
//! - `counted`: makes a device of any reader or writer, and a desk of whatever opens inputs and creates outputs by name (`Open`)
//! - `writing`: hands all bytes to a sink
//! - `laws`: tie what is noted to the bytes of a list in memory
//! - `line`: a line by its parts, and the public calls `print_line` and `print_text`
//! - `names`: shows a name: each control character by its code, each backslash twice
//! - `pending`: the bytes that wait for one write, in a buffer of 4,096 bytes
//! - `fault`: the fault lines that both programs have, each with the name of its program
//!
//! - A contract cannot say which bytes a file has. So each device has, for contracts alone, a *history*: the list of the events of its
//!   life. What a program does is then a statement about the events of its desk.
//! - One thing is trusted: `counted` calls its stream once for each read and write that it notes. No contract says that.
//! - No line needs memory. No name in a line can steer a terminal or forge a line.
//!
//! Definitions: `Event`, `Noted`, `Writing`, `Remaining`, `Asked`, `Outputs`, `Lines`, `Names`, `FaultLines`. Inside the crate: `Counts`
//! (the ledger), `EventCode` (how the checker's logic stores a history), `Handing`.
//!
//! Not proved:
//!
//! - That `Counted` calls the stream only once for each read and write that it notes. A second call that gives and takes nothing would not
//!   be seen, since no contract of std counts calls. Read `counted.rt`; it is tested.
//! - That a line of at most 4,096 bytes is one write. `pending` does so; a contract allows any number of writes.
//! - That a read of bytes in memory never fails, and that a write to a list fails only for lack of memory.
#![tactic(auto)]

mod counted;
mod device;
mod fault;
mod history;
mod laws;
mod ledger;
mod line;
mod names;
mod pending;
mod writing;

pub use counted::{Counted, Open};
pub use device::{Desk, DeskFault, Device, Sink, SinkFault, Source, SourceFault};
pub use fault::{
    print_about, print_no_picture, print_not_written, print_out_of_memory, print_plain,
    print_with_number,
};
pub use history::Noted;
pub use laws::{reads_give_the_content, sink_over_list, source_over_bytes, writes_are_held};
pub use ledger::Ledger;
pub use line::{LinePart, print_line, print_text};
pub use writing::write_all;
