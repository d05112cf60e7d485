//! The command `join`.

ghost use Rattle.jls_io.specs.Event.{GrewBy};
ghost use Rattle.jls_salvage_run.specs.AllInputs.{names_of};
ghost use Rattle.jls_salvage_run.specs.Joining.{Joins};

use crate::inputs::{JoinInputs, Taken, take_inputs};
use jls_cli::{Cause, Done, Refusal, write_output};
use jls_io::Desk;
use std::alloc::Global;

/// The command `join`: takes these inputs, in turn, and then creates the output and writes the text of their union to it. An input is a
/// text or a copy. If the inputs have a source, the readings of each copy are kept under its number. If reading a copy breaks off after
/// its frame, the bytes read so far are used. `Done` then says that not every input was read whole. The texts of the inputs and of
/// the union have one room, in turn.
pub fn join<'a, D: Desk>(
    alloc: Global,
    desk: &mut D,
    out: &'a str,
    inputs: JoinInputs<'_, 'a>,
) -> Result<Done, Refusal<'a>>
    ensures { GrewBy (Joins inputs.entry.source out.now (names_of inputs.entry) result) (D.history desk.old) (D.history desk.new) }
{
    let taken = take_inputs(alloc, desk, inputs)?;
    let (Taken { station, whole }, room) = taken;
    let joined = station.partial();
    let text = joined.to_bytes_in(room).map_err(|_| Refusal {
        name: out,
        cause: Cause::OutOfMemory,
    })?;
    write_output(desk, out, &text)?;
    let settled = joined.is_settled();
    Ok(Done { settled, whole })
}
