//! A run whose words ask for something.

ghost use Rattle.std.specs.Prelude.{◌≡◌, ◌<◌, length, IfErr, OnOk, option_map};
ghost use Rattle.jls_splice_run.specs.Handing.{HandsAll, StopsInHanding};
ghost use Rattle.jls_splice_run.specs.Runs.{GrewAll, Splices, texts_held};
ghost use Rattle.jls_splice_run.specs.Tasks.{task_of};
ghost use Rattle.jls_io.specs.Event.{GrewBoth};

use crate::bad_lists::files_searched;
use crate::copies::are_whole;
use crate::handing::{print_lines, print_notes, write_file, write_files};
use crate::inputs::{Inputs, read_inputs};
use crate::made::{Made, make};
use crate::task::{Task, prefix_of};
use jls_cli::{Done, Refusal, write_output};
use jls_io::{Desk, Sink};
use std::alloc::Global;

/// The bytes of a file, if there is one.
fn bytes_in(file: &Option<Vec<u8>>) -> Option<&[u8]>
    ensures { option_map (λ s. s.now) result ≡ option_map (λ f. f.items) file.now }
{
    match file {
        Some(file) => Some(file.as_slice()),
        None => None,
    }
}

/// Hands out what was made.
fn hand_out<'a, D: Desk, W: Sink>(
    desk: &mut D,
    report: &mut W,
    task: &Task<'_, 'a>,
    made: &Made,
) -> Result<(), Refusal<'a>>
    ensures done { OnOk result (GrewBoth (HandsAll (texts_held (task_of task.now) made.now)) (D.history desk.old) (D.history desk.new)
        (W.history report.old) (W.history report.new)) }
    ensures stopped { IfErr result (λ refusal. GrewBoth (StopsInHanding (texts_held (task_of task.now) made.now) refusal)
        (D.history desk.old) (D.history desk.new) (W.history report.old) (W.history report.new)) }
{
    match print_lines(report, &made.lines) {
        Ok(()) => {}
        Err(refusal) => return Err(refusal),
    }
    match write_output(desk, task.out, &made.text) {
        Ok(()) => {}
        Err(refusal) => return Err(refusal),
    }
    match write_file(desk, task.options.file, bytes_in(&made.file)) {
        Ok(()) => {}
        Err(refusal) => return Err(refusal),
    }
    match write_files(desk, prefix_of(task), &made.files) {
        Ok(()) => Ok(()),
        Err(refusal) => Err(refusal),
    }
}

/// Reads the copies, and lists of their bad places and witnesses if these are asked for. Searches their splices, takes all files that
/// decode, and hands out what comes of it. If no file taken is without a fault, the cut file may be taken too.
///
/// Copies with bad places are searched as known copies: bytes of other copies stand in these places. First come the lines, on the report
/// output. Then comes the text of the union of what the files taken give. Then comes the single file, and last the files that have numbers,
/// if these are asked for. All are made before anything is handed out. While it searches, it tells on the fault output how far it is, if
/// that is asked for. Where OUT is standard output, the fault output also gets the lines of the search.
pub fn splice<'a, D: Desk, W: Sink, E: Sink>(
    alloc: Global,
    desk: &mut D,
    report: &mut W,
    faults: &mut E,
    task: &Task<'_, 'a>,
) -> Result<Done, Refusal<'a>>
    requires { 0 < length task.now.names.now }
    ensures { GrewAll (Splices (task_of task.now) result) (D.history desk.old) (D.history desk.new)
        (W.history report.old) (W.history report.new) (E.history faults.old) (E.history faults.new) }
{
    let Inputs {
        read,
        known,
        witnesses,
    } = match read_inputs(alloc, desk, task) {
        Ok(inputs) => inputs,
        Err(refusal) => return Err(refusal),
    };
    let made = match make(
        alloc,
        task,
        files_searched(&known, &read),
        &witnesses,
        faults,
    ) {
        Ok(made) => made,
        Err(refusal) => return Err(refusal),
    };
    print_notes(faults, &made.notes);
    match hand_out(desk, report, task, &made) {
        Ok(()) => Ok(Done {
            settled: made.promise.is_of_picture(),
            whole: are_whole(&read),
        }),
        Err(refusal) => Err(refusal),
    }
}
