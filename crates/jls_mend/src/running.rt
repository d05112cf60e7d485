//! A run of the program over inputs in memory.

ghost use Rattle.std.specs.Prelude.{◌<◌, IfOk, length, map};
ghost use Rattle.jls_memory.specs.Held.{input_file};
ghost use Rattle.jls_splice_run.specs.Tasks.{task_of};
ghost use Rattle.jls_mend.specs.Asking.{AreMendable, asked_for, inputs_with, places_of};
ghost use Rattle.jls_mend.specs.Running.{AreNames, IsRun};

use crate::asking::{BadPlaces, MendOptions, OUT, options_for};
use crate::naming::{Names, all_inputs, texts_in};
use jls_cli::{Done, Refusal, print_outcome};
use jls_io::Desk;
use jls_memory::{Input, MemoryDesk, Output, grown_desks_keep_their_inputs};
use jls_splice_run::{PROGRAM, Task, splice};
use std::alloc::{AllocError, Global};

/// What a run came to, and what it handed out.
pub(crate) struct Ran<'a> {
    pub(crate) outcome: Result<Done, Refusal<'a>>,
    pub(crate) outputs: Vec<Output>,
    pub(crate) printed: Vec<Output>,
}

/// Runs the program over these inputs. Its report output is the only output of a desk of its own. Its fault output takes nothing.
fn run_over<'a>(
    alloc: Global,
    inputs: &[Input<'_>],
    task: &Task<'_, 'a>,
) -> Result<Ran<'a>, AllocError>
    requires { 0 < length task.now.names.now }
    ensures { IfOk result (λ ran. IsRun (task_of task.now) (map input_file inputs.now) ran) }
{
    grown_desks_keep_their_inputs();
    let mut desk = MemoryDesk::new(alloc, inputs);
    let mut report = MemoryDesk::new(alloc, &[]);
    let mut faults = MemoryDesk::new(alloc, &[]);
    match report.create_output("") {
        Ok(()) => {}
        Err(_) => return Err(AllocError),
    }
    let outcome = splice(alloc, &mut desk, &mut report, &mut faults, task);
    print_outcome(&mut faults, PROGRAM, &outcome);
    Ok(Ran {
        outcome,
        outputs: desk.into_outputs(),
        printed: report.into_outputs(),
    })
}

/// Runs the program over these copies and lists, under these names, as the options ask for.
pub(crate) fn run_named<'a>(
    alloc: Global,
    names: &'a Names,
    copies: &'a [&'a [u8]],
    bad: &'a [BadPlaces<'a>],
    options: &MendOptions,
) -> Result<Ran<'a>, AllocError>
    requires names { AreNames names.now (map (λ copy. copy.now) copies.now) (map places_of bad.now) }
    requires copies { AreMendable (map (λ copy. copy.now) copies.now) (map places_of bad.now) }
    ensures { IfOk result (λ ran. IsRun (asked_for options.now (map (λ copy. copy.now) copies.now) (map places_of bad.now))
        (inputs_with (map (λ copy. copy.now) copies.now) (map places_of bad.now)) ran) }
{
    let inputs = all_inputs(alloc, names, copies, bad)?;
    let numbers = texts_in(alloc, &names.copies)?;
    let values = texts_in(alloc, &names.values)?;
    let task = Task {
        options: options_for(options),
        out: OUT,
        names: &numbers,
        bad: &values,
        witnesses: &[],
    };
    let ran = run_over(alloc, &inputs, &task)?;
    Ok(ran)
}
