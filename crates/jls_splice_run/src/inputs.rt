//! What a run reads.

ghost use Rattle.std.specs.Prelude.{◌≡◌, IfErr, IfOk, length};
ghost use Rattle.jls_io.specs.Event.{GrewBy};
ghost use Rattle.jls_splice_run.specs.BadLists.{files_searched as searched};
ghost use Rattle.jls_splice_run.specs.Inputs.{AreInputs, StopsAtInputs};
ghost use Rattle.jls_splice_run.specs.Tasks.{task_of};
ghost use Rattle.jls_station.specs.CopyFiles.{copies_of};

use crate::bad_lists::searched_copies;
use crate::copies::read_all;
use crate::task::Task;
use jls_cli::Refusal;
use jls_io::Desk;
use jls_station::CopyFile;
use std::alloc::Global;

/// What a run reads.
#[derive(Drop)]
pub(crate) struct Inputs {
    /// The copies, in their order.
    pub(crate) read: Vec<CopyFile>,
    /// What stands for them by the lists of their bad places, if there are lists.
    pub(crate) known: Option<Vec<CopyFile>>,
    /// The witnesses, in their order, each as far as it could be read.
    pub(crate) witnesses: Vec<CopyFile>,
}

/// Reads the copies, then the lists of their bad places, and then the witnesses.
pub(crate) fn read_inputs<'a, D: Desk>(
    alloc: Global,
    desk: &mut D,
    task: &Task<'_, 'a>,
) -> Result<Inputs, Refusal<'a>>
    ensures read { IfOk result (λ inputs. GrewBy (AreInputs (task_of task.now) (copies_of inputs.read.items)
        (copies_of (searched inputs.known inputs.read.items))) (D.history desk.old) (D.history desk.new)) }
    ensures counted { IfOk result (λ inputs. length (searched inputs.known inputs.read.items) ≡ length task.now.names.now) }
    ensures stopped { IfErr result (λ refusal.
        GrewBy (StopsAtInputs (task_of task.now) refusal) (D.history desk.old) (D.history desk.new)) }
{
    let read = match read_all(alloc, desk, task.names) {
        Ok(read) => read,
        Err(refusal) => return Err(refusal),
    };
    let known = match searched_copies(alloc, desk, task, &read) {
        Ok(known) => known,
        Err(refusal) => return Err(refusal),
    };
    match read_all(alloc, desk, task.witnesses) {
        Ok(witnesses) => Ok(Inputs {
            read,
            known,
            witnesses,
        }),
        Err(refusal) => Err(refusal),
    }
}
