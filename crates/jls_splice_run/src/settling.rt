//! The picture that comes of the files taken.

ghost use Rattle.std.specs.Prelude.{◌≡◌, ◌<◌, ◌⊎◌, None, length, option_map, IfOk, IfErr, IfSome};
ghost use Rattle.std.specs.List.{AllByRecursion};
ghost use Rattle.jls_station.specs.CopyFiles.{copies_of};
ghost use Rattle.jls_diff.specs.PartsOf.{bytes_of, parts_of};
ghost use Rattle.jls_search.specs.Cuts.{TakesNoCut};
ghost use Rattle.jls_search.specs.Choices.{IsPath, IsWhole, prefix_of};
ghost use Rattle.jls_search.specs.Search.{IsKeptReader, IsShort, lists_of};
ghost use Rattle.jls_search.specs.Files.{AreVerdicts, files_taken, splices_found};
ghost use Rattle.jls_splice_run.specs.Copies.{bytes_read};
ghost use Rattle.jls_splice_run.specs.Making.{IsPictureOf, IsUnsettled};
ghost use Rattle.jls_splice_run.specs.Making as spec;
ghost use Rattle.jls_splice_run.specs.Tasks.{task_of};

use crate::task::{Task, want_of_memory};
use jls_cli::{Cause, Refusal};
use jls_marker::MarkerFault;
use jls_search::{Files, HeldFiles, Settled, settle_files, settle_with_cut};
use jls_station::{CopyFile, ReadStop};
use std::alloc::Global;

/// Why a run stops over whose files no frame was found, by how the reading of the first copy stopped.
fn no_picture_cause(stop: ReadStop, fault: MarkerFault, offset: u64) -> Cause
    ensures { result ≡ spec.no_picture_cause stop fault offset }
{
    match stop {
        ReadStop::Whole => Cause::NoPicture(fault, offset),
        ReadStop::Failed | ReadStop::Turns => Cause::NotRead,
    }
}

/// The station that takes the files of a task, with the verdict on each of them; or why there is none. The cut file of these choices is
/// taken too if it has a frame, and if no other file is without a fault.
pub(crate) fn settle<'a>(
    alloc: Global,
    task: &Task<'_, 'a>,
    copies: &[CopyFile],
    files: &Files<'_, '_>,
    cut: Option<Vec<usize>>,
) -> Result<HeldFiles, Refusal<'a>>
    requires some_copy { 0 < length copies.now }
    requires names { length task.now.names.now ≡ length copies.now }
    requires copies { bytes_of files.now.copies.now ≡ bytes_read (copies_of copies.now) }
    requires whole { AllByRecursion (IsWhole files.now.parts.now) (lists_of files.now.splices.now) }
    requires short { IsShort files.now.parts.now }
    requires reader { IfSome files.now.reader.now (IsKeptReader files.now.parts.now) }
    requires cut { IfSome cut (λ path. IsPath files.now.parts.now path.items) }
    ensures settled { IfOk result (λ taken.
        IsPictureOf (task_of task.now).options.source (bytes_read (copies_of copies.now)) (splices_found files.now)
        (option_map (λ path. prefix_of files.now.parts.now path.items) taken.cut) taken.station) }
    ensures verdicts { IfOk result (λ taken. AreVerdicts (files_taken files.now) taken.faultless.items) }
    ensures cut { IfOk result (λ taken. (taken.cut ≡ cut) ⊎ ((taken.cut ≡ None) × IfSome cut (λ path.
        TakesNoCut (bytes_read (copies_of copies.now)) (splices_found files.now) (prefix_of files.now.parts.now path.items)))) }
    ensures stopped { IfErr result (λ refusal.
        IsUnsettled (task_of task.now) (copies_of copies.now) (splices_found files.now) refusal) }
{
    if let Some(path) = cut {
        match settle_with_cut(alloc, task.options.source, files, path) {
            Ok(Some(taken)) => return Ok(taken),
            Ok(None) => {}
            Err(_) => return Err(want_of_memory(task)),
        }
    }
    let settled = match settle_files(alloc, task.options.source, files) {
        Ok(settled) => settled,
        Err(_) => return Err(want_of_memory(task)),
    };
    match settled {
        Settled::Held(taken) => Ok(taken),
        Settled::Differ(copy) => Err(Refusal {
            name: task.names[copy],
            cause: Cause::ShapeDiffers,
        }),
        Settled::NoFrame(fault, offset) => Err(Refusal {
            name: task.names[0],
            cause: no_picture_cause(copies[0].stop, fault, offset),
        }),
    }
}
