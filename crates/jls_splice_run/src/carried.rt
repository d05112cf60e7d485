//! The texts and files of what copies in several codings gave each other.

ghost use Rattle.std.specs.Prelude.{◌≡◌, ℕ, true, false, ◌<◌, ◌^◌, Option, IfOk, IfSome, None, length, map};
ghost use Rattle.std.specs.Prelude.{option_map};
ghost use Rattle.std.specs.declared.alloc.Global.{Global};
ghost use Rattle.std.specs.declared.vec.Vec.{Vec};
ghost use Rattle.std.specs.List.{AllByRecursion, Contains};
ghost use Rattle.jls_diff.specs.Parts.{made};
ghost use Rattle.jls_diff.specs.PartsOf.{bytes_of};
ghost use Rattle.jls_held.specs.Judging.{AreMendedOf, codings_of};
ghost use Rattle.jls_held.specs.Mending.{file_of};
ghost use Rattle.jls_partial.specs.Partial.{PartialPicture};
ghost use Rattle.jls_search.specs.Choices.{IsWhole};
ghost use Rattle.jls_search.specs.Faultless.{IsFaultless};
ghost use Rattle.jls_search.specs.Search.{lists_of};
ghost use Rattle.jls_search.specs.Found.{found_of, splices_in};
ghost use Rattle.jls_search.specs.Files.{AreVerdicts, files_taken, splices_found};
ghost use Rattle.jls_splice_run.specs.Carrying as spec;
ghost use Rattle.jls_splice_run.specs.Listing.{AreCompleted, AreNamedAsked, named_files};
ghost use Rattle.jls_splice_run.specs.Making.{AreTextsOf, AreTextsOfJudged, IsCarriedMade, carried_made};
ghost use Rattle.jls_splice_run.specs.Completing.{IsCompletedIn};
ghost use Rattle.jls_splice_run.specs.Tasks.{task_of};
ghost use Rattle.jls_splice_run.specs.declared.found.Promise.TheVariants.{Held as ForHeld};

use crate::beside::put_beside;
use crate::copies::slices_of;
use crate::files::count_new;
use crate::found::SearchReport;
use crate::handed_out::{HandedOut, handed_out};
use crate::made::{Made, ceiling_reported, files_reported, groups_reported, lacks_file};
use crate::mended_files::{is_eoi_added_to_handed, numbered_files, single_file};
use crate::printed_lines::{lines_of_carried, notes_of_carried};
use crate::searched_parts::FoundInTurn;
use crate::task::{Task, has_lists};
use jls_carried::{Between, SearchBounds, carry_between};
use jls_search::{Files, HeldFiles};
use jls_station::CopyFile;
use std::alloc::{AllocError, Global};

/// Whether none of the verdicts on files says that a file has no fault.
fn is_none_faultless(verdicts: &[bool]) -> bool
    ensures none { result ≡ true → AllByRecursion (λ v. v ≡ false) verdicts.now }
    ensures some { result ≡ false → Contains verdicts.now true }
{
    for verdict in verdicts {
        if *verdict {
            return false;
        }
    }
    true
}

/// How many copies there are.
fn count_copies(files: &Files<'_, '_>) -> usize
    ensures { result ≡ length files.now.copies.now }
{
    files.copies.len()
}

/// The lines, the text and the files of what is handed out. `verdicts` are those on the files taken.
fn texts_of_handed(
    alloc: Global,
    task: &Task<'_, '_>,
    files: &Files<'_, '_>,
    all: &FoundInTurn<'_>,
    verdicts: &[bool],
    out: &HandedOut,
    is_alone: bool,
) -> Result<Made, AllocError>
    requires splices { splices_found files.now ≡ splices_in (found_of all.now.splices) }
    requires each { AllByRecursion (IsWhole files.now.parts.now) (lists_of files.now.splices.now) }
    requires small { length (made 0 all.now.splices.parts) < 2 ^ 64 }
    requires verdicts { AreVerdicts (files_taken files.now) verdicts.now }
    requires mended { AreMendedOf (bytes_of files.now.copies.now) (codings_of out.now.codings.items)
        (map file_of out.now.mended.items) }
    requires faultless { out.now.promise ≡ ForHeld
        → AllByRecursion (λ f. IsFaultless f.bytes) (map file_of out.now.mended.items) }
    ensures texts { IfOk result (λ made. (held given : PartialPicture)
        → spec.IsHandedOut (task_of task.now).options.source held given is_alone out.now → (lone : Option (Vec ℕ Global))
        → AreTextsOf (task_of task.now) (bytes_of files.now.copies.now) (carried_made (task_of task.now).options.source all.now lone given
        (spec.carried_out out.now held is_alone) out.now.is_settled made) made) }
    ensures single { is_alone ≡ true → IfOk result (λ made. IsCompletedIn
        (spec.carried_file (task_of task.now).options.file out.now.promise (map file_of out.now.mended.items))
        (option_map (λ f. f.items) made.file)) }
    ensures no_single { is_alone ≡ false → IfOk result (λ made. option_map (λ f. f.items) made.file ≡ None) }
    ensures named { is_alone ≡ true → IfOk result (λ made. AreCompleted
        (spec.carried_files (task_of task.now).options.files (map file_of out.now.mended.items)) (named_files made.files.items)) }
    ensures named_beside { is_alone ≡ false → IfOk result (λ made. AreNamedAsked (task_of task.now).options.files
        (spec.files_beside out.now.promise (map file_of out.now.mended.items) (files_taken files.now)) (named_files made.files.items)) }
{
    let file = single_file(alloc, task.options.file, out.promise, &out.mended, is_alone)?;
    let beside = put_beside(alloc, &out.mended, files.copies, verdicts, out.promise)?;
    let handed_of = Files {
        copies: &beside.copies,
        parts: files.parts,
        splices: files.splices,
        reader: files.reader,
    };
    let numbered = numbered_files(
        alloc,
        task.options.files,
        &handed_of,
        &beside.verdicts,
        &out.mended,
        is_alone,
    )?;
    let found = &all.splices;
    let splices = count_new(alloc, files.copies, files.parts, files.splices)?;
    let is_added = is_eoi_added_to_handed(
        alloc,
        &handed_of,
        &out.mended,
        is_alone,
        &file,
        &numbered,
    )?;
    let report = SearchReport {
        splices,
        is_used_up: found.is_used_up,
        ceiling: ceiling_reported(task.options.ceiling, found.ceiling),
        by_groups: groups_reported(found.by_groups),
        before: None,
        files: files_reported(task.options.files, &numbered),
        is_eoi_added: is_added,
        lacks_single_file: lacks_file(task.options.file, &file),
        has_lists: has_lists(task),
        promise: out.promise,
    };
    let count = count_copies(files);
    let lines = lines_of_carried(
        alloc,
        task.out,
        &found.parts,
        count,
        &out.codings,
        &out.strangers,
        &report,
        &out.picture,
    )?;
    let notes = notes_of_carried(
        alloc,
        task.out,
        count,
        &out.codings,
        &out.strangers,
        &report,
    )?;
    let text = out.picture.to_bytes(alloc)?;
    Ok(Made {
        lines,
        notes,
        text,
        file,
        files: numbered,
        promise: out.promise,
    })
}

/// What is handed out of what copies in several codings gave each other, as texts and files. `None` comes where nothing of it is.
fn texts_of_judged(
    alloc: Global,
    task: &Task<'_, '_>,
    files: &Files<'_, '_>,
    all: &FoundInTurn<'_>,
    taken: &HeldFiles,
    between: Between,
    is_alone: bool,
) -> Result<Option<Made>, AllocError>
    requires splices { splices_found files.now ≡ splices_in (found_of all.now.splices) }
    requires each { AllByRecursion (IsWhole files.now.parts.now) (lists_of files.now.splices.now) }
    requires small { length (made 0 all.now.splices.parts) < 2 ^ 64 }
    requires verdicts { AreVerdicts (files_taken files.now) taken.now.faultless.items }
    requires mended { AreMendedOf (bytes_of files.now.copies.now) (codings_of between.judged.codings.items)
        (map file_of between.judged.files.items) }
    ensures { IfOk result (λ made. IfSome made (AreTextsOfJudged (task_of task.now) (bytes_of files.now.copies.now)
        (files_taken files.now) all.now taken.now.station between is_alone)) }
{
    let given = taken.station.partial();
    let source = task.options.source;
    let Some(out) = handed_out(
        alloc,
        files.copies,
        &taken.faultless,
        given,
        source,
        between,
        is_alone,
    )?
    else {
        return Ok(None);
    };
    let made = texts_of_handed(alloc, task, files, all, &taken.faultless, &out, is_alone)?;
    Ok(Some(made))
}

/// What is handed out of copies in several codings, or beside witnesses. No file taken is without a fault then, or what the copies gave
/// each other speaks against it. `None` comes where a cut file was taken, and where all are of one coding, as far as can be told.
pub(crate) fn carried_texts(
    alloc: Global,
    task: &Task<'_, '_>,
    files: &Files<'_, '_>,
    witnesses: &[CopyFile],
    all: &FoundInTurn<'_>,
    held: &HeldFiles,
) -> Result<Option<Made>, AllocError>
    requires splices { splices_found files.now ≡ splices_in (found_of all.now.splices) }
    requires each { AllByRecursion (IsWhole files.now.parts.now) (lists_of files.now.splices.now) }
    requires small { length (made 0 all.now.splices.parts) < 2 ^ 64 }
    requires verdicts { AreVerdicts (files_taken files.now) held.now.faultless.items }
    ensures { IfOk result (λ made. IfSome made (λ made. (held.now.cut ≡ None) × IsCarriedMade (task_of task.now)
        (bytes_of files.now.copies.now) (files_taken files.now) all.now held.now.station made)) }
{
    if held.cut.is_some() {
        return Ok(None);
    }
    let given = held.station.partial();
    let is_alone = is_none_faultless(&held.faultless);
    let shape = given.shape().to_owned();
    let bounds = SearchBounds {
        ceiling: task.options.ceiling,
        tries: task.options.tries,
    };
    let witnesses = slices_of(alloc, witnesses)?;
    let Some(between) = carry_between(alloc, shape, files.copies, &witnesses, bounds)? else {
        return Ok(None);
    };
    let Some(made) = texts_of_judged(alloc, task, files, all, held, between, is_alone)? else {
        return Ok(None);
    };
    Ok(Some(made))
}
