//! What is made of the copies, in memory.

ghost use Rattle.std.specs.Prelude.{◌≡◌, ◌<◌, ◌≤◌, ◌^◌, ◌↔◌, ℕ, Bool, List, None, Option, length, IfOk, IfErr, IfSome, IsTrue};
ghost use Rattle.std.specs.Prelude.{option_map};
ghost use Rattle.std.specs.List.{AllByRecursion};
ghost use Rattle.std.specs.declared.vec.Vec.{Vec};
ghost use Rattle.std.specs.declared.alloc.Global.{Global};
ghost use Rattle.jls_station.specs.CopyFiles.{copies_of};
ghost use Rattle.jls_io.specs.Event.{GrewBy};
ghost use Rattle.jls_diff.specs.Parts.{made};
ghost use Rattle.jls_diff.specs.PartsOf.{bytes_of, parts_of};
ghost use Rattle.jls_partial.specs.Status.{IsSettled};
ghost use Rattle.jls_search.specs.Choices.{HasSomeWay, IsPath, IsWhole};
ghost use Rattle.jls_search.specs.Search.{IsShort, lists_of};
ghost use Rattle.jls_search.specs.Found.{by_groups_of, found_of, splices_in};
ghost use Rattle.jls_search.specs.Files.{AreVerdicts};
ghost use Rattle.jls_search.specs.Files as given;
ghost use Rattle.jls_splice_run.specs.Making.{AreTextsOf, CantMake, HoldsMade, IsCutFile, files_taken, lacks_single, made_of};
ghost use Rattle.jls_splice_run.specs.Making as spec;
ghost use Rattle.jls_splice_run.specs.Listing.{AreNamedAsked, named_files};
ghost use Rattle.jls_splice_run.specs.Single.{IsSingleAsked};
ghost use Rattle.jls_splice_run.specs.Telling.{IsTold};
ghost use Rattle.jls_splice_run.specs.Tasks.{task_of};

use crate::carried::carried_texts;
use crate::copies::slices_of;
use crate::differences::offset_at;
use crate::files::{count_new, is_eoi_added};
use crate::found::{CutFileEnd, GroupSearch, Promise, SearchReport};
use crate::listing::{MOST_NAMED, Naming, NumberedFile, name_files};
use crate::options::SearchOptions;
use crate::printed_lines::{lines_of, notes_of};
use crate::searched_parts::{FoundInTurn, search_and_tell};
use crate::settling::settle;
use crate::single::single_file;
use crate::task::{Task, has_lists, want_of_memory};
use jls_carried::are_of_other_codings;
use jls_cli::Refusal;
use jls_io::Sink;
use jls_search::{Files, FoundSplices, GroupsReported, HeldFiles, trusted_path};
use jls_station::CopyFile;
use std::alloc::{AllocError, Global};

/// What a run hands out, and what it promises of it.
#[derive(Drop)]
pub struct Made {
    /// The lines that are printed.
    pub lines: Vec<u8>,
    /// What is noted on the fault output.
    pub notes: Vec<u8>,
    /// The text of the partial picture.
    pub text: Vec<u8>,
    /// The single file, completed by EOI, if it is asked for: the one without a fault, or the mended file of a coding.
    pub file: Option<Vec<u8>>,
    /// The files that get numbers, completed by EOI, with their names, if they are asked for: those without a fault, and mended ones.
    pub files: Vec<NumberedFile>,
    /// Which promise is printed.
    pub promise: Promise,
}

/// The choices of the cut file, if one is sought and found. Witnesses of another coding tell more than it does.
fn find_cut(
    alloc: Global,
    found: &FoundInTurn<'_>,
    copies: &[&[u8]],
    witnesses: &[CopyFile],
    most_tries: u32,
) -> Result<Option<Vec<usize>>, AllocError>
    requires some_way { AllByRecursion HasSomeWay found.now.splices.parts }
    requires short { IsShort found.now.splices.parts }
    requires whole { found.now.splices.whole ≤ length found.now.splices.splices.items }
    ensures lone { IfOk result (λ cut. IfSome cut (λ path. IsCutFile found.now.cut_ceiling (found_of found.now.splices) path.items)) }
{
    if found.splices.whole != 0 || !found.seeks_cut {
        return Ok(None);
    }
    let witnesses = slices_of(alloc, witnesses)?;
    if are_of_other_codings(alloc, copies, &witnesses)? {
        return Ok(None);
    }
    trusted_path(alloc, &found.splices.parts, found.cut_ceiling, most_tries)
}

/// The single file, if a name is given for it.
fn file_asked(
    alloc: Global,
    name: Option<&str>,
    files: &Files<'_, '_>,
    verdicts: &[bool],
) -> Result<Option<Vec<u8>>, AllocError>
    requires whole { AllByRecursion (IsWhole files.now.parts.now) (lists_of files.now.splices.now) }
    requires verdicts { AreVerdicts (given.files_taken files.now) verdicts.now }
    ensures { IfOk result (λ file. IsSingleAsked name.entry (given.files_taken files.now) (option_map (λ f. f.items) file)) }
{
    match name {
        Some(_) => single_file(alloc, files, verdicts),
        None => Ok(None),
    }
}

/// Whether a single file is asked for, and there is none.
pub(crate) fn lacks_file(name: Option<&str>, file: &Option<Vec<u8>>) -> bool
    ensures { result ≡ lacks_single name.entry file.now }
{
    match (name, file) {
        (Some(_), None) => true,
        _ => false,
    }
}

/// The files without a fault, with their names, if what these begin with is given.
pub(crate) fn files_asked(
    alloc: Global,
    prefix: Option<&str>,
    files: &Files<'_, '_>,
    verdicts: &[bool],
) -> Result<Vec<NumberedFile>, AllocError>
    requires whole { AllByRecursion (IsWhole files.now.parts.now) (lists_of files.now.splices.now) }
    requires verdicts { AreVerdicts (given.files_taken files.now) verdicts.now }
    ensures { IfOk result (λ named.
        AreNamedAsked (option_map (λ s. s.now) prefix.entry) (given.files_taken files.now) (named_files named.items)) }
{
    match prefix {
        Some(prefix) => {
            let most = MOST_NAMED;
            name_files(alloc, Naming { prefix, most }, files, verdicts)
        }
        None => Ok(Vec::new(alloc)),
    }
}

/// How many files have a name, if names are asked for.
pub(crate) fn files_reported(prefix: Option<&str>, files: &[NumberedFile]) -> Option<usize>
    ensures { result ≡ spec.files_reported prefix.entry files.now }
{
    match prefix {
        Some(_) => Some(files.len()),
        None => None,
    }
}

/// What is reported of the search by groups.
pub(crate) fn groups_reported(by_groups: Option<GroupsReported>) -> Option<GroupSearch>
    ensures { (choices : List (List ℕ)) → result ≡ spec.groups_reported (option_map (by_groups_of choices) by_groups) }
{
    match by_groups {
        Some(reported) => Some(GroupSearch {
            groups: reported.groups,
            is_used_up: reported.is_used_up,
        }),
        None => None,
    }
}

/// The ceiling of the search that counts, where none was given.
pub(crate) fn ceiling_reported(given: Option<u16>, ceiling: Option<u16>) -> Option<u16>
    ensures { result ≡ spec.ceiling_reported given ceiling }
{
    match given {
        Some(_) => None,
        None => ceiling,
    }
}

/// The promise that holds.
fn promise_of(found: &FoundSplices<'_>, settled: bool) -> Promise
    requires { found.now.whole ≤ length found.now.splices.items }
    ensures { result ≡ spec.promise_of found.now.ceiling (found_of found.now) settled }
{
    if !found.is_used_up && found.whole != 0 && settled {
        Promise::Picture(found.ceiling)
    } else {
        Promise::Lines
    }
}

/// Where the cut file ends, if one was taken.
fn cut_end(found: &FoundInTurn<'_>, cut: &Option<Vec<usize>>) -> Option<CutFileEnd>
    requires path { IfSome cut.now (λ path. IsPath found.now.splices.parts path.items) }
    requires small { length (made 0 found.now.splices.parts) < 2 ^ 64 }
    ensures { result
        ≡ option_map (λ path. spec.cut_end found.now.splices.parts found.now.cut_ceiling path.items) cut.now }
{
    match cut {
        Some(path) => Some(CutFileEnd {
            offset: offset_at(&found.splices.parts, path.len()),
            ceiling: found.cut_ceiling,
        }),
        None => None,
    }
}

/// What is handed out.
fn texts_of(
    alloc: Global,
    task: &Task<'_, '_>,
    files: &Files<'_, '_>,
    all: &FoundInTurn<'_>,
    held: &HeldFiles,
) -> Result<Made, AllocError>
    requires splices { given.splices_found files.now ≡ splices_in (found_of all.now.splices) }
    requires each { AllByRecursion (IsWhole files.now.parts.now) (lists_of files.now.splices.now) }
    requires whole { all.now.splices.whole ≤ length all.now.splices.splices.items }
    requires small { length (made 0 all.now.splices.parts) < 2 ^ 64 }
    requires path { IfSome held.now.cut (λ path. IsPath all.now.splices.parts path.items) }
    requires verdicts { AreVerdicts (given.files_taken files.now) held.now.faultless.items }
    ensures texts { IfOk result (λ made. (settled : Bool) × (IsTrue settled ↔ IsSettled held.now.station)
        × ((lone : Option (Vec ℕ Global)) → AreTextsOf (task_of task.now) (bytes_of files.now.copies.now)
        (made_of all.now lone held.now.cut held.now.station settled made) made)) }
    ensures single { IfOk result (λ made. IsSingleAsked (task_of task.now).options.file
        (files_taken (bytes_of files.now.copies.now) (found_of all.now.splices)) (option_map (λ f. f.items) made.file)) }
    ensures named { IfOk result (λ made. AreNamedAsked (task_of task.now).options.files
        (files_taken (bytes_of files.now.copies.now) (found_of all.now.splices)) (named_files made.files.items)) }
{
    let found = &all.splices;
    let partial = held.station.partial();
    let settled = partial.is_settled();
    let verdicts = held.faultless.as_slice();
    let file = file_asked(alloc, task.options.file, files, verdicts)?;
    let numbered = files_asked(alloc, task.options.files, files, verdicts)?;
    let splices = count_new(alloc, files.copies, files.parts, files.splices)?;
    let is_added = is_eoi_added(alloc, files, &file, &numbered)?;
    let promise = promise_of(found, settled);
    let report = SearchReport {
        splices,
        is_used_up: found.is_used_up,
        ceiling: ceiling_reported(task.options.ceiling, found.ceiling),
        by_groups: groups_reported(found.by_groups),
        before: cut_end(all, &held.cut),
        files: files_reported(task.options.files, &numbered),
        is_eoi_added: is_added,
        lacks_single_file: lacks_file(task.options.file, &file),
        has_lists: has_lists(task),
        promise,
    };
    let lines = lines_of(alloc, task.out, &found.parts, &report, partial)?;
    let notes = notes_of(alloc, task.out, &report)?;
    let text = partial.to_bytes(alloc)?;
    Ok(Made {
        lines,
        notes,
        text,
        file,
        files: numbered,
        promise,
    })
}

/// How the searches of a task are made.
fn search_options(task: &Task<'_, '_>) -> SearchOptions
    ensures { result ≡ record {
      ceiling = task.now.options.ceiling;
      tries = task.now.options.tries;
      tells = task.now.options.progress;
    } }
{
    SearchOptions {
        ceiling: task.options.ceiling,
        tries: task.options.tries,
        tells: task.options.progress,
    }
}

/// What is made of the copies of a task. The search tells how far it is, if that is asked for. Where no file taken is without a fault,
/// copies of several codings give each other lines, and witnesses give them lines. These may also speak against a file that is.
pub(crate) fn make<'a, E: Sink>(
    alloc: Global,
    task: &Task<'_, 'a>,
    copies: &[CopyFile],
    witnesses: &[CopyFile],
    faults: &mut E,
) -> Result<Made, Refusal<'a>>
    requires some_copy { 0 < length copies.now }
    requires names { length task.now.names.now ≡ length copies.now }
    ensures made { IfOk result (λ made. HoldsMade (task_of task.now) (copies_of copies.now) made) }
    ensures stopped { IfErr result (λ refusal. CantMake (task_of task.now) (copies_of copies.now) refusal) }
    ensures told { GrewBy (IsTold task.now.options.progress) (E.history faults.old) (E.history faults.new) }
{
    let slices = match slices_of(alloc, copies) {
        Ok(slices) => slices,
        Err(_) => return Err(want_of_memory(task)),
    };
    let found = match search_and_tell(alloc, &slices, search_options(task), faults) {
        Ok(found) => found,
        Err(_) => return Err(want_of_memory(task)),
    };
    let files = Files {
        copies: &slices,
        parts: &found.splices.parts,
        splices: &found.splices.splices,
        reader: &found.splices.reader,
    };
    let cut = match find_cut(alloc, &found, files.copies, witnesses, task.options.tries) {
        Ok(cut) => cut,
        Err(_) => return Err(want_of_memory(task)),
    };
    let held = settle(alloc, task, copies, &files, cut)?;
    match carried_texts(alloc, task, &files, witnesses, &found, &held) {
        Ok(Some(made)) => return Ok(made),
        Ok(None) => {}
        Err(_) => return Err(want_of_memory(task)),
    }
    match texts_of(alloc, task, &files, &found, &held) {
        Ok(made) => Ok(made),
        Err(_) => Err(want_of_memory(task)),
    }
}
