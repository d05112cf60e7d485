//! The lists of bad places that a run reads, and the copies that are searched then.

ghost use Rattle.std.specs.Prelude.{◌≡◌, ◌⊎◌, ◌<◌, ℕ, IfErr, IfOk, List, OnOk, length, map};
ghost use Rattle.jls_bad.specs.Copies as bad;
ghost use Rattle.jls_bad.specs.Known.{AreKnownCopies};
ghost use Rattle.jls_cli.specs.BadValues.{list_of};
ghost use Rattle.jls_cli.specs.declared.outcome.Cause.TheVariants.{OutOfMemory};
ghost use Rattle.jls_io.specs.Event.{GrewBy};
ghost use Rattle.jls_splice_run.specs.BadLists as spec;
ghost use Rattle.jls_splice_run.specs.BadLists.{AreSearched, IsList, IsListRefused, IsStoppedBy, StopsAtLists, places_held};
ghost use Rattle.jls_splice_run.specs.Copies.{bytes_read, stops_read};
ghost use Rattle.jls_splice_run.specs.Making.{IsWantOfMemory};
ghost use Rattle.jls_splice_run.specs.Tasks.{task_of, texts_of};
ghost use Rattle.jls_station.specs.CopyFiles.{copies_of, copy_of};
ghost use Rattle.std.specs.List.{AllZip};

use crate::copies::{is_whole, read_all};
use crate::task::{Task, want_of_memory};
use jls_bad::{Listed, Place, known_copies, known_copies_are_whole, places_in};
use jls_cli::splice::BadList;
use jls_cli::{Cause, Refusal};
use jls_io::Desk;
use jls_station::CopyFile;
use std::alloc::{AllocError, Global};

/// The lists that values of `--bad` name.
fn lists_in<'a>(alloc: Global, values: &[&'a str]) -> Result<Vec<BadList<'a>>, AllocError>
    ensures { IfOk result (λ lists. map list_of lists.items ≡ spec.lists_in (texts_of values.now)) }
{
    let mut lists = Vec::new(alloc);
    for value in values {
        if let Some(list) = BadList::of(value) {
            lists.push(list)?;
        }
    }
    Ok(lists)
}

/// The names of lists.
fn names_of<'a>(alloc: Global, lists: &[BadList<'a>]) -> Result<Vec<&'a str>, AllocError>
    ensures { IfOk result (λ names. texts_of names.items ≡ map (λ l. l.name.now) lists.now) }
{
    let mut names = Vec::new(alloc);
    for list in lists {
        names.push(list.name)?;
    }
    Ok(names)
}

/// The places that a list names.
fn places_of(alloc: Global, file: &CopyFile) -> Result<Vec<Place>, Cause>
    ensures named { IfOk result (λ places. IsList (copy_of file.now) places.items) }
    ensures refused { IfErr result (λ cause. (cause ≡ OutOfMemory) ⊎ IsListRefused (copy_of file.now) cause) }
{
    if !is_whole(file) {
        return Err(Cause::NotRead);
    }
    match places_in(alloc, &file.bytes) {
        Ok(Ok(places)) => Ok(places),
        Ok(Err(line)) => Err(Cause::NoList(line.number as u64)),
        Err(_) => Err(Cause::OutOfMemory),
    }
}

/// Why a list of this name stops a run. Where memory ran out, it is not the list's doing.
fn refusal_at<'a>(task: &Task<'_, 'a>, name: &'a str, cause: Cause) -> Refusal<'a>
    ensures memory { cause ≡ OutOfMemory → IsWantOfMemory (task_of task.now) result }
    ensures name { (cause ≡ OutOfMemory → ⊥) → result.name.now ≡ name.entry.now }
    ensures cause { result.cause ≡ cause }
{
    match cause {
        Cause::OutOfMemory => want_of_memory(task),
        _ => Refusal { name, cause },
    }
}

/// The places that each of the lists names.
fn places_of_all<'a>(
    alloc: Global,
    task: &Task<'_, 'a>,
    names: &[&'a str],
    files: &[CopyFile],
) -> Result<Vec<Vec<Place>>, Refusal<'a>>
    requires { length names.now ≡ length files.now }
    ensures named { IfOk result (λ places. AllZip IsList (copies_of files.now) (places_held places.items)) }
    ensures stopped { IfErr result (λ refusal. IsWantOfMemory (task_of task.now) refusal
        ⊎ IsStoppedBy (texts_of names.now) (copies_of files.now) refusal) }
{
    let mut all = Vec::new(alloc);
    for index in 0..files.len() {
        let places = match places_of(alloc, &files[index]) {
            Ok(places) => places,
            Err(cause) => return Err(refusal_at(task, names[index], cause)),
        };
        match all.push(places) {
            Ok(()) => {}
            Err(_) => return Err(want_of_memory(task)),
        }
    }
    Ok(all)
}

/// The places of the copy of a number.
fn places_for(
    alloc: Global,
    number: u64,
    lists: &[BadList<'_>],
    places: &[Vec<Place>],
) -> Result<Vec<Place>, AllocError>
    requires { length lists.now ≡ length places.now }
    ensures { IfOk result (λ own. own.items ≡ spec.places_for number (map list_of lists.now) (places_held places.now)) }
{
    let mut own = Vec::new(alloc);
    for index in 0..lists.len() {
        if u64::from(lists[index].copy) == number {
            own.extend_from_slice(&places[index])?;
        }
    }
    Ok(own)
}

/// The places of each of so many copies.
fn own_places(
    alloc: Global,
    lists: &[BadList<'_>],
    places: &[Vec<Place>],
    count: usize,
) -> Result<Vec<Vec<Place>>, AllocError>
    requires { length lists.now ≡ length places.now }
    ensures { IfOk result (λ own. places_held own.items ≡ spec.places_from 1 (map list_of lists.now) (places_held places.now) count) }
{
    let mut own = Vec::new(alloc);
    for index in 0..count {
        own.push(places_for(alloc, index as u64 + 1, lists, places)?)?;
    }
    Ok(own)
}

/// The copies, each with its places.
fn with_places<'c>(
    alloc: Global,
    read: &'c [CopyFile],
    own: &'c [Vec<Place>],
) -> Result<Vec<Listed<'c>>, AllocError>
    requires { length own.now ≡ length read.now }
    ensures { IfOk result (λ listed. bad.copies_of listed.items
        ≡ spec.with_places (bytes_read (copies_of read.now)) (places_held own.now)) }
{
    let mut listed = Vec::new(alloc);
    for index in 0..read.len() {
        listed.push(Listed {
            bytes: &read[index].bytes,
            places: &own[index],
        })?;
    }
    Ok(listed)
}

/// These bytes as copies, whose readings stopped as those of the copies that were read.
fn with_stops(
    alloc: Global,
    known: Vec<Vec<u8>>,
    read: &[CopyFile],
) -> Result<Vec<CopyFile>, AllocError>
    requires { length known.items ≡ length read.now }
    ensures bytes { IfOk result (λ files. bytes_read (copies_of files.items) ≡ bad.bytes_in known.items) }
    ensures stops { IfOk result (λ files. stops_read (copies_of files.items) ≡ stops_read (copies_of read.now)) }
{
    let mut files = Vec::new(alloc);
    for (index, bytes) in known.into_iter().enumerate() {
        let stop = read[index].stop;
        files.push(CopyFile { bytes, stop })?;
    }
    Ok(files)
}

/// What stands for the copies that were read, by the places that the lists name.
fn known_files(
    alloc: Global,
    lists: &[BadList<'_>],
    places: &[Vec<Place>],
    read: &[CopyFile],
) -> Result<Vec<CopyFile>, AllocError>
    requires { length lists.now ≡ length places.now }
    ensures known { IfOk result (λ files. AreKnownCopies
        (spec.copies_with (map list_of lists.now) (places_held places.now) (bytes_read (copies_of read.now)))
        (bytes_read (copies_of files.items))) }
    ensures stops { IfOk result (λ files. stops_read (copies_of files.items) ≡ stops_read (copies_of read.now)) }
{
    known_copies_are_whole();
    let own = own_places(alloc, lists, places, read.len())?;
    let listed = with_places(alloc, read, &own)?;
    let known = known_copies(alloc, &listed)?;
    with_stops(alloc, known, read)
}

/// What is searched where lists of bad places are asked for: it reads them, and what stands for the copies by them is made. `None` comes
/// where none is asked for. Then the copies are searched.
pub(crate) fn searched_copies<'a, D: Desk>(
    alloc: Global,
    desk: &mut D,
    task: &Task<'_, 'a>,
    read: &[CopyFile],
) -> Result<Option<Vec<CopyFile>>, Refusal<'a>>
    ensures searched { IfOk result (λ known. GrewBy (AreSearched (task_of task.now).bad (copies_of read.now)
        (copies_of (spec.files_searched known read.now))) (D.history desk.old) (D.history desk.new)) }
    ensures stopped { IfErr result (λ refusal.
        GrewBy (StopsAtLists (task_of task.now) refusal) (D.history desk.old) (D.history desk.new)) }
{
    if task.bad.is_empty() {
        return Ok(None);
    }
    let Ok(lists) = lists_in(alloc, task.bad) else {
        return Err(want_of_memory(task));
    };
    let Ok(names) = names_of(alloc, &lists) else {
        return Err(want_of_memory(task));
    };
    let files = match read_all(alloc, desk, &names) {
        Ok(files) => files,
        Err(refusal) => return Err(refusal),
    };
    let places = match places_of_all(alloc, task, &names, &files) {
        Ok(places) => places,
        Err(refusal) => return Err(refusal),
    };
    match known_files(alloc, &lists, &places, read) {
        Ok(known) => Ok(Some(known)),
        Err(_) => Err(want_of_memory(task)),
    }
}

/// The copies that are searched.
pub(crate) fn files_searched<'c>(
    known: &'c Option<Vec<CopyFile>>,
    read: &'c [CopyFile],
) -> &'c [CopyFile]
    ensures { result.now ≡ spec.files_searched known.now read.now }
{
    match known {
        Some(known) => known,
        None => read,
    }
}
