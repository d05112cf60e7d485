//! The splices, each of which is read. What several of them begin with alike is read once, as long as its reader is kept.

ghost use Rattle.std.specs.Prelude.{◌≡◌, ◌-◌, ◌<◌, ◌^◌, ◌≤◌, List, Some, get_or, length, map, [], IfOk, IfSome, OnOk};
ghost use Rattle.std.specs.List.{AllByRecursion};
ghost use Rattle.jls_diff.specs.Parts.{Part};
ghost use Rattle.jls_diff.specs.PartsOf.{parts_of};
ghost use Rattle.jls_search.specs.Choices.{IsPath, IsWhole, prefix_of};
ghost use Rattle.jls_search.specs.Files.{splices_found};
ghost use Rattle.jls_search.specs.Search.{IsBegunOn, IsKeptReader, IsShort, lists_of};
ghost use Rattle.jls_search.specs.Reading.{ReadsMore};

use crate::files::Files;
use crate::kept::{BegunReader, KeptReader, fed_on, kept_reader};
use crate::reading_files::{FilesRead, read_file};
use crate::reading_group::makes_bytes;
use jls_copy::WideReader;
use jls_diff::Parts;
use std::alloc::{AllocError, Global};

/// How many splices after one are compared with it.
const COMPARED: usize = 16;

/// How many readers are kept at most. Each holds a picture.
const MOST_KEPT: usize = 4;

/// How many first choices two paths share.
fn shared_len(path: &[usize], other: &[usize]) -> usize
    ensures { result ≤ length path.now }
{
    let count = path.len().min(other.len());
    for place in 0..count {
        if path[place] != other[place] {
            return place;
        }
    }
    count
}

/// How many first choices the path shares at most with one of the first of these splices.
fn most_shared(path: &[usize], later: &[Vec<usize>]) -> usize
    ensures { result ≤ length path.now }
{
    let mut most = 0;
    for number in 0..later.len().min(COMPARED) {
        let shared = shared_len(path, &later[number]);
        if shared > most {
            most = shared;
        }
    }
    most
}

/// The first of these readers, which is taken out.
fn take_first(kept: &mut Vec<KeptReader>) -> Option<KeptReader>
    ensures { (parts : List Part) → AllByRecursion (IsKeptReader parts) kept.old.items
        → IfSome result (IsKeptReader parts) × AllByRecursion (IsKeptReader parts) kept.new.items }
{
    if kept.is_empty() {
        return None;
    }
    Some(kept.remove(0))
}

/// The reader to go on from along the path: one of these whose choices begin it, which is taken out, and else a new one.
fn take_begun(
    alloc: Global,
    kept: &mut Vec<KeptReader>,
    path: &[usize],
) -> Result<BegunReader, AllocError>
    ensures begun { (parts : List Part) → AllByRecursion (IsKeptReader parts) kept.old.items → IfOk result (IsBegunOn parts path.now) }
    ensures kept { (parts : List Part) → AllByRecursion (IsKeptReader parts) kept.old.items
        → OnOk result (AllByRecursion (IsKeptReader parts) kept.new.items) }
{
    for _ in 0..kept.len() {
        let Some(first) = take_first(kept) else {
            break;
        };
        if path.starts_with(&first.choices) {
            let choices = first.choices.len();
            let KeptReader { reader, .. } = first;
            return Ok(BegunReader { reader, choices });
        }
        kept.push(first)?;
    }
    Ok(BegunReader {
        reader: WideReader::new(alloc),
        choices: 0,
    })
}

/// Lets the first of these readers go, if there are as many as may be kept.
fn make_room(kept: &mut Vec<KeptReader>)
    ensures { (parts : List Part) → AllByRecursion (IsKeptReader parts) kept.old.items
        → AllByRecursion (IsKeptReader parts) kept.new.items }
{
    if kept.len() < MOST_KEPT {
        return;
    }
    let _ = take_first(kept);
}

/// Keeps one reader more, which was fed what the path makes. If there are too many, the first of them is let go.
fn keep_more(
    alloc: Global,
    kept: &mut Vec<KeptReader>,
    reader: WideReader,
    path: &[usize],
) -> Result<(), AllocError>
    ensures { (parts : List Part) → AllByRecursion (IsKeptReader parts) kept.old.items → reader ≡ Some (prefix_of parts path.now)
        → OnOk result (AllByRecursion (IsKeptReader parts) kept.new.items) }
{
    make_room(kept);
    let one = kept_reader(alloc, reader, path)?;
    kept.push(one)?;
    Ok(())
}

/// A reader that was fed what the path makes. It goes on from a kept one. On the way one is kept that was fed what the first `shared`
/// choices make.
fn read_on(
    alloc: Global,
    parts: &Parts<'_>,
    path: &[usize],
    shared: usize,
    kept: &mut Vec<KeptReader>,
) -> Result<WideReader, AllocError>
    requires path { IsPath parts.now path.now }
    requires few { length (prefix_of parts.now path.now) ≤ 2 ^ 63 - 1 }
    requires shared { shared ≤ length path.now }
    requires kept { AllByRecursion (IsKeptReader parts.now) kept.old.items }
    ensures reader { IfOk result (λ reader. reader ≡ Some (prefix_of parts.now path.now)) }
    ensures kept { OnOk result (AllByRecursion (IsKeptReader parts.now) kept.new.items) }
{
    let begun = take_begun(alloc, kept, path)?;
    if begun.choices >= shared {
        let reader = fed_on(begun, parts, path)?;
        return Ok(reader);
    }
    let (first, _) = path.split_at(shared);
    let reader = fed_on(begun, parts, first)?;
    keep_more(alloc, kept, reader.try_clone()?, first)?;
    let begun = BegunReader {
        reader,
        choices: shared,
    };
    let reader = fed_on(begun, parts, path)?;
    Ok(reader)
}

/// The readers that are kept at first: a clone of this one, if there is one.
fn begin_kept(alloc: Global, reader: &Option<KeptReader>) -> Result<Vec<KeptReader>, AllocError>
    ensures { (parts : List Part) → IfSome reader.now (IsKeptReader parts)
        → IfOk result (λ kept. AllByRecursion (IsKeptReader parts) kept.items) }
{
    let mut kept = Vec::new(alloc);
    let Some(first) = reader else {
        return Ok(kept);
    };
    let clone = first.reader.try_clone()?;
    let one = kept_reader(alloc, clone, &first.choices)?;
    kept.push(one)?;
    Ok(kept)
}

/// Adds the splices, in turn.
pub(crate) fn read_splices(
    alloc: Global,
    source: Option<u32>,
    before: FilesRead,
    files: &Files<'_, '_>,
) -> Result<FilesRead, AllocError>
    requires whole { AllByRecursion (IsWhole files.now.parts.now) (lists_of files.now.splices.now) }
    requires short { IsShort files.now.parts.now }
    requires reader { IfSome files.now.reader.now (IsKeptReader files.now.parts.now) }
    ensures { IfOk result (λ read. ReadsMore source (splices_found files.now) before read) }
{
    let mut read = before;
    let mut kept = begin_kept(alloc, files.reader)?;
    for number in 0..files.splices.len() {
        let path: &[usize] = &files.splices[number];
        let (_, later) = files.splices.split_at(number + 1);
        let shared = most_shared(path, later);
        let reader = read_on(alloc, files.parts, path, shared, &mut kept)?;
        makes_bytes(files.parts, path);
        read = read_file(alloc, source, read, reader)?;
    }
    Ok(read)
}
