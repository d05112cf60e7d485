//! The mended files that are handed out: the single one, and those that have numbers. Each is completed by EOI.

ghost use Rattle.std.specs.Prelude.{◌≡◌, true, false, IfOk, None, map, option_map};
ghost use Rattle.std.specs.Prelude.{if◌then◌else◌};
ghost use Rattle.std.specs.List.{AllByRecursion};
ghost use Rattle.jls_diff.specs.PartsOf.{bytes_of, parts_of};
ghost use Rattle.jls_held.specs.Mending.{file_of};
ghost use Rattle.jls_search.specs.Choices.{IsWhole};
ghost use Rattle.jls_search.specs.Search.{lists_of};
ghost use Rattle.jls_search.specs.Files.{AreVerdicts, files_taken};
ghost use Rattle.jls_splice_run.specs.Carrying as spec;
ghost use Rattle.jls_splice_run.specs.Files.{is_eoi_added as added};
ghost use Rattle.jls_splice_run.specs.Listing.{AreCompleted, AreNamedAsked, named_files};
ghost use Rattle.jls_splice_run.specs.Completing.{IsCompletedIn};

use crate::beside::mended_slices;
use crate::completing::{completed, completed_in};
use crate::files::is_eoi_added;
use crate::found::Promise;
use crate::listing::{MOST_NAMED, NumberedFile, numbered_name};
use crate::made::files_asked;
use jls_held::MendedCopy;
use jls_search::Files;
use std::alloc::{AllocError, Global};

/// The mended file of the first coding, if the picture is promised and a name is given for it.
fn carried_file(
    alloc: Global,
    name: Option<&str>,
    promise: Promise,
    files: &[MendedCopy],
) -> Result<Option<Vec<u8>>, AllocError>
    ensures { IfOk result (λ file. option_map (λ f. f.items) file ≡ spec.carried_file name.entry promise (map file_of files.now)) }
{
    if name.is_none() || promise != Promise::Held {
        return Ok(None);
    }
    match files.first() {
        Some(file) => {
            let bytes = Vec::from_slice(alloc, &file.bytes)?;
            Ok(Some(bytes))
        }
        None => Ok(None),
    }
}

/// The single file, completed by EOI, if a name is given for it: the mended file of the first coding, if the picture is promised. There is
/// none if a file taken may have no fault.
pub(crate) fn single_file(
    alloc: Global,
    name: Option<&str>,
    promise: Promise,
    mended: &[MendedCopy],
    is_alone: bool,
) -> Result<Option<Vec<u8>>, AllocError>
    ensures mended { is_alone ≡ true → IfOk result (λ file.
        IsCompletedIn (spec.carried_file name.entry promise (map file_of mended.now)) (option_map (λ f. f.items) file)) }
    ensures none { is_alone ≡ false → IfOk result (λ file. option_map (λ f. f.items) file ≡ None) }
{
    if !is_alone {
        return Ok(None);
    }
    let file = carried_file(alloc, name, promise, mended)?;
    completed_in(alloc, file)
}

/// The mended files with their names, completed by EOI, if what these begin with is given.
fn carried_files(
    alloc: Global,
    prefix: Option<&str>,
    files: &[MendedCopy],
) -> Result<Vec<NumberedFile>, AllocError>
    ensures { IfOk result (λ named.
        AreCompleted (spec.carried_files (option_map (λ s. s.now) prefix.entry) (map file_of files.now)) (named_files named.items)) }
{
    let mut named = Vec::new(alloc);
    let Some(prefix) = prefix else {
        return Ok(named);
    };
    for place in 0..MOST_NAMED.min(files.len()) {
        let name = numbered_name(alloc, prefix, place as u64 + 1)?;
        let bytes = completed(alloc, &files[place].bytes)?;
        named.push(NumberedFile { name, bytes })?;
    }
    Ok(named)
}

/// The files that have numbers, with their names. These are the mended files. If a file taken may have no fault, they are those of these
/// files that have none.
pub(crate) fn numbered_files(
    alloc: Global,
    prefix: Option<&str>,
    files: &Files<'_, '_>,
    verdicts: &[bool],
    mended: &[MendedCopy],
    is_alone: bool,
) -> Result<Vec<NumberedFile>, AllocError>
    requires whole { AllByRecursion (IsWhole files.now.parts.now) (lists_of files.now.splices.now) }
    requires verdicts { AreVerdicts (files_taken files.now) verdicts.now }
    ensures mended { is_alone ≡ true → IfOk result (λ named.
        AreCompleted (spec.carried_files (option_map (λ s. s.now) prefix.entry) (map file_of mended.now)) (named_files named.items)) }
    ensures taken { is_alone ≡ false → IfOk result (λ named.
        AreNamedAsked (option_map (λ s. s.now) prefix.entry) (files_taken files.now) (named_files named.items)) }
{
    if is_alone {
        carried_files(alloc, prefix, mended)
    } else {
        files_asked(alloc, prefix, files, verdicts)
    }
}

/// Whether EOI was added to the single file or to one that has a number: no mended file has its bytes.
fn is_eoi_added_to_mended(
    alloc: Global,
    files: &Files<'_, '_>,
    mended: &[MendedCopy],
    single: &Option<Vec<u8>>,
    numbered: &[NumberedFile],
) -> Result<bool, AllocError>
    ensures { IfOk result (λ is. is ≡ added (map (λ f. f.bytes) (map file_of mended.now)) (option_map (λ f. f.items) single.now)
        (named_files numbered.now)) }
{
    let slices = mended_slices(alloc, mended)?;
    let alone = Files {
        copies: &slices,
        parts: files.parts,
        splices: &[],
        reader: files.reader,
    };
    is_eoi_added(alloc, &alone, single, numbered)
}

/// Whether EOI was added to the single file or to one that has a number. Then no file of which they were made has its bytes. These are the
/// mended files, or these files if a file taken may have no fault.
pub(crate) fn is_eoi_added_to_handed(
    alloc: Global,
    files: &Files<'_, '_>,
    mended: &[MendedCopy],
    is_alone: bool,
    single: &Option<Vec<u8>>,
    numbered: &[NumberedFile],
) -> Result<bool, AllocError>
    requires { AllByRecursion (IsWhole files.now.parts.now) (lists_of files.now.splices.now) }
    ensures { IfOk result (λ is. is ≡ added
        (if is_alone then map (λ f. f.bytes) (map file_of mended.now) else files_taken files.now)
        (option_map (λ f. f.items) single.now) (named_files numbered.now)) }
{
    if is_alone {
        is_eoi_added_to_mended(alloc, files, mended, single, numbered)
    } else {
        is_eoi_added(alloc, files, single, numbered)
    }
}
