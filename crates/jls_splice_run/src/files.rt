//! How many of the files that a search found are no copies; and whether others have bytes that none of them has.

ghost use Rattle.std.specs.Prelude.{◌≡◌, ◌^◌, ◌≤◌, ◌<◌, length, IfOk, map, option_map};
ghost use Rattle.std.specs.List.{AllByRecursion};
ghost use Rattle.jls_diff.specs.PartsOf.{bytes_of, parts_of};
ghost use Rattle.jls_search.specs.Choices.{IsWhole};
ghost use Rattle.jls_search.specs.Files.{files_taken};
ghost use Rattle.jls_search.specs.Search.{files_of, lists_of};
ghost use Rattle.jls_splice_run.specs.Files as spec;
ghost use Rattle.jls_splice_run.specs.Listing.{named_files};

use crate::listing::NumberedFile;
use jls_diff::Parts;
use jls_search::{Files, file_of};
use std::alloc::{AllocError, Global};

/// Whether a file has the bytes of a copy.
fn is_copy(copies: &[&[u8]], file: &[u8]) -> bool
    ensures { result ≡ spec.is_copy (bytes_of copies.now) file.now }
{
    for copy in copies {
        if **copy == *file {
            return true;
        }
    }
    false
}

/// How many of the splices that were found are no copies. Each is made in memory for it, one at a time.
pub(crate) fn count_new(
    alloc: Global,
    copies: &[&[u8]],
    parts: &Parts<'_>,
    splices: &[Vec<usize>],
) -> Result<usize, AllocError>
    requires { AllByRecursion (IsWhole parts.now) (lists_of splices.now) }
    ensures { IfOk result (λ count.
        count ≡ spec.count_new (bytes_of copies.now) (files_of parts.now (lists_of splices.now))) }
{
    let mut count = 0;
    for choices in splices {
        let file = file_of(alloc, parts, choices)?;
        if !is_copy(copies, &file) {
            count += 1;
        }
    }
    Ok(count)
}

/// Whether one of the files taken has these bytes. Each splice is made in memory for it, one at a time.
fn is_taken(alloc: Global, files: &Files<'_, '_>, file: &[u8]) -> Result<bool, AllocError>
    requires { AllByRecursion (IsWhole files.now.parts.now) (lists_of files.now.splices.now) }
    ensures { IfOk result (λ is. is ≡ spec.is_copy (files_taken files.now) file.now) }
{
    if is_copy(files.copies, file) {
        return Ok(true);
    }
    for place in 0..files.splices.len() {
        let made = file_of(alloc, files.parts, &files.splices[place])?;
        if *made == *file {
            return Ok(true);
        }
    }
    Ok(false)
}

/// Whether there is a file, and none of the files taken has its bytes.
fn is_new(alloc: Global, files: &Files<'_, '_>, file: &Option<Vec<u8>>) -> Result<bool, AllocError>
    requires { AllByRecursion (IsWhole files.now.parts.now) (lists_of files.now.splices.now) }
    ensures { IfOk result (λ is. is ≡ spec.has_new (files_taken files.now) (spec.in_list (option_map (λ f. f.items) file.now))) }
{
    match file {
        Some(file) => {
            let taken = is_taken(alloc, files, file)?;
            Ok(!taken)
        }
        None => Ok(false),
    }
}

/// Whether some of these files have bytes that none of the files taken has.
fn has_new(
    alloc: Global,
    files: &Files<'_, '_>,
    numbered: &[NumberedFile],
) -> Result<bool, AllocError>
    requires { AllByRecursion (IsWhole files.now.parts.now) (lists_of files.now.splices.now) }
    ensures { IfOk result (λ has. has ≡ spec.has_new (files_taken files.now) (map (λ f. f.bytes) (named_files numbered.now))) }
{
    for file in numbered {
        let taken = is_taken(alloc, files, &file.bytes)?;
        if !taken {
            return Ok(true);
        }
    }
    Ok(false)
}

/// Whether EOI was added to the single file or to one that has a number: none of the files taken has its bytes.
pub(crate) fn is_eoi_added(
    alloc: Global,
    files: &Files<'_, '_>,
    single: &Option<Vec<u8>>,
    numbered: &[NumberedFile],
) -> Result<bool, AllocError>
    requires { AllByRecursion (IsWhole files.now.parts.now) (lists_of files.now.splices.now) }
    ensures { IfOk result (λ is. is ≡ spec.is_eoi_added (files_taken files.now) (option_map (λ f. f.items) single.now)
        (named_files numbered.now)) }
{
    let is_single_new = is_new(alloc, files, single)?;
    if is_single_new {
        return Ok(true);
    }
    has_new(alloc, files, numbered)
}
