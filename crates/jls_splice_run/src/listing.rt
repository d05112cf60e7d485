//! The files without a fault, completed by EOI, each once, with the names that they get.

ghost use Rattle.std.specs.Prelude.{◌≡◌, ◌↔◌, ◌++◌, ◌∷◌, [], ℕ, List, IfOk, OnOk, IsTrue};
ghost use Rattle.std.specs.List.{AllByRecursion};
ghost use Rattle.std.specs.String.{string_bytes};
ghost use Rattle.jls_diff.specs.PartsOf.{bytes_of, parts_of};
ghost use Rattle.jls_search.specs.Choices.{IsWhole};
ghost use Rattle.jls_search.specs.Search.{files_of, lists_of};
ghost use Rattle.jls_search.specs.Faultless.{IsFaultless};
ghost use Rattle.jls_search.specs.Files.{AreVerdicts, files_taken, splices_found};
ghost use Rattle.jls_splice_run.specs.Listing.{AreNamed, IsNumbered, is_named, named_files, numbered};

use crate::completing::completed;
use jls_search::{Files, file_of};
use std::alloc::{AllocError, Global};

/// How many files get a name at most.
pub(crate) const MOST_NAMED: usize = 64;

/// What names begin with, and how many files get one at most.
#[derive(Clone, Copy)]
pub(crate) struct Naming<'a> {
    pub(crate) prefix: &'a str,
    pub(crate) most: usize,
}

/// A file that gets a number, completed by EOI, and its name.
#[derive(Drop)]
pub struct NumberedFile {
    pub name: String,
    pub bytes: Vec<u8>,
}

/// The name of the output of a number.
pub(crate) fn numbered_name(alloc: Global, prefix: &str, number: u64) -> Result<String, AllocError>
    ensures { IfOk result (λ name. string_bytes name ≡ numbered prefix.now number) }
{
    format!(in alloc; "{prefix}-{number}")
}

/// Whether a name is one that an output with a number can have.
pub(crate) fn is_numbered(alloc: Global, prefix: &str, name: &str) -> Result<bool, AllocError>
    ensures { IfOk result (λ is. IsTrue is ↔ IsNumbered prefix.now name.now) }
{
    for number in 1..65 {
        let other = numbered_name(alloc, prefix, number)?;
        if *other == *name {
            return Ok(true);
        }
    }
    Ok(false)
}

/// Whether a file has a name already.
fn has_name(named: &[NumberedFile], file: &[u8]) -> bool
    ensures { result ≡ is_named (named_files named.now) file.now }
{
    for other in named {
        if *other.bytes == *file {
            return true;
        }
    }
    false
}

/// One file more, with the verdict on it. It is completed by EOI. It gets a name if it has no fault, and has none yet, and fewer than may
/// have one do.
fn name_file(
    alloc: Global,
    naming: Naming<'_>,
    named: &mut Vec<NumberedFile>,
    file: &[u8],
    faultless: bool,
) -> Result<(), AllocError>
    requires { IsTrue faultless ↔ IsFaultless file.now }
    ensures { OnOk result ((files : List (List ℕ)) → AreNamed naming.entry.most naming.entry.prefix.now files (named_files named.old.items)
        → AreNamed naming.entry.most naming.entry.prefix.now (files ++ file.now ∷ []) (named_files named.new.items)) }
{
    if named.len() >= naming.most {
        return Ok(());
    }
    if !faultless {
        return Ok(());
    }
    let bytes = completed(alloc, file)?;
    if has_name(named, &bytes) {
        return Ok(());
    }
    let name = numbered_name(alloc, naming.prefix, named.len() as u64 + 1)?;
    named.push(NumberedFile { name, bytes })?;
    Ok(())
}

/// The copies without a fault, by the verdict on each, completed by EOI.
fn name_copies(
    alloc: Global,
    naming: Naming<'_>,
    copies: &[&[u8]],
    verdicts: &[bool],
) -> Result<Vec<NumberedFile>, AllocError>
    requires { AreVerdicts (bytes_of copies.now) verdicts.now }
    ensures { IfOk result (λ named. AreNamed naming.entry.most naming.entry.prefix.now (bytes_of copies.now) (named_files named.items)) }
{
    let mut named = Vec::new(alloc);
    for place in 0..copies.len() {
        name_file(alloc, naming, &mut named, copies[place], verdicts[place])?;
    }
    Ok(named)
}

/// The splices without a fault, completed by EOI, after those that have a name. Each splice is made in memory for it, one at a time.
fn name_splices(
    alloc: Global,
    naming: Naming<'_>,
    named: &mut Vec<NumberedFile>,
    files: &Files<'_, '_>,
    verdicts: &[bool],
) -> Result<(), AllocError>
    requires whole { AllByRecursion (IsWhole files.now.parts.now) (lists_of files.now.splices.now) }
    requires verdicts { AreVerdicts (splices_found files.now) verdicts.now }
    ensures { OnOk result ((before : List (List ℕ))
        → AreNamed naming.entry.most naming.entry.prefix.now before (named_files named.old.items)
        → AreNamed naming.entry.most naming.entry.prefix.now (before ++ splices_found files.now) (named_files named.new.items)) }
{
    for place in 0..files.splices.len() {
        let file = file_of(alloc, files.parts, &files.splices[place])?;
        name_file(alloc, naming, named, &file, verdicts[place])?;
    }
    Ok(())
}

/// Of the files taken those without a fault, by the verdict on each, completed by EOI: each once, until so many have a name.
pub(crate) fn name_files(
    alloc: Global,
    naming: Naming<'_>,
    files: &Files<'_, '_>,
    verdicts: &[bool],
) -> Result<Vec<NumberedFile>, AllocError>
    requires whole { AllByRecursion (IsWhole files.now.parts.now) (lists_of files.now.splices.now) }
    requires verdicts { AreVerdicts (files_taken files.now) verdicts.now }
    ensures { IfOk result (λ named. AreNamed naming.entry.most naming.entry.prefix.now (files_taken files.now) (named_files named.items)) }
{
    let (of_copies, of_splices) = verdicts.split_at(files.copies.len());
    let mut named = name_copies(alloc, naming, files.copies, of_copies)?;
    name_splices(alloc, naming, &mut named, files, of_splices)?;
    Ok(named)
}
