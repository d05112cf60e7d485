//! The single file without a fault, completed by EOI.

ghost use Rattle.std.specs.Prelude.{IfOk, option_map};
ghost use Rattle.std.specs.List.{AllByRecursion};
ghost use Rattle.jls_diff.specs.PartsOf.{parts_of};
ghost use Rattle.jls_search.specs.Choices.{IsWhole};
ghost use Rattle.jls_search.specs.Search.{lists_of};
ghost use Rattle.jls_search.specs.Files.{AreVerdicts, files_taken};
ghost use Rattle.jls_splice_run.specs.Single.{IsSingle};

use crate::listing::{Naming, NumberedFile, name_files};
use jls_search::Files;
use std::alloc::{AllocError, Global};

/// How many files are listed for it: where there are two, none is the single one. Their names are not used.
const LISTED: Naming<'static> = Naming {
    prefix: "",
    most: 2,
};

/// The bytes of the file without a fault, completed by EOI, where exactly one of the files taken has none, by the verdict on each. Files
/// that are equal when they are completed are one.
pub(crate) fn single_file(
    alloc: Global,
    files: &Files<'_, '_>,
    verdicts: &[bool],
) -> Result<Option<Vec<u8>>, AllocError>
    requires whole { AllByRecursion (IsWhole files.now.parts.now) (lists_of files.now.splices.now) }
    requires verdicts { AreVerdicts (files_taken files.now) verdicts.now }
    ensures { IfOk result (λ single. IsSingle (files_taken files.now) (option_map (λ file. file.items) single)) }
{
    let mut listed = name_files(alloc, LISTED, files, verdicts)?;
    if listed.len() > 1 {
        return Ok(None);
    }
    match listed.pop() {
        Some(file) => {
            let NumberedFile { bytes, .. } = file;
            Ok(Some(bytes))
        }
        None => Ok(None),
    }
}
