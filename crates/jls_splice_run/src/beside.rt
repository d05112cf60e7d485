//! The files of which those with numbers are made, where a file taken may be without a fault.

ghost use Rattle.std.specs.Prelude.{◌≡◌, ◌++◌, true, IfOk, length, map, replicate};
ghost use Rattle.jls_diff.specs.PartsOf.{bytes_of};
ghost use Rattle.jls_held.specs.Mending.{file_of};
ghost use Rattle.jls_splice_run.specs.Carrying.{files_beside, verdicts_beside};

use crate::found::Promise;
use jls_held::MendedCopy;
use std::alloc::{AllocError, Global};

/// The copies, and the mended files before them if the picture is promised. With them come the verdicts on all files taken.
#[derive(Drop)]
pub(crate) struct Beside<'m> {
    pub(crate) copies: Vec<&'m [u8]>,
    /// Whether each of them has no fault, and then each splice.
    pub(crate) verdicts: Vec<bool>,
}

/// The bytes of the mended files.
pub(crate) fn mended_slices<'m>(
    alloc: Global,
    mended: &'m [MendedCopy],
) -> Result<Vec<&'m [u8]>, AllocError>
    ensures { IfOk result (λ slices. bytes_of slices.items ≡ map (λ f. f.bytes) (map file_of mended.now)) }
{
    let mut slices: Vec<&[u8]> = Vec::new(alloc);
    for file in mended {
        slices.push(&file.bytes)?;
    }
    Ok(slices)
}

/// The same verdict on each mended file: it has no fault.
fn no_faults(alloc: Global, mended: &[MendedCopy]) -> Result<Vec<bool>, AllocError>
    ensures { IfOk result (λ verdicts. verdicts.items ≡ replicate (length mended.now) true) }
{
    let mut verdicts = Vec::new(alloc);
    for _ in mended {
        verdicts.push(true)?;
    }
    Ok(verdicts)
}

/// The mended files before the copies, with the verdict on each.
fn with_mended<'m>(
    alloc: Global,
    mended: &'m [MendedCopy],
    copies: &[&'m [u8]],
    verdicts: &[bool],
) -> Result<Beside<'m>, AllocError>
    ensures copies { IfOk result (λ b.
        bytes_of b.copies.items ≡ map (λ f. f.bytes) (map file_of mended.now) ++ bytes_of copies.now) }
    ensures verdicts { IfOk result (λ b. b.verdicts.items ≡ replicate (length mended.now) true ++ verdicts.now) }
{
    let mut slices = mended_slices(alloc, mended)?;
    slices.extend_from_slice(copies)?;
    let mut all = no_faults(alloc, mended)?;
    all.extend_from_slice(verdicts)?;
    Ok(Beside {
        copies: slices,
        verdicts: all,
    })
}

/// The copies, and before them the mended files if the picture is promised. The verdicts are on the copies and then on the splices.
pub(crate) fn put_beside<'m>(
    alloc: Global,
    mended: &'m [MendedCopy],
    copies: &[&'m [u8]],
    verdicts: &[bool],
    promise: Promise,
) -> Result<Beside<'m>, AllocError>
    ensures copies { IfOk result (λ b.
        bytes_of b.copies.items ≡ files_beside promise (map file_of mended.now) (bytes_of copies.now)) }
    ensures verdicts { IfOk result (λ b. b.verdicts.items ≡ verdicts_beside promise (map file_of mended.now) verdicts.now) }
{
    match promise {
        Promise::Held => with_mended(alloc, mended, copies, verdicts),
        Promise::Picture(_) | Promise::Lines => Ok(Beside {
            copies: Vec::from_slice(alloc, copies)?,
            verdicts: Vec::from_slice(alloc, verdicts)?,
        }),
    }
}
