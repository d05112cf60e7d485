//! Whether mended files read as the lines that are held.

ghost use Rattle.std.specs.Prelude.{◌≡◌, ℕ, List, ◌<◌, true, length, map, IfOk};
ghost use Rattle.std.specs.List.{AllByRecursion};
ghost use Rattle.jls_marker.specs.declared.profile.Profile.TheVariants.{Wide};
ghost use Rattle.jls_copy.specs.CopyReads.{CopyReadsUnder};
ghost use Rattle.jls_held.specs.Mending.{file_of};
ghost use Rattle.jls_splice_run.specs.ReadsAs.{EachReadsAs, HaveComponentAlike, HaveLineAlike, HaveSameSize, ReadsAs};

use jls_copy::{CopyFault, CopyRead, WideReader};
use jls_held::MendedCopy;
use jls_partial::Partial;
use jls_search::is_read_faultless;
use jls_values::Shape;
use std::alloc::{AllocError, Global};

/// Whether both have one reading of a line, the same one.
fn have_line_alike(read: &Partial, picture: &Partial, component: u8, line: u16) -> bool
    requires component_read { component < length read.now.shape.ids }
    requires component_in { component < length picture.now.shape.ids }
    requires line_read { line < read.now.shape.height }
    requires line_in { line < picture.now.shape.height }
    ensures { result ≡ true → HaveLineAlike read.now picture.now component line }
{
    if read.count(component, line) != 1 || picture.count(component, line) != 1 {
        return false;
    }
    read.reading(component, line, 0) == picture.reading(component, line, 0)
}

/// Whether both have one reading of each line of a component, the same one.
fn have_component_alike(read: &Partial, picture: &Partial, component: u8) -> bool
    requires component_read { component < length read.now.shape.ids }
    requires component_in { component < length picture.now.shape.ids }
    requires height { read.now.shape.height ≡ picture.now.shape.height }
    ensures { result ≡ true → HaveComponentAlike read.now picture.now component }
{
    for line in 0..picture.shape().height() {
        let alike = have_line_alike(read, picture, component, line);
        if !alike {
            return false;
        }
    }
    true
}

/// Whether both have one reading of each line of each component, the same one.
fn have_all_alike(read: &Partial, picture: &Partial) -> bool
    requires height { read.now.shape.height ≡ picture.now.shape.height }
    requires components { length read.now.shape.ids ≡ length picture.now.shape.ids }
    ensures { result ≡ true → (component : ℕ) → component < length picture.now.shape.ids
        → HaveComponentAlike read.now picture.now component }
{
    for component in 0..picture.shape().ids().len() as u8 {
        let alike = have_component_alike(read, picture, component);
        if !alike {
            return false;
        }
    }
    true
}

/// Whether the shapes have the same width and height, and as many components.
fn have_same_size(read: &Shape, picture: &Shape) -> bool
    ensures { result ≡ true → HaveSameSize read.now picture.now }
{
    if read.width() != picture.width() || read.height() != picture.height() {
        return false;
    }
    read.ids().len() == picture.ids().len()
}

/// Whether both are one picture: they have one size, and of each line one reading, the same one.
pub(crate) fn are_one_picture(one: &Partial, other: &Partial) -> bool {
    let sized = have_same_size(one.shape(), other.shape());
    if !sized {
        return false;
    }
    have_all_alike(one, other)
}

/// Whether a file of which this was read has no fault, and gives each line of the picture, and no other.
fn is_read_as(read: &CopyRead, picture: &Partial) -> bool
    ensures { result ≡ true → (file : List ℕ) → CopyReadsUnder Wide file read.now
        → AllByRecursion (λ b. b < 256) file → ReadsAs picture.now file }
{
    let faultless = is_read_faultless(read);
    if !faultless {
        return false;
    }
    let sized = have_same_size(read.partial().shape(), picture.shape());
    if !sized {
        return false;
    }
    have_all_alike(read.partial(), picture)
}

/// Whether a file has no fault, and gives each line of the picture, and no other. `Err` comes where memory is refused.
fn reads_as(alloc: Global, file: &[u8], picture: &Partial) -> Result<bool, AllocError>
    ensures { IfOk result (λ reads. reads ≡ true → ReadsAs picture.now file.now) }
{
    let mut reader = WideReader::new(alloc);
    reader.feed(file)?;
    match reader.finish() {
        Ok(read) => Ok(is_read_as(&read, picture)),
        Err(CopyFault::NoPicture(_, _)) => Ok(false),
        Err(CopyFault::OutOfMemory) => Err(AllocError),
    }
}

/// Whether each mended file reads so. `Err` comes where memory is refused.
pub(crate) fn each_reads_as(
    alloc: Global,
    files: &[MendedCopy],
    picture: &Partial,
) -> Result<bool, AllocError>
    ensures { IfOk result (λ all. all ≡ true → EachReadsAs picture.now (map file_of files.now)) }
{
    for file in files {
        let reads = reads_as(alloc, &file.bytes, picture)?;
        if !reads {
            return Ok(false);
        }
    }
    Ok(true)
}
