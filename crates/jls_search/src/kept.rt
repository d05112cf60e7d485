//! The readers that a search keeps, and readers that go on from them.

ghost use Rattle.std.specs.Prelude.{◌≡◌, List, ◌-◌, ◌^◌, ◌≤◌, length, Some, IfOk, IfSome, OnOk};
ghost use Rattle.jls_diff.specs.Parts.{Part};
ghost use Rattle.jls_diff.specs.PartsOf.{parts_of};
ghost use Rattle.jls_search.specs.Choices.{IsPath, prefix_of};
ghost use Rattle.jls_search.specs.Search.{AreKept, IsBegunOn, IsKeptReader, Keeps};

use crate::early::{Until, feed_path_until};
use crate::setting::Goal;
use jls_copy::WideReader;
use jls_diff::Parts;
use std::alloc::{AllocError, Global};

/// A reader that a search keeps, with the choices that it was fed.
#[derive(Drop)]
pub struct KeptReader {
    /// The reader. It was fed what the choices make.
    pub reader: WideReader,
    /// A choice for each of the first parts.
    pub choices: Vec<usize>,
}

/// What a search judges paths by. A path that begins with the choices of a reader is read from there on, and not from its first byte.
#[derive(Drop)]
pub struct Judge {
    /// The greatest sample that a whole file may have that is sought, if there is a ceiling.
    pub ceiling: Option<u16>,
    /// In a search of a group: the reader of the last open path up to the part where the group begins. A search of whole files fills it
    /// never.
    pub begin: Option<KeptReader>,
    /// The reader of the last path that was left open. In a search of a group it goes into it.
    pub kept: Option<KeptReader>,
    /// The reader of the first whole file that was found. It was fed all of it.
    pub found: Option<KeptReader>,
}

/// A reader that was fed what the first choices of a path make.
#[derive(Drop)]
pub(crate) struct BegunReader {
    /// The reader.
    pub(crate) reader: WideReader,
    /// How many choices these are.
    pub(crate) choices: usize,
}

/// A reader to go on from along the path: a clone of this one, if its choices begin the path, and else a new one.
pub(crate) fn begun_from(
    alloc: Global,
    last: &KeptReader,
    path: &[usize],
) -> Result<BegunReader, AllocError>
    ensures { (parts : List Part) → IsKeptReader parts last.now → IfOk result (IsBegunOn parts path.now) }
{
    if path.starts_with(&last.choices) {
        let choices = last.choices.len();
        let reader = last.reader.try_clone()?;
        return Ok(BegunReader { reader, choices });
    }
    Ok(BegunReader {
        reader: WideReader::new(alloc),
        choices: 0,
    })
}

/// A reader to go on from along the path: from the kept one as `begun_from` does, or a new one if none is kept.
pub(crate) fn begun_on(
    alloc: Global,
    kept: &Option<KeptReader>,
    path: &[usize],
) -> Result<BegunReader, AllocError>
    ensures { (parts : List Part) → IfSome kept.now (IsKeptReader parts) → IfOk result (IsBegunOn parts path.now) }
{
    match kept {
        Some(last) => begun_from(alloc, last, path),
        None => Ok(BegunReader {
            reader: WideReader::new(alloc),
            choices: 0,
        }),
    }
}

/// A reader that was fed what the path makes. It goes on from one that was fed what the first choices make.
pub(crate) fn fed_on(
    begun: BegunReader,
    parts: &Parts<'_>,
    path: &[usize],
) -> Result<WideReader, AllocError>
    requires begun { IsBegunOn parts.now path.now begun }
    requires path { IsPath parts.now path.now }
    requires few { length (prefix_of parts.now path.now) ≤ 2 ^ 63 - 1 }
    ensures { IfOk result (λ reader. reader ≡ Some (prefix_of parts.now path.now)) }
{
    let BegunReader {
        mut reader,
        choices,
    } = begun;
    feed_path_until(&mut reader, parts, path, choices, Until::End)?;
    Ok(reader)
}

/// A reader that was fed what the path makes. If the choices of the kept reader begin the path, only the bytes after them are read.
pub(crate) fn reader_on(
    alloc: Global,
    parts: &Parts<'_>,
    kept: &Option<KeptReader>,
    path: &[usize],
) -> Result<WideReader, AllocError>
    requires kept { IfSome kept.now (IsKeptReader parts.now) }
    requires path { IsPath parts.now path.now }
    requires few { length (prefix_of parts.now path.now) ≤ 2 ^ 63 - 1 }
    ensures { IfOk result (λ reader. reader ≡ Some (prefix_of parts.now path.now)) }
{
    let begun = begun_on(alloc, kept, path)?;
    fed_on(begun, parts, path)
}

/// A reader with the path that it was fed.
pub(crate) fn kept_reader(
    alloc: Global,
    reader: WideReader,
    path: &[usize],
) -> Result<KeptReader, AllocError>
    ensures { IfOk result (λ kept. (kept.reader ≡ reader) × (kept.choices.items ≡ path.now)) }
{
    let choices: Vec<usize> = path.iter().copied().collect(alloc)?;
    Ok(KeptReader { reader, choices })
}

/// Keeps a reader that was fed what the path makes, if there is one. The reader that was kept before is let go.
pub(crate) fn keep(
    alloc: Global,
    kept: &mut Option<KeptReader>,
    reader: Option<WideReader>,
    path: &[usize],
) -> Result<(), AllocError>
    ensures { OnOk result (Keeps kept.old reader path.now kept.new) }
{
    if let Some(reader) = reader {
        *kept = Some(kept_reader(alloc, reader, path)?);
    }
    Ok(())
}

/// The reader from which to go on along the path.
pub(crate) fn nearest<'a>(judge: &'a Judge, path: &[usize]) -> &'a Option<KeptReader>
    ensures { (parts : List Part) → AreKept parts judge.now → IfSome result.now (IsKeptReader parts) }
{
    if let Some(kept) = &judge.kept {
        if path.starts_with(&kept.choices) {
            return &judge.kept;
        }
    }
    &judge.begin
}

/// Keeps a reader that was fed what the path makes, if there is one. The path was left open.
pub(crate) fn keep_open(
    alloc: Global,
    judge: &mut Judge,
    goal: Goal,
    reader: Option<WideReader>,
    path: &[usize],
) -> Result<(), AllocError>
    ensures kept { (parts : List Part) → AreKept parts judge.old
        → IfSome reader (λ fed. fed ≡ Some (prefix_of parts path.now)) → OnOk result (AreKept parts judge.new) }
    ensures found { judge.new.found ≡ judge.old.found }
    ensures ceiling { judge.new.ceiling ≡ judge.old.ceiling }
{
    let is_before = match goal {
        Goal::Whole => false,
        Goal::Group(setting) => path.len().saturating_sub(1) <= setting.group.begin.part,
    };
    if is_before {
        keep(alloc, &mut judge.begin, reader, path)
    } else {
        keep(alloc, &mut judge.kept, reader, path)
    }
}
