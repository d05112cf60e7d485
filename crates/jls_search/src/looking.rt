//! What is seen of a path of the search.

ghost use Rattle.std.specs.Prelude.{◌≡◌, ℕ, List, Option, Some, ◌-◌, ◌^◌, ◌<◌, ◌≤◌, length, IfOk, IfSome};
ghost use Rattle.jls_diff.specs.Groups.{IsInside};
ghost use Rattle.jls_diff.specs.Parts.{Part as SpecPart};
ghost use Rattle.jls_diff.specs.PartsOf.{parts_of};
ghost use Rattle.jls_search.specs.Choices.{IsPath, prefix_of};
ghost use Rattle.jls_search.specs.Goals.{IsGoal, IsSeenFor};
ghost use Rattle.jls_search.specs.Search.{AreKept, IsKeptReader};
ghost use Rattle.jls_search.specs.OfGroups.{IsSetting};
ghost use Rattle.jls_search.specs.Tried.{IsStop};
ghost use Rattle.jls_search.specs.declared.setting.Goal.TheVariants.{Whole, Group as ForGroup};

use crate::ceiling::is_above;
use crate::faultless::{is_dead, is_sought};
use crate::kept::{Judge, nearest, reader_on};
use crate::living::living_on;
use crate::offsets::border_offset;
use crate::reading_between::is_read_between;
use crate::reading_group::reads_in_group;
use crate::setting::{Goal, Setting};
use jls_copy::WideReader;
use jls_diff::Parts;
use std::alloc::{AllocError, Global};

/// What is seen of a path.
#[derive(Drop)]
pub(crate) enum PathVerdict {
    /// No choices that begin so are tried: none of them makes a file that is sought, or those that do are passed by.
    Dead,
    /// Such choices may come. The reader was fed what the path makes. There is none where its copy has ended.
    Open(Option<WideReader>),
    /// The path has a choice for each part, and makes a file that is sought. The first whole file comes with a reader that was fed it.
    Found(Option<WideReader>),
}

/// A clone of the reader, if no reader is kept of a file that was found before.
fn clone_first(judge: &Judge, reader: &WideReader) -> Result<Option<WideReader>, AllocError>
    ensures { IfOk result (λ found. IfSome found (λ clone. clone ≡ reader.now)) }
{
    if judge.found.is_some() {
        return Ok(None);
    }
    let clone = reader.try_clone()?;
    Ok(Some(clone))
}

/// What a search of whole files sees of a path that has a choice for each part. The reader was fed what it makes.
fn look_at_file(judge: &Judge, reader: WideReader) -> Result<PathVerdict, AllocError>
    ensures { (parts : List SpecPart) (path : List ℕ) → length path ≡ length parts → reader ≡ Some (prefix_of parts path)
        → IfOk result (λ sight. IsSeenFor judge.now.ceiling parts Whole path sight) }
{
    let found = clone_first(judge, &reader)?;
    let sought = is_sought(judge.ceiling, reader)?;
    if sought {
        return Ok(PathVerdict::Found(found));
    }
    Ok(PathVerdict::Dead)
}

/// What a search of whole files sees of a path that goes up to a part. The reader was fed what it makes.
fn look_at_prefix(judge: &Judge, reader: WideReader) -> Result<PathVerdict, AllocError>
    ensures { (parts : List SpecPart) (path : List ℕ) → IsPath parts path → length path < length parts
        → reader ≡ Some (prefix_of parts path) → IfOk result (λ sight. IsSeenFor judge.now.ceiling parts Whole path sight) }
{
    let above = is_above(judge.ceiling, &reader)?;
    if above {
        return Ok(PathVerdict::Dead);
    }
    let goes_on = !reader.has_faulty_piece() && !reader.is_piece_broken() && !reader.is_done();
    if goes_on {
        return Ok(PathVerdict::Open(Some(reader)));
    }
    let dead = is_dead(reader)?;
    if dead {
        return Ok(PathVerdict::Dead);
    }
    Ok(PathVerdict::Open(None))
}

/// What a search of whole files sees of a path.
fn look_for_whole(
    alloc: Global,
    parts: &Parts<'_>,
    judge: &Judge,
    path: &[usize],
) -> Result<PathVerdict, AllocError>
    requires kept { IfSome judge.now.kept (IsKeptReader parts.now) }
    requires path { IsPath parts.now path.now }
    requires few { length (prefix_of parts.now path.now) ≤ 2 ^ 63 - 1 }
    ensures { IfOk result (λ sight. IsSeenFor judge.now.ceiling parts.now Whole path.now sight) }
{
    let Some(reader) = living_on(alloc, parts, &judge.kept, path)? else {
        return Ok(PathVerdict::Dead);
    };
    if path.len() < parts.len() {
        look_at_prefix(judge, reader)
    } else {
        look_at_file(judge, reader)
    }
}

/// What a search of a group sees of a path that goes up to a part of the group. The reader was fed what it makes. The path is dead where
/// the piece in hand begins in the group, or the group begins in it, and it is broken. It is dead too where the file is at its end, and
/// reads no more.
fn look_at_prefix_in_group(
    parts: &Parts<'_>,
    setting: Setting,
    path: &[usize],
    reader: WideReader,
) -> Result<PathVerdict, AllocError>
    requires setting { IsSetting parts.now setting }
    requires path { IsPath parts.now path.now }
    requires more { length path.now < length parts.now }
    requires stop { IsInside setting.group (length path.now) }
    requires fed { reader ≡ Some (prefix_of parts.now path.now) }
    ensures { (ceiling : Option ℕ) → IfOk result (λ sight. IsSeenFor ceiling parts.now (ForGroup setting) path.now sight) }
{
    if path.len() <= setting.group.begin.part {
        if reader.is_done() {
            return Ok(PathVerdict::Dead);
        }
        return Ok(PathVerdict::Open(Some(reader)));
    }
    if reader.is_piece_broken() {
        return Ok(PathVerdict::Dead);
    }
    if !reader.is_done() {
        return Ok(PathVerdict::Open(Some(reader)));
    }
    let reads = is_read_between(
        reader,
        border_offset(parts, path, setting.group.begin),
        None,
    )?;
    if reads {
        return Ok(PathVerdict::Open(None));
    }
    Ok(PathVerdict::Dead)
}

/// Feeds what the path makes to a reader, and tells what is seen. The kept reader saves it the bytes of its own choices.
pub(crate) fn judge_path(
    alloc: Global,
    parts: &Parts<'_>,
    goal: Goal,
    judge: &Judge,
    path: &[usize],
) -> Result<PathVerdict, AllocError>
    requires goal { IsGoal parts.now goal }
    requires kept { AreKept parts.now judge.now }
    requires path { IsPath parts.now path.now }
    requires stop { IsStop parts.now goal path.now }
    requires few { length (prefix_of parts.now path.now) ≤ 2 ^ 63 - 1 }
    ensures { IfOk result (λ sight. IsSeenFor judge.now.ceiling parts.now goal path.now sight) }
{
    match goal {
        Goal::Whole => look_for_whole(alloc, parts, judge, path),
        Goal::Group(setting) => {
            let kept = nearest(judge, path);
            if path.len() < parts.len() {
                let reader = reader_on(alloc, parts, kept, path)?;
                return look_at_prefix_in_group(parts, setting, path, reader);
            }
            let reads = reads_in_group(alloc, parts, setting.group, kept, path)?;
            if reads {
                return Ok(PathVerdict::Found(None));
            }
            Ok(PathVerdict::Dead)
        }
    }
}
