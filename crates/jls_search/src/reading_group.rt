//! Whether files read in a group. They are fed until that is told, if it is told early.

ghost use Rattle.std.specs.Prelude.{◌≡◌, ◌-◌, ◌^◌, ◌<◌, ◌≤◌, true, false, length, Some, IfOk, IfSome};
ghost use Rattle.std.specs.List.{AllByRecursion};
ghost use Rattle.jls_diff.specs.Groups.{IsGroup};
ghost use Rattle.jls_diff.specs.PartsOf.{parts_of};
ghost use Rattle.jls_search.specs.Choices.{IsPath, prefix_of};
ghost use Rattle.jls_search.specs.OfGroups.{HasManyFaults, ReadsInGroup};
ghost use Rattle.jls_search.specs.ReadsBetween.{ReadsBetween};
ghost use Rattle.jls_search.specs.Search.{IsBegunOn, IsKeptReader};

use crate::early::{Until, feed_path_until};
use crate::kept::{BegunReader, KeptReader, begun_on, reader_on};
use crate::offsets::{border_offset, end_offset};
use crate::reading_between::{is_read_between, told_by};
use jls_copy::{every_copy_has_a_course_under, prefixes_settle_pieces_under};
use jls_diff::{Group, Parts};
use std::alloc::{AllocError, Global};

/// What a choice takes of a part is bytes.
fn are_bytes(way: &[u8])
    ensures { AllByRecursion (λ b. b < 256) way.now }
{
    let _ = way.len();
}

/// What the path makes is bytes.
pub(crate) fn makes_bytes(parts: &Parts<'_>, path: &[usize])
    requires path { IsPath parts.now path.now }
    ensures { AllByRecursion (λ b. b < 256) (prefix_of parts.now path.now) }
{
    for at in 0..path.len() {
        are_bytes(parts.way(at, path[at]));
    }
}

/// Whether the path makes a file that reads between two offsets, as its first bytes tell it. `None` comes where these have more than 4,096
/// faulty pieces.
fn told_early(
    begun: BegunReader,
    parts: &Parts<'_>,
    path: &[usize],
    from: u64,
    to: u64,
) -> Result<Option<bool>, AllocError>
    requires begun { IsBegunOn parts.now path.now begun }
    requires path { IsPath parts.now path.now }
    requires few { length (prefix_of parts.now path.now) ≤ 2 ^ 63 - 1 }
    ensures reads { IfOk result (λ told. told ≡ Some true → ReadsBetween from (Some to) (prefix_of parts.now path.now)) }
    ensures unread { IfOk result (λ told. told ≡ Some false → ReadsBetween from (Some to) (prefix_of parts.now path.now) → ⊥) }
{
    prefixes_settle_pieces_under();
    every_copy_has_a_course_under();
    makes_bytes(parts, path);
    let BegunReader {
        mut reader,
        choices,
    } = begun;
    feed_path_until(&mut reader, parts, path, choices, Until::Past(from.max(to)))?;
    told_by(reader, from, Some(to))
}

/// Whether the choices make a file that reads in the group. The kept reader saves it the bytes of its own choices.
pub(crate) fn reads_in_group(
    alloc: Global,
    parts: &Parts<'_>,
    group: Group,
    kept: &Option<KeptReader>,
    path: &[usize],
) -> Result<bool, AllocError>
    requires group { IsGroup parts.now group }
    requires kept { IfSome kept.now (IsKeptReader parts.now) }
    requires path { IsPath parts.now path.now }
    requires few { length (prefix_of parts.now path.now) ≤ 2 ^ 63 - 1 }
    requires whole { length path.now ≡ length parts.now }
    ensures reads { IfOk result (λ answer. answer ≡ true → ReadsInGroup parts.now group path.now) }
    ensures unread { IfOk result (λ answer. answer ≡ false → AllByRecursion (λ b. b < 256) (prefix_of parts.now path.now)
        → ReadsInGroup parts.now group path.now → HasManyFaults (prefix_of parts.now path.now)) }
{
    let from = border_offset(parts, path, group.begin);
    let to = end_offset(parts, path, group.end);
    if let Some(end) = to {
        let begun = begun_on(alloc, kept, path)?;
        if let Some(answer) = told_early(begun, parts, path, from, end)? {
            return Ok(answer);
        }
    }
    let reader = reader_on(alloc, parts, kept, path)?;
    is_read_between(reader, from, to)
}
