//! Readers that are fed what a path makes, as long as a file without a fault may begin with what they were fed.

ghost use Rattle.std.specs.Prelude.{◌≡◌, ◌-◌, ◌^◌, ◌≤◌, Some, length, IfNone, IfOk, IfSome};
ghost use Rattle.jls_diff.specs.PartsOf.{parts_of};
ghost use Rattle.jls_search.specs.Choices.{IsPath, prefix_of};
ghost use Rattle.jls_search.specs.Faultless.{IsDead, IsFaultless};
ghost use Rattle.jls_search.specs.Search.{IsBegunOn, IsKeptReader};

use crate::early::{Until, feed_path_until};
use crate::kept::{BegunReader, KeptReader, begun_on};
use jls_copy::WideReader;
use jls_diff::Parts;
use std::alloc::{AllocError, Global};

/// A reader that was fed what the path makes. It goes on from one that was fed what the first choices make. `None` comes where it was
/// found before that no file without a fault begins so.
pub(crate) fn living_from(
    begun: BegunReader,
    parts: &Parts<'_>,
    path: &[usize],
) -> Result<Option<WideReader>, AllocError>
    requires begun { IsBegunOn parts.now path.now begun }
    requires path { IsPath parts.now path.now }
    requires few { length (prefix_of parts.now path.now) ≤ 2 ^ 63 - 1 }
    ensures living { IfOk result (λ fed. IfSome fed (λ reader. reader ≡ Some (prefix_of parts.now path.now))) }
    ensures dead { IfOk result (λ fed. IfNone fed (IsDead IsFaultless (prefix_of parts.now path.now))) }
{
    let BegunReader {
        mut reader,
        choices,
    } = begun;
    let dead = feed_path_until(&mut reader, parts, path, choices, Until::Dead)?;
    if dead {
        return Ok(None);
    }
    Ok(Some(reader))
}

/// A reader that was fed what the path makes. `None` comes where it was found before that no file without a fault begins so. If the
/// choices of the kept reader begin the path, only the bytes after them are read.
pub(crate) fn living_on(
    alloc: Global,
    parts: &Parts<'_>,
    kept: &Option<KeptReader>,
    path: &[usize],
) -> Result<Option<WideReader>, AllocError>
    requires kept { IfSome kept.now (IsKeptReader parts.now) }
    requires path { IsPath parts.now path.now }
    requires few { length (prefix_of parts.now path.now) ≤ 2 ^ 63 - 1 }
    ensures living { IfOk result (λ fed. IfSome fed (λ reader. reader ≡ Some (prefix_of parts.now path.now))) }
    ensures dead { IfOk result (λ fed. IfNone fed (IsDead IsFaultless (prefix_of parts.now path.now))) }
{
    let begun = begun_on(alloc, kept, path)?;
    living_from(begun, parts, path)
}
